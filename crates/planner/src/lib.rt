// Turns a request into its plan.
#![tactic(auto)]

mod fill;
mod filling;
mod flows;
mod happen;
mod level;
mod limits;
mod lowest;
pub mod plan;
mod rates;
mod shut;
mod stage;
mod start;
mod stop;
mod tables;
