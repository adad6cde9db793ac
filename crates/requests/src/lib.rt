// The check of a request's numbers.
#![tactic(auto)]

pub mod check;
mod tables;
