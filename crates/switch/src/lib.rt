// What a switch is: its ports and cells, requests and plans, refusals and verdicts.
#![tactic(auto)]

pub mod entry;
pub mod plan;
pub mod port;
pub mod request;
pub mod verdict;
