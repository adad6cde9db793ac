// What a plan's numbers say of its ports and flows, and the way to its least base.
#![tactic(auto)]

pub mod arithmetic;
pub mod divisor;
pub mod port;
pub mod reason;
