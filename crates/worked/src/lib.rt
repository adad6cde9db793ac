// What programs work out of a plan's numbers, and that it is what document 01 says of them. It has no code but the types.
#![tactic(auto)]

pub mod port;
pub mod side;
