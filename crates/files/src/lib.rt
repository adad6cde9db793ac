// Files made of blocks: reading and writing them, judging them, and refusing what breaks the rules.
#![tactic(auto)]

pub mod check;
pub mod choose;
mod format;
mod layout;
pub mod plan;
mod read;
pub mod request;
mod rows;
