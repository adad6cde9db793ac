// The text of a plan, into a lent buffer.
#![tactic(auto)]

mod lines;
pub mod list;
mod text;
