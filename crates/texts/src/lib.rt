// The text of a plan, as document 01 fixes it, and what is shown of it. It has no code but the type of an answer.
#![tactic(auto)]

pub mod list;
