// Answers as numbers, for C, and what is shown of them. This crate is mathematics alone: it has no code.
#![tactic(auto)]
