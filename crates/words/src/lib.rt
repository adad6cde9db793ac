// Words, and the running check of a block. This crate is mathematics alone: it has no code.
#![tactic(auto)]
