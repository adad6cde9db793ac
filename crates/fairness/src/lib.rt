// The theory of max-min fairness over a list of limits. This crate is mathematics alone: it has no code.
#![tactic(auto)]
