// Laws that no subject owns: decisions, searches, lists made by a rule. This crate is mathematics alone: it has no code.
#![tactic(auto)]
