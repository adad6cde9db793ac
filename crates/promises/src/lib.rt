// What the user was promised, as theorems about the definitions by which the public calls answer. This crate is mathematics alone: it has no code.
// specs/Lib.antt says where each section of document 01 stands.
#![tactic(auto)]
