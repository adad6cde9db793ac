// The two files, as document 01 fixes them, and what is shown of reading, writing, checking and choosing them. It has no code
// but the type of an answer.
#![tactic(auto)]

pub mod request;
