// Blocks of 512 bytes: 128 words of 32 bits, of which the last is a check of the others.
#![tactic(auto)]

pub mod check;
pub mod word;
