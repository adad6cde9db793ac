// The calls for programs in C, on numbers and rows of bytes. `export_c` exports them, and include/rate_plan.h declares them
// there; in this library the marks of an export only say what they are for.
#![tactic(auto)]

pub mod calls;
mod code;
