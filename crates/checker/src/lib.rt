// The checker: judges anybody's plan for a request, as values.
#![tactic(auto)]

pub mod format;
mod found;
pub mod judge;
pub mod rates;
mod side;
