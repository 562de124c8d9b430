// Checks 1 to 5 of a request, by what was looked up for it.
#![tactic(auto)]

pub mod check;
pub mod lookup;
