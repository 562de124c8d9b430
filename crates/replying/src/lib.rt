// What is told of a request, and what it changes in its record.
#![tactic(auto)]

pub mod change;
pub mod reply;
