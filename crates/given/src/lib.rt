// What the slots of an entry point to, its rules, and what of a call's answer is printed.
#![tactic(auto)]

pub mod outcome;
pub mod reading;
pub mod rules;
