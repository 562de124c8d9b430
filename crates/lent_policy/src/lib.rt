// The lent policies and rules.
#![tactic(auto)]

pub mod rules;
