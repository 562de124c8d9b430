// Whose the records of the lent tables are, and how many of them are an operator's.
#![tactic(auto)]

pub mod shares;
