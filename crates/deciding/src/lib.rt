// The decision on one record, by its marks.
#![tactic(auto)]

pub mod decide;
