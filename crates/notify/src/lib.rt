// Notify types: the numbers that are known, what each means to this gateway, and the data that each may carry.
#![tactic(auto)]

pub mod notify;
