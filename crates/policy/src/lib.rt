// The address policy: which address pairs an update may move a record to.
#![tactic(auto)]

pub mod rules;
