// The verdict on an update that is not stale.
#![tactic(auto)]

pub mod update;
