// Entries of a trace: their kinds, and how many slots one has.
#![tactic(auto)]

pub mod kind;

// How many slots are lent for an entry: as many as the widest kind has, a policy.
pub const ENTRY_SLOTS: usize = 82;
