// The IPsec records of an owner in the lent list, closed with it, or closed or moved as its check ended.
#![tactic(auto)]

pub mod closed;
pub mod ended;
