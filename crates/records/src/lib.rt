// IKE and IPsec records: new ones, closed ones, and how one is changed.
#![tactic(auto)]

pub mod check;
pub mod ike;
pub mod ipsec;
