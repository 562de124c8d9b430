// The lent IKE table: thin functions over the records that a host lends.
#![tactic(auto)]

pub mod ike;
