// The lent list of IPsec records: the lowest place with an SPI, and a record stored at a place.
#![tactic(auto)]

pub mod places;
