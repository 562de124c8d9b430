// What a request is asked to carry, check 1 of the request writer, and the data that is put together for it.
#![tactic(auto)]

pub mod ask;
pub mod fits;
pub mod no_nats;
