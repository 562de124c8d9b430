// A clone request (RFC 7791): its definitions and what holds of them; `clone_checks` decides it, `clone_answers` writes
// the response and the record.
#![tactic(auto)]

pub mod clone;
