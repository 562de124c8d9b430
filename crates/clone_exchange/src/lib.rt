// The notifications of a clone written and read again: both round trips in the clone's reading, with definitions and
// proofs and no code.
#![tactic(auto)]
