// Requests written and read again, and answered: the round trips and the exchange's theorem, with definitions and
// proofs and no code.
#![tactic(auto)]
