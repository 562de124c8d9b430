// The tables that calls reach from empty ones, and what holds of all of them, with definitions and proofs and no code.
#![tactic(auto)]
