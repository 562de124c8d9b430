// The numbers that a clone request can be given back, and what comes with each, with definitions and proofs and no code.
#![tactic(auto)]
