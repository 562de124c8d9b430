// The numbers that a request can be given back, and what comes with each, with definitions and proofs and no code.
#![tactic(auto)]
