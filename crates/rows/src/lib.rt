// The rows of the requirements, with definitions and proofs and no code.
#![tactic(auto)]
