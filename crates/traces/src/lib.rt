// Whole traces: what reading one comes to, and both round trips. Definitions and proofs and no code.
#![tactic(auto)]
