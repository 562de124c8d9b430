// Two operators on one gateway: what their calls keep of each other's, with definitions and proofs and no code.
#![tactic(auto)]
