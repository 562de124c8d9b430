// Whole lists of requests in another order: the handler's theorem, with definitions and proofs and no code.
#![tactic(auto)]
