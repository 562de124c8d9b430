// Laws of every field: both round trips, and how much of a buffer decides. Proofs and no code.
#![tactic(auto)]
