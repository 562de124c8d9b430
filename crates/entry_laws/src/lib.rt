// Laws of entries: both round trips, and how much of a trace decides one. Definitions and proofs and no code.
#![tactic(auto)]
