// What one operator sees of a change to the tables that two share: definitions and proofs, no code.
#![tactic(auto)]
