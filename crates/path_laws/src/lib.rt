// Laws of paths: the path that is chosen, what a refusal leaves, that calls on lent columns are calls on the paths they
// stand for, and that from a start on both numbers stay between 0 and 60,000. Proofs and no code.
#![tactic(auto)]
