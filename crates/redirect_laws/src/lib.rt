// Laws of redirects: both round trips of their data, what a decision tells, and that no sixth is accepted inside 300
// seconds. Proofs and no code.
#![tactic(auto)]
