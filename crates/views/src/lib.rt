// Laws of the view of the tables by SPI: calls of two IKE SAs do not see each other; no code.
#![tactic(auto)]
