// What a replay of a trace is, and that the program's turns are it: definitions and a theorem only.
#![tactic(auto)]
