// What an entry of a trace comes to on lent tables: the definitions that each act is held to, and what the walks of the
// acts share; no code.
#![tactic(auto)]
