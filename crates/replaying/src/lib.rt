// A replay of a trace, turn by turn: where it stands, and what its window holds. What is looked at, printed and left by
// a turn is with `looking`, `telling` and `turning`.
#![tactic(auto)]

pub mod keep;
pub mod state;
