// Which of up to eight paths (address pairs) is quicker: one path's round trips smoothed as in RFC 6298, and the choice.
#![tactic(auto)]

pub mod choice;
pub mod columns;
pub mod limits;
pub mod path;
pub mod refusal;
