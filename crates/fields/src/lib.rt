// Fields of a trace, whatever the entries: what a table of fields is, and what reading and writing one come to. The
// values are numbers in lent slots; addresses and strings stay where they are.
#![tactic(auto)]

pub mod field_type;
pub mod lent_values;
pub mod listed;
pub mod refusal;
pub mod room;
