// One request by the marks of the record that it means: what it is answered, and what it changes.
#![tactic(auto)]

pub mod core_answer;
pub mod request;
