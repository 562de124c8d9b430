// What a decision on a REDIRECT goes by beside the data: the exchange that it came in, and the times of those accepted
// before.
#![tactic(auto)]

pub mod exchange;
pub mod limits;
pub mod times;
