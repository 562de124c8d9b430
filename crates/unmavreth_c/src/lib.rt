// The calls that a host links, by their names in C: each hands its arguments to the function of that name in the crate
// `host` or `host_*`, whose clauses it states again.
#![tactic(auto)]

mod chain_calls;
mod check_calls;
mod clone_calls;
mod ike_calls;
mod ipsec_calls;
mod policy_calls;
mod redirect_calls;
mod request_calls;
mod response_calls;
mod trace_calls;
mod version_calls;
mod writer_calls;
