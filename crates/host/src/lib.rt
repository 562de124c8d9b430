// The calls that a host links and that change no table: each hands its arguments to a proved function and gives back
// what that says. Those on lent tables and policies are crates of their own, `host_*`; `unmavreth_c` exports them all to C.
#![tactic(auto)]

pub mod chain;
pub mod redirects;
pub mod responses;
pub mod trace;
pub mod version;
pub mod writer;
