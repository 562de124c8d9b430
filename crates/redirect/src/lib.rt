// The notifications that move a client to another gateway (RFC 5685), REDIRECT, REDIRECTED_FROM and REDIRECT_SUPPORTED:
// their numbers and sizes, which identities and nonces fit, and what is told of their data.
#![tactic(auto)]

pub mod gateway;
pub mod identity;
pub mod wire;
