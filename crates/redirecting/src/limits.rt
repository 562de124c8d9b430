// The limits of how often a client is redirected, as `specs/Limits.antt` has them.

// How many accepted times are kept.
pub const REDIRECTS_MOST: usize = 5;

// The seconds in which no more are accepted.
pub const PERIOD_SECONDS: u64 = 300;
