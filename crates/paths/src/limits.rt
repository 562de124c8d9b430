// The limits of what is kept of paths, as `specs/Limits.antt` has them.

// How many paths there are at most.
pub const PATHS_MOST: usize = 8;

// The longest round trip or wait, in milliseconds.
pub const MILLISECONDS_MOST: u32 = 60_000;
