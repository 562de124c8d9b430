// The notify types, identity types and sizes, as `specs/Wire.antt` has them.

pub const REDIRECT_SUPPORTED: u16 = 16406;

pub const REDIRECT: u16 = 16407;

pub const REDIRECTED_FROM: u16 = 16408;

pub const IP4_IDENTITY: u8 = 1;

pub const IP6_IDENTITY: u8 = 2;

pub const FQDN_IDENTITY: u8 = 3;

pub const FQDN_LEAST: usize = 1;

pub const FQDN_MOST: usize = 255;

pub const NONCE_LEAST: usize = 16;

pub const NONCE_MOST: usize = 256;

// What stands before the identity: its type and its length.
pub const IDENTITY_HEADER: usize = 2;

// The least output that is written to, whatever is written.
pub const REDIRECT_ROOM: usize = IDENTITY_HEADER + FQDN_MOST + NONCE_MOST;
