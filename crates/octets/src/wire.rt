// The payload types and the critical bit, as `specs/Wire.antt` has them. Notify types are constants of their type, in
// `notify::notify`.

pub const NOTIFY_PAYLOAD: u8 = 41;

pub const FIRST_KNOWN_PAYLOAD: u8 = 33;

pub const LAST_KNOWN_PAYLOAD: u8 = 48;

pub const CRITICAL_BIT: u8 = 128;
