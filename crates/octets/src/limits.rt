// The limits, as `specs/Limits.antt` has them. A contract speaks of those and its code of these, so that a proof fails
// where they differ.

pub const BODY_MOST: usize = 4096;

pub const IKE_PLACES: usize = 32;

pub const IPSEC_PLACES: usize = 128;

pub const PEER_RECORDS_MOST: usize = 4;

pub const OPERATORS: usize = 2;

pub const IKE_SHARE: usize = 20;

pub const IPSEC_SHARE: usize = 80;

pub const ADDRESSES_MOST: usize = 16;

pub const RULES_MOST: usize = 16;

pub const ADDRESS_OCTETS: usize = 16;

pub const IP4_OCTETS: usize = 4;

pub const IP6_OCTETS: usize = 16;

pub const PORT_SIZE: usize = 2;

pub const PAYLOAD_HEADER: usize = 4;

pub const NOTIFY_HEADER: usize = PAYLOAD_HEADER + 4;

pub const NAT_OCTETS: usize = 20;

pub const COOKIE_LEAST: usize = 8;

pub const COOKIE_MOST: usize = 64;

pub const NO_NATS_LEAST: usize = 2 * IP4_OCTETS + 2 * PORT_SIZE;

pub const NO_NATS_MOST: usize = 2 * IP6_OCTETS + 2 * PORT_SIZE;

pub const RESPONSE_ROOM: usize = 2 * (NOTIFY_HEADER + NAT_OCTETS) + (NOTIFY_HEADER + COOKIE_MOST);

pub const REQUEST_ROOM: usize = NOTIFY_HEADER
    + (NOTIFY_HEADER + NO_NATS_MOST)
    + 2 * (NOTIFY_HEADER + NAT_OCTETS)
    + ADDRESSES_MOST * (NOTIFY_HEADER + IP6_OCTETS)
    + (NOTIFY_HEADER + COOKIE_MOST);

pub const TALLY_MOST: u32 = 4294967295;
