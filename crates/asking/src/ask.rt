// What a host asks a request to carry, what that means, and all that it is made of.
ghost use Rattle.asking.specs.Ask.{ask_of, clone_ask_of};
ghost use Rattle.std.specs.Prelude.{◌≡◌};

use address::address::Address;
use address::pair::Pair;
use octets::flag::is_yes;
use octets::limits::ADDRESSES_MOST;

// Which notifications, and how many of the additional addresses.
#[derive(Clone, Copy, Default, PartialEq, Eq, Debug)]
pub struct Ask {
    pub update: bool,
    pub no_nats: bool,
    pub nat_source: bool,
    pub nat_destination: bool,
    pub no_additional: bool,
    pub count: u16,
}

// Which of the two notifications of a clone (RFC 7791): CLONE_IKE_SA_SUPPORTED, CLONE_IKE_SA.
#[derive(Clone, Copy, Default, PartialEq, Eq, Debug)]
pub struct CloneAsk {
    pub supported: bool,
    pub clone: bool,
}

// The same as a host gives it: yes or no is an octet.
#[repr(C)]
#[derive(Clone, Copy)]
pub struct AskOctets {
    pub update: u8,
    pub no_nats: u8,
    pub nat_source: u8,
    pub nat_destination: u8,
    pub no_additional: u8,
    pub count: u16,
    pub clone_supported: u8,
    pub clone: u8,
}

impl From<AskOctets> for Ask {
    ghost from_gives = { λ given r. r ≡ ask_of given };

    fn from(given: AskOctets) -> Ask {
        Ask {
            update: is_yes(given.update),
            no_nats: is_yes(given.no_nats),
            nat_source: is_yes(given.nat_source),
            nat_destination: is_yes(given.nat_destination),
            no_additional: is_yes(given.no_additional),
            count: given.count,
        }
    }
}

impl From<AskOctets> for CloneAsk {
    ghost from_gives = { λ given r. r ≡ clone_ask_of given };

    fn from(given: AskOctets) -> CloneAsk {
        CloneAsk {
            supported: is_yes(given.clone_supported),
            clone: is_yes(given.clone),
        }
    }
}

// All that the writer is given but the output: what is asked for, and what each notification is made of. Of the
// addresses the first `ask.count` are asked for.
#[derive(Clone, Copy)]
pub struct Wanted<'a> {
    pub ask: Ask,
    pub pair: Pair,
    pub addresses: &'a [Address; ADDRESSES_MOST],
    pub nat_source: &'a [u8],
    pub nat_destination: &'a [u8],
    pub cookie: &'a [u8],
}
