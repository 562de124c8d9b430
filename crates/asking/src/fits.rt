// Check 1 of the request writer: each argument that is asked for fits, and the others aren't looked at.
ghost use Rattle.std.specs.Prelude.{◌≡◌, ◌≤◌};
ghost use Rattle.octets.specs.Limits.{addresses_most};
ghost use Rattle.octets.specs.Lists.{all_below};
ghost use Rattle.address.specs.Address.{families_of, octets_of};
ghost use Rattle.asking.specs.Fits.{listed_fits, count_fits, nats_fit, cookie_fits, request_fits};
ghost use Rattle.asking.specs.Wanted.{draft_of};

use crate::ask::{Ask, Wanted};
use address::address::Address;
use octets::limits::{ADDRESSES_MOST, COOKIE_LEAST, COOKIE_MOST, NAT_OCTETS};

impl Ask {
    // As many addresses as there may be, and none with NO_ADDITIONAL_ADDRESSES.
    pub fn count_fits(self) -> bool
        ensures { result ≡ count_fits self }
    {
        self.count as usize <= ADDRESSES_MOST && (!self.no_additional || self.count == 0)
    }

    // Both NAT detection values, each of its length, or neither.
    pub fn nats_fit(self, source_length: usize, destination_length: usize) -> bool
        ensures { result ≡ nats_fit self source_length destination_length }
    {
        if self.nat_source {
            self.nat_destination && source_length == NAT_OCTETS && destination_length == NAT_OCTETS
        } else {
            !self.nat_destination
        }
    }
}

// Whether each of the first n addresses is one of its family.
pub fn addresses_fit(addresses: &[Address; ADDRESSES_MOST], n: usize) -> bool
    requires { n ≤ addresses_most }
    ensures { let families = families_of addresses.now in
        let octets = octets_of addresses.now in
        result ≡ all_below (listed_fits families octets) n }
{
    addresses[..n].iter().all(|address| address.fits())
}

// Whether a cookie of n octets may be sent; 0 octets mean that none is.
#[tactic(auto, unfolding(crate::specs::Fits::cookie_fits))]
pub fn cookie_fits(n: usize) -> bool
    ensures { result ≡ cookie_fits n }
{
    n == 0 || (COOKIE_LEAST <= n && n <= COOKIE_MOST)
}

impl Wanted<'_> {
    #[tactic(auto, unfolding(crate::specs::Fits::request_fits))]
    pub fn fits(self) -> bool
        ensures { result ≡ request_fits (draft_of self.entry) }
    {
        self.ask.count_fits()
            && self
                .ask
                .nats_fit(self.nat_source.len(), self.nat_destination.len())
            && (!self.ask.no_nats || self.pair.fits())
            && addresses_fit(self.addresses, self.ask.count as usize)
            && cookie_fits(self.cookie.len())
    }
}
