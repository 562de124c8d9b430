// Which gateway identities and nonces have a size that is allowed.
ghost use Rattle.std.specs.Prelude.{◌≡◌};
ghost use Rattle.redirect.specs.Gateway.{may_be_named};
ghost use Rattle.redirect.specs.Identity.{identity_fits, nonce_fits, no_nonce_or};

use crate::gateway::Notification;
use crate::wire::{
    FQDN_IDENTITY, FQDN_LEAST, FQDN_MOST, IP4_IDENTITY, IP6_IDENTITY, NONCE_LEAST, NONCE_MOST,
};
use octets::limits::{IP4_OCTETS, IP6_OCTETS};

// Whether an identity of this type may have this size in a notification.
// (The type is an octet as it is read, told and written; an enum would be made for this one `match`.)
#[tactic(auto, unfolding(crate::specs::Identity::identity_fits))]
pub fn identity_fits(notification: Notification, identity_type: u8, size: usize) -> bool
    ensures { result ≡ identity_fits (may_be_named notification) identity_type size }
{
    match identity_type {
        IP4_IDENTITY => size == IP4_OCTETS,
        IP6_IDENTITY => size == IP6_OCTETS,
        FQDN_IDENTITY => {
            notification == Notification::Redirect && FQDN_LEAST <= size && size <= FQDN_MOST
        }
        _ => false,
    }
}

// Whether a nonce may have this size.
#[tactic(auto, unfolding(crate::specs::Identity::nonce_fits))]
pub fn nonce_fits(size: usize) -> bool
    ensures { result ≡ nonce_fits size }
{
    NONCE_LEAST <= size && size <= NONCE_MOST
}

// Whether a nonce to write may have this size, where 0 is none.
#[tactic(auto, unfolding(crate::specs::Identity::no_nonce_or))]
pub fn no_nonce_or(size: usize) -> bool
    ensures { result ≡ no_nonce_or size }
{
    size == 0 || nonce_fits(size)
}
