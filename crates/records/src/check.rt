// The return routability check that an IKE record keeps while it is under way (RFC 4555, 3.7).
ghost use Rattle.std.specs.Prelude.{◌≡◌, length};
ghost use Rattle.records.specs.Pending.{cookie_sized, no_check, check_of, is_pending};

use octets::limits::{COOKIE_LEAST, COOKIE_MOST};

// The cookie that our request carries, zeros behind it, and the message ID of that request. All 0 is none.
#[repr(C)]
#[derive(Clone, Copy, Default)]
pub struct PendingCheck {
    pub length: u8,
    pub octets: [u8; COOKIE_MOST],
    pub id: u32,
}

// Whether a cookie may have this length.
pub fn cookie_sized(n: usize) -> bool
    ensures { result ≡ cookie_sized n }
{
    COOKIE_LEAST <= n && n <= COOKIE_MOST
}

impl PendingCheck {
    #[tactic(auto, using(crate::proofs::Zeros::check_zero))]
    pub fn none() -> PendingCheck
        ensures { result ≡ no_check }
    {
        PendingCheck::default()
    }

    // The check that a request of ours with this cookie and ID makes; none with a cookie that cannot be sent.
    #[tactic(auto, unfolding(crate::specs::Pending::check_of))]
    pub fn of(cookie: &[u8], id: u32) -> PendingCheck
        ensures { result ≡ check_of cookie.now id }
    {
        let n = cookie.len();
        if !cookie_sized(n) {
            return PendingCheck::none();
        }
        let mut octets = [0u8; COOKIE_MOST];
        octets[..n].copy_from_slice(cookie);
        PendingCheck {
            length: n as u8,
            octets,
            id,
        }
    }

    pub fn is_pending(self) -> bool
        ensures { result ≡ is_pending self }
    {
        cookie_sized(self.length as usize)
    }
}
