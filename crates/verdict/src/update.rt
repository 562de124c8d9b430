// What an update that is not stale comes to, by NO_NATS_ALLOWED beside it and by whether the policy accepts its pair.
ghost use Rattle.std.specs.Prelude.{◌≡◌, ◌&&◌};
ghost use Rattle.octets.specs.Limits.{address_octets};
ghost use Rattle.octets.specs.Lists.{same_octets};
ghost use Rattle.values.specs.Values.{no_nats_seen};
ghost use Rattle.verdict.specs.Verdict.{verdict_told, is_accepted, unaltered, verdict};

use address::pair::Pair;
use findings::seen::Seen;
use octets::number::Number;
use values::{NoNats, no_nats_at};

// It is applied, was altered on the way, or is not acceptable. No Result of two refusals, since the definitions and
// theorems on requests (`verdict`, `response_to`, `update_decided`) go by these three.
#[derive(Clone, Copy, PartialEq, Eq)]
pub enum Verdict {
    Accepted,
    Altered,
    Unacceptable,
}

impl Verdict {
    // The number that it is told with.
    pub fn told(self) -> Number
        ensures { result ≡ verdict_told self }
    {
        match self {
            Verdict::Accepted => Number::Done,
            Verdict::Altered => Number::AddressesAltered,
            Verdict::Unacceptable => Number::NotAcceptable,
        }
    }

    pub fn is_accepted(self) -> bool
        ensures { result ≡ is_accepted self }
    {
        matches!(self, Verdict::Accepted)
    }
}

// Whether both addresses are the pair's: apart from `is_unaltered`, whose other tests would hide the step from `==`.
#[tactic(auto, using(octets::proofs::Same::same_from_eq))]
fn addresses_alike(n: NoNats, pair: Pair) -> bool
    ensures { let source = same_octets address_octets n.source pair.source in
        result ≡ (source && same_octets address_octets n.destination pair.destination) }
{
    n.source == pair.source && n.destination == pair.destination
}

// Whether NO_NATS_ALLOWED, if it was there, holds the packet's addresses and ports.
#[tactic(auto, unfolding(crate::specs::Verdict::unaltered))]
pub fn is_unaltered(n: NoNats, pair: Pair) -> bool
    ensures { result ≡ unaltered n pair }
{
    n.family == 0
        || (n.family == pair.family
            && n.source_port == pair.source_port
            && n.destination_port == pair.destination_port
            && addresses_alike(n, pair))
}

// The verdict, given what NO_NATS_ALLOWED holds.
#[tactic(auto, unfolding(crate::specs::Verdict::verdict))]
pub fn verdict_on(accepted: bool, n: NoNats, pair: Pair) -> Verdict
    ensures { result ≡ verdict accepted n pair }
{
    if !is_unaltered(n, pair) {
        Verdict::Altered
    } else if !accepted {
        Verdict::Unacceptable
    } else {
        Verdict::Accepted
    }
}

// The same on what was seen in a body: only here NO_NATS_ALLOWED is looked at.
pub fn verdict_seen(accepted: bool, body: &[u8], seen: Seen, pair: Pair) -> Verdict
    ensures { result ≡ verdict accepted (no_nats_seen body.now seen) pair }
{
    let allowed = no_nats_at(body, seen.no_nats, seen.no_nats_len);
    verdict_on(accepted, allowed, pair)
}
