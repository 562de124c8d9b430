// What a replay starts with: empty tables, policies with no rule, and buffers.
#![tactic(auto)]

ghost use Rattle.std.specs.Prelude.{◌≡◌, ◌≤◌, length, replicate};
ghost use Rattle.octets.specs.Limits.{ike_places, ipsec_places, operators};
ghost use Rattle.policy.specs.Policy.{no_policy};
ghost use Rattle.records.specs.Records.{no_ike, no_ipsec};
ghost use Rattle.entry_laws.specs.Sight.{entry_sight};

use octets::limits::{IKE_PLACES, IPSEC_PLACES, OPERATORS, RESPONSE_ROOM};
use policy::rules::Policy;
use records::ike::IkeRecord;
use records::ipsec::IpsecRecord;

// The octets of the window: as many as decide any entry fit.
pub const WINDOW: usize = 20480;

pub fn no_ikes() -> [IkeRecord; IKE_PLACES]
    ensures { result ≡ replicate ike_places no_ike }
{
    [IkeRecord::none(); IKE_PLACES]
}

pub fn no_ipsecs() -> [IpsecRecord; IPSEC_PLACES]
    ensures { result ≡ replicate ipsec_places no_ipsec }
{
    [IpsecRecord::none(); IPSEC_PLACES]
}

pub fn no_policies() -> [Policy; OPERATORS]
    ensures { result ≡ replicate operators no_policy }
{
    [Policy::none(); OPERATORS]
}

pub fn no_window() -> [u8; WINDOW]
    ensures { entry_sight ≤ length result }
{
    [0u8; WINDOW]
}

pub fn no_response() -> [u8; RESPONSE_ROOM] {
    [0u8; RESPONSE_ROOM]
}
