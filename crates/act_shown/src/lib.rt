// A record that is shown, once a trace is at its end.
#![tactic(auto)]

ghost use Rattle.acts.specs.Performed.{Performs, ike_shown_by, ipsec_shown_by};

use calling::place_in;
use given::outcome::Outcome;
use given::reading::Slots;
use lent_ike::ike::ike_at;
use lent_ipsec::places::ipsec_at;
use octets::limits::{IKE_PLACES, OPERATORS};
use policy::rules::Policy;
use records::ike::IkeRecord;
use records::ipsec::IpsecRecord;

// The IKE record at the place that the first slot says.
pub fn show_ike(
    ike: &mut [IkeRecord; IKE_PLACES],
    ipsec: &mut [IpsecRecord],
    policies: &mut [Policy; OPERATORS],
    e: Slots,
) -> Outcome
    ensures { let act = ike_shown_by e.slots in
        Performs act ike.old ipsec.old policies.old
        result ike.new ipsec.new policies.new }
{
    Outcome::from(ike_at(ike, place_in(e)))
}

// The IPsec record at the place that the first slot says.
pub fn show_ipsec(
    ike: &mut [IkeRecord; IKE_PLACES],
    ipsec: &mut [IpsecRecord],
    policies: &mut [Policy; OPERATORS],
    e: Slots,
) -> Outcome
    ensures { let act = ipsec_shown_by e.slots in
        Performs act ike.old ipsec.old policies.old
        result ike.new ipsec.new policies.new }
{
    Outcome::from(ipsec_at(ipsec, place_in(e)))
}
