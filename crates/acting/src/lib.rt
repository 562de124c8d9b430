// Whatever is asked of the tables: an entry's call, by its kind, or a record to be shown.
#![tactic(auto)]

ghost use Rattle.std.specs.Prelude.{length};
ghost use Rattle.acts.specs.Performed.{Performs, performed};

use act_check::check_entry;
use act_clone::clone_entry;
use act_policy::policy_entry;
use act_request::request_entry;
use act_shown::{show_ike, show_ipsec};
use act_tables::{add_entry, close_child_entry, close_entry, mark_entry, open_entry};
use entries::kind::Kind;
use given::outcome::Outcome;
use given::reading::{Asked, Slots};
use octets::limits::{IKE_PLACES, OPERATORS};
use policy::rules::Policy;
use records::ike::IkeRecord;
use records::ipsec::IpsecRecord;

// Makes the call of an entry, or shows a record. The tables are three parameters, here and in each act: a list of IPsec
// records of any length may be lent, and a struct of the tables would ask for one length.
pub fn perform(
    ike: &mut [IkeRecord; IKE_PLACES],
    ipsec: &mut [IpsecRecord],
    policies: &mut [Policy; OPERATORS],
    window: &[u8],
    e: Slots,
    out: &mut [u8],
) -> Outcome
    ensures { let act = performed e.asked window.now e.slots (length out.old) in
        Performs act ike.old ipsec.old policies.old
        result ike.new ipsec.new policies.new }
{
    match e.asked {
        Asked::Entry(Kind::OpenBoth) => open_entry(ike, ipsec, policies, window, e),
        Asked::Entry(Kind::AddIpsec) => add_entry(ike, ipsec, policies, e),
        Asked::Entry(Kind::CloseIke) => close_entry(ike, ipsec, policies, e),
        Asked::Entry(Kind::CloseIpsec) => close_child_entry(ike, ipsec, policies, e),
        Asked::Entry(Kind::Request) => request_entry(ike, ipsec, policies, window, e, out),
        Asked::Entry(Kind::Policy) => policy_entry(ike, ipsec, policies, window, e),
        Asked::Entry(Kind::CheckResponse) => check_entry(ike, ipsec, policies, window, e),
        Asked::Entry(Kind::Clone) => clone_entry(ike, ipsec, policies, window, e, out),
        Asked::Entry(Kind::MarkDeletion) => mark_entry(ike, ipsec, policies, e),
        Asked::ShowIke => show_ike(ike, ipsec, policies, e),
        Asked::ShowIpsec => show_ipsec(ike, ipsec, policies, e),
    }
}
