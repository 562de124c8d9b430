// The entry that sets an operator's policy.
#![tactic(auto)]

ghost use Rattle.acts.specs.Performed.{Performs, policy_set_by};

use given::outcome::Outcome;
use given::reading::Slots;
use lent_policy::rules::set_policy;
use octets::limits::{IKE_PLACES, OPERATORS};
use octets::number::told;
use policy::rules::Policy;
use records::ike::IkeRecord;
use records::ipsec::IpsecRecord;

// Sets the whole policy of the entry's operator, or leaves both.
pub fn policy_entry(
    ike: &mut [IkeRecord; IKE_PLACES],
    ipsec: &mut [IpsecRecord],
    policies: &mut [Policy; OPERATORS],
    window: &[u8],
    e: Slots,
) -> Outcome
    ensures { let act = policy_set_by window.now e.slots in
        Performs act ike.old ipsec.old policies.old
        result ike.new ipsec.new policies.new }
{
    let rules = e.rules(window);
    let set = set_policy(policies, e.rule_count(), &rules, e.policy_operator());
    Outcome::numbered(told(set))
}
