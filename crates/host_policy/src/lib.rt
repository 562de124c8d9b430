// The calls that set an operator's policy and ask it. The policies are lent; a refusal changes nothing.
#![tactic(auto)]

ghost use Rattle.std.specs.Prelude.{◌≡◌};
ghost use Rattle.policy.specs.Policy.{acceptable, policy_of, set_policy};

use address::pair::Pair;
use lent_policy::rules::{accepts_if, set_policy};
use octets::limits::{OPERATORS, RULES_MOST};
use octets::number::told;
use policy::rules::{Policy, Rule};

// Sets an operator's whole policy, or refuses and leaves it. The other's stays.
pub fn unmavreth_set_policy(
    policies: &mut [Policy; OPERATORS],
    count: u16,
    rules: &[Rule; RULES_MOST],
    operator: u8,
) -> u8
    ensures { let set = set_policy policies.old count rules.now operator in
        (result ≡ set.number) × (policies.new ≡ set.policies) }
{
    told(set_policy(policies, count, rules, operator))
}

// Whether some rule of the operator's policy accepts the pair. Whoever is no operator has no rules.
pub fn unmavreth_acceptable(policies: &[Policy; OPERATORS], pair: Pair, operator: u8) -> bool
    ensures { result ≡ acceptable (policy_of policies.now operator) pair }
{
    accepts_if(policies, operator as usize, true, pair)
}
