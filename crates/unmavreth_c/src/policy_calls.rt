// An operator's policy, set and asked, for C.
ghost use Rattle.std.specs.Prelude.{◌≡◌};
ghost use Rattle.policy.specs.Policy.{acceptable, policy_of, set_policy};

use address::pair::Pair;
use octets::limits::{OPERATORS, RULES_MOST};
use policy::rules::{Policy, Rule};

// Sets an operator's whole policy, or refuses and leaves it. The other's stays.
#[unsafe(no_mangle)]
pub extern "C" fn unmavreth_set_policy(
    policies: &mut [Policy; OPERATORS],
    count: u16,
    rules: &[Rule; RULES_MOST],
    operator: u8,
) -> u8
    ensures { let set = set_policy policies.old count rules.now operator in
        (result ≡ set.number) × (policies.new ≡ set.policies) }
{
    host_policy::unmavreth_set_policy(policies, count, rules, operator)
}

// Whether some rule of the operator's policy accepts the pair. Whoever is no operator has no rules.
#[unsafe(no_mangle)]
pub extern "C" fn unmavreth_acceptable(
    policies: &[Policy; OPERATORS],
    pair: Pair,
    operator: u8,
) -> bool
    ensures { result ≡ acceptable (policy_of policies.now operator) pair }
{
    host_policy::unmavreth_acceptable(policies, pair, operator)
}
