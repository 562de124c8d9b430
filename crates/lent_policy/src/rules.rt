// The lent policies, set and asked.
ghost use Rattle.std.specs.Prelude.{◌≡◌, ◌≢◌, ◌&&◌, IfErr};
ghost use Rattle.octets.specs.Numbers.{number_of, told};
ghost use Rattle.policy.specs.Policy.{acceptable, policy_of, set_policy};

use address::pair::Pair;
use octets::limits::{OPERATORS, RULES_MOST};
use octets::number::Number;
use policy::rules::{Policy, Rule, policy_number};
use walks::store;

// Sets an operator's whole policy, or refuses and leaves it. The other's stays. No refusal is told as done.
pub fn set_policy(
    policies: &mut [Policy; OPERATORS],
    count: u16,
    rules: &[Rule; RULES_MOST],
    operator: u8,
) -> Result<(), Number>
    ensures value { let set = set_policy policies.old count rules.now operator in
        (told result ≡ set.number) × (policies.new ≡ set.policies) }
    ensures refused { IfErr result (λ number. number_of number ≢ 0) }
{
    policy_number(count as usize, rules, operator)?;
    store(policies, operator as usize, Policy::new(count, rules));
    Ok(())
}

// Whether it is asked, and some rule of the policy at the place accepts the pair; past the end none does. Both policies
// are lent, and the one is read where it lies. (Whether it is asked stands in the fact that `host_request` uses whole.)
#[tactic(auto, using(crate::proofs::Past::past_end))]
pub fn accepts_if(policies: &[Policy; OPERATORS], place: usize, asked: bool, pair: Pair) -> bool
    ensures { result ≡ (asked && acceptable (policy_of policies.now place) pair) }
{
    asked && place < OPERATORS && policies[place].accepts(&pair)
}
