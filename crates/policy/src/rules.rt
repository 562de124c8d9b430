// The policy's rules: checked as a whole when they are set, and each asked for a pair.
ghost use Rattle.std.specs.Prelude.{◌≡◌, ◌≢◌, ◌≤◌, IfErr, OnOk};
ghost use Rattle.octets.specs.Checks.{first_failed};
ghost use Rattle.octets.specs.Limits.{rules_most};
ghost use Rattle.octets.specs.Lists.{all};
ghost use Rattle.octets.specs.Numbers.{told, number_of};
ghost use Rattle.policy.specs.Policy.{rule_fits, lengths_fit, rule_matches, acceptable};
ghost use Rattle.policy.specs.Policy.{no_rule, no_policy, new_policy, policy_checks};

use address::address::{both_fit, width_of};
use address::pair::Pair;
use octets::limits::{ADDRESS_OCTETS, RULES_MOST};
use octets::number::Number;
use octets::operator::not_operator;
use prefix::prefix::prefix_matches;

#[repr(C)]
#[derive(Clone, Copy, Default)]
pub struct Rule {
    pub family: u8,
    pub source: [u8; ADDRESS_OCTETS],
    pub destination: [u8; ADDRESS_OCTETS],
    pub source_len: u8,
    pub destination_len: u8,
}

impl Rule {
    // A place that holds no rule.
    #[tactic(auto, using(crate::proofs::Zeros::rule_zero))]
    pub fn none() -> Rule
        ensures { result ≡ no_rule }
    {
        Rule::default()
    }

    // Whether both prefixes are addresses of the rule's family.
    pub fn fits(&self) -> bool
        ensures { result ≡ rule_fits self.now }
    {
        both_fit(self.family, self.source, self.destination)
    }

    // Whether both lengths are at most the bits that an address of the family has.
    pub fn lengths_fit(&self) -> bool
        ensures { result ≡ lengths_fit self.now }
    {
        let bits = width_of(self.family) * 8;
        self.source_len as u16 <= bits && self.destination_len as u16 <= bits
    }

    // Whether the rule accepts a pair: one rule must match both addresses. Of the two families, which are one then, the
    // pair's is asked what it is, once for all rules.
    #[tactic(auto, unfolding(crate::specs::Policy::rule_matches))]
    pub fn matches(&self, pair: &Pair) -> bool
        ensures { result ≡ rule_matches self.now pair.now }
    {
        self.family == pair.family
            && width_of(pair.family) != 0
            && self.lengths_fit()
            && prefix_matches(self.source, self.source_len, pair.source)
            && prefix_matches(self.destination, self.destination_len, pair.destination)
    }
}

#[repr(C)]
#[derive(Clone, Copy)]
pub struct Policy {
    pub count: u16,
    pub rules: [Rule; RULES_MOST],
}

impl Policy {
    // A policy with no rules.
    pub fn none() -> Policy
        ensures { result ≡ no_policy }
    {
        Policy {
            count: 0,
            rules: [Rule::none(); RULES_MOST],
        }
    }

    // A policy as it is set: the first `count` rules, and nothing in the places after them.
    pub fn new(count: u16, rules: &[Rule; RULES_MOST]) -> Policy
        requires { count ≤ rules_most }
        ensures { result ≡ new_policy count rules.now }
    {
        let n = count as usize;
        let mut kept = [Rule::none(); RULES_MOST];
        kept[..n].copy_from_slice(&rules[..n]);
        Policy { count, rules: kept }
    }

    // Whether some rule accepts the pair. The rules are read where they lie.
    #[tactic(auto, unfolding(crate::specs::Policy::acceptable))]
    pub fn accepts(&self, pair: &Pair) -> bool
        ensures { result ≡ acceptable self.now pair.now }
    {
        self.rules
            .iter()
            .take(self.count as usize)
            .any(|r| r.matches(pair))
    }
}

// Whether each rule's addresses are of its family.
pub fn all_fit(rules: &[Rule]) -> bool
    ensures { result ≡ all rule_fits rules.now }
{
    rules.iter().all(|r| r.fits())
}

// Whether each rule's lengths fit.
pub fn all_lengths_fit(rules: &[Rule]) -> bool
    ensures { result ≡ all lengths_fit rules.now }
{
    rules.iter().all(|r| r.lengths_fit())
}

// Whether these rules may be set, and the number if not: each test is made of the whole list before the next.
pub fn policy_number(n: usize, rules: &[Rule; RULES_MOST], operator: u8) -> Result<(), Number>
    ensures as_listed { told result ≡ first_failed (policy_checks n rules.now operator) }
    ensures fits { OnOk result (n ≤ rules_most) }
    ensures refuses { IfErr result (λ e. number_of e ≢ 0) }
{
    if RULES_MOST < n {
        return Err(Number::BadPolicy);
    }
    if not_operator(operator) || !all_fit(&rules[..n]) {
        return Err(Number::BadArgument);
    }
    if !all_lengths_fit(&rules[..n]) {
        return Err(Number::BadPolicy);
    }
    Ok(())
}
