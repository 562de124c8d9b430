// The rules that the slots of an entry give.
ghost use Rattle.std.specs.Prelude.{◌≡◌, ◌+◌, ◌≤◌};
ghost use Rattle.given.specs.Given.{count_in, policy_operator, rule_in, rules_in};
ghost use Rattle.entries.specs.Slots.{entry_slots};

use crate::reading::{Slots, address_at};
use octets::limits::RULES_MOST;
use policy::rules::Rule;

impl Slots {
    // How many rules there are.
    pub fn rule_count(&self) -> u16
        ensures { result ≡ count_in self.now.slots }
    {
        self.short(0)
    }

    // Whose policy it is: the operator behind the places of the rules.
    pub fn policy_operator(&self) -> u8
        ensures { result ≡ policy_operator self.now.slots }
    {
        self.octet(81)
    }

    // The rule whose slots begin at `first`.
    fn rule(&self, s: &[u8], first: usize) -> Rule
        requires { first + 5 ≤ entry_slots }
        ensures { result ≡ rule_in s.now self.now.slots first }
    {
        Rule {
            family: self.octet(first),
            source: address_at(s, self.slots[first + 1]),
            destination: address_at(s, self.slots[first + 2]),
            source_len: self.octet(first + 3),
            destination_len: self.octet(first + 4),
        }
    }

    // The rules, and none in the places that the entry does not fill.
    pub fn rules(&self, s: &[u8]) -> [Rule; RULES_MOST]
        ensures { result ≡ rules_in s.now self.now.slots }
    {
        let mut rules = [Rule::none(); RULES_MOST];
        for (i, rule) in rules.iter_mut().enumerate() {
            if (i as u64) < self.slots[0] {
                *rule = self.rule(s, 1 + 5 * i);
            }
        }
        rules
    }
}
