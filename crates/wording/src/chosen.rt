// Fixed words that a number or a bool chooses.
ghost use Rattle.std.specs.Prelude.{◌∷◌, [], ◌+◌, ◌≤◌, length};
ghost use Rattle.wording.specs.Chosen.{table_word, outcome_word};
ghost use Rattle.wording.specs.Puts.{Puts};

use crate::word::put_word;

// What became of an update or of a list, by its number: `done` is the word for 1.
pub fn put_outcome(out: &mut [u8], at: usize, done: &[u8], told: u8, after: u8) -> usize
    requires at_in_bounds { at + 9 ≤ length out.old }
    requires done_len_bound { length done.now ≤ 8 }
    ensures upper_bound { result ≤ at + 9 }
    ensures fact { let word = outcome_word done.now told in
        Puts (word ∷ []) after out.old at out.new result }
{
    match told {
        1 => put_word(out, at, done, after),
        2 => put_word(out, at, b"stale", after),
        _ => put_word(out, at, b"none", after),
    }
}

// The table's word.
pub fn put_table(out: &mut [u8], at: usize, ipsec: bool, after: u8) -> usize
    requires { at + 6 ≤ length out.old }
    ensures upper_bound { result ≤ at + 6 }
    ensures puts { Puts (table_word ipsec ∷ []) after out.old at out.new result }
{
    if ipsec {
        put_word(out, at, b"ipsec", after)
    } else {
        put_word(out, at, b"ike", after)
    }
}
