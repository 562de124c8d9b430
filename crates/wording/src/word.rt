// Fixed words, copied.
ghost use Rattle.std.specs.Prelude.{◌≡◌, ◌∷◌, [], ◌+◌, ◌<◌, length};
ghost use Rattle.wording.specs.Puts.{Puts};

use writing::copy_octets;

// A word with an octet behind it.
pub fn put_word(out: &mut [u8], at: usize, word: &[u8], after: u8) -> usize
    requires { at + length word.now < length out.old }
    ensures value { result ≡ at + length word.now + 1 }
    ensures puts { Puts (word.now ∷ []) after out.old at out.new result }
{
    copy_octets(out, at, word);
    let end = at + word.len();
    out[end] = after;
    end + 1
}
