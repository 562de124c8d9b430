// Octets in hex.
ghost use Rattle.std.specs.Prelude.{◌≡◌, ◌∷◌, [], ◌+◌, ◌*◌, ◌≤◌, ◌<◌, length};
ghost use Rattle.wording.specs.Text.{hex, hex_digit};
ghost use Rattle.wording.specs.Puts.{Puts};

use octets::limits::ADDRESS_OCTETS;

// A digit of hex.
fn hex_digit(d: u8) -> u8
    requires { d < 16 }
    ensures { result ≡ hex_digit d }
{
    if d < 10 { b'0' + d } else { b'a' - 10 + d }
}

// Octets in hex.
pub fn put_octets(out: &mut [u8], at: usize, octets: &[u8], after: u8) -> usize
    requires { at + 2 * length octets.now < length out.old }
    ensures value { result ≡ at + 2 * length octets.now + 1 }
    ensures puts { Puts (hex octets.now ∷ []) after out.old at out.new result }
{
    let mut to = at;
    for octet in octets {
        out[to] = hex_digit(*octet / 16);
        out[to + 1] = hex_digit(*octet % 16);
        to += 2;
    }
    out[to] = after;
    to + 1
}

// An address: sixteen octets in hex, whatever its family.
pub fn put_address(out: &mut [u8], at: usize, address: [u8; ADDRESS_OCTETS], after: u8) -> usize
    requires { at + 33 ≤ length out.old }
    ensures upper_bound { result ≤ at + 33 }
    ensures puts { Puts (hex address ∷ []) after out.old at out.new result }
{
    put_octets(out, at, &address, after)
}
