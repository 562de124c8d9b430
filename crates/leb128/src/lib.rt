// Numbers of a trace: groups of seven bits, lowest group first, the top bit set on all but the last, in the shortest
// form and up to 64 bits. Each function goes on by recursion, as the definition of what it gives does: a loop would carry
// what the return does, and is no plainer.
#![tactic(auto)]

ghost use Rattle.std.specs.Prelude.{◌≡◌, ◌+◌, ◌≤◌, length, drop};
ghost use Rattle.writing.specs.Notify.{placed};
ghost use Rattle.leb128.specs.Leb128.{decoded_at, octets_of};
ghost use Rattle.leb128.specs.Within.{read_within, Within};

// What stands above the lowest seven of 64 bits is below this.
const ABOVE_MOST: u64 = 144115188075855872;

// And it is not this, since then a group less would do.
const NONE_ABOVE: u64 = 0;

// Reads at `at`, with at most `left` octets behind the first.
fn read_within(s: &[u8], at: usize, left: u32) -> Option<(u64, usize)>
    ensures { result ≡ read_within left (drop at s.now) at }
{
    let b = u64::from(*s.get(at)?);
    if b < 128 {
        return Some((b, at + 1));
    }
    if left == 0 {
        return None;
    }
    let (v, next) = read_within(s, at + 1, left - 1)?;
    if v == NONE_ABOVE || v >= ABOVE_MOST {
        return None;
    }
    Some((b - 128 + 128 * v, next))
}

// The number at `at` and the offset after it; none where the number is cut, not in the shortest form, or past 64 bits.
// Ten groups hold 64 bits.
pub fn read_number(s: &[u8], at: usize) -> Option<(u64, usize)>
    ensures value { result ≡ decoded_at s.now at }
    ensures within { Within s.now at result }
{
    read_within(s, at, 9)
}

// How many octets `n` has.
pub fn number_size(n: u64) -> usize
    ensures { result ≡ length (octets_of n) }
{
    if n < 128 { 1 } else { 1 + number_size(n / 128) }
}

// Writes `n` at `at`, and returns the offset after it.
pub fn put_number(out: &mut [u8], at: usize, n: u64) -> usize
    requires { at + length (octets_of n) ≤ length out.old }
    ensures value { result ≡ at + length (octets_of n) }
    ensures out_after { out.new ≡ placed out.old at (octets_of n) }
{
    if n < 128 {
        out[at] = n as u8;
        return at + 1;
    }
    out[at] = (128 + n % 128) as u8;
    put_number(out, at + 1, n / 128)
}
