// Numbers in decimal.
ghost use Rattle.std.specs.Prelude.{◌≡◌, ◌∷◌, [], ◌+◌, ◌≤◌, ◌<◌, length};
ghost use Rattle.writing.specs.Notify.{placed};
ghost use Rattle.wording.specs.Text.{decimal};
ghost use Rattle.wording.specs.Puts.{Puts};

// The least number of two digits.
const TWO_DIGITS: u64 = 10;

// Writes the digits of `n` at `at`, and returns the place after them.
fn put_decimal(out: &mut [u8], at: usize, n: u64) -> usize
    requires { at + length (decimal n) ≤ length out.old }
    ensures value { result ≡ at + length (decimal n) }
    ensures out_after { out.new ≡ placed out.old at (decimal n) }
{
    if n < TWO_DIGITS {
        out[at] = b'0' + (n as u8);
        return at + 1;
    }
    let next = put_decimal(out, at, n / 10);
    out[next] = b'0' + ((n % 10) as u8);
    next + 1
}

// A number with an octet behind it, where there is room for just that.
fn put_digits(out: &mut [u8], at: usize, n: u64, after: u8) -> usize
    requires { at + length (decimal n) < length out.old }
    ensures { Puts (decimal n ∷ []) after out.old at out.new result }
{
    let end = put_decimal(out, at, n);
    out[end] = after;
    end + 1
}

// A number of 64 bits. Its room is asked and told in plain numbers, so that a line adds up what it takes.
pub fn put_number(out: &mut [u8], at: usize, n: u64, after: u8) -> usize
    requires { at + 21 ≤ length out.old }
    ensures upper_bound { result ≤ at + 21 }
    ensures puts { Puts (decimal n ∷ []) after out.old at out.new result }
{
    put_digits(out, at, n, after)
}

// A number of at most 16 bits.
pub fn put_short(out: &mut [u8], at: usize, n: u16, after: u8) -> usize
    requires { at + 6 ≤ length out.old }
    ensures upper_bound { result ≤ at + 6 }
    ensures puts { Puts (decimal n ∷ []) after out.old at out.new result }
{
    put_digits(out, at, n as u64, after)
}
