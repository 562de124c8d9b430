// Writing payloads: octets copied into a buffer from an offset on, and a Notify payload laid out there.
#![tactic(auto)]

ghost use Rattle.std.specs.Prelude.{◌≡◌, ◌+◌, ◌≤◌, length, take};
ghost use Rattle.octets.specs.Limits.{notify_header, cookie_most};
ghost use Rattle.writing.specs.Notify.{placed, notify_octets};

use octets::limits::NOTIFY_HEADER;

// Copies octets four at a time, as far as that goes, and returns how many: each four are read before they are written,
// so that the compiler moves them as one word. (`copy_from_slice` is a call of memmove, and the library asks its host for
// memcpy and memset alone.)
fn copy_fours(out: &mut [u8], at: usize, octets: &[u8]) -> usize
    requires { at + length octets.now ≤ length out.old }
    ensures upper_bound { result ≤ length octets.now }
    ensures out_after { out.new ≡ placed out.old at (take result octets.now) }
{
    let mut i = 0;
    while 4 <= octets.len() - i {
        let a = octets[i];
        let b = octets[i + 1];
        let c = octets[i + 2];
        let d = octets[i + 3];
        out[at + i] = a;
        out[at + i + 1] = b;
        out[at + i + 2] = c;
        out[at + i + 3] = d;
        i += 4;
    }
    i
}

// Copies octets one by one.
fn copy_each(out: &mut [u8], at: usize, octets: &[u8])
    requires { at + length octets.now ≤ length out.old }
    ensures { out.new ≡ placed out.old at octets.now }
{
    let mut i = 0;
    while i < octets.len() {
        out[at + i] = octets[i];
        i += 1;
    }
}

// Copies `octets` into `out` from `at` on. The rest of `out` stays as it is, so that a chain can be written payload by
// payload into one buffer.
pub fn copy_octets(out: &mut [u8], at: usize, octets: &[u8])
    requires { at + length octets.now ≤ length out.old }
    ensures { out.new ≡ placed out.old at octets.now }
{
    let n = copy_fours(out, at, octets);
    copy_each(out, at + n, &octets[n..]);
}

// Writes a Notify payload with no SPI at `at`, and returns the offset after it, where the next payload goes. `next` is
// that payload's type, 0 where there is none. The longest data is a COOKIE2's, so the length fits its field.
pub fn put_notify(out: &mut [u8], at: usize, next: u8, notify_type: u16, octets: &[u8]) -> usize
    requires octets_in_bounds { at + notify_header + length octets.now ≤ length out.old }
    requires octets_len_bound { length octets.now ≤ cookie_most }
    ensures value { result ≡ at + notify_header + length octets.now }
    ensures out_after { out.new
        ≡ placed out.old at (notify_octets next notify_type octets.now) }
{
    let size = NOTIFY_HEADER + octets.len();
    let flags = 0;
    let protocol = 0;
    let spi_size = 0;
    let length = (size as u16).to_be_bytes();
    let kind = notify_type.to_be_bytes();
    let header = [
        next, flags, length[0], length[1], protocol, spi_size, kind[0], kind[1],
    ];
    copy_octets(out, at, &header);
    copy_octets(out, at + NOTIFY_HEADER, octets);
    at + size
}
