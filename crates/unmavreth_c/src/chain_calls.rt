// The reader's calls, for C.
ghost use Rattle.std.specs.Prelude.{◌≡◌};
ghost use Rattle.reader.specs.Chain.{ReadAs};
ghost use Rattle.octets.specs.Limits.{nat_octets};
ghost use Rattle.values.specs.Values.{PartOf, no_nats_at, addresses_in};

use findings::seen::Offsets;
use host::chain::AddressList;
use reader::read::Reading;
use values::{NoNats, addresses_in};

// Reads any octets as a payload chain that begins with a payload of type `first`.
#[unsafe(no_mangle)]
pub extern "C" fn unmavreth_read(first: u8, body: &[u8]) -> Reading
    ensures { ReadAs first body.now result }
{
    host::chain::unmavreth_read(first, body)
}

// Hands out COOKIE2's data as a part of the body, by the offset and the size that a reading or a reply told; empty if
// there is none.
#[unsafe(no_mangle)]
pub extern "C" fn unmavreth_cookie<'s, 'a>(
    out: &'s mut &'a [u8],
    body: &'a [u8],
    at: u16,
    size: u16,
)
    ensures { PartOf body.entry at size out.new }
{
    host::chain::unmavreth_cookie(out, body, at, size);
}

// Hands out a NAT detection value as a part of the body, by the offset that a reading told; empty if there is none.
#[unsafe(no_mangle)]
pub extern "C" fn unmavreth_nat_value<'s, 'a>(out: &'s mut &'a [u8], body: &'a [u8], at: u16)
    ensures { PartOf body.entry at nat_octets out.new }
{
    host::chain::unmavreth_nat_value(out, body, at);
}

// What NO_NATS_ALLOWED held, by the offset and the size that a reading told; family 0 if there is none.
#[unsafe(no_mangle)]
pub extern "C" fn unmavreth_no_nats(body: &[u8], at: u16, size: u16) -> NoNats
    ensures { result ≡ no_nats_at body.now at size }
{
    host::chain::unmavreth_no_nats(body, at, size)
}

// The first sixteen additional addresses, by the offsets and the families that a reading told.
#[unsafe(no_mangle)]
pub extern "C" fn unmavreth_addresses(body: &[u8], list: Offsets) -> AddressList
    ensures { result.list ≡ addresses_in body.now list }
{
    host::chain::unmavreth_addresses(body, list)
}
