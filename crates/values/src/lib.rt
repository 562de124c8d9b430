// The values that a reading hands out: parts of the lent body, and the addresses in it.
#![tactic(auto)]

ghost use Rattle.std.specs.Prelude.{◌≡◌, ◌+◌, ◌≤◌, min, length};
ghost use Rattle.octets.specs.Limits.{addresses_most, port_size};
ghost use Rattle.values.specs.Values.{part_of, PartOf, address_at, additional_of, addresses_in};
ghost use Rattle.values.specs.Values.{no_nats_in, no_nats_of, no_nats_at, absent};

use address::address::{Address, addresses_of, width_of};
use findings::seen::{Offsets, Seen};
use octets::limits::{
    ADDRESS_OCTETS, ADDRESSES_MOST, IP4_OCTETS, IP6_OCTETS, NO_NATS_LEAST, NO_NATS_MOST, PORT_SIZE,
};
use octets::{be16_at, padded_to_16};

// The `size` octets at `at` as a part of the body; none at offset 0, where no data stands, or where they would run past
// the end.
pub fn part(body: &[u8], at: u16, size: u16) -> &[u8]
    ensures { PartOf body.entry at size result }
{
    let start = at as usize;
    let end = start + size as usize;
    if at == 0 || body.len() < end {
        return &body[..0];
    }
    &body[start..end]
}

// COOKIE2's data, empty if there is none.
pub fn cookie(body: &[u8], seen: Seen) -> &[u8]
    ensures { result.now ≡ part_of body.now seen.cookie seen.cookie_len }
{
    part(body, seen.cookie, seen.cookie_len)
}

// What NO_NATS_ALLOWED holds; family 0 where there is none.
#[repr(C)]
#[derive(Clone, Copy, PartialEq, Eq, Debug)]
pub struct NoNats {
    pub family: u8,
    pub source: [u8; ADDRESS_OCTETS],
    pub destination: [u8; ADDRESS_OCTETS],
    pub source_port: u16,
    pub destination_port: u16,
}

// Two addresses of `width` octets and two ports.
fn no_nats_in(family: u8, width: usize, data: &[u8]) -> NoNats
    requires { width + width + (port_size + port_size) ≤ length «data».now }
    ensures { result ≡ no_nats_in family width «data».now }
{
    let ports = width + width;
    NoNats {
        family,
        source: padded_to_16(&data[..width]),
        destination: padded_to_16(&data[width..ports]),
        source_port: be16_at(data, ports),
        destination_port: be16_at(data, ports + PORT_SIZE),
    }
}

// Written out: that `Default` makes the same needs a lemma longer than this.
fn nothing_allowed() -> NoNats
    ensures { result ≡ absent }
{
    NoNats {
        family: 0,
        source: [0u8; ADDRESS_OCTETS],
        destination: [0u8; ADDRESS_OCTETS],
        source_port: 0,
        destination_port: 0,
    }
}

// NO_NATS_ALLOWED's data, whose length tells the family.
pub fn no_nats_of(data: &[u8]) -> NoNats
    ensures { result ≡ no_nats_of «data».now }
{
    match data.len() {
        NO_NATS_LEAST => no_nats_in(4, IP4_OCTETS, data),
        NO_NATS_MOST => no_nats_in(6, IP6_OCTETS, data),
        _ => nothing_allowed(),
    }
}

// The same by the offset and the size that a reading tells.
pub fn no_nats_at(body: &[u8], at: u16, size: u16) -> NoNats
    ensures { result ≡ no_nats_at body.now at size }
{
    no_nats_of(part(body, at, size))
}

// The address at an offset, of a family that says how many octets it has.
pub fn address_at(body: &[u8], at: u16, family: u8) -> [u8; ADDRESS_OCTETS]
    ensures { result ≡ address_at body.now at family }
{
    padded_to_16(part(body, at, width_of(family)))
}

// How many of so many additional addresses are kept: the first sixteen.
pub fn kept_count(count: u16) -> u16
    ensures { result ≡ min count addresses_most }
{
    count.min(ADDRESSES_MOST as u16)
}

// The additional addresses that are kept, with zeros in the places after them.
pub fn additional(body: &[u8], list: Offsets) -> [[u8; ADDRESS_OCTETS]; ADDRESSES_MOST]
    ensures { result ≡ additional_of body.now list }
{
    let mut out = [[0u8; ADDRESS_OCTETS]; ADDRESSES_MOST];
    for i in 0..kept_count(list.count) as usize {
        out[i] = address_at(body, list.offsets[i], list.families[i]);
    }
    out
}

// The same with their families, as a record keeps them.
pub fn addresses_in(body: &[u8], list: Offsets) -> [Address; ADDRESSES_MOST]
    ensures { result ≡ addresses_in body.now list }
{
    let octets = additional(body, list);
    addresses_of(list.families, octets, kept_count(list.count) as usize)
}
