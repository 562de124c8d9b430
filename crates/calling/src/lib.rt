// What the slots of an entry give to its call, a call's arguments each.
#![tactic(auto)]

ghost use Rattle.std.specs.Prelude.{◌≡◌};
ghost use Rattle.calling.specs.Calling.{pair_in, opening_in, spi_in, child_in, owner_in, request_in, response_in};
ghost use Rattle.calling.specs.Calling.{clone_in, closer_in, adder_in};

use address::pair::Pair;
use given::reading::{Slots, Span, address_at};
use records::ike::Agreed;
use tables::calls::Opening;

// A request as an entry gives it.
#[derive(Clone, Copy)]
pub struct Given {
    pub spi: u64,
    pub id: u32,
    pub pair: Pair,
    pub nat_source: Span,
    pub nat_destination: Span,
    pub first: u8,
    pub body: Span,
    // of the check that an update begins
    pub cookie: Span,
    pub check_id: u32,
    // that it came to
    pub operator: u8,
}

// The response to a check, as an entry gives it.
#[derive(Clone, Copy)]
pub struct GivenResponse {
    pub spi: u64,
    pub id: u32,
    pub first: u8,
    pub body: Span,
    pub operator: u8,
}

// A clone request, as an entry gives it: a response's fields but for an SPI of 64 bits in the place of an ID of 32.
#[derive(Clone, Copy)]
pub struct GivenClone {
    pub spi: u64,
    pub new_spi: u64,
    pub first: u8,
    pub body: Span,
    pub operator: u8,
}

// The pair of an opening or of a request, which stands in the same slots of both.
pub fn pair_in(s: &[u8], e: Slots) -> Pair
    ensures { result ≡ pair_in s.now e.slots }
{
    Pair {
        family: e.octet(2),
        source: address_at(s, e.slots[3]),
        destination: address_at(s, e.slots[4]),
        source_port: e.short(5),
        destination_port: e.short(6),
    }
}

pub fn opening_in(s: &[u8], e: Slots) -> Opening
    ensures { result ≡ opening_in s.now e.slots }
{
    let agreed = Agreed {
        mobike: e.octet(1),
        cloning: e.octet(9),
        operator: e.octet(10),
        peer: e.word(8),
    };
    Opening {
        spi: e.slots[0],
        agreed,
        pair: pair_in(s, e),
        child: e.word(7),
    }
}

// The SPI of an IKE record that leads an entry.
pub fn spi_in(e: Slots) -> u64
    ensures { result ≡ spi_in e.slots }
{
    e.slots[0]
}

// The SPI of an IPsec record that leads an entry.
pub fn child_in(e: Slots) -> u32
    ensures { result ≡ child_in e.slots }
{
    e.word(0)
}

// The place that leads what is asked for at a trace's end.
pub fn place_in(e: Slots) -> usize
    ensures { result ≡ spi_in e.slots }
{
    e.slots[0] as usize
}

// The owner of an IPsec record that is added.
pub fn owner_in(e: Slots) -> u64
    ensures { result ≡ owner_in e.slots }
{
    e.slots[1]
}

// The operator that closes or marks the record whose SPI leads an entry.
pub fn closer_in(e: Slots) -> u8
    ensures { result ≡ closer_in e.slots }
{
    e.octet(1)
}

// The operator that adds an IPsec record.
pub fn adder_in(e: Slots) -> u8
    ensures { result ≡ adder_in e.slots }
{
    e.octet(2)
}

pub fn request_in(s: &[u8], e: Slots) -> Given
    ensures { result ≡ request_in s.now e.slots }
{
    Given {
        spi: e.slots[0],
        id: e.word(1),
        pair: pair_in(s, e),
        nat_source: e.span(7),
        nat_destination: e.span(9),
        first: e.octet(11),
        body: e.span(12),
        cookie: e.span(14),
        check_id: e.word(16),
        operator: e.octet(17),
    }
}

pub fn response_in(e: Slots) -> GivenResponse
    ensures { result ≡ response_in e.slots }
{
    GivenResponse {
        spi: e.slots[0],
        id: e.word(1),
        first: e.octet(2),
        body: e.span(3),
        operator: e.octet(5),
    }
}

pub fn clone_in(e: Slots) -> GivenClone
    ensures { result ≡ clone_in e.slots }
{
    GivenClone {
        spi: e.slots[0],
        new_spi: e.slots[1],
        first: e.octet(2),
        body: e.span(3),
        operator: e.octet(5),
    }
}
