// A thin payload reader: the lent body and an offset in it; what stands there comes back as a part of the body.
#![tactic(auto)]

ghost use Rattle.std.specs.Prelude.{◌≡◌};
ghost use Rattle.octets.specs.Limits.{nat_octets};
ghost use Rattle.values.specs.Values.{PartOf};

use octets::limits::NAT_OCTETS;
use values::part;

// A body and the offset in it at which a payload's data begins.
#[derive(Clone, Copy)]
pub struct PayloadReader<'a> {
    pub body: &'a [u8],
    pub at: u16,
}

impl<'a> PayloadReader<'a> {
    // The octets at the reader's offset, as a part of its body; none at offset 0, or where they would run past the end.
    pub fn octets(self, length: u16) -> &'a [u8]
        ensures { PartOf self.entry.body self.entry.at length result }
    {
        part(self.body, self.at, length)
    }
}

// A reader of the body at an offset.
pub fn reader_at<'a>(body: &'a [u8], at: u16) -> PayloadReader<'a>
    ensures { (result.body ≡ body.entry) × (result.at ≡ at) }
{
    PayloadReader { body, at }
}

// A payload's data as a part of the body that was read, by the offset and the length that a call told; empty if
// there is none.
pub fn data_at<'a>(body: &'a [u8], at: u16, length: u16) -> &'a [u8]
    ensures { PartOf body.entry at length result }
{
    reader_at(body, at).octets(length)
}

// The NAT detection value at an offset, as a part of the body that was read; empty if there is none.
pub fn nat_value<'a>(body: &'a [u8], at: u16) -> &'a [u8]
    ensures { PartOf body.entry at nat_octets result }
{
    data_at(body, at, NAT_OCTETS as u16)
}
