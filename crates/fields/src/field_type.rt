// What stands at a place of a table of fields.
ghost use Rattle.std.specs.Prelude.{◌≡◌};
ghost use Rattle.fields.specs.Codes.{field_of};
ghost use Rattle.fields.specs.Slots.{width};

#[derive(Clone, Copy, Debug, PartialEq, Eq)]
pub enum FieldType {
    // a number of at most so much
    Number(u64),
    // sixteen octets as they stand
    Address,
    // octets led by their length
    OctetString,
}

pub const YES_NO: FieldType = FieldType::Number(1);

pub const BITS_8: FieldType = FieldType::Number(u8::MAX as u64);

pub const BITS_16: FieldType = FieldType::Number(u16::MAX as u64);

pub const BITS_32: FieldType = FieldType::Number(u32::MAX as u64);

pub const BITS_64: FieldType = FieldType::Number(u64::MAX);

pub const ADDRESS: FieldType = FieldType::Address;

pub const STRING: FieldType = FieldType::OctetString;

pub const STRING_MOST: u64 = 4096;

pub const LIST_MOST: u64 = 16;

pub const LIST_PLACES: usize = 16;

impl FieldType {
    // How many slots such a field has.
    pub fn width(self) -> usize
        ensures { result ≡ width (field_of self) }
    {
        match self {
            FieldType::OctetString => 2,
            FieldType::Number(_) | FieldType::Address => 1,
        }
    }
}
