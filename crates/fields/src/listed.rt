// A list, and the fields that follow it.
ghost use Rattle.std.specs.Prelude.{◌≡◌};
ghost use Rattle.fields.specs.Slots.{width};
ghost use Rattle.fields.specs.Codes.{table_of};

use crate::field_type::FieldType;

#[derive(Clone, Copy)]
pub struct Listed<'a> {
    // the fields of an item
    pub each: &'a [FieldType],
    // how many slots an item has
    pub size: usize,
    // the fields behind the list
    pub last: &'a [FieldType],
    pub ghost size_value: { size ≡ width (table_of each.now) },
}
