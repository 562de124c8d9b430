// What is looked up for a request before it is handled.
ghost use Rattle.std.specs.Prelude.{◌≡◌};
ghost use Rattle.checking.specs.Lookup.{looked_up};

use records::ike::{IkeRecord, Marks};

// How many IPsec records are lent, the lowest place with the SPI, and the marks of the record there.
#[derive(Clone, Copy)]
pub struct Looked {
    pub size: usize,
    pub place: usize,
    pub marks: Marks,
}

impl Looked {
    pub fn new(size: usize, place: usize, entry: IkeRecord) -> Looked
        ensures { result ≡ looked_up size place entry }
    {
        Looked {
            size,
            place,
            marks: entry.marks(),
        }
    }
}
