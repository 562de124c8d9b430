// An entry as it was read, and the addresses and strings that its slots point to. Every function is total: where no
// entry that was read points, there are zeros, and empty strings.
ghost use Rattle.std.specs.Prelude.{◌≡◌, ◌+◌, ◌%◌, ◌^◌, ◌<◌, get_or};
ghost use Rattle.entries.specs.Slots.{entry_slots};
ghost use Rattle.given.specs.Given.{address_in, span_in, string_in};

use entries::ENTRY_SLOTS;
use entries::kind::Kind;
use octets::limits::ADDRESS_OCTETS;
use octets::padded_to_16;

// What is asked of the tables: the call of an entry, or, at the end of a trace, the record at a place of either table.
#[derive(Clone, Copy)]
pub enum Asked {
    Entry(Kind),
    ShowIke,
    ShowIpsec,
}

// What is asked, and the slots of its entry.
#[derive(Clone, Copy)]
pub struct Slots {
    pub asked: Asked,
    pub slots: [u64; ENTRY_SLOTS],
}

impl Slots {
    // A slot's lowest 8 bits.
    pub fn octet(&self, slot: usize) -> u8
        requires { slot < entry_slots }
        ensures { result ≡ get_or self.now.slots slot 0 % 2 ^ 8 }
    {
        (self.slots[slot] % 0x100) as u8
    }

    // A slot's lowest 16 bits.
    pub fn short(&self, slot: usize) -> u16
        requires { slot < entry_slots }
        ensures { result ≡ get_or self.now.slots slot 0 % 2 ^ 16 }
    {
        (self.slots[slot] % 0x1_0000) as u16
    }

    // A slot's lowest 32 bits.
    pub fn word(&self, slot: usize) -> u32
        requires { slot < entry_slots }
        ensures { result ≡ get_or self.now.slots slot 0 % 2 ^ 32 }
    {
        (self.slots[slot] % 0x1_0000_0000) as u32
    }

    // Where the string of two slots stands.
    pub fn span(&self, slot: usize) -> Span
        requires { slot + 1 < entry_slots }
        ensures { result ≡ span_in self.now.slots slot }
    {
        Span {
            at: self.slots[slot],
            size: self.slots[slot + 1],
        }
    }
}

// Where a string stands.
#[derive(Clone, Copy)]
pub struct Span {
    pub at: u64,
    pub size: u64,
}

impl Span {
    // The string that it says.
    pub fn of(self, s: &[u8]) -> &[u8]
        ensures { result.now ≡ string_in s.now self.at self.size }
    {
        let Some(behind) = s.get(self.at as usize..) else {
            return &[];
        };
        behind.get(..self.size as usize).unwrap_or(&[])
    }
}

// The address at an offset.
pub fn address_at(s: &[u8], at: u64) -> [u8; ADDRESS_OCTETS]
    ensures { result ≡ address_in s.now at }
{
    let span = Span {
        at,
        size: ADDRESS_OCTETS as u64,
    };
    padded_to_16(span.of(s))
}
