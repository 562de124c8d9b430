// IKE records: a new one, a clone, a closed one, and what a request, the end of a check or a deletion mark changes in one.
ghost use Rattle.std.specs.Prelude.{◌≡◌};
ghost use Rattle.records.specs.Records.{settled, fresh_ike, new_ike, clone_of, marks_in, remarked, relisted};
ghost use Rattle.records.specs.Records.{unchecked, deletion_marked, of_operator, of_peer, no_ike};

use crate::check::PendingCheck;
use address::address::Address;
use address::pair::Pair;
use octets::flag::zero_or_one;
use octets::limits::ADDRESSES_MOST;

// What is agreed when a record is opened; no request changes it. Yes or no is an octet, 0 or any other.
#[repr(C)]
#[derive(Clone, Copy, Default)]
pub struct Agreed {
    pub mobike: u8,
    pub cloning: u8,
    // Whose the record is: 0 or 1; any other octet is neither operator's.
    pub operator: u8,
    // The host's number for the peer, which its clones share.
    pub peer: u32,
}

// A place is free when its SPI is 0. A mark is the least message ID that exceeds it: 0 for none, and the ID and one for
// an ID.
#[repr(C)]
#[derive(Clone, Copy, Default)]
pub struct IkeRecord {
    pub spi: u64,
    pub agreed: Agreed,
    pub pair: Pair,
    pub update_mark: u64,
    pub list_mark: u64,
    pub count: u16,
    pub addresses: [Address; ADDRESSES_MOST],
    pub unknown: u32,
    pub check: PendingCheck,
    // The deletion mark: 0, or any other while the IKE SA is being deleted.
    pub deleting: u8,
}

// What a request is decided by in its record, and changes there whether it moves or not. Decisions go by these alone,
// so that a request does not carry the record's list about.
#[derive(Clone, Copy)]
pub struct Marks {
    pub agreed: Agreed,
    pub update_mark: u64,
    pub list_mark: u64,
    pub unknown: u32,
}

impl Agreed {
    // As it is stored.
    pub fn settled(self) -> Agreed
        ensures { result ≡ settled self }
    {
        Agreed {
            mobike: zero_or_one(self.mobike),
            cloning: zero_or_one(self.cloning),
            ..self
        }
    }
}

impl IkeRecord {
    // A free place.
    #[tactic(auto, using(crate::proofs::Zeros::ike_zero))]
    pub fn none() -> IkeRecord
        ensures { result ≡ no_ike }
    {
        IkeRecord::default()
    }

    // A record with no marks, an empty list, no tally and no check.
    pub fn fresh(spi: u64, agreed: Agreed, pair: Pair) -> IkeRecord
        ensures { result ≡ fresh_ike spi agreed pair }
    {
        IkeRecord {
            spi,
            agreed,
            pair,
            ..IkeRecord::none()
        }
    }

    // A record as it is opened.
    pub fn new(spi: u64, agreed: Agreed, pair: Pair) -> IkeRecord
        ensures { result ≡ new_ike spi agreed pair }
    {
        IkeRecord::fresh(spi, agreed.settled(), pair)
    }

    // The clone of the record under another SPI.
    pub fn cloned(self, spi: u64) -> IkeRecord
        ensures { result ≡ clone_of spi self }
    {
        IkeRecord::fresh(spi, self.agreed, self.pair)
    }

    pub fn marks(self) -> Marks
        ensures { result ≡ marks_in self }
    {
        Marks {
            agreed: self.agreed,
            update_mark: self.update_mark,
            list_mark: self.list_mark,
            unknown: self.unknown,
        }
    }

    // The record with these marks and this tally, and with the pair and the check if it moves.
    pub fn remarked(self, marks: Marks, moves: bool, pair: Pair, check: PendingCheck) -> IkeRecord
        ensures { result ≡ remarked marks moves pair check self }
    {
        let mut new = IkeRecord {
            update_mark: marks.update_mark,
            list_mark: marks.list_mark,
            unknown: marks.unknown,
            ..self
        };
        if moves {
            new.pair = pair;
            new.check = check;
        }
        new
    }

    // The record with another list.
    pub fn relisted(self, count: u16, addresses: [Address; ADDRESSES_MOST]) -> IkeRecord
        ensures { result ≡ relisted count addresses self }
    {
        IkeRecord {
            count,
            addresses,
            ..self
        }
    }

    // The record whose check has ended.
    pub fn unchecked(self) -> IkeRecord
        ensures { result ≡ unchecked self }
    {
        IkeRecord {
            check: PendingCheck::none(),
            ..self
        }
    }

    // The record, marked as being deleted.
    pub fn deletion_marked(self) -> IkeRecord
        ensures { result ≡ deletion_marked self }
    {
        IkeRecord {
            deleting: 1,
            ..self
        }
    }

    // Whether the record is in use and the operator's.
    pub fn is_of_operator(&self, operator: u8) -> bool
        ensures { result ≡ of_operator operator self.now }
    {
        self.spi != 0 && self.agreed.operator == operator
    }

    // Whether it is the operator's and has the peer number; being deleted or not.
    pub fn is_of_peer(&self, operator: u8, peer: u32) -> bool
        ensures { result ≡ of_peer operator peer self.now }
    {
        self.is_of_operator(operator) && self.agreed.peer == peer
    }
}
