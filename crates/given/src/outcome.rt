// What of an entry's call is printed.
ghost use Rattle.std.specs.Prelude.{◌≡◌};
ghost use Rattle.given.specs.Outcome.{shown_of, numbered_by, replied_by};

use address::pair::Pair;
use octets::limits::ADDRESS_OCTETS;
use records::ike::IkeRecord;
use records::ipsec::IpsecRecord;
use replying::reply::Reply;

// The number and the two outcomes of a call; or a record's SPI and pair, where a place was asked for.
#[derive(Clone, Copy)]
pub struct Outcome {
    pub number: u8,
    pub update: u8,
    pub list: u8,
    pub spi: u64,
    pub pair: Pair,
}

impl Outcome {
    // A record's SPI and pair; SPI 0 of a free place.
    pub fn shown(spi: u64, pair: Pair) -> Outcome
        ensures { result ≡ shown_of spi pair }
    {
        Outcome {
            number: 0,
            update: 0,
            list: 0,
            spi,
            pair,
        }
    }

    // A call that gives a number alone.
    pub fn numbered(number: u8) -> Outcome
        ensures { result ≡ numbered_by number }
    {
        // (`Pair::default()` says this of each octet alone, and the proof that it is `no_pair` would be longer.)
        let pair = Pair {
            family: 0,
            source: [0u8; ADDRESS_OCTETS],
            destination: [0u8; ADDRESS_OCTETS],
            source_port: 0,
            destination_port: 0,
        };
        Outcome {
            number,
            ..Outcome::shown(0, pair)
        }
    }
}

impl From<IkeRecord> for Outcome {
    ghost from_gives = { λ x o. o ≡ shown_of x.spi x.pair };

    fn from(x: IkeRecord) -> Outcome {
        Outcome::shown(x.spi, x.pair)
    }
}

impl From<IpsecRecord> for Outcome {
    ghost from_gives = { λ x o. o ≡ shown_of x.spi x.pair };

    fn from(x: IpsecRecord) -> Outcome {
        Outcome::shown(u64::from(x.spi), x.pair)
    }
}

impl From<Reply> for Outcome {
    ghost from_gives = { λ reply o. o ≡ replied_by reply };

    fn from(reply: Reply) -> Outcome {
        Outcome {
            update: reply.update,
            list: reply.list,
            ..Outcome::numbered(reply.number)
        }
    }
}
