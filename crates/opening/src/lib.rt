// What opening goes by, given what was looked up: an IKE record with its first IPsec record, or another IPsec record.
#![tactic(auto)]

ghost use Rattle.std.specs.Prelude.{◌≡◌, ◌≢◌, IfErr};
ghost use Rattle.octets.specs.Numbers.{told, number_of};
ghost use Rattle.tables.specs.Opening.{ike_of, child_of};
ghost use Rattle.tables.specs.Calls.{opening_fits};
ghost use Rattle.tables.specs.Changes.{bad_adding, adding_number, both_number};

use octets::limits::{IPSEC_PLACES, OPERATORS};
use octets::number::Number;
use octets::operator::not_operator;
use records::ike::IkeRecord;
use records::ipsec::IpsecRecord;
use tables::calls::{Opening, is_bad_list};

// Whether another IPsec record may be opened; if not, the number: a bad argument, no owner, the SPI in use, the operator
// at its share, or no room.
pub fn adding_number(
    bad: bool,
    owned: bool,
    taken: bool,
    limited: bool,
    room: bool,
) -> Result<(), Number>
    ensures as_listed { told result ≡ adding_number bad owned taken limited room }
    ensures refuses { IfErr result (λ e. number_of e ≢ 0) }
{
    if bad {
        return Err(Number::BadArgument);
    }
    if !owned {
        return Err(Number::NoSuchRecord);
    }
    if taken {
        return Err(Number::SpiInUse);
    }
    if limited {
        return Err(Number::OperatorAtShare);
    }
    if !room {
        return Err(Number::Full);
    }
    Ok(())
}

// Whether the list has another size than it must, an SPI is 0, the owner's too, or no operator is named.
pub fn is_bad_adding(size: usize, spi: u64, owner: u64, operator: u8) -> bool
    ensures { result ≡ bad_adding size spi owner operator }
{
    is_bad_list(size, spi) || owner == 0 || not_operator(operator)
}

// Whether two records with these SPIs and this pair may be opened beside a list of `size`.
pub fn opening_fits(size: usize, o: Opening) -> bool
    ensures { result ≡ opening_fits size o }
{
    size == IPSEC_PLACES
        && o.spi != 0
        && o.child != 0
        && (o.agreed.operator as usize) < OPERATORS
        && o.pair.fits()
}

// Whether both may be opened, and the number if not: of each record, whether its SPI is in use, whether the operator is
// at its share, and whether there is room for it.
pub fn both_number(
    fits: bool,
    taken: bool,
    child_taken: bool,
    limited: bool,
    child_limited: bool,
    room: bool,
    child_room: bool,
) -> Result<(), Number>
    ensures as_listed { told result
        ≡ both_number fits taken child_taken limited child_limited room child_room }
    ensures refuses { IfErr result (λ e. number_of e ≢ 0) }
{
    if !fits {
        return Err(Number::BadArgument);
    }
    if taken {
        return Err(Number::SpiInUse);
    }
    if child_taken {
        return Err(Number::SpiInUse);
    }
    if limited {
        return Err(Number::OperatorAtShare);
    }
    if child_limited {
        return Err(Number::OperatorAtShare);
    }
    if !room {
        return Err(Number::Full);
    }
    if !child_room {
        return Err(Number::Full);
    }
    Ok(())
}

// The two records that are opened.
pub fn ike_of(o: Opening) -> IkeRecord
    ensures { result ≡ ike_of o }
{
    IkeRecord::new(o.spi, o.agreed, o.pair)
}

pub fn child_of(o: Opening) -> IpsecRecord
    ensures { result ≡ child_of o }
{
    IpsecRecord {
        spi: o.child,
        owner: o.spi,
        pair: o.pair,
    }
}
