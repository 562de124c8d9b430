// What closing goes by, given what was looked up, of an IKE record or an IPsec record; and the mark for being deleted.
#![tactic(auto)]

ghost use Rattle.std.specs.Prelude.{◌≡◌, ◌≢◌, IfErr};
ghost use Rattle.octets.specs.Numbers.{told, number_of};
ghost use Rattle.tables.specs.Changes.{is_own_child, bad_closing, bad_marking, closing_number};

use octets::number::Number;
use octets::operator::not_operator;
use records::ike::IkeRecord;
use records::ipsec::IpsecRecord;
use tables::calls::{is_bad_list, is_own};

// Whether a record may be closed, or marked as being deleted; if not, the number: a bad argument, or no such record.
pub fn closing_number(bad: bool, there: bool) -> Result<(), Number>
    ensures as_listed { told result ≡ closing_number bad there }
    ensures refuses { IfErr result (λ e. number_of e ≢ 0) }
{
    if bad {
        return Err(Number::BadArgument);
    }
    if !there {
        return Err(Number::NoSuchRecord);
    }
    Ok(())
}

// Whether the list has another size than it must, an SPI is 0, or no operator is named.
pub fn is_bad_closing(size: usize, spi: u64, operator: u8) -> bool
    ensures { result ≡ bad_closing size spi operator }
{
    is_bad_list(size, spi) || not_operator(operator)
}

// Whether an IPsec record is the operator's, by its owner's record `of`, whose place is `owned`.
pub fn is_own_child(entry: IpsecRecord, owned: usize, of: IkeRecord, operator: u8) -> bool
    ensures { result ≡ is_own_child entry owned «of» operator }
{
    entry.spi != 0 && entry.owner != 0 && is_own(owned, of, operator)
}

// Whether an SPI is 0, or no operator is named.
pub fn is_bad_marking(spi: u64, operator: u8) -> bool
    ensures { result ≡ bad_marking spi operator }
{
    spi == 0 || not_operator(operator)
}
