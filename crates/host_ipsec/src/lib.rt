// The calls that open and close one IPsec record. The tables are lent: each call looks up, decides on what was found,
// and stores; a refusal changes nothing.
#![tactic(auto)]

ghost use Rattle.std.specs.Prelude.{◌≡◌};
ghost use Rattle.octets.specs.Numbers.{told};
ghost use Rattle.tables.specs.Calls.{open_ipsec, close_ipsec};

use closing::{closing_number, is_bad_closing, is_own_child};
use lent_ike::ike::{ike_at, ike_place};
use lent_ipsec::places::{ipsec_at, ipsec_place};
use lent_shares::shares::ipsec_count_of;
use octets::limits::{IKE_PLACES, IPSEC_SHARE};
use octets::number::{Number, told};
use opening::{adding_number, is_bad_adding};
use records::ike::IkeRecord;
use records::ipsec::IpsecRecord;
use tables::calls::is_own;
use walks::store;

// Opens another IPsec record at the lowest free place, with the pair of its IKE record.
pub fn unmavreth_open_ipsec(
    ike: &[IkeRecord; IKE_PLACES],
    ipsec: &mut [IpsecRecord],
    spi: u32,
    owner: u64,
    operator: u8,
) -> u8
    ensures { let added = open_ipsec ike.now ipsec.old spi owner operator in
        (result ≡ added.number) × (ipsec.new ≡ added.ipsec) }
{
    told(open_ipsec(ike, ipsec, spi, owner, operator))
}

fn open_ipsec(
    ike: &[IkeRecord; IKE_PLACES],
    ipsec: &mut [IpsecRecord],
    spi: u32,
    owner: u64,
    operator: u8,
) -> Result<(), Number>
    ensures { let added = open_ipsec ike.now ipsec.old spi owner operator in
        (told result ≡ added.number) × (ipsec.new ≡ added.ipsec) }
{
    let owned = ike_place(ike, owner);
    let found = ike_at(ike, owned);
    let free = ipsec_place(ipsec, 0);
    adding_number(
        is_bad_adding(ipsec.len(), spi as u64, owner, operator),
        is_own(owned, found, operator),
        ipsec_place(ipsec, spi) < ipsec.len(),
        IPSEC_SHARE <= ipsec_count_of(ike, ipsec, operator),
        free < ipsec.len(),
    )?;
    let pair = found.pair;
    store(ipsec, free, IpsecRecord { spi, owner, pair });
    Ok(())
}

// Closes an IPsec record. The IKE table is lent for reading, since whose the record is goes by its owner.
pub fn unmavreth_close_ipsec(
    ike: &[IkeRecord; IKE_PLACES],
    ipsec: &mut [IpsecRecord],
    spi: u32,
    operator: u8,
) -> u8
    ensures { let closed = close_ipsec ike.now ipsec.old spi operator in
        (result ≡ closed.number) × (ipsec.new ≡ closed.ipsec) }
{
    told(close_ipsec(ike, ipsec, spi, operator))
}

fn close_ipsec(
    ike: &[IkeRecord; IKE_PLACES],
    ipsec: &mut [IpsecRecord],
    spi: u32,
    operator: u8,
) -> Result<(), Number>
    ensures { let closed = close_ipsec ike.now ipsec.old spi operator in
        (told result ≡ closed.number) × (ipsec.new ≡ closed.ipsec) }
{
    let place = ipsec_place(ipsec, spi);
    let entry = ipsec_at(ipsec, place);
    let owned = ike_place(ike, entry.owner);
    let own = is_own_child(entry, owned, ike_at(ike, owned), operator);
    closing_number(is_bad_closing(ipsec.len(), spi as u64, operator), own)?;
    store(ipsec, place, IpsecRecord::none());
    Ok(())
}
