// The calls that open and close an IKE record, with the IPsec records that it owns, and mark one. The tables are lent:
// each call looks up, decides on what was found, and stores; a refusal changes nothing.
#![tactic(auto)]

ghost use Rattle.std.specs.Prelude.{◌≡◌};
ghost use Rattle.octets.specs.Numbers.{told};
ghost use Rattle.tables.specs.Calls.{open_both, close_ike, mark_deletion};

use closing::{closing_number, is_bad_closing, is_bad_marking};
use lent_closed::closed::release_all;
use lent_ike::ike::{ike_at, ike_count, ike_place};
use lent_ipsec::places::ipsec_place;
use lent_shares::shares::ipsec_count_of;
use octets::limits::{IKE_PLACES, IKE_SHARE, IPSEC_SHARE};
use octets::number::{Number, told};
use opening::{both_number, child_of, ike_of, opening_fits};
use records::ike::IkeRecord;
use records::ipsec::IpsecRecord;
use tables::calls::{Opening, is_own};
use walks::store;

// Opens an IKE record and its first IPsec record, each at the lowest free place of its table, or neither.
pub fn unmavreth_open(
    ike: &mut [IkeRecord; IKE_PLACES],
    ipsec: &mut [IpsecRecord],
    opening: Opening,
) -> u8
    ensures { let opened = open_both ike.old ipsec.old opening in
        (result ≡ opened.number) × (ike.new ≡ opened.ike) × (ipsec.new ≡ opened.ipsec) }
{
    told(open_both(ike, ipsec, opening))
}

fn open_both(
    ike: &mut [IkeRecord; IKE_PLACES],
    ipsec: &mut [IpsecRecord],
    opening: Opening,
) -> Result<(), Number>
    ensures { let opened = open_both ike.old ipsec.old opening in
        (told result ≡ opened.number) × (ike.new ≡ opened.ike) × (ipsec.new ≡ opened.ipsec) }
{
    let operator = opening.agreed.operator;
    let free = ike_place(ike, 0);
    let child_free = ipsec_place(ipsec, 0);
    both_number(
        opening_fits(ipsec.len(), opening),
        ike_place(ike, opening.spi) < IKE_PLACES,
        ipsec_place(ipsec, opening.child) < ipsec.len(),
        IKE_SHARE <= ike_count(ike, operator),
        IPSEC_SHARE <= ipsec_count_of(ike, ipsec, operator),
        free < IKE_PLACES,
        child_free < ipsec.len(),
    )?;
    store(ike, free, ike_of(opening));
    store(ipsec, child_free, child_of(opening));
    Ok(())
}

// Closes an IKE record and the IPsec records that it owns.
pub fn unmavreth_close_ike(
    ike: &mut [IkeRecord; IKE_PLACES],
    ipsec: &mut [IpsecRecord],
    spi: u64,
    operator: u8,
) -> u8
    ensures { let closed = close_ike ike.old ipsec.old spi operator in
        (result ≡ closed.number) × (ike.new ≡ closed.ike) × (ipsec.new ≡ closed.ipsec) }
{
    told(close_ike(ike, ipsec, spi, operator))
}

fn close_ike(
    ike: &mut [IkeRecord; IKE_PLACES],
    ipsec: &mut [IpsecRecord],
    spi: u64,
    operator: u8,
) -> Result<(), Number>
    ensures { let closed = close_ike ike.old ipsec.old spi operator in
        (told result ≡ closed.number) × (ike.new ≡ closed.ike) × (ipsec.new ≡ closed.ipsec) }
{
    let place = ike_place(ike, spi);
    let own = is_own(place, ike_at(ike, place), operator);
    closing_number(is_bad_closing(ipsec.len(), spi, operator), own)?;
    store(ike, place, IkeRecord::none());
    release_all(ipsec, spi);
    Ok(())
}

// Marks an IKE record as being deleted, whatever its mark was; only closing it takes the mark away.
pub fn unmavreth_mark_deletion(ike: &mut [IkeRecord; IKE_PLACES], spi: u64, operator: u8) -> u8
    ensures { let marked = mark_deletion ike.old spi operator in
        (result ≡ marked.number) × (ike.new ≡ marked.ike) }
{
    told(mark_deletion(ike, spi, operator))
}

fn mark_deletion(ike: &mut [IkeRecord; IKE_PLACES], spi: u64, operator: u8) -> Result<(), Number>
    ensures { let marked = mark_deletion ike.old spi operator in
        (told result ≡ marked.number) × (ike.new ≡ marked.ike) }
{
    let place = ike_place(ike, spi);
    let own = is_own(place, ike_at(ike, place), operator);
    closing_number(is_bad_marking(spi, operator), own)?;
    let marked = ike_at(ike, place).deletion_marked();
    store(ike, place, marked);
    Ok(())
}
