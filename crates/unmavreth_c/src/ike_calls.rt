// IKE records opened with an IPsec record, closed with what they own, and marked, for C.
ghost use Rattle.std.specs.Prelude.{◌≡◌};
ghost use Rattle.tables.specs.Calls.{open_both, close_ike, mark_deletion};

use octets::limits::IKE_PLACES;
use records::ike::IkeRecord;
use records::ipsec::IpsecRecord;
use tables::calls::Opening;

// Opens an IKE record and its first IPsec record, each at the lowest free place of its table, or neither.
#[unsafe(no_mangle)]
pub extern "C" fn unmavreth_open(
    ike: &mut [IkeRecord; IKE_PLACES],
    ipsec: &mut [IpsecRecord],
    opening: Opening,
) -> u8
    ensures { let opened = open_both ike.old ipsec.old opening in
        (result ≡ opened.number) × (ike.new ≡ opened.ike) × (ipsec.new ≡ opened.ipsec) }
{
    host_ike::unmavreth_open(ike, ipsec, opening)
}

// Closes an IKE record and the IPsec records that it owns.
#[unsafe(no_mangle)]
pub extern "C" fn unmavreth_close_ike(
    ike: &mut [IkeRecord; IKE_PLACES],
    ipsec: &mut [IpsecRecord],
    spi: u64,
    operator: u8,
) -> u8
    ensures { let closed = close_ike ike.old ipsec.old spi operator in
        (result ≡ closed.number) × (ike.new ≡ closed.ike) × (ipsec.new ≡ closed.ipsec) }
{
    host_ike::unmavreth_close_ike(ike, ipsec, spi, operator)
}

// Marks an IKE record as being deleted, whatever its mark was; only closing it takes the mark away.
#[unsafe(no_mangle)]
pub extern "C" fn unmavreth_mark_deletion(
    ike: &mut [IkeRecord; IKE_PLACES],
    spi: u64,
    operator: u8,
) -> u8
    ensures { let marked = mark_deletion ike.old spi operator in
        (result ≡ marked.number) × (ike.new ≡ marked.ike) }
{
    host_ike::unmavreth_mark_deletion(ike, spi, operator)
}
