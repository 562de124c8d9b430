// IPsec records opened and closed, for C.
ghost use Rattle.std.specs.Prelude.{◌≡◌};
ghost use Rattle.tables.specs.Calls.{open_ipsec, close_ipsec};

use octets::limits::IKE_PLACES;
use records::ike::IkeRecord;
use records::ipsec::IpsecRecord;

// Opens another IPsec record at the lowest free place, with the pair of its IKE record.
#[unsafe(no_mangle)]
pub extern "C" fn unmavreth_open_ipsec(
    ike: &[IkeRecord; IKE_PLACES],
    ipsec: &mut [IpsecRecord],
    spi: u32,
    owner: u64,
    operator: u8,
) -> u8
    ensures { let added = open_ipsec ike.now ipsec.old spi owner operator in
        (result ≡ added.number) × (ipsec.new ≡ added.ipsec) }
{
    host_ipsec::unmavreth_open_ipsec(ike, ipsec, spi, owner, operator)
}

// Closes an IPsec record. The IKE table is lent for reading, since whose the record is goes by its owner.
#[unsafe(no_mangle)]
pub extern "C" fn unmavreth_close_ipsec(
    ike: &[IkeRecord; IKE_PLACES],
    ipsec: &mut [IpsecRecord],
    spi: u32,
    operator: u8,
) -> u8
    ensures { let closed = close_ipsec ike.now ipsec.old spi operator in
        (result ≡ closed.number) × (ipsec.new ≡ closed.ipsec) }
{
    host_ipsec::unmavreth_close_ipsec(ike, ipsec, spi, operator)
}
