// A request as it is lent: the SPI that it means, its message ID, addresses and ports of its packet, the two NAT
// detection values that its response may give, the type of the first payload, its body, the check of ours that is kept
// if it moves the record, and the operator that it is handled for.
use address::pair::Pair;
use records::check::PendingCheck;

#[derive(Clone, Copy)]
pub struct LentRequest<'a> {
    pub spi: u64,
    pub id: u32,
    pub pair: Pair,
    pub nat_source: &'a [u8],
    pub nat_destination: &'a [u8],
    pub first: u8,
    pub body: &'a [u8],
    pub check: PendingCheck,
    pub operator: u8,
}
