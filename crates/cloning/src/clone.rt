// A clone request as it is lent, what is looked up for it, and what it comes to: what is told, and the record to store.
use records::ike::IkeRecord;

// A CREATE_CHILD_SA request that rekeys an IKE SA: the SPI that it means, the new one, the type of its first payload,
// its body, and the operator that it is answered for.
#[derive(Clone, Copy)]
pub struct LentCloneRequest<'a> {
    pub spi: u64,
    pub new_spi: u64,
    pub first: u8,
    pub body: &'a [u8],
    pub operator: u8,
}

// The lowest place with its SPI and the record there, the lowest free place, the lowest with the new SPI (past the
// table's end where there is none), and how many records the peer has and the operator.
#[derive(Clone, Copy)]
pub struct CloneLooked {
    pub place: usize,
    pub entry: IkeRecord,
    pub free: usize,
    pub taken: usize,
    pub records: usize,
    pub own: usize,
}

// All that is told of a clone request, as the host gets it.
#[repr(C)]
#[derive(Clone, Copy, Default)]
pub struct CloneReply {
    pub number: u8,
    // The type of the response's first payload; 0: nothing was written.
    pub first: u8,
    pub payloads: u16,
    pub offset: u16,
    pub ordinal: u16,
    // How many octets the response has.
    pub length: u16,
}

// What is told, and the record to store at the lowest free place; none with a refusal.
#[derive(Clone, Copy)]
pub struct CloneAnswer {
    pub reply: CloneReply,
    pub clone: Option<IkeRecord>,
}
