// IPsec records, and what becomes of one when its owner is closed or moves.
ghost use Rattle.std.specs.Prelude.{◌≡◌, ◌&&◌, not, eqb};
ghost use Rattle.records.specs.Records.{released, follows, no_ipsec};

use address::pair::Pair;

#[repr(C)]
#[derive(Clone, Copy, Default)]
pub struct IpsecRecord {
    pub spi: u32,
    pub owner: u64,
    pub pair: Pair,
}

impl IpsecRecord {
    // A free place.
    #[tactic(auto, using(crate::proofs::Zeros::ipsec_zero))]
    pub fn none() -> IpsecRecord
        ensures { result ≡ no_ipsec }
    {
        IpsecRecord::default()
    }

    // Whether it is in use and has this owner. Most records have another, so the owner is asked first.
    fn is_owned_by(&self, owner: u64) -> bool
        ensures { result ≡ not (eqb self.now.spi 0) && eqb self.now.owner owner }
    {
        self.owner == owner && self.spi != 0
    }

    // Closes the record if it is in use and has this owner.
    pub fn release(&mut self, owner: u64)
        ensures { self.new ≡ released owner self.old }
    {
        if self.is_owned_by(owner) {
            *self = IpsecRecord::none();
        }
    }

    // Moves the record to a pair if it is in use and has this owner.
    pub fn follow(&mut self, owner: u64, pair: Pair)
        ensures { self.new ≡ follows owner pair self.old }
    {
        if self.is_owned_by(owner) {
            self.pair = pair;
        }
    }
}
