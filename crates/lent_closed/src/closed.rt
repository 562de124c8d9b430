// The IPsec records of an owner that is closed, in the lent list.
ghost use Rattle.std.specs.Prelude.{◌≡◌, map};
ghost use Rattle.records.specs.Records.{released};

use records::ipsec::IpsecRecord;

// Closes every record that is in use and has this owner.
#[tactic(auto, using(walks::proofs::Upto::upto_turn, walks::proofs::Upto::upto_done))]
pub fn release_all(records: &mut [IpsecRecord], owner: u64)
    ensures { records.new ≡ map (released owner) records.old }
{
    for record in records.iter_mut() {
        record.release(owner);
    }
}
