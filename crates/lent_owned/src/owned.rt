// The IPsec records of an owner, in the lent list.
ghost use Rattle.std.specs.Prelude.{◌≡◌, map};
ghost use Rattle.records.specs.Records.{follows};

use address::pair::Pair;
use records::ipsec::IpsecRecord;

// Moves every record that is in use and has this owner.
#[tactic(auto, using(walks::proofs::Upto::upto_turn, walks::proofs::Upto::upto_done))]
pub fn follow_all(records: &mut [IpsecRecord], owner: u64, pair: Pair)
    ensures { records.new ≡ map (follows owner pair) records.old }
{
    for record in records.iter_mut() {
        record.follow(owner, pair);
    }
}
