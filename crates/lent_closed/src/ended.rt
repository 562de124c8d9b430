// The IPsec records of an owner whose return routability check ended, in the lent list.
ghost use Rattle.std.specs.Prelude.{◌≡◌, cond, map};
ghost use Rattle.records.specs.Records.{follows, released};

use crate::closed::release_all;
use address::pair::Pair;
use lent_owned::owned::follow_all;
use records::ipsec::IpsecRecord;

// Closes the records of an owner that is closed; else moves them, if the owner's pair was confirmed.
pub fn end_owned(records: &mut [IpsecRecord], closes: bool, moves: bool, owner: u64, pair: Pair)
    ensures { let before = records.old in
        let followed = cond moves (map (follows owner pair) before) before in
        records.new ≡ cond closes (map (released owner) before) followed }
{
    if closes {
        release_all(records, owner);
    } else if moves {
        follow_all(records, owner, pair);
    }
}
