// The record that a request means, after the answer to it.
ghost use Rattle.std.specs.Prelude.{◌≡◌};
ghost use Rattle.replying.specs.Change.{changed_by};

use crate::reply::CoreAnswer;
use address::pair::Pair;
use records::check::PendingCheck;
use records::ike::IkeRecord;
use values::{addresses_in, kept_count};

// The record after an answer. The list is built only where it is replaced.
#[tactic(auto, unfolding(crate::specs::Change::changed_by))]
pub fn changed(
    entry: IkeRecord,
    a: CoreAnswer,
    pair: Pair,
    check: PendingCheck,
    body: &[u8],
) -> IkeRecord
    ensures { result ≡ changed_by a pair check body.now entry }
{
    let after = entry.remarked(a.marks, a.moves(), pair, check);
    if a.replaces_list() {
        return after.relisted(kept_count(a.list.count), addresses_in(body, a.list));
    }
    after
}
