// One request as it comes in, by what was looked up for it: checks 1 to 5, its chain read, and whether its pair has to
// be held against the policy. The policy itself is lent, and looked at between this and the core's answer.
ghost use Rattle.std.specs.Prelude.{◌≡◌, ◌≢◌, IfOk, IfErr};
ghost use Rattle.octets.specs.Numbers.{number_of, told};
ghost use Rattle.checking.specs.Lookup.{request_by, early_number_at};
ghost use Rattle.responder.specs.Looked.{asks_policy, received_at};

use answering::request::LentRequest;
use checking::check::early_checks;
use checking::lookup::Looked;
use findings::seen::Seen;
use octets::number::Number;
use reader::read::{Reading, read_short};
use records::ike::Marks;

// A request that passed checks 1 to 5: whether the policy is asked of its pair, and its chain as it was read.
#[derive(Clone, Copy)]
pub struct Received {
    pub asks: bool,
    pub read: Reading,
}

// The policy is asked only of an update that is not stale.
pub fn asks_policy(seen: Seen, id: u32, marks: Marks) -> bool
    ensures { result ≡ asks_policy seen id marks }
{
    seen.update && marks.update_mark <= id as u64
}

pub fn received_at(looked: Looked, request: &LentRequest, room: usize) -> Result<Received, Number>
    ensures value { told result ≡ early_number_at looked (request_by request.now room) }
    ensures received { let q = request_by request.now room in
        IfOk result (λ received. received ≡ received_at looked q) }
    ensures refused { IfErr result (λ number. number_of number ≢ 0) }
{
    early_checks(looked, request, room)?;
    let read = read_short(request.first, request.body);
    Ok(Received {
        asks: asks_policy(read.seen, request.id, looked.marks),
        read,
    })
}
