// The decision on one record, by its marks: what a request that was read changes in it, and what it is answered.
ghost use Rattle.std.specs.Prelude.{◌≡◌, ◌<◌};
ghost use Rattle.values.specs.Values.{no_nats_seen};
ghost use Rattle.verdict.specs.Verdict.{verdict};
ghost use Rattle.deciding.specs.Decide.{effect_number, tallied, has_list, left_off};
ghost use Rattle.deciding.specs.Decide.{list_decided, update_decided, decided};

use address::pair::Pair;
use findings::seen::Seen;
use octets::limits::ADDRESSES_MOST;
use records::ike::Marks;
use verdict::update::{Verdict, verdict_seen};

// What became of an update or a list: 01's none, applied or replaced, stale.
#[derive(Clone, Copy, PartialEq, Eq)]
pub enum Effect {
    None,
    Done,
    Stale,
}

// 01's numbers for what is told of a decision.
impl From<Effect> for u8 {
    ghost from_gives = { λ e n. n ≡ effect_number e };

    fn from(e: Effect) -> u8 {
        match e {
            Effect::None => 0,
            Effect::Done => 1,
            Effect::Stale => 2,
        }
    }
}

// The decision: the verdict on the update (accepted where there is none to refuse), what became of the update and of
// the list, how many addresses were left off, and the marks after it.
#[derive(Clone, Copy)]
pub struct Decision {
    pub verdict: Verdict,
    pub update: Effect,
    pub list: Effect,
    pub left_off: u16,
    pub marks: Marks,
}

// The tally with n more; it stays at its greatest value once there.
pub fn add_tally(old: u32, n: u32) -> u32
    ensures { result ≡ tallied old n }
{
    old.saturating_add(n)
}

// Whether the request carries a list of additional addresses, an empty one counted.
pub fn carries_list(seen: Seen) -> bool
    ensures { result ≡ has_list seen }
{
    seen.no_additional || seen.list.count != 0
}

// How many of n addresses are left off.
pub fn left_off(n: u16) -> u16
    ensures { result ≡ left_off n }
{
    n.saturating_sub(ADDRESSES_MOST as u16)
}

// Step 3: an ID above the list mark replaces the list; what became of the update is told on.
#[tactic(auto, unfolding(crate::specs::Decide::list_decided))]
pub fn decide_list(seen: Seen, id: u32, update: Effect, marks: Marks) -> Decision
    ensures { result ≡ list_decided seen id update marks }
{
    let mut decision = Decision {
        verdict: Verdict::Accepted,
        update,
        list: Effect::None,
        left_off: 0,
        marks,
    };
    if carries_list(seen) {
        if marks.list_mark <= id as u64 {
            decision.list = Effect::Done;
            decision.left_off = left_off(seen.list.count);
            decision.marks.list_mark = id as u64 + 1;
        } else {
            decision.list = Effect::Stale;
        }
    }
    decision
}

// Step 2, then step 3 unless the update was refused. The verdict is asked for only where the update is not stale.
#[tactic(auto, unfolding(crate::specs::Decide::update_decided))]
pub fn decide_update(
    accepted: bool,
    body: &[u8],
    seen: Seen,
    pair: Pair,
    id: u32,
    marks: Marks,
) -> Decision
    ensures { let v = verdict accepted (no_nats_seen body.now seen) pair in
        result ≡ update_decided v seen id marks }
{
    if !seen.update {
        return decide_list(seen, id, Effect::None, marks);
    }
    if (id as u64) < marks.update_mark {
        return decide_list(seen, id, Effect::Stale, marks);
    }
    let mut received = marks;
    received.update_mark = id as u64 + 1;
    let verdict = verdict_seen(accepted, body, seen, pair);
    if verdict.is_accepted() {
        return decide_list(seen, id, Effect::Done, received);
    }
    Decision {
        verdict,
        update: Effect::None,
        list: Effect::None,
        left_off: 0,
        marks: received,
    }
}

// Steps 1 to 3 on what was seen in a body, by the marks of the record that the request means.
#[tactic(auto, unfolding(crate::specs::Decide::decided))]
pub fn decide(
    accepted: bool,
    body: &[u8],
    seen: Seen,
    pair: Pair,
    id: u32,
    marks: Marks,
) -> Decision
    ensures { result ≡ decided accepted (no_nats_seen body.now seen) seen pair id marks }
{
    let t = seen.tally;
    let unknown = t.unknown_payloads as u32 + t.unknown_notifies as u32;
    let mut counted = marks;
    counted.unknown = add_tally(marks.unknown, unknown);
    decide_update(accepted, body, seen, pair, id, counted)
}
