// Where a replay stands after a turn.
#![tactic(auto)]

ghost use Rattle.std.specs.Prelude.{◌≡◌, ◌≤◌};
ghost use Rattle.replaying.specs.Turns.{place_after, to_show, after, after_call, after_show};
ghost use Rattle.replaying.specs.Standing.{Standing};

use given::reading::{Asked, Slots};
use octets::limits::{IKE_PLACES, IPSEC_PLACES};
use replaying::state::{State, Turn};

// The place that is shown after this one; behind the last IKE record come the IPsec records.
fn place_after(e: Slots) -> Slots
    ensures { result ≡ place_after e }
{
    let place = e.slots[0].wrapping_add(1);
    let mut n = e;
    n.slots[0] = place;
    if matches!(e.asked, Asked::ShowIke) && place as usize == IKE_PLACES {
        n.asked = Asked::ShowIpsec;
        n.slots[0] = 0;
    }
    n
}

// Whether a record is left to be shown.
fn to_show(e: Slots, going: bool) -> bool
    ensures { result ≡ to_show e going }
{
    match e.asked {
        Asked::ShowIpsec => (e.slots[0] as usize) < IPSEC_PLACES,
        _ => going,
    }
}

// The state after a call.
fn after_call(s: State) -> State
    requires { s.at ≤ s.next }
    ensures { result ≡ after_call s }
{
    State {
        ordinal: s.ordinal.wrapping_add(1),
        offset: s.offset.wrapping_add((s.next - s.at) as u64),
        at: s.next,
        ..s
    }
}

// The state after a record was shown.
fn after_show(s: State) -> State
    ensures { result ≡ after_show s }
{
    let entry = place_after(s.entry);
    State {
        entry,
        going: to_show(entry, s.going),
        ..s
    }
}

// The state after a turn.
pub fn turn_after(s: State) -> State
    requires { Standing s }
    ensures value { result ≡ after s }
    ensures stands { Standing result }
    ensures size { result.len ≡ s.len }
{
    match s.turn {
        Turn::More => s,
        Turn::Call => after_call(s),
        Turn::Refuse(_) => State { going: false, ..s },
        Turn::Show => after_show(s),
    }
}
