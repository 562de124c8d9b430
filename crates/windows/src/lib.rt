// Entries of a trace that comes in pieces, read through a window: a buffer with the octets that were read and not yet
// used.
#![tactic(auto)]

ghost use Rattle.std.specs.Prelude.{◌≡◌, ◌≤◌, length};
ghost use Rattle.writing.specs.Notify.{placed};
ghost use Rattle.fields.specs.Reading.{slots_of};
ghost use Rattle.entries.specs.Entries.{entry_at};
ghost use Rattle.entries.specs.Slots.{entry_slots};
ghost use Rattle.windows.specs.Windows.{next_in, refused_in, Within};

use entries::kind::Kind;
use fields::refusal::Refusal;
use reading_entries::read_entry;

#[derive(Clone, Copy, Debug, PartialEq, Eq)]
pub enum Next {
    // its kind, and the offset after it
    Entry(Kind, usize),
    // more octets are wanted
    More,
    // the trace is read to its end
    End,
}

// So many octets decide every entry: a request's, with two NAT values, a body and a cookie of 4,096 octets each, and an
// operator of ten octets, which is too large.
pub const ENTRY_SIGHT: usize = 16465;

// What a refusal within the window says, with so many octets in sight: one for a cut entry may come of the window's
// end.
fn refused_in(ended: bool, seen: usize, why: Refusal) -> Result<Next, Refusal>
    ensures { result ≡ refused_in ended seen why }
{
    if why == Refusal::Cut && !ended && seen < ENTRY_SIGHT {
        Ok(Next::More)
    } else {
        Err(why)
    }
}

// What stands at `at` of the window; `ended` says that nothing comes after the window.
pub fn next_entry(window: &[u8], at: usize, ended: bool, slots: &mut [u64]) -> Result<Next, Refusal>
    requires { entry_slots ≤ length slots.old }
    ensures value { result ≡ next_in window.now at ended }
    ensures slots { let reading = entry_at window.now at in
        slots.new ≡ placed slots.old 0 (slots_of reading) }
    ensures within { Within window.now at result }
{
    if at >= window.len() {
        return Ok(if ended { Next::End } else { Next::More });
    }
    match read_entry(window, at, slots) {
        Ok((kind, next)) => Ok(Next::Entry(kind, next)),
        Err(why) => refused_in(ended, window.len() - at, why),
    }
}
