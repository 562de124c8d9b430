// Replays a trace from standard input, however long it is: makes each entry's call on tables and policies that are
// empty at first, and prints a line for each; at the end each record's pair, or where the trace is refused.
#![tactic(auto)]

use acting::perform;
use advancing::{advance, report};
use empty::{no_ikes, no_ipsecs, no_policies, no_response, no_window};
use replaying::state::State;
use std::io;

fn main(rt: HostRuntime) -> io::Result<()> {
    let mut input = rt.stdin();
    let mut output = rt.stdout();
    let mut ike = no_ikes();
    let mut ipsec = no_ipsecs();
    let mut policies = no_policies();
    let mut window = no_window();
    let mut out = no_response();
    let mut s = State::begin();
    // Nothing here tells how long a trace is: the count is what shows that the loop ends.
    let mut turns = u64::MAX;
    while turns > 0 && s.going {
        s = advance(&mut input, &mut window, s)?;
        let o = perform(
            &mut ike,
            &mut ipsec,
            &mut policies,
            &window,
            s.entry,
            &mut out,
        );
        s = report(&mut output, s, o)?;
        turns -= 1;
    }
    Ok(())
}
