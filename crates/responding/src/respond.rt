// The response payloads, written from the output's start.
ghost use Rattle.std.specs.Prelude.{◌≡◌, ◌+◌, ◌≤◌, length};
ghost use Rattle.octets.specs.Limits.{cookie_most, notify_header, response_room};
ghost use Rattle.writing.specs.Notify.{first_type};
ghost use Rattle.writing.specs.Parts.{cookie_notifies};
ghost use Rattle.writing.specs.Wrote.{Wrote};
ghost use Rattle.responding.specs.Respond.{error_then, response_to, wants_nats};
ghost use Rattle.responding.specs.Put.{Responds, NatsSized};
ghost use Rattle.verdict.specs.declared.update.Verdict.TheVariants.{Accepted};

use findings::seen::Seen;
use notify::notify::NotifyType;
use octets::wire::NOTIFY_PAYLOAD;
use verdict::update::Verdict;
use writing::put_notify;

// What is told of a response: the type of its first payload, and how many octets it has; both 0, the default, where
// nothing was written.
#[derive(Clone, Copy, Default)]
pub struct Response {
    pub first: u8,
    pub length: u16,
}

// The type of what follows: a Notify where there is a cookie to copy.
pub fn cookie_type(cookie: &[u8]) -> u8
    ensures { result ≡ first_type (cookie_notifies cookie.now) 0 }
{
    if cookie.len() == 0 { 0 } else { NOTIFY_PAYLOAD }
}

// COOKIE2 unchanged, if there is one, as the last payload.
pub fn put_cookie(out: &mut [u8], at: usize, cookie: &[u8]) -> usize
    requires cookie_most_in_bounds { at + notify_header + cookie_most ≤ length out.old }
    requires cookie_len_bound { length cookie.now ≤ cookie_most }
    ensures { Wrote out.old at (cookie_notifies cookie.now) 0 out.new result }
{
    if cookie.len() == 0 {
        return at;
    }
    put_notify(out, at, 0, NotifyType::COOKIE2, cookie)
}

// An error of this notify type, with at most one octet of data; then the cookie.
pub fn put_error(out: &mut [u8], notify_type: u16, octets: &[u8], cookie: &[u8]) -> Response
    requires response_room_in_bounds { response_room ≤ length out.old }
    requires octets_len_bound { (length octets.now ≤ 1) × (length cookie.now ≤ cookie_most) }
    ensures { let xs = error_then notify_type octets.now cookie.now in
        Responds xs out.old out.new result }
{
    let next = cookie_type(cookie);
    let at = put_notify(out, 0, next, notify_type, octets);
    let end = put_cookie(out, at, cookie);
    Response {
        first: NOTIFY_PAYLOAD,
        length: end as u16,
    }
}

// The two lent NAT detection values, source first, if they are wanted, a flag in `response_to` too; then the cookie.
pub fn put_done(
    out: &mut [u8],
    wanted: bool,
    nat_source: &[u8],
    nat_destination: &[u8],
    cookie: &[u8],
) -> Response
    requires response_room_in_bounds { (response_room ≤ length out.old) × (length cookie.now ≤ cookie_most) }
    requires nats_sized { NatsSized nat_source.now nat_destination.now }
    ensures { let nat-source = nat_source.now in
        let xs = response_to Accepted wanted nat-source nat_destination.now cookie.now in
        Responds xs out.old out.new result }
{
    let next = cookie_type(cookie);
    if wanted {
        let at = put_notify(
            out,
            0,
            NOTIFY_PAYLOAD,
            NotifyType::NAT_DETECTION_SOURCE_IP,
            nat_source,
        );
        let behind = put_notify(
            out,
            at,
            next,
            NotifyType::NAT_DETECTION_DESTINATION_IP,
            nat_destination,
        );
        let end = put_cookie(out, behind, cookie);
        return Response {
            first: NOTIFY_PAYLOAD,
            length: end as u16,
        };
    }
    let end = put_cookie(out, 0, cookie);
    Response {
        first: next,
        length: end as u16,
    }
}

// Whether the response gives the two lent NAT detection values.
pub fn wants_nats(seen: Seen) -> bool
    ensures { result ≡ wants_nats seen }
{
    seen.nat_source != 0 && seen.nat_destination != 0
}

// Step 4: the response to a request that was decided with this verdict.
pub fn respond_decided(
    verdict: Verdict,
    wanted: bool,
    nat_source: &[u8],
    nat_destination: &[u8],
    cookie: &[u8],
    out: &mut [u8],
) -> Response
    requires response_room_in_bounds { (response_room ≤ length out.old) × (length cookie.now ≤ cookie_most) }
    requires nats_sized { NatsSized nat_source.now nat_destination.now }
    ensures { let nat-source = nat_source.now in
        let xs = response_to verdict wanted nat-source nat_destination.now cookie.now in
        Responds xs out.old out.new result }
{
    match verdict {
        Verdict::Accepted => put_done(out, wanted, nat_source, nat_destination, cookie),
        Verdict::Altered => put_error(out, NotifyType::UNEXPECTED_NAT_DETECTED, &[], cookie),
        Verdict::Unacceptable => put_error(out, NotifyType::UNACCEPTABLE_ADDRESSES, &[], cookie),
    }
}
