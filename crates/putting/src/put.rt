// The parts of a request, each put into the output behind the one before it, and the payload types between them.
ghost use Rattle.std.specs.Prelude.{◌≡◌, true, [], ◌∷◌, ◌+◌, ◌*◌, ◌≤◌, length};
ghost use Rattle.octets.specs.Limits.{notify_header, nat_octets, addresses_most, cookie_most};
ghost use Rattle.octets.specs.Wire.{no_nats_allowed};
ghost use Rattle.address.specs.Address.{families_of, octets_of};
ghost use Rattle.writing.specs.Notify.{notification};
ghost use Rattle.writing.specs.Wrote.{Wrote};
ghost use Rattle.asking.specs.Draft.{if_asked, address_notify_type, address_notify, address_notifies, pair_octets};
ghost use Rattle.writing.specs.Parts.{nat_notifies};
ghost use Rattle.asking.specs.Draft.{tail_notifies};
ghost use Rattle.putting.specs.Put.{no_nats_room, nats_room, address_room, tail_room, TypeIf, TailType};

use address::address::{Address, width_of};
use address::pair::Pair;
use asking::no_nats::no_nats_octets;
use notify::notify::NotifyType;
use octets::limits::PORT_SIZE;
use octets::wire::NOTIFY_PAYLOAD;
use writing::put_notify;

// The type of what stands here: a Notify if one is asked for, else what follows. (Here and below `asked` is what the
// host asks for, as `if_asked` has it.)
pub fn type_if(asked: bool, next: u8) -> u8
    ensures { TypeIf asked next result }
{
    if asked { NOTIFY_PAYLOAD } else { next }
}

// Writes a notification if it is asked for, and returns the offset after it.
pub fn put_if(
    out: &mut [u8],
    at: usize,
    asked: bool,
    next: u8,
    notify_type: u16,
    octets: &[u8],
) -> usize
    requires octets_in_bounds { at + notify_header + length octets.now ≤ length out.old }
    requires octets_len_bound { length octets.now ≤ cookie_most }
    ensures { let notifies = if_asked asked (notification notify_type octets.now ∷ []) in
        Wrote out.old at notifies next out.new result }
{
    if asked {
        return put_notify(out, at, next, notify_type, octets);
    }
    at
}

// The notify type of an additional address.
pub fn address_notify_type(family: u8) -> u16
    ensures { result ≡ address_notify_type family }
{
    if family == 4 {
        NotifyType::ADDITIONAL_IP4_ADDRESS
    } else {
        NotifyType::ADDITIONAL_IP6_ADDRESS
    }
}

// Writes one additional address, and returns the offset after it.
pub fn put_address(out: &mut [u8], at: usize, next: u8, address: Address) -> usize
    requires { at + address_room ≤ length out.old }
    ensures { let notify = address_notify address.family address.octets in
        Wrote out.old at (notify ∷ []) next out.new result }
{
    let notify_type = address_notify_type(address.family);
    let width = width_of(address.family) as usize;
    put_notify(out, at, next, notify_type, &address.octets[..width])
}

// Writes additional addresses one behind the other; `next` is the type of what follows the last.
pub fn put_addresses(out: &mut [u8], at: usize, next: u8, addresses: &[Address]) -> usize
    requires { at + length addresses.now * address_room ≤ length out.old }
    ensures { let notifies = address_notifies (families_of addresses.now) (octets_of addresses.now) in
        Wrote out.old at notifies next out.new result }
{
    let mut end = at;
    for (i, address) in addresses.iter().enumerate() {
        let following = type_if(i + 1 != addresses.len(), next);
        end = put_address(out, end, following, *address);
    }
    end
}

// NO_NATS_ALLOWED with the packet's addresses and ports, if it is asked for.
pub fn put_no_nats(out: &mut [u8], at: usize, asked: bool, next: u8, pair: Pair) -> usize
    requires { at + no_nats_room ≤ length out.old }
    ensures { let notifies = if_asked asked (notification no_nats_allowed (pair_octets pair) ∷ []) in
        Wrote out.old at notifies next out.new result }
{
    let octets = no_nats_octets(pair);
    let width = width_of(pair.family) as usize;
    let size = 2 * width + 2 * PORT_SIZE;
    put_if(
        out,
        at,
        asked,
        next,
        NotifyType::NO_NATS_ALLOWED,
        &octets[..size],
    )
}

// Both NAT detection values, source first, if they are asked for.
pub fn put_nats(
    out: &mut [u8],
    at: usize,
    asked: bool,
    next: u8,
    nat_source: &[u8],
    nat_destination: &[u8],
) -> usize
    requires nats_room_in_bounds { at + nats_room ≤ length out.old }
    requires nat_source_len { asked ≡ true → (length nat_source.now ≡ nat_octets) × (length nat_destination.now ≡ nat_octets) }
    ensures { let notifies = if_asked asked (nat_notifies nat_source.now nat_destination.now) in
        Wrote out.old at notifies next out.new result }
{
    if asked {
        let end = put_notify(
            out,
            at,
            NOTIFY_PAYLOAD,
            NotifyType::NAT_DETECTION_SOURCE_IP,
            nat_source,
        );
        return put_notify(
            out,
            end,
            next,
            NotifyType::NAT_DETECTION_DESTINATION_IP,
            nat_destination,
        );
    }
    at
}

// The type of the first payload of a request's end, 0 if there is none.
pub fn tail_type(no_additional: bool, count: usize, cookie_length: usize) -> u8
    ensures { TailType no_additional count cookie_length result }
{
    type_if(
        no_additional,
        type_if(count != 0, type_if(cookie_length != 0, 0)),
    )
}

// The end of a request: NO_ADDITIONAL_ADDRESSES or the addresses, then the cookie.
pub fn put_tail(
    out: &mut [u8],
    at: usize,
    no_additional: bool,
    addresses: &[Address],
    cookie: &[u8],
) -> usize
    requires tail_room_in_bounds { (at + tail_room ≤ length out.old) × (length cookie.now ≤ cookie_most) }
    requires count_le_addresses_most { let count = length addresses.now in
        (count ≤ addresses_most) × (no_additional ≡ true → count ≡ 0) }
    ensures { let count = length addresses.now in
        let families = families_of addresses.now in
        let notifies = tail_notifies no_additional count families (octets_of addresses.now) cookie.now in
        Wrote out.old at notifies 0 out.new result }
{
    let after = tail_type(false, 0, cookie.len());
    let before = tail_type(false, addresses.len(), cookie.len());
    let listed = put_if(
        out,
        at,
        no_additional,
        before,
        NotifyType::NO_ADDITIONAL_ADDRESSES,
        &[],
    );
    let end = put_addresses(out, listed, after, addresses);
    put_if(out, end, cookie.len() != 0, 0, NotifyType::COOKIE2, cookie)
}
