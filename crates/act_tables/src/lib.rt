// The entries that open and close records and mark one: each is passed on to the call that a host links, with its
// operator.
#![tactic(auto)]

ghost use Rattle.acts.specs.Performed.{Performs, opened_by, added_by, closed_by, child_closed_by, marked_by};

use calling::{adder_in, child_in, closer_in, opening_in, owner_in, spi_in};
use given::outcome::Outcome;
use given::reading::Slots;
use host_ike::{unmavreth_close_ike, unmavreth_mark_deletion, unmavreth_open};
use host_ipsec::{unmavreth_close_ipsec, unmavreth_open_ipsec};
use octets::limits::{IKE_PLACES, OPERATORS};
use policy::rules::Policy;
use records::ike::IkeRecord;
use records::ipsec::IpsecRecord;

// Opens an IKE record and its first IPsec record.
pub fn open_entry(
    ike: &mut [IkeRecord; IKE_PLACES],
    ipsec: &mut [IpsecRecord],
    policies: &mut [Policy; OPERATORS],
    window: &[u8],
    e: Slots,
) -> Outcome
    ensures { let act = opened_by window.now e.slots in
        Performs act ike.old ipsec.old policies.old
        result ike.new ipsec.new policies.new }
{
    Outcome::numbered(unmavreth_open(ike, ipsec, opening_in(window, e)))
}

// Opens another IPsec record.
pub fn add_entry(
    ike: &mut [IkeRecord; IKE_PLACES],
    ipsec: &mut [IpsecRecord],
    policies: &mut [Policy; OPERATORS],
    e: Slots,
) -> Outcome
    ensures { let act = added_by e.slots in
        Performs act ike.old ipsec.old policies.old
        result ike.new ipsec.new policies.new }
{
    let number = unmavreth_open_ipsec(ike, ipsec, child_in(e), owner_in(e), adder_in(e));
    Outcome::numbered(number)
}

// Closes an IKE record.
pub fn close_entry(
    ike: &mut [IkeRecord; IKE_PLACES],
    ipsec: &mut [IpsecRecord],
    policies: &mut [Policy; OPERATORS],
    e: Slots,
) -> Outcome
    ensures { let act = closed_by e.slots in
        Performs act ike.old ipsec.old policies.old
        result ike.new ipsec.new policies.new }
{
    let number = unmavreth_close_ike(ike, ipsec, spi_in(e), closer_in(e));
    Outcome::numbered(number)
}

// Closes an IPsec record.
pub fn close_child_entry(
    ike: &mut [IkeRecord; IKE_PLACES],
    ipsec: &mut [IpsecRecord],
    policies: &mut [Policy; OPERATORS],
    e: Slots,
) -> Outcome
    ensures { let act = child_closed_by e.slots in
        Performs act ike.old ipsec.old policies.old
        result ike.new ipsec.new policies.new }
{
    let number = unmavreth_close_ipsec(ike, ipsec, child_in(e), closer_in(e));
    Outcome::numbered(number)
}

// Marks an IKE record as being deleted.
pub fn mark_entry(
    ike: &mut [IkeRecord; IKE_PLACES],
    ipsec: &mut [IpsecRecord],
    policies: &mut [Policy; OPERATORS],
    e: Slots,
) -> Outcome
    ensures { let act = marked_by e.slots in
        Performs act ike.old ipsec.old policies.old
        result ike.new ipsec.new policies.new }
{
    let number = unmavreth_mark_deletion(ike, spi_in(e), closer_in(e));
    Outcome::numbered(number)
}
