// The fields of a kind of entry, written into an output from an offset on. The values fit, and there is room
// (`sizing_kinds`).
#![tactic(auto)]

ghost use Rattle.fields.specs.Codes.{Ready, Puts};
ghost use Rattle.fields.specs.Writing.{octets_in};
ghost use Rattle.entries.specs.Kinds.{fields_of};

use entries::kind::Kind;
use fields::lent_values::LentValues;
use reading_kinds::tables::{
    ADD_IPSEC, CHECK_RESPONSE, CLONE, CLOSE_IKE, CLOSE_IPSEC, DELETION_MARK, OPEN_BOTH, POLICY,
    REQUEST,
};
use writing_tables::{put_listed, put_table};

pub fn put_fields(out: &mut [u8], at: usize, kind: Kind, slots: &[u64], source: &[u8]) -> usize
    requires { Ready (fields_of kind) source.now slots.now 0 out.old at }
    ensures { let octets = octets_in (fields_of kind) source.now slots.now in
        Puts octets out.old at out.new result }
{
    let values = LentValues { slots, source };
    match kind {
        Kind::OpenBoth => put_table(out, at, &OPEN_BOTH, values, 0),
        Kind::AddIpsec => put_table(out, at, &ADD_IPSEC, values, 0),
        Kind::CloseIke => put_table(out, at, &CLOSE_IKE, values, 0),
        Kind::CloseIpsec => put_table(out, at, &CLOSE_IPSEC, values, 0),
        Kind::Request => put_table(out, at, &REQUEST, values, 0),
        Kind::Policy => put_listed(out, at, POLICY, values, 0),
        Kind::CheckResponse => put_table(out, at, &CHECK_RESPONSE, values, 0),
        Kind::Clone => put_table(out, at, &CLONE, values, 0),
        Kind::MarkDeletion => put_table(out, at, &DELETION_MARK, values, 0),
    }
}
