// The kinds of entries, by their numbers.
ghost use Rattle.std.specs.Prelude.{◌≡◌, ok_or};
ghost use Rattle.fields.specs.declared.refusal.Refusal.TheVariants.{UnknownKind};
ghost use Rattle.entries.specs.Kinds.{kind_number};
ghost use Rattle.entries.specs.Entries.{kind_of};

use fields::refusal::Refusal;

#[derive(Clone, Copy, Debug, PartialEq, Eq)]
pub enum Kind {
    OpenBoth,
    AddIpsec,
    CloseIke,
    CloseIpsec,
    Request,
    Policy,
    CheckResponse,
    Clone,
    MarkDeletion,
}

impl TryFrom<u64> for Kind {
    type Error = Refusal;

    fn try_from(n: u64) -> Result<Kind, Refusal>
        ensures { result ≡ ok_or (kind_of n) UnknownKind }
    {
        match n {
            0 => Ok(Kind::OpenBoth),
            1 => Ok(Kind::AddIpsec),
            2 => Ok(Kind::CloseIke),
            3 => Ok(Kind::CloseIpsec),
            4 => Ok(Kind::Request),
            5 => Ok(Kind::Policy),
            6 => Ok(Kind::CheckResponse),
            7 => Ok(Kind::Clone),
            8 => Ok(Kind::MarkDeletion),
            _ => Err(Refusal::UnknownKind),
        }
    }
}

impl From<Kind> for u8 {
    ghost from_gives = { λ kind number. number ≡ kind_number kind };

    fn from(kind: Kind) -> u8 {
        match kind {
            Kind::OpenBoth => 0,
            Kind::AddIpsec => 1,
            Kind::CloseIke => 2,
            Kind::CloseIpsec => 3,
            Kind::Request => 4,
            Kind::Policy => 5,
            Kind::CheckResponse => 6,
            Kind::Clone => 7,
            Kind::MarkDeletion => 8,
        }
    }
}
