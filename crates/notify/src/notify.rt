// Notify types: their numbers, as `octets/specs/Wire.antt` has them, which of them this gateway knows, and the data
// that each may carry.
ghost use Rattle.std.specs.Prelude.{◌≡◌, length};
ghost use Rattle.notify.specs.Notify.{kind_of, data_fits, is_unknown, is_error};

use octets::limits::{
    COOKIE_LEAST, COOKIE_MOST, IP4_OCTETS, IP6_OCTETS, NAT_OCTETS, NO_NATS_LEAST, NO_NATS_MOST,
};

// A notify type as it stands in a Notify payload. 01: "The numbers belong to the notify type as its named constants."
#[derive(Clone, Copy, PartialEq, Eq, Debug)]
pub struct NotifyType {
    pub number: u16,
}

// What a notify type means to this gateway. The last four are not in the table of types that it reads, so they are
// tallied as unknown; the first three of them are errors.
#[derive(Clone, Copy, PartialEq, Eq, Debug)]
pub enum NotifyKind {
    NatDetectionSource,
    NatDetectionDestination,
    MobikeSupported,
    AdditionalIp4,
    AdditionalIp6,
    NoAdditionalAddresses,
    UpdateSaAddresses,
    Cookie2,
    NoNatsAllowed,
    UnacceptableAddresses,
    UnexpectedNatDetected,
    OtherError,
    OtherStatus,
}

impl NotifyType {
    pub const UNSUPPORTED_CRITICAL_PAYLOAD: u16 = 1;

    pub const INVALID_SYNTAX: u16 = 7;

    pub const NO_ADDITIONAL_SAS: u16 = 35;

    pub const UNACCEPTABLE_ADDRESSES: u16 = 40;

    pub const UNEXPECTED_NAT_DETECTED: u16 = 41;

    pub const TEMPORARY_FAILURE: u16 = 43;

    // The types below this one are errors, the others give a status.
    pub const FIRST_STATUS: u16 = 16384;

    pub const NAT_DETECTION_SOURCE_IP: u16 = 16388;

    pub const NAT_DETECTION_DESTINATION_IP: u16 = 16389;

    pub const MOBIKE_SUPPORTED: u16 = 16396;

    pub const ADDITIONAL_IP4_ADDRESS: u16 = 16397;

    pub const ADDITIONAL_IP6_ADDRESS: u16 = 16398;

    pub const NO_ADDITIONAL_ADDRESSES: u16 = 16399;

    pub const UPDATE_SA_ADDRESSES: u16 = 16400;

    pub const COOKIE2: u16 = 16401;

    pub const NO_NATS_ALLOWED: u16 = 16402;

    // Known in a clone request alone: `kind` knows neither, so that every other chain tallies them.
    pub const CLONE_IKE_SA_SUPPORTED: u16 = 16432;

    pub const CLONE_IKE_SA: u16 = 16433;

    // The one classification that reader, responder and the assessment of responses share.
    #[tactic(auto, unfolding(crate::specs::Notify::kind_of))]
    pub fn kind(self) -> NotifyKind
        ensures { result ≡ kind_of self.number }
    {
        match self.number {
            NotifyType::NAT_DETECTION_SOURCE_IP => NotifyKind::NatDetectionSource,
            NotifyType::NAT_DETECTION_DESTINATION_IP => NotifyKind::NatDetectionDestination,
            NotifyType::MOBIKE_SUPPORTED => NotifyKind::MobikeSupported,
            NotifyType::ADDITIONAL_IP4_ADDRESS => NotifyKind::AdditionalIp4,
            NotifyType::ADDITIONAL_IP6_ADDRESS => NotifyKind::AdditionalIp6,
            NotifyType::NO_ADDITIONAL_ADDRESSES => NotifyKind::NoAdditionalAddresses,
            NotifyType::UPDATE_SA_ADDRESSES => NotifyKind::UpdateSaAddresses,
            NotifyType::COOKIE2 => NotifyKind::Cookie2,
            NotifyType::NO_NATS_ALLOWED => NotifyKind::NoNatsAllowed,
            NotifyType::UNACCEPTABLE_ADDRESSES => NotifyKind::UnacceptableAddresses,
            NotifyType::UNEXPECTED_NAT_DETECTED => NotifyKind::UnexpectedNatDetected,
            n if n < NotifyType::FIRST_STATUS => NotifyKind::OtherError,
            _ => NotifyKind::OtherStatus,
        }
    }
}

impl NotifyKind {
    // Whether a notification of this kind is an error.
    pub fn is_error(self) -> bool
        ensures { result ≡ is_error self }
    {
        matches!(
            self,
            NotifyKind::UnacceptableAddresses
                | NotifyKind::UnexpectedNatDetected
                | NotifyKind::OtherError
        )
    }

    // Whether a notification of this kind is tallied as unknown: errors, and every other type that is not in the table.
    pub fn is_unknown(self) -> bool
        ensures { result ≡ is_unknown self }
    {
        self.is_error() || self == NotifyKind::OtherStatus
    }
}

// Whether a notification's data, a part of the body, has a size that its type allows. Each kind has its own arm: where
// those of one size share one, the reader asks for the kind twice (383 instructions for the chain of 112 octets, in place
// of 352).
pub fn data_fits(kind: NotifyKind, data: &[u8]) -> bool
    ensures { result ≡ data_fits kind (length «data».now) }
{
    let n = data.len();
    match kind {
        NotifyKind::NatDetectionSource => n == NAT_OCTETS,
        NotifyKind::NatDetectionDestination => n == NAT_OCTETS,
        NotifyKind::MobikeSupported => true,
        NotifyKind::AdditionalIp4 => n == IP4_OCTETS,
        NotifyKind::AdditionalIp6 => n == IP6_OCTETS,
        NotifyKind::NoAdditionalAddresses => n == 0,
        NotifyKind::UpdateSaAddresses => n == 0,
        NotifyKind::Cookie2 => COOKIE_LEAST <= n && n <= COOKIE_MOST,
        NotifyKind::NoNatsAllowed => n == NO_NATS_LEAST || n == NO_NATS_MOST,
        NotifyKind::UnacceptableAddresses => true,
        NotifyKind::UnexpectedNatDetected => true,
        NotifyKind::OtherError => true,
        NotifyKind::OtherStatus => true,
    }
}
