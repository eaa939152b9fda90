//! Why a message was refused.

ghost use Rattle.std.specs.Prelude.{◌≡◌};
ghost use Rattle.swim_wire.specs.declared.fault.WireFault.TheVariants.{Memory};
ghost use Rattle.swim_wire.specs.Fault.{wire_number, fault_of_pack, fault_of_pull, fault_of_claim};

use std::alloc::AllocError;
use swim_claim::ClaimFault;
use swim_pack::{PackFault, PullFault};
use thiserror::Error;

/// Why a message was refused. Each fault has a number that identifies it in reports.
#[derive(Clone, Copy, Debug, PartialEq, Eq, Error)]
pub enum WireFault {
    /// The bytes end before the message does.
    #[error("the input ends too early")]
    Ended,
    /// A number was expected, but the value is not a number or is negative.
    #[error("expected a number that is not negative")]
    NotUnsigned,
    /// The number is above the maximum of its key.
    #[error("the number is too large")]
    OutOfRange,
    /// A truth value was expected.
    #[error("expected true or false")]
    NotBool,
    /// Text or bytes were expected.
    #[error("expected text or bytes")]
    NotRaw,
    /// The text or bytes are longer than their key allows.
    #[error("the text or bytes are too long")]
    TooLong,
    /// A map was expected.
    #[error("expected a map")]
    NotMap,
    /// The map has more pairs than its layout has keys.
    #[error("the map has too many entries")]
    MapCount,
    /// Reading from the source of the bytes failed.
    #[error("the input could not be read")]
    Fault,
    /// Memory ran out.
    #[error("out of memory")]
    Memory,
    /// The member's name is empty or absent.
    #[error("the name is empty")]
    NameEmpty,
    /// The address of an alive member has neither 4 nor 16 bytes.
    #[error("the address has neither 4 nor 16 bytes")]
    BadAddress,
    /// The versions of an alive member have neither 0 nor 6 bytes.
    #[error("the versions have neither 0 nor 6 bytes")]
    BadVersions,
    /// The message does not start with a type that is read here.
    #[error("a message of type {found} is not read here")]
    WrongType { found: u8 },
    /// The layout does not have this key.
    #[error("the map has an unknown key")]
    UnknownKey,
    /// The key already occurred in the same map.
    #[error("the map has a key twice")]
    DuplicateKey,
    /// A member's state is not 0 to 3.
    #[error("there is no state {found}")]
    BadState { found: u64 },
    /// A stream announces more than 131,072 members.
    #[error("the stream has more than 131,072 members")]
    TooManyNodes,
    /// A stream announces more than 20,971,520 bytes of user state.
    #[error("the stream has more than 20,971,520 bytes of user state")]
    UserTooLong,
    /// There are bytes after the end of the message.
    #[error("there are bytes after the message")]
    Trailing,
}

impl WireFault {
    /// The number that identifies the fault in reports.
    pub fn number(&self) -> u32
        ensures { result ≡ wire_number self.now }
    {
        match self {
            WireFault::Ended => 1,
            WireFault::NotUnsigned => 2,
            WireFault::OutOfRange => 3,
            WireFault::NotBool => 4,
            WireFault::NotRaw => 5,
            WireFault::TooLong => 6,
            WireFault::NotMap => 7,
            WireFault::MapCount => 8,
            WireFault::Fault => 9,
            WireFault::Memory => 10,
            WireFault::NameEmpty => 11,
            WireFault::BadAddress => 13,
            WireFault::BadVersions => 15,
            WireFault::WrongType { .. } => 16,
            WireFault::UnknownKey => 17,
            WireFault::DuplicateKey => 18,
            WireFault::BadState { .. } => 19,
            WireFault::TooManyNodes => 20,
            WireFault::UserTooLong => 21,
            WireFault::Trailing => 22,
        }
    }
}

impl From<PackFault> for WireFault {
    ghost from_gives = { λ pack fault. fault ≡ fault_of_pack pack };

    fn from(pack: PackFault) -> WireFault {
        match pack {
            PackFault::Ended => WireFault::Ended,
            PackFault::NotUnsigned => WireFault::NotUnsigned,
            PackFault::OutOfRange => WireFault::OutOfRange,
            PackFault::NotBool => WireFault::NotBool,
            PackFault::NotRaw => WireFault::NotRaw,
            PackFault::TooLong => WireFault::TooLong,
            PackFault::NotMap => WireFault::NotMap,
            PackFault::MapCount => WireFault::MapCount,
            PackFault::Fault => WireFault::Fault,
            PackFault::Memory => WireFault::Memory,
        }
    }
}

impl From<PullFault> for WireFault {
    ghost from_gives = { λ pull fault. fault ≡ fault_of_pull pull };

    fn from(pull: PullFault) -> WireFault {
        match pull {
            PullFault::Ended => WireFault::Ended,
            PullFault::Fault => WireFault::Fault,
        }
    }
}

/// A name or metadata that is too long is a value that is too long for its key.
impl From<ClaimFault> for WireFault {
    ghost from_gives = { λ claim fault. fault ≡ fault_of_claim claim };

    fn from(claim: ClaimFault) -> WireFault {
        match claim {
            ClaimFault::NameEmpty => WireFault::NameEmpty,
            ClaimFault::NameTooLong | ClaimFault::MetaTooLong => WireFault::TooLong,
            ClaimFault::BadAddress => WireFault::BadAddress,
            ClaimFault::BadVersions => WireFault::BadVersions,
        }
    }
}

impl From<AllocError> for WireFault {
    ghost from_gives = { λ _ fault. fault ≡ Memory };

    fn from(_error: AllocError) -> WireFault {
        WireFault::Memory
    }
}
