//! Why bytes were refused.

ghost use Rattle.std.specs.Prelude.{◌≡◌};
ghost use Rattle.serf_message.specs.declared.fault.SerfFault.TheVariants.{Memory};
ghost use Rattle.serf_message.specs.Fault.{fault_of_pack};

use std::alloc::AllocError;
use swim_pack::PackFault;
use thiserror::Error;

/// Why bytes were refused.
#[derive(Clone, Copy, Debug, PartialEq, Eq, Error)]
pub enum SerfFault {
    /// The bytes end before the message does.
    #[error("the input ends too early")]
    Ended,
    /// A number was expected, but the value is no number, or is negative.
    #[error("expected a number that is not negative")]
    NotNumber,
    /// The number is above the maximum of its field.
    #[error("the number is too large")]
    OutOfRange,
    /// A truth value was expected.
    #[error("expected true or false")]
    NotBool,
    /// Text or bytes were expected.
    #[error("expected text or bytes")]
    NotRaw,
    /// A map was expected.
    #[error("expected a map")]
    NotMap,
    /// A list was expected.
    #[error("expected a list")]
    NotList,
    /// A number of 64 bits with a floating point was expected.
    #[error("expected a number with a floating point")]
    NotFloat,
    /// No value of MessagePack starts with c1.
    #[error("expected a value")]
    NotValue,
    /// The message does not start with a type that is read here.
    #[error("a message of type {found} is not read here")]
    WrongType { found: u8 },
    /// The payload of an ack does not start with the version that is read here.
    #[error("a payload of version {found} is not read here")]
    WrongVersion { found: u8 },
    /// There are bytes after the end of the message.
    #[error("there are bytes after the message")]
    Trailing,
    /// Memory ran out.
    #[error("out of memory")]
    Memory,
}

/// A number has no length and no pairs, and bytes in memory can be read, so the last four of these
/// do not come.
impl From<PackFault> for SerfFault {
    ghost from_gives = { λ pack fault. fault ≡ fault_of_pack pack };

    fn from(pack: PackFault) -> SerfFault {
        match pack {
            PackFault::Ended | PackFault::Fault => SerfFault::Ended,
            PackFault::NotUnsigned => SerfFault::NotNumber,
            PackFault::OutOfRange | PackFault::TooLong | PackFault::MapCount => {
                SerfFault::OutOfRange
            }
            PackFault::NotBool => SerfFault::NotBool,
            PackFault::NotRaw => SerfFault::NotRaw,
            PackFault::NotMap => SerfFault::NotMap,
            PackFault::Memory => SerfFault::Memory,
        }
    }
}

impl From<AllocError> for SerfFault {
    ghost from_gives = { λ _ fault. fault ≡ Memory };

    fn from(_error: AllocError) -> SerfFault {
        SerfFault::Memory
    }
}
