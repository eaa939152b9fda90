//! Why bytes were refused, and the number of each fault.

ghost use Rattle.std.specs.Prelude.{◌≡◌};
ghost use Rattle.memberlist_cipher.specs.declared.fault.CipherFault.TheVariants.{Memory};
ghost use Rattle.memberlist_cipher.specs.Fault.{cipher_number};

use std::alloc::{AllocError, AllocFailed};
use thiserror::Error;

/// Why bytes contain no message, or why that is not known (own).
#[derive(Clone, Copy, Debug, PartialEq, Eq, Error)]
pub enum CipherFault {
    /// The key does not have 16, 24 or 32 bytes.
    #[error("the key does not have 16, 24 or 32 bytes")]
    BadKey,
    /// The bytes, or the associated bytes, are more than the standard allows, or a stream announces
    /// more than 268,435,456 bytes; or the bytes to be encrypted, or a label, are too long.
    #[error("the label, or what is encrypted, is too long")]
    TooLong,
    /// The bytes end before a message or a stream can end.
    #[error("the encrypted bytes end too early")]
    TooShort,
    /// The version byte is neither 0 nor 1.
    #[error("the version of encryption is neither 0 nor 1")]
    WrongVersion,
    /// The tag does not match these bytes and associated bytes under this key.
    #[error("the tag does not match the key and the bytes")]
    WrongTag,
    /// The tag is right, the version is 0, and the plaintext does not end in padding.
    #[error("the plaintext has no valid padding")]
    BadPadding,
    /// A stream's first byte is not 10.
    #[error("the stream is not encrypted")]
    NotEncrypted,
    /// Bytes follow after the length that a stream announces.
    #[error("bytes follow the encrypted stream")]
    Trailing,
    /// Out of memory.
    #[error("out of memory")]
    Memory,
}

impl CipherFault {
    /// The number of the fault in reports: 50 to 58 (own).
    pub fn number(&self) -> u32
        ensures { result ≡ cipher_number self.now }
    {
        match self {
            CipherFault::BadKey => 50,
            CipherFault::TooLong => 51,
            CipherFault::TooShort => 52,
            CipherFault::WrongVersion => 53,
            CipherFault::WrongTag => 54,
            CipherFault::BadPadding => 55,
            CipherFault::NotEncrypted => 56,
            CipherFault::Trailing => 57,
            CipherFault::Memory => 58,
        }
    }
}

impl From<AllocError> for CipherFault {
    ghost from_gives = { λ _ fault. fault ≡ Memory };

    fn from(_error: AllocError) -> CipherFault {
        CipherFault::Memory
    }
}

impl<T: Drop> From<AllocFailed<T>> for CipherFault {
    ghost from_gives = { λ _ fault. fault ≡ Memory };

    fn from(_error: AllocFailed<T>) -> CipherFault {
        CipherFault::Memory
    }
}
