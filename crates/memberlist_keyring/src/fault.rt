//! Why a key file was refused, and the number of each fault.

ghost use Rattle.std.specs.Prelude.{◌≡◌};
ghost use Rattle.memberlist_keyring.specs.declared.fault.KeyFileFault.TheVariants.{Memory};
ghost use Rattle.memberlist_keyring.specs.Fault.{key_file_number};

use std::alloc::{AllocError, AllocFailed};
use thiserror::Error;

/// Why a key file was refused (own).
#[derive(Clone, Copy, Debug, PartialEq, Eq, Error)]
pub enum KeyFileFault {
    /// The line of this number, from 1, is neither empty nor a key in base64.
    #[error("line {0} is not a key of 16, 24 or 32 bytes in base64")]
    Line(u64),
    /// The text of this number in the list, from 1, is not a key in base64.
    #[error("item {0} of the list is not a key of 16, 24 or 32 bytes in base64")]
    Item(u64),
    /// The file starts like a list, but is not a list of texts in JSON.
    #[error("the file is not a JSON list of strings")]
    NotList,
    /// Memory ran out.
    #[error("out of memory")]
    Memory,
}

impl KeyFileFault {
    /// The number that identifies the fault in reports: that of a bad key, 50, or of memory, 58
    /// (own).
    pub fn number(&self) -> u32
        ensures { result ≡ key_file_number self.now }
    {
        match self {
            KeyFileFault::Line(_) | KeyFileFault::Item(_) | KeyFileFault::NotList => 50,
            KeyFileFault::Memory => 58,
        }
    }
}

impl From<AllocError> for KeyFileFault {
    ghost from_gives = { λ _ fault. fault ≡ Memory };

    fn from(_error: AllocError) -> KeyFileFault {
        KeyFileFault::Memory
    }
}

impl<T: Drop> From<AllocFailed<T>> for KeyFileFault {
    ghost from_gives = { λ _ fault. fault ≡ Memory };

    fn from(_error: AllocFailed<T>) -> KeyFileFault {
        KeyFileFault::Memory
    }
}
