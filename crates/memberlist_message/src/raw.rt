//! The text or bytes of a field.

ghost use Rattle.std.specs.Prelude.{◌≡◌, [], IfOk};
ghost use Rattle.memberlist_message.specs.Values.{bytes_in};

use std::alloc::{AllocError, Global};

/// The text or bytes of a field.
#[derive(Drop)]
pub(crate) enum Raw<'a> {
    /// A part of the message. It takes no memory.
    Part(&'a [u8]),
    /// Bytes that the message has as numbers.
    Made(Vec<u8>),
}

impl<'a> Raw<'a> {
    pub(crate) fn bytes(&self) -> &[u8]
        ensures { result.now ≡ bytes_in self.now }
    {
        match self {
            Raw::Part(bytes) => *bytes,
            Raw::Made(bytes) => bytes,
        }
    }

    /// The bytes, in memory of their own.
    pub(crate) fn into_vec(self, alloc: Global) -> Result<Vec<u8>, AllocError>
        ensures { IfOk result (λ bytes. bytes.items ≡ bytes_in self.entry) }
    {
        match self {
            Raw::Part(bytes) => bytes.to_vec(alloc),
            Raw::Made(bytes) => Ok(bytes),
        }
    }
}
