//! Bytes that must not stay in memory.

ghost use Rattle.std.specs.Prelude.{◌≡◌, ◌++◌, length, replicate, OnOk, OnErr};

use std::alloc::AllocError;
use std::marker::Model;

/// Bytes of a key, or of its text. They are overwritten before their memory is freed, also when
/// they grow. Contracts see them as a list.
pub struct Secret {
    pub(crate) bytes: Vec<u8>,
}

impl Model for Secret {
    ghost use Rattle.std.specs.Prelude.{ℕ, List};

    ghost Value = { List ℕ };

    ghost view = { λ secret. secret.bytes.items };
}

impl Drop for Secret {
    fn drop(self) {
        let Secret { mut bytes } = self;
        overwrite(&mut bytes);
    }
}

impl Secret {
    /// These bytes, which are overwritten from now on.
    pub fn new(bytes: Vec<u8>) -> Secret
        ensures { result ≡ bytes.items }
    {
        Secret { bytes }
    }

    /// The bytes.
    pub fn as_bytes(&self) -> &[u8]
        ensures { result.now ≡ self.now }
    {
        self.bytes.as_slice()
    }

    /// Adds bytes at the end. If they need more room than there is, the bytes move to memory of at
    /// least twice the size, and are overwritten where they were.
    ///
    /// # Errors
    ///
    /// `AllocError` if memory runs out. The bytes are then unchanged.
    pub fn extend(&mut self, more: &[u8]) -> Result<(), AllocError>
        ensures adds { OnOk result (self.new ≡ self.old ++ more.now) }
        ensures stays { OnErr result (self.new ≡ self.old) }
    {
        let room = self.bytes.capacity() - self.bytes.len();
        if room < more.len() {
            self.move_to_room(more.len())?;
        }
        self.bytes.extend_from_slice(more)
    }

    /// Moves the bytes to memory with room for so many more, and overwrites them where they were.
    fn move_to_room(&mut self, more: usize) -> Result<(), AllocError>
        ensures { self.new ≡ self.old }
    {
        let len = self.bytes.len();
        let wanted = len.saturating_add(len.max(more));
        let mut moved = Vec::with_capacity(*self.bytes.allocator(), wanted)?;
        moved.extend_from_slice(&self.bytes)?;
        std::mem::swap(&mut self.bytes, &mut moved);
        overwrite(&mut moved);
        Ok(())
    }
}

/// Overwrites each byte with 0.
pub fn overwrite(bytes: &mut [u8])
    ensures { bytes.new ≡ replicate (length bytes.old) 0 }
{
    bytes.fill(0);
}
