//! Bytes that the library keeps.

ghost use Rattle.std.specs.Prelude.{◌≡◌, length, IfOk};

use std::alloc::{AllocError, Global};
use std::marker::Model;

/// Bytes that the library keeps. Contracts see their address and the bytes.
#[derive(Drop)]
pub struct Kept {
    bytes: Vec<u8>,
}

impl Model for Kept {
    ghost use Rattle.std.specs.Vec.{vec_ptr};
    ghost use Rattle.swim_c.specs.KeptBytes.{KeptBytes, bytes_coded};

    ghost Value = { KeptBytes };

    ghost coded = { bytes_coded };

    ghost view = { λ k. record { at = vec_ptr k.bytes; bytes = k.bytes.items } };
}

impl Kept {
    /// Keeps the bytes.
    pub fn boxed(alloc: Global, bytes: Vec<u8>) -> Result<Box<Kept>, AllocError>
        ensures { IfOk result (λ kept. kept.value.bytes ≡ bytes.items) }
    {
        match Box::new(alloc, Kept { bytes }) {
            Ok(kept) => Ok(kept),
            Err(_) => Err(AllocError),
        }
    }

    /// Keeps these bytes in place of those that it kept.
    pub fn keep(&mut self, bytes: Vec<u8>)
        ensures { self.new.bytes ≡ bytes.items }
    {
        self.bytes = bytes;
    }

    /// The address of the first byte. It must not be read if there are no bytes.
    pub fn at(&self) -> *const u8
        ensures { result ≡ self.now.at }
    {
        self.bytes.as_ptr()
    }

    /// How many bytes there are.
    pub fn len(&self) -> usize
        ensures { result ≡ length self.now.bytes }
    {
        self.bytes.len()
    }
}
