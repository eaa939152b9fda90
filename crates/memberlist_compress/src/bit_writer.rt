//! Codes of some bits each, one after the other, in bytes.

ghost use Rattle.std.specs.Prelude.{◌≡◌, ℕ, List, [], ◌++◌, ◌+◌, ◌^◌, ◌<◌, ◌≤◌, length, IfOk, OnOk};
ghost use Rattle.memberlist_wrap.specs.Bits.{bits};
ghost use Rattle.memberlist_compress.specs.Writing.{Writing, written, IsPadded};

use crate::held::Held;
use std::alloc::{AllocError, Global};
use std::marker::Model;

/// The whole bytes so far, and the bits after them.
#[derive(Drop)]
pub(crate) struct BitWriter {
    bytes: Vec<u8>,
    held: Held,
}

impl Model for BitWriter {
    ghost Value = { Writing };

    ghost view = { λ writer. record { bytes = writer.bytes.items; held = writer.held } };
}

impl BitWriter {
    /// No bits.
    pub(crate) fn new(alloc: Global) -> BitWriter
        ensures { result ≡ record { bytes = []; held = [] } }
    {
        BitWriter {
            bytes: Vec::new(alloc),
            held: Held::new(),
        }
    }

    /// Appends a code of at most 12 bits.
    pub(crate) fn add(&mut self, code: u32, width: u32) -> Result<(), AllocError>
        requires few { length self.old.held < 8 }
        requires small { width ≤ 12 }
        requires narrow { code < 2 ^ width }
        ensures adds { OnOk result (written self.new ≡ written self.old ++ bits width code) }
        ensures few { OnOk result (length self.new.held < 8) }
    {
        self.held.add(code, width);
        while let Some(byte) = self.held.take_byte() {
            self.bytes.push(byte)?;
        }
        Ok(())
    }

    /// The bits as bytes, with fewer than 8 zeros after them.
    pub(crate) fn finish(self) -> Result<Vec<u8>, AllocError>
        requires { length self.held < 8 }
        ensures { IfOk result (λ bytes. IsPadded (written self) bytes.items) }
    {
        let BitWriter { mut bytes, held } = self;
        if let Some(byte) = held.last_byte() {
            bytes.push(byte)?;
        }
        Ok(bytes)
    }
}
