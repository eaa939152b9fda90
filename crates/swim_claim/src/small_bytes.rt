//! Bytes, stored inline if they are few.
ghost use Rattle.std.specs.Prelude.{◌≡◌, IfOk};
ghost use Rattle.swim_claim.specs.SmallBytes.{small_bytes};

use crate::inline_bytes::InlineBytes;
use std::alloc::{AllocError, Global};
use std::marker::Model;

/// The most bytes that are stored inline.
const MAX_INLINE_LEN: usize = 30;

/// Bytes, of which up to 30 take no memory of their own.
///
/// It is not an enum of both forms, since each form would be a case of its own wherever a name is
/// dropped.
#[derive(Drop, Debug)]
pub(crate) struct SmallBytes {
    // empty if the bytes are on the heap
    inline: InlineBytes<MAX_INLINE_LEN>,
    // empty, and then without memory, if the bytes are inline
    heap: Vec<u8>,
}

impl Model for SmallBytes {
    ghost use Rattle.std.specs.Prelude.{ℕ, List};
    ghost use Rattle.swim_claim.specs.SmallBytes.{small_bytes};

    ghost Value = { List ℕ };

    ghost view = { λ held. small_bytes held.inline held.heap.items };
}

impl SmallBytes {
    /// These bytes.
    pub(crate) fn new(alloc: Global, bytes: Vec<u8>) -> SmallBytes
        ensures { result ≡ bytes.items }
    {
        if bytes.len() <= MAX_INLINE_LEN {
            SmallBytes {
                inline: InlineBytes::new(&bytes),
                heap: Vec::new(alloc),
            }
        } else {
            SmallBytes {
                inline: InlineBytes::new(&[]),
                heap: bytes,
            }
        }
    }

    /// A copy of these bytes.
    #[inline(always)]
    pub(crate) fn copied(alloc: Global, bytes: &[u8]) -> Result<SmallBytes, AllocError>
        ensures { IfOk result (λ held. held ≡ bytes.now) }
    {
        if bytes.len() <= MAX_INLINE_LEN {
            Ok(SmallBytes {
                inline: InlineBytes::new(bytes),
                heap: Vec::new(alloc),
            })
        } else {
            Ok(SmallBytes {
                inline: InlineBytes::new(&[]),
                heap: bytes.to_vec(alloc)?,
            })
        }
    }

    pub(crate) fn bytes(&self) -> &[u8]
        ensures { result.now ≡ self.now }
    {
        if self.heap.is_empty() {
            self.inline.bytes()
        } else {
            &self.heap
        }
    }
}
