//! The label of a packet or a stream.

ghost use Rattle.std.specs.Prelude.{◌≢◌, ◌<◌, ◌∷◌, ℕ, List, length, IfOk};
ghost use Rattle.memberlist_cipher.specs.Label.{IsLabelled};
ghost use Rattle.memberlist_keyring.specs.Cutting.{IsCut};

use memberlist_cipher::{labelled, split_label};
use std::alloc::{AllocError, Global};

/// A label, and what it labels. If there is no label, or it is empty or cut off, the label is
/// empty, and the rest is all the bytes.
pub(crate) fn cut_label(bytes: &[u8]) -> (&[u8], &[u8])
    ensures { IsCut bytes.now result.0.now result.1.now }
{
    match split_label(bytes) {
        Ok(parts) => parts,
        Err(_) => (&bytes[..0], bytes),
    }
}

/// The bytes after a label of at most 255 bytes; an empty label is not written. Bytes that start
/// like a label, with 244, would be read as labelled.
///
/// # Errors
///
/// `AllocError` if memory for them runs out.
///
/// Source: `AddLabelHeaderToPacket` and `AddLabelHeaderToStream` in memberlist's label.go.
pub fn behind_label(alloc: Global, label: &[u8], bytes: Vec<u8>) -> Result<Vec<u8>, AllocError>
    requires few { length label.now < 256 }
    requires bare { (more : List ℕ) → bytes.items ≢ 244 ∷ more }
    ensures { IfOk result (λ text. IsLabelled text.items label.now bytes.items) }
{
    if label.is_empty() {
        return Ok(bytes);
    }
    labelled(alloc, label, &bytes)
}
