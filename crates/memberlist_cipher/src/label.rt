//! The label of a packet or a stream, read and written.

ghost use Rattle.std.specs.Prelude.{◌≡◌, ◌+◌, ◌<◌, ℕ, List, length, vec_capacity, IfOk, IfErr, OnErr};
ghost use Rattle.memberlist_cipher.specs.Label.{IsLabelText, IsLabelled, LabelCause};

use crate::appending::append;
use std::alloc::{AllocError, Global};
use thiserror::Error;

/// The first byte of a label (memberlist's label.go).
pub const LABEL: u8 = 244;

/// The most bytes of a label (memberlist's label.go).
pub const MAX_LABEL_LEN: usize = 255;

/// Why bytes that start as a label have none (own).
#[derive(Clone, Copy, Debug, PartialEq, Eq, Error)]
pub enum LabelFault {
    /// The bytes end before the label does.
    #[error("the label ends too early")]
    Ended,
    /// The length of the label is 0.
    #[error("the label is empty")]
    Empty,
}

/// The label of bytes, and the bytes after it: 244, its length, at least 1, that many bytes, and
/// the rest. If the first byte is not 244 there is no label: it is then empty, and the rest is all
/// the bytes.
///
/// # Errors
///
/// `Ended` if the bytes end before the label does, `Empty` if its length is 0.
///
/// Source: `RemoveLabelHeaderFromPacket` in memberlist's label.go.
pub fn split_label(bytes: &[u8]) -> Result<(&[u8], &[u8]), LabelFault>
    ensures label { IfOk result (λ parts. IsLabelled bytes.now parts.0.now parts.1.now) }
    ensures refuses { IfErr result (λ fault. LabelCause fault bytes.now) }
    ensures lacks { OnErr result ((label rest : List ℕ) → ¬ IsLabelled bytes.now label rest) }
{
    let none = &bytes[..0];
    let Some((first, rest)) = bytes.split_first() else {
        return Ok((none, bytes));
    };
    if *first != LABEL {
        return Ok((none, bytes));
    }
    let Some((size, labelled)) = rest.split_first() else {
        return Err(LabelFault::Ended);
    };
    let len = *size as usize;
    if len == 0 {
        return Err(LabelFault::Empty);
    }
    if labelled.len() < len {
        return Err(LabelFault::Ended);
    }
    Ok(labelled.split_at(len))
}

/// The bytes after a label of 1 to 255 bytes.
///
/// Source: `AddLabelHeaderToPacket` in memberlist's label.go.
pub fn labelled(alloc: Global, label: &[u8], bytes: &[u8]) -> Result<Vec<u8>, AllocError>
    requires some { 0 < length label.now }
    requires few { length label.now < 256 }
    ensures text { IfOk result (λ text. IsLabelText text.items label.now bytes.now) }
    ensures size { IfOk result (λ text.
        vec_capacity text ≡ 2 + length label.now + length bytes.now) }
{
    let mut text = Vec::with_capacity(alloc, 2 + label.len() + bytes.len())?;
    append(&mut text, &[LABEL, label.len() as u8]);
    append(&mut text, label);
    append(&mut text, bytes);
    Ok(text)
}
