//! The parts of a message, and of its parts, that are no compound messages.

ghost use Rattle.std.specs.Prelude.{◌∷◌, [], map, IfOk};
ghost use Rattle.memberlist_message.specs.Leaves.{AreLeaves};

use crate::parts::Parts;
use std::alloc::{AllocError, Global};

/// The parts of a message, and of its parts, that are no compound messages.
#[derive(Drop)]
pub struct Leaves<'a> {
    /// In order; the message itself if it is no compound one.
    pub parts: Vec<&'a [u8]>,
    /// How many parts are cut off.
    pub truncated: usize,
}

impl<'a> Leaves<'a> {
    /// The leaves of a message, to any depth (memberlist's `handleCompound`, net.go, gives each part
    /// to `handleCommand`). It takes memory for each leaf, and for each message that is open, which
    /// are fewer than its bytes.
    ///
    /// # Errors
    ///
    /// `AllocError` if out of memory.
    pub fn of(alloc: Global, message: &'a [u8]) -> Result<Leaves<'a>, AllocError>
        ensures { IfOk result (λ leaves. AreLeaves (message.now ∷ [])
            (map (λ part. part.now) leaves.parts.items) leaves.truncated) }
    {
        let mut taken = Vec::new(alloc);
        let mut truncated = 0usize;
        let Some(parts) = Parts::of(message) else {
            taken.push(message)?;
            return Ok(Leaves {
                parts: taken,
                truncated,
            });
        };
        let mut stack = Vec::new(alloc);
        stack.push(parts)?;
        while let Some(mut parts) = stack.pop() {
            let Some(part) = parts.next_part() else {
                truncated += parts.untaken();
                continue;
            };
            stack.push(parts)?;
            let Some(inner) = Parts::of(part) else {
                taken.push(part)?;
                continue;
            };
            stack.push(inner)?;
        }
        Ok(Leaves {
            parts: taken,
            truncated,
        })
    }
}
