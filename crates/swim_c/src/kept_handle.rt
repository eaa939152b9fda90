//! The handle by which a program in another language holds kept bytes.

ghost use Rattle.std.specs.Prelude.{◌≡◌, Option, Some, None, MatchOption};
ghost use Rattle.swim_c.specs.Kept.{kept_owns, kept_coded};
ghost use Rattle.swim_c.specs.KeptBytes.{KeptBytes};

use crate::kept::Kept;
use std::alloc::Global;
use std::marker::Model;

/// Kept bytes, or nothing. A handle with all bytes zero is empty.
#[repr(C)]
#[derive(Drop)]
pub struct KeptHandle {
    at: *mut u8,
    held: bool,
    pub ghost kept: { Option KeptBytes } by { kept_coded },
}

impl Model for KeptHandle {
    ghost also_owns = { λ h. kept_owns h.at h.held h.kept };
}

impl KeptHandle {
    /// The empty handle.
    pub fn none() -> KeptHandle
        ensures { result.kept ≡ None }
    {
        KeptHandle {
            at: std::ptr::null_mut(),
            held: false,
        }
    }

    /// The handle of kept bytes.
    pub fn of(kept: Box<Kept>) -> KeptHandle
        ensures { result.kept ≡ Some kept.value }
    {
        let at = Box::into_raw(kept);
        KeptHandle {
            at: at as *mut u8,
            held: true,
        }
    }

    /// Takes the bytes out.
    pub fn into_kept(self, alloc: Global) -> Option<Box<Kept>>
        ensures { MatchOption result (self.kept ≡ None) (λ kept. self.kept ≡ Some kept.value) }
    {
        let KeptHandle { at, held } = self;
        if !held {
            return None;
        }
        Some(unsafe { Box::from_raw(alloc, at as *mut Kept) })
    }
}
