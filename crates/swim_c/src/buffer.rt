//! Bytes in memory of the library, as a program in another language holds them.

ghost use Rattle.std.specs.Prelude.{◌≡◌, None};
ghost use Rattle.swim_c.specs.NewBytes.{HasBytes};

use crate::kept::Kept;
use crate::kept_handle::KeptHandle;
use std::alloc::Global;
use std::mem;

/// Bytes in memory of the library. A buffer with all bytes zero is empty.
#[repr(C)]
#[derive(Drop)]
pub struct Buffer {
    /// The address of the first byte. It must not be read if the buffer is empty.
    pub at: *const u8,
    /// How many bytes there are.
    pub len: usize,
    pub kept: KeptHandle,
}

impl Buffer {
    /// Makes the buffer keep these bytes, and frees those that it kept before.
    pub fn fill(&mut self, alloc: Global, kept: Box<Kept>)
        ensures { HasBytes kept.value.bytes self.new }
    {
        self.free(alloc);
        self.at = kept.at();
        self.len = kept.len();
        self.kept = KeptHandle::of(kept);
    }

    /// Frees the bytes. The buffer is then empty.
    pub fn free(&mut self, alloc: Global)
        ensures kept { self.new.kept.kept ≡ None }
        ensures len { self.new.len ≡ 0 }
    {
        let kept = mem::replace(&mut self.kept, KeptHandle::none());
        drop(kept.into_kept(alloc));
        self.at = std::ptr::null();
        self.len = 0;
    }
}
