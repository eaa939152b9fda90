//! Bytes that are written to a buffer of the caller.

ghost use Rattle.std.specs.Prelude.{◌≡◌, ◌≤◌, ◌<◌, ◌++◌, ◌^◌, take, drop, length};
ghost use Rattle.swim_c.specs.Buffers.{Copied};

use crate::status::{DONE, TOO_SMALL};

/// A status and a length.
#[repr(C)]
#[derive(Clone, Copy)]
pub struct Written {
    pub status: u32,
    pub len: usize,
}

impl Written {
    pub fn refused(status: u32) -> Written
        ensures { result ≡ record { status = status; len = 0 } }
    {
        Written { status, len: 0 }
    }
}

/// Copies the bytes to the start of the buffer if they fit. Returns their length either way.
pub fn copy_out(bytes: &[u8], out: &mut [u8]) -> Written
    ensures { Copied bytes.now out.old out.new result.status result.len }
{
    let len = bytes.len();
    if len > out.len() {
        return Written {
            status: TOO_SMALL,
            len,
        };
    }
    copy_front(bytes, out);
    Written { status: DONE, len }
}

/// Copies the bytes to the start of the buffer.
pub fn copy_front(bytes: &[u8], out: &mut [u8])
    requires { length bytes.now ≤ length out.old }
    ensures { out.new ≡ bytes.now ++ drop (length bytes.now) out.old }
{
    let (front, _) = out.split_at_mut(bytes.len());
    front.copy_from_slice(bytes);
}
