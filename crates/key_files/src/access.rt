//! Who may read a key file.

ghost use Rattle.std.specs.Prelude.{◌≡◌, ◌≢◌, bit_and, MatchBool};

use std::fs::File;
use std::os::unix::fs::PermissionsExt;

/// The bits of a mode by which the group, or everyone, may read (`chmod`).
const READ_BY_OTHERS: u32 = 0o044;

/// Whether it is a regular file that others than its owner may read. A pipe is not, nor a file whose
/// mode the system does not tell.
pub(crate) fn is_open_to_others(file: &File) -> bool {
    match file.metadata() {
        Ok(data) => data.is_file() && lets_others_read(data.permissions().mode()),
        Err(_) => false,
    }
}

/// Whether others than the owner may read a file with this mode.
pub(crate) fn lets_others_read(mode: u32) -> bool
    ensures { MatchBool result (bit_and mode 0o044 ≢ 0) (bit_and mode 0o044 ≡ 0) }
{
    mode & READ_BY_OTHERS != 0
}
