//! Why a line cannot be read.

ghost use Rattle.std.specs.Prelude.{◌≡◌, ◌<◌};
ghost use Rattle.swimunwrap.specs.Cause.{cause_place, leaves_out};
ghost use Rattle.swimunwrap.specs.declared.cause.TheConstants.{PLACES};

use memberlist_wrap::WrapFault;
use std::fmt;

/// How many places there are for causes.
pub(crate) const PLACES: usize = 307;

/// Why a line cannot be read as a message.
#[derive(Clone, Copy, Debug, PartialEq, Eq)]
pub enum Cause {
    /// It is not hexadecimal.
    NotHex,
    /// It wraps nothing.
    Wrapped(WrapFault),
    /// The unwrapped bytes start with this byte, and are not a message of packets: they are
    /// encrypted, broken, or of another kind.
    NoMessage(u8),
    /// It is encrypted, and none of the keys decrypts it.
    NoKeyFits,
    /// It is not encrypted, there are keys, and only what is encrypted is read.
    Unencrypted,
}

impl Cause {
    /// Its place among all causes. Each has its own.
    pub(crate) fn place(self) -> usize
        ensures is { result ≡ cause_place self }
        ensures bound { result < PLACES }
    {
        match self {
            Cause::NotHex => 0,
            Cause::NoKeyFits => 1,
            Cause::Unencrypted => 2,
            Cause::Wrapped(fault) => fault.number() as usize,
            Cause::NoMessage(first) => first as usize + 50,
        }
    }

    /// Whether a line that cannot be read for this cause is left out: with `skip` each is. One that
    /// is not encrypted always is: as it was, whoever reads the output would believe it.
    pub(crate) fn leaves_out(self, skip: bool) -> bool
        ensures { result ≡ leaves_out skip self }
    {
        match self {
            Cause::Unencrypted => true,
            _ => skip,
        }
    }
}

impl fmt::Display for Cause {
    fn fmt<W: fmt::Write>(&self, f: &mut fmt::Formatter<W>) -> fmt::Result {
        match *self {
            Cause::NotHex => f.write_str("not hexadecimal"),
            Cause::Wrapped(fault) => f.write_str(wording(fault)),
            Cause::NoMessage(first) if first < 2 => {
                write!(f, "encrypted or not a message (first byte {first:02x})")
            }
            Cause::NoMessage(first) => write!(f, "not a message (first byte {first:02x})"),
            Cause::NoKeyFits => f.write_str("that no key decrypts"),
            Cause::Unencrypted => f.write_str("not encrypted"),
        }
    }
}

/// What is wrong with a wrapper.
fn wording(fault: WrapFault) -> &'static str {
    match fault {
        WrapFault::Ended => "wrapper cut short",
        WrapFault::Trailing => "bytes after a compression",
        WrapFault::BadCode => "invalid compressed bytes",
        WrapFault::BadChecksum => "wrong checksum",
        WrapFault::BadMap => "invalid map of a compression",
        WrapFault::BadAlgo => "unknown compression",
        WrapFault::BadLabel => "empty label",
        WrapFault::TooLarge => "message too large",
        WrapFault::TooDeep => "too many wrappers",
        WrapFault::Memory => "out of memory",
    }
}
