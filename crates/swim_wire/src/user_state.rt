//! The user state at the end of a push/pull stream.

ghost use Rattle.std.specs.Prelude.{◌≡◌, ◌⊎◌, length, OnOk, IfErr, IsErrOf};
ghost use Rattle.swim_pack.specs.Composing.{UnlessFailed};
ghost use Rattle.swim_pack.specs.Ends.{ConsumesText, NoTextAtFront, Advances, CountsFault};
ghost use Rattle.swim_wire.specs.Reading.{wire_cause};

use crate::WireFault;
use swim_pack::Inlet;

/// Reads exactly `len` bytes and drops them, in pieces of at most 4,096 bytes. It takes no memory
/// (own).
///
/// # Errors
///
/// `Ended` if fewer bytes are left, and `Fault` if the inlet failed.
pub fn skip_user<I: Inlet>(inlet: &mut I, len: u32) -> Result<(), WireFault>
    ensures takes { OnOk result
        (ConsumesText (I.seen inlet.old) (I.seen inlet.new) (λ b. length b ≡ len)) }
    // If refused for a reason other than a failed inlet, fewer bytes are left.
    ensures lacks { IfErr result (λ fault.
        UnlessFailed (wire_cause fault) (NoTextAtFront (I.seen inlet.old) (λ b. length b ≡ len))) }

    // Which errors there are, and what is left.
    ensures refusals { IfErr result (λ fault. (fault ≡ WireFault.Ended)
        ⊎ (fault ≡ WireFault.Fault)) }
    ensures no_memory { ¬ IsErrOf result WireFault.Memory }
    ensures fault { IsErrOf result WireFault.Fault
        → CountsFault (I.seen inlet.old).faults (I.seen inlet.new).faults }
    ensures end { Advances (I.seen inlet.old) (I.seen inlet.new) }
{
    let mut piece = [0; 4096];
    let mut left = len as usize;
    while left > 0 {
        let size = left.min(piece.len());
        inlet.pull(&mut piece[..size])?;
        left -= size;
    }
    Ok(())
}
