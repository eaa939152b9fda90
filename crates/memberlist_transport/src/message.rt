//! What a message is.

ghost use Rattle.std.specs.Prelude.{◌≡◌};
ghost use Rattle.memberlist_transport.specs.Message.{claiming_kind};

use swim_wire::{ALIVE_MESSAGE, COMPOUND_MESSAGE, Claimless, DEAD_MESSAGE, SUSPECT_MESSAGE};

/// The kinds of messages that make claims.
#[derive(Clone, Copy, Debug, PartialEq, Eq)]
pub enum Claiming {
    /// Says that a member may have failed.
    Suspect,
    /// Says that a member is alive.
    Alive,
    /// Says that a member has failed, or left.
    Dead,
    /// Several messages.
    Compound,
}

/// The message of a packet.
#[derive(Debug, Drop)]
pub enum Message {
    /// These bytes, which start as a message that makes claims. Only their first byte was read.
    Claims(Claiming, Vec<u8>),
    /// A whole message that makes no claims.
    Claimless(Claimless),
    /// No bytes.
    Empty,
}

/// The kind of message that makes claims and starts with this byte, as in memberlist's `net.go`.
pub(crate) fn kind_that_claims(first: u8) -> Option<Claiming>
    ensures { result ≡ claiming_kind first }
{
    match first {
        SUSPECT_MESSAGE => Some(Claiming::Suspect),
        ALIVE_MESSAGE => Some(Claiming::Alive),
        DEAD_MESSAGE => Some(Claiming::Dead),
        COMPOUND_MESSAGE => Some(Claiming::Compound),
        _ => None,
    }
}
