//! The packet on a line.

ghost use Rattle.std.specs.Prelude.{◌≡◌, IfOk};
ghost use Rattle.swimunwrap.specs.Outcome.{IsOutcome, IsOutcomeOf};
ghost use Rattle.swimunwrap.specs.Packet.{accepted_on};

use crate::cause::Cause;
use hex::FromHexError;
use memberlist_keyring::Keyring;
use memberlist_transport::{InTheClear, Message, PacketFault, open_packet};
use std::alloc::{AllocError, Global};
use swim_program::without_return;

/// What a line becomes.
#[derive(Drop)]
pub(crate) enum Outcome {
    /// This text, which is empty if the message makes no claims.
    Text(String),
    /// It cannot be read.
    Unread(Cause),
}

/// The outcome of the line: the message of its packet, in hexadecimal, if that makes claims,
/// nothing if it is a whole message that makes none, and else why it cannot be read. If there are
/// keys, a packet in the clear is read only if `clear` accepts it.
pub(crate) fn outcome_of_line(
    alloc: Global,
    keys: &Keyring,
    clear: InTheClear,
    line: &[u8],
) -> Result<Outcome, AllocError>
    ensures { IfOk result (IsOutcome clear keys.now line.now) }
{
    match hex::decode(alloc, without_return(line)) {
        Ok(bytes) => {
            let clear = accepted_on(clear, &bytes);
            outcome_of_bytes(alloc, keys, clear, &bytes)
        }
        Err(FromHexError::OutOfMemory) => Err(AllocError),
        Err(_) => Ok(Outcome::Unread(Cause::NotHex)),
    }
}

/// What becomes of a line in the clear. One without bytes has no packet, and is always read.
fn accepted_on(clear: InTheClear, bytes: &[u8]) -> InTheClear
    ensures { result ≡ accepted_on clear bytes.now }
{
    match bytes {
        [] => InTheClear::Accepted,
        [_, ..] => clear,
    }
}

fn outcome_of_bytes(
    alloc: Global,
    keys: &Keyring,
    clear: InTheClear,
    bytes: &[u8],
) -> Result<Outcome, AllocError>
    ensures { IfOk result (IsOutcomeOf clear keys.now bytes.now) }
{
    match open_packet(alloc, keys, clear, bytes) {
        Ok(Message::Claims(_, message)) => Ok(Outcome::Text(hex::encode(alloc, &message)?)),
        Ok(_) => Ok(Outcome::Text(String::new(alloc))),
        Err(PacketFault::Wrapped(fault)) => Ok(Outcome::Unread(Cause::Wrapped(fault))),
        Err(PacketFault::NoMessage(first)) => Ok(Outcome::Unread(Cause::NoMessage(first))),
        Err(PacketFault::NoKeyFits) => Ok(Outcome::Unread(Cause::NoKeyFits)),
        Err(PacketFault::Unencrypted) => Ok(Outcome::Unread(Cause::Unencrypted)),
        Err(PacketFault::Memory) => Err(AllocError),
    }
}
