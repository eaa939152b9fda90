//! Messages that make no claim.

ghost use Rattle.std.specs.Prelude.{◌≡◌, ◌≢◌, ◌≤◌, length, Some, IfOk, IfErr};
ghost use Rattle.swim_wire.specs.Claimless.{ClaimlessText, IsReadUnlessMemory, claimless_kind, whole_map, whole_body};
ghost use Rattle.swim_wire.specs.Claimless.{whole_claimless, claimless_layout};
ghost use Rattle.swim_wire.specs.Reading.{AnswersUnlessMemory};
ghost use Rattle.swim_wire.specs.Slots.{layout_of};
ghost use Rattle.swim_wire.specs.declared.map.TheConstants.{SLOTS};

use crate::WireFault;
use crate::layout::{Field, INDIRECT_PING, Key, Limit, NACK, PING};
use crate::map::read_map;
use std::alloc::Global;
use swim_pack::SliceInlet;

/// The kind of a message that makes no claim.
#[derive(Clone, Copy, Debug, PartialEq, Eq)]
pub enum Claimless {
    /// Asks a member whether it is alive.
    Ping,
    /// Asks a member to ping another one.
    IndirectPing,
    /// Answers a ping: the member is alive.
    Ack,
    /// Bytes of the program that uses memberlist.
    User,
    /// Says that a member asked to ping another one got no answer yet.
    Nack,
    /// Says why a stream was refused.
    Error,
}

/// The kind of message without a claim that the bytes are: its type byte, one map of its own keys,
/// each of which may be absent, and nothing after it. A user message has any bytes in place of a
/// map (memberlist's `net.go`). Names have at most 1,024 bytes and addresses 16. It takes no more
/// memory than the message has bytes.
///
/// # Errors
///
/// The first of these that holds: `Ended` if there are no bytes; `WrongType` if the first is not 0,
/// 1, 2, 8, 11 or 13; the faults of the map, as its count, its keys and values are read; `Trailing`
/// if bytes follow. `Memory` comes if an allocation failed.
pub fn decode_claimless(alloc: Global, bytes: &[u8]) -> Result<Claimless, WireFault>
    // The bytes are such a message.
    ensures reads { IfOk result (λ kind. ClaimlessText bytes.now kind) }

    // If refused for a reason other than memory, the bytes are not such a message.
    ensures refuses { IfErr result (λ fault. fault ≢ WireFault.Memory
        → (kind : Claimless) → ¬ ClaimlessText bytes.now kind) }
    // Which error is returned.
    ensures exact { AnswersUnlessMemory (whole_claimless bytes.now) result }
{
    decode_whole_claimless(alloc, bytes)
}

fn decode_whole_claimless(alloc: Global, bytes: &[u8]) -> Result<Claimless, WireFault>
    ensures { AnswersUnlessMemory (whole_claimless bytes.now) result }
{
    let Some((first, body)) = bytes.split_first() else {
        return Err(WireFault::Ended);
    };
    let found = *first;
    match kind_of(found) {
        Some(kind) => {
            read_body(alloc, kind, body)?;
            Ok(kind)
        }
        None => Err(WireFault::WrongType { found }),
    }
}

/// The kind of message that starts with this byte, as in memberlist's `net.go`.
fn kind_of(first: u8) -> Option<Claimless>
    ensures { result ≡ claimless_kind first }
{
    match first {
        0 => Some(Claimless::Ping),
        1 => Some(Claimless::IndirectPing),
        2 => Some(Claimless::Ack),
        8 => Some(Claimless::User),
        11 => Some(Claimless::Nack),
        13 => Some(Claimless::Error),
        _ => None,
    }
}

/// Reads what follows the first byte.
fn read_body(alloc: Global, kind: Claimless, body: &[u8]) -> Result<(), WireFault>
    ensures { IsReadUnlessMemory (whole_body kind body.now) result }
{
    match kind {
        Claimless::Ping => read_whole_map(alloc, body, &PING),
        Claimless::IndirectPing => read_whole_map(alloc, body, &INDIRECT_PING),
        Claimless::Ack => read_whole_map(alloc, body, &ack_layout(body.len())),
        Claimless::User => Ok(()),
        Claimless::Nack => read_whole_map(alloc, body, &NACK),
        Claimless::Error => read_whole_map(alloc, body, &error_layout(body.len())),
    }
}

/// memberlist's `ackResp`, with a payload of at most `limit` bytes.
fn ack_layout(limit: usize) -> [Field; 2]
    ensures { layout_of result ≡ claimless_layout limit Claimless.Ack }
{
    [
        Field {
            key: Key::Payload,
            limit: Limit::Raw(limit),
        },
        Field {
            key: Key::SeqNo,
            limit: Limit::Number(u32::MAX as u64),
        },
    ]
}

/// memberlist's `errResp`, with a text of at most `limit` bytes.
fn error_layout(limit: usize) -> [Field; 1]
    ensures { layout_of result ≡ claimless_layout limit Claimless.Error }
{
    [Field {
        key: Key::Error,
        limit: Limit::Raw(limit),
    }]
}

/// Reads a map of the layout with nothing after it.
fn read_whole_map(alloc: Global, bytes: &[u8], layout: &[Field]) -> Result<(), WireFault>
    requires { length layout.now ≤ SLOTS }
    ensures { IsReadUnlessMemory (whole_map (layout_of layout.now) bytes.now) result }
{
    let mut inlet = SliceInlet::new(bytes);
    read_map(Some(alloc), &mut inlet, layout)?;
    if inlet.rest().is_empty() {
        Ok(())
    } else {
        Err(WireFault::Trailing)
    }
}
