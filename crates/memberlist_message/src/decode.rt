//! One message from its bytes.

ghost use Rattle.std.specs.Prelude.{◌≡◌, ◌≢◌, Ok, MatchResult, IfOk};
ghost use Rattle.memberlist_message.specs.Claims.{raw_in, long_in};
ghost use Rattle.memberlist_message.specs.Messages.{message_of, message_after, claim_after, claimless_after};
ghost use Rattle.memberlist_message.specs.Messages.{alive_after, suspect_after, dead_after, ping_after};
ghost use Rattle.memberlist_message.specs.Messages.{indirect_ping_after, ack_after, nack_after, error_after};
ghost use Rattle.memberlist_message.specs.Messages.{message_value, ping_value, indirect_ping_value, ack_value, ping_of};
ghost use Rattle.memberlist_message.specs.Messages.{indirect_ping_of, ack_of};
ghost use Rattle.memberlist_message.specs.Reading.{IsFault};
ghost use Rattle.memberlist_message.specs.Values.{slots_of};

use crate::claims::{packet_of_alive, packet_of_dead, packet_of_suspect};
use crate::fields::{Values, flag, long, raw, read_fields, short};
use crate::layout::{ACCUSATION, ACK, ALIVE, ERROR, INDIRECT_PING, NACK, PING};
use crate::message::{Ack, ErrorResponse, IndirectPing, Message, Nack, Ping};
use std::alloc::{AllocError, Global};
use swim_wire::{ALIVE_MESSAGE, DEAD_MESSAGE, Packet, SUSPECT_MESSAGE, WireFault};

/// The first byte of a ping, as in memberlist's `net.go`.
pub(crate) const PING_MESSAGE: u8 = 0;

/// The first byte of an indirect ping.
pub(crate) const INDIRECT_PING_MESSAGE: u8 = 1;

/// The first byte of an ack.
pub(crate) const ACK_MESSAGE: u8 = 2;

/// The first byte of a user message.
pub(crate) const USER_MESSAGE: u8 = 8;

/// The first byte of a nack.
pub(crate) const NACK_MESSAGE: u8 = 11;

/// The first byte of an error response.
pub(crate) const ERROR_MESSAGE: u8 = 13;

/// The message in these bytes, as memberlist's handler decodes it (net.go, `handleCommand`; util.go,
/// `decode`): its type byte, and one value with its fields. Bytes behind that value are ignored. A
/// user message is all the bytes behind its type byte.
///
/// # Errors
///
/// The first of these that holds: `Ended` if there are no bytes; `WrongType` if the first is not 0
/// to 5, 8, 11 or 13; the faults of the value, as its bytes are read: `NotMap` if it is no map, no
/// array and not nil, `NotRaw` if a key is no text, `NotUnsigned`, `OutOfRange`, `NotBool` and
/// `NotRaw` if a field has another type, `UnknownKey` if the value of an unknown key is not
/// MessagePack, and `Ended` if the bytes end before the value does; for the whole of a suspect,
/// alive or dead message, `NameEmpty`, `TooLong`, `BadAddress` and `BadVersions` if no claim holds
/// its fields. `Memory` comes if an allocation failed.
#[tactic(auto, unfolding(crate::specs::Messages::message_of, crate::specs::Messages::message_after))]
pub fn decode_message(alloc: Global, bytes: &[u8]) -> Result<Message, WireFault>
    // The message is the one that the bytes are, and the fault is the one at which the reading
    // stops, unless memory ran out.
    ensures { MatchResult result (λ message. message_of bytes.now ≡ Ok (message_value message))
        (IsFault (message_of bytes.now)) }
{
    let Some((first, body)) = bytes.split_first() else {
        return Err(WireFault::Ended);
    };
    let found = *first;
    match found {
        SUSPECT_MESSAGE | ALIVE_MESSAGE | DEAD_MESSAGE => {
            Ok(Message::Claim(decode_claim(alloc, found, body)?))
        }
        _ => decode_claimless(alloc, found, body),
    }
}

/// The packet of a message of this type that makes a claim.
#[tactic(auto, unfolding(crate::specs::Messages::claim_after))]
fn decode_claim(alloc: Global, found: u8, body: &[u8]) -> Result<Packet, WireFault>
    ensures { MatchResult result (λ packet. claim_after found body.now ≡ Ok packet)
        (IsFault (claim_after found body.now)) }
{
    match found {
        ALIVE_MESSAGE => decode_alive(alloc, body),
        SUSPECT_MESSAGE => decode_suspect(alloc, body),
        _ => decode_dead(alloc, body),
    }
}

#[tactic(auto, unfolding(crate::specs::Messages::alive_after))]
fn decode_alive(alloc: Global, body: &[u8]) -> Result<Packet, WireFault>
    ensures { MatchResult result (λ packet. alive_after body.now ≡ Ok packet)
        (IsFault (alive_after body.now)) }
{
    packet_of_alive(alloc, &read_fields(alloc, body, &ALIVE)?)
}

#[tactic(auto, unfolding(crate::specs::Messages::suspect_after))]
fn decode_suspect(alloc: Global, body: &[u8]) -> Result<Packet, WireFault>
    ensures { MatchResult result (λ packet. suspect_after body.now ≡ Ok packet)
        (IsFault (suspect_after body.now)) }
{
    packet_of_suspect(alloc, &read_fields(alloc, body, &ACCUSATION)?)
}

#[tactic(auto, unfolding(crate::specs::Messages::dead_after))]
fn decode_dead(alloc: Global, body: &[u8]) -> Result<Packet, WireFault>
    ensures { MatchResult result (λ packet. dead_after body.now ≡ Ok packet)
        (IsFault (dead_after body.now)) }
{
    packet_of_dead(alloc, &read_fields(alloc, body, &ACCUSATION)?)
}

/// The message of this type that makes no claim.
#[tactic(auto, unfolding(crate::specs::Messages::claimless_after))]
fn decode_claimless(alloc: Global, found: u8, body: &[u8]) -> Result<Message, WireFault>
    ensures { MatchResult result (λ m. claimless_after found body.now ≡ Ok (message_value m))
        (IsFault (claimless_after found body.now)) }
{
    match found {
        PING_MESSAGE => decode_ping(alloc, body),
        INDIRECT_PING_MESSAGE => decode_indirect_ping(alloc, body),
        ACK_MESSAGE => decode_ack(alloc, body),
        NACK_MESSAGE => decode_nack(alloc, body),
        ERROR_MESSAGE => decode_error(alloc, body),
        USER_MESSAGE => Ok(Message::User(body.to_vec(alloc)?)),
        _ => Err(WireFault::WrongType { found }),
    }
}

#[tactic(auto, unfolding(crate::specs::Messages::ping_after))]
fn decode_ping(alloc: Global, body: &[u8]) -> Result<Message, WireFault>
    ensures { MatchResult result (λ m. ping_after body.now ≡ Ok (message_value m))
        (IsFault (ping_after body.now)) }
{
    let values = read_fields(alloc, body, &PING)?;
    Ok(Message::Ping(ping_of(alloc, &values)?))
}

#[tactic(auto, unfolding(crate::specs::Messages::indirect_ping_after))]
fn decode_indirect_ping(alloc: Global, body: &[u8]) -> Result<Message, WireFault>
    ensures { MatchResult result (λ m. indirect_ping_after body.now ≡ Ok (message_value m))
        (IsFault (indirect_ping_after body.now)) }
{
    let values = read_fields(alloc, body, &INDIRECT_PING)?;
    Ok(Message::IndirectPing(indirect_ping_of(alloc, &values)?))
}

#[tactic(auto, unfolding(crate::specs::Messages::ack_after))]
fn decode_ack(alloc: Global, body: &[u8]) -> Result<Message, WireFault>
    ensures { MatchResult result (λ m. ack_after body.now ≡ Ok (message_value m))
        (IsFault (ack_after body.now)) }
{
    let values = read_fields(alloc, body, &ACK)?;
    Ok(Message::Ack(ack_of(alloc, &values)?))
}

#[tactic(auto, unfolding(crate::specs::Messages::nack_after))]
fn decode_nack(alloc: Global, body: &[u8]) -> Result<Message, WireFault>
    ensures { MatchResult result (λ m. nack_after body.now ≡ Ok (message_value m))
        (IsFault (nack_after body.now)) }
{
    let values = read_fields(alloc, body, &NACK)?;
    Ok(Message::Nack(nack_of(&values)))
}

#[tactic(auto, unfolding(crate::specs::Messages::error_after))]
fn decode_error(alloc: Global, body: &[u8]) -> Result<Message, WireFault>
    ensures { MatchResult result (λ m. error_after body.now ≡ Ok (message_value m))
        (IsFault (error_after body.now)) }
{
    let values = read_fields(alloc, body, &ERROR)?;
    Ok(Message::Error(error_of(alloc, &values)?))
}

fn ping_of(alloc: Global, values: &Values) -> Result<Ping, AllocError>
    ensures { IfOk result (λ made. ping_value made ≡ ping_of (slots_of values.now)) }
{
    let [seq_no, node, source_addr, source_port, source_node, ..] = values;
    Ok(Ping {
        seq_no: long(seq_no),
        node: raw(node).to_vec(alloc)?,
        source_addr: raw(source_addr).to_vec(alloc)?,
        source_port: short(source_port),
        source_node: raw(source_node).to_vec(alloc)?,
    })
}

fn indirect_ping_of(alloc: Global, values: &Values) -> Result<IndirectPing, AllocError>
    ensures { IfOk result (λ made. indirect_ping_value made ≡ indirect_ping_of (slots_of values.now)) }
{
    let [
        seq_no,
        target,
        port,
        node,
        nack,
        source_addr,
        source_port,
        source_node,
    ] = values;
    Ok(IndirectPing {
        seq_no: long(seq_no),
        target: raw(target).to_vec(alloc)?,
        port: short(port),
        node: raw(node).to_vec(alloc)?,
        nack: flag(nack),
        source_addr: raw(source_addr).to_vec(alloc)?,
        source_port: short(source_port),
        source_node: raw(source_node).to_vec(alloc)?,
    })
}

fn ack_of(alloc: Global, values: &Values) -> Result<Ack, AllocError>
    ensures { IfOk result (λ made. ack_value made ≡ ack_of (slots_of values.now)) }
{
    let [seq_no, payload, ..] = values;
    Ok(Ack {
        seq_no: long(seq_no),
        payload: raw(payload).to_vec(alloc)?,
    })
}

fn nack_of(values: &Values) -> Nack
    ensures { result.seq_no ≡ long_in (slots_of values.now) 0 }
{
    let [seq_no, ..] = values;
    Nack {
        seq_no: long(seq_no),
    }
}

fn error_of(alloc: Global, values: &Values) -> Result<ErrorResponse, AllocError>
    ensures { IfOk result (λ made. made.error.items ≡ raw_in (slots_of values.now) 0) }
{
    let [error, ..] = values;
    Ok(ErrorResponse {
        error: raw(error).to_vec(alloc)?,
    })
}
