//! One message from its bytes.

ghost use Rattle.std.specs.Prelude.{◌≡◌, Ok, MatchResult, map};
ghost use Rattle.serf_message.specs.Messages.{message_of, message_after, leave_after, join_after, event_after};
ghost use Rattle.serf_message.specs.Messages.{query_after, query_from, response_after, relay_after, message_value};
ghost use Rattle.serf_message.specs.Messages.{leave_value, join_value, event_value, query_value, response_value};
ghost use Rattle.serf_message.specs.Messages.{relay_value, leave_of, join_of, event_of, query_of, response_of};
ghost use Rattle.serf_message.specs.Messages.{relay_of};
ghost use Rattle.serf_message.specs.Reading.{IsFault};
ghost use Rattle.serf_message.specs.Values.{slots_of};

use crate::fault::SerfFault;
use crate::field_value::{flag, huge, into_raw, long, short, signed, tiny};
use crate::fields::{Values, raw_at, read_all_fields, read_fields, read_fields_in};
use crate::layout::{ADDRESS, EVENT, JOIN, LEAVE, QUERY, RELAY, RESPONSE};
use crate::many::list_of_bytes;
use crate::message::{Join, Leave, Message, Query, QueryResponse, Relay, UserEvent};
use std::alloc::Global;

/// The first byte of a leave, as in Serf's `messages.go`.
pub(crate) const LEAVE_MESSAGE: u8 = 0;

/// The first byte of a join.
pub(crate) const JOIN_MESSAGE: u8 = 1;

/// The first byte of a user event.
pub(crate) const EVENT_MESSAGE: u8 = 3;

/// The first byte of a query.
pub(crate) const QUERY_MESSAGE: u8 = 4;

/// The first byte of a query response.
pub(crate) const RESPONSE_MESSAGE: u8 = 5;

/// The first byte of a relay.
pub(crate) const RELAY_MESSAGE: u8 = 9;

/// The message in the body of a user message of memberlist, as Serf's handler decodes it
/// (delegate.go, `NotifyMsg`): its type byte, and one value with its fields.
///
/// # Errors
///
/// The first of these that holds: `Ended` if there are no bytes; `WrongType` if the first is not 0,
/// 1, 3, 4, 5 or 9; the faults of the value, as its bytes are read: `NotMap` if it is no map, no
/// array and not nil, `NotRaw` if a key is no text, `NotNumber`, `OutOfRange`, `NotBool` and `NotRaw`
/// if a field has another type, `NotValue` if the value of an unknown key or a list is not
/// MessagePack, and `Ended` if the bytes end before the value does; `Trailing` if there are bytes
/// behind it, but for a relay's message; then the faults of a query's filters, `NotList` if they are
/// no list and the faults of their bytes, and those of a relay's address, which is read as the value
/// is. `Memory` comes if an allocation failed.
#[tactic(auto, unfolding(crate::specs::Messages::message_of, crate::specs::Messages::message_after))]
pub fn decode_message(alloc: Global, bytes: &[u8]) -> Result<Message, SerfFault>
    // The message is the one that the bytes are, and the fault is the one at which the reading
    // stops, unless memory ran out.
    ensures { MatchResult result (λ message. message_of bytes.now ≡ Ok (message_value message))
        (IsFault (message_of bytes.now)) }
{
    let Some((first, body)) = bytes.split_first() else {
        return Err(SerfFault::Ended);
    };
    match *first {
        LEAVE_MESSAGE => decode_leave(alloc, body),
        JOIN_MESSAGE => decode_join(alloc, body),
        EVENT_MESSAGE => decode_event(alloc, body),
        QUERY_MESSAGE => decode_query(alloc, body),
        RESPONSE_MESSAGE => decode_response(alloc, body),
        RELAY_MESSAGE => decode_relay(alloc, body),
        found => Err(SerfFault::WrongType { found }),
    }
}

#[tactic(auto, unfolding(crate::specs::Messages::leave_after))]
fn decode_leave(alloc: Global, body: &[u8]) -> Result<Message, SerfFault>
    ensures { MatchResult result (λ m. leave_after body.now ≡ Ok (message_value m))
        (IsFault (leave_after body.now)) }
{
    let values = read_all_fields(alloc, body, &LEAVE)?;
    Ok(Message::Leave(leave_of(alloc, values)))
}

#[tactic(auto, unfolding(crate::specs::Messages::join_after))]
fn decode_join(alloc: Global, body: &[u8]) -> Result<Message, SerfFault>
    ensures { MatchResult result (λ m. join_after body.now ≡ Ok (message_value m))
        (IsFault (join_after body.now)) }
{
    let values = read_all_fields(alloc, body, &JOIN)?;
    Ok(Message::Join(join_of(alloc, values)))
}

#[tactic(auto, unfolding(crate::specs::Messages::event_after))]
fn decode_event(alloc: Global, body: &[u8]) -> Result<Message, SerfFault>
    ensures { MatchResult result (λ m. event_after body.now ≡ Ok (message_value m))
        (IsFault (event_after body.now)) }
{
    let values = read_all_fields(alloc, body, &EVENT)?;
    Ok(Message::Event(event_of(alloc, values)))
}

#[tactic(auto, unfolding(crate::specs::Messages::query_after))]
fn decode_query(alloc: Global, body: &[u8]) -> Result<Message, SerfFault>
    ensures { MatchResult result (λ m. query_after body.now ≡ Ok (message_value m))
        (IsFault (query_after body.now)) }
{
    let values = read_all_fields(alloc, body, &QUERY)?;
    query_from(alloc, values)
}

/// The query of these fields.
#[tactic(auto, unfolding(crate::specs::Messages::query_from))]
fn query_from(alloc: Global, values: Values) -> Result<Message, SerfFault>
    ensures { MatchResult result (λ m. query_from (slots_of values) ≡ Ok (message_value m))
        (IsFault (query_from (slots_of values))) }
{
    let filters = list_of_bytes(alloc, raw_at(&values, 5))?;
    Ok(Message::Query(query_of(alloc, values, filters)))
}

#[tactic(auto, unfolding(crate::specs::Messages::response_after))]
fn decode_response(alloc: Global, body: &[u8]) -> Result<Message, SerfFault>
    ensures { MatchResult result (λ m. response_after body.now ≡ Ok (message_value m))
        (IsFault (response_after body.now)) }
{
    let values = read_all_fields(alloc, body, &RESPONSE)?;
    Ok(Message::Response(response_of(alloc, values)))
}

#[tactic(auto, unfolding(crate::specs::Messages::relay_after))]
fn decode_relay(alloc: Global, body: &[u8]) -> Result<Message, SerfFault>
    ensures { MatchResult result (λ m. relay_after body.now ≡ Ok (message_value m))
        (IsFault (relay_after body.now)) }
{
    let (values, rest) = read_fields(alloc, body, &RELAY)?;
    let addr = read_fields_in(alloc, raw_at(&values, 0), &ADDRESS)?;
    let message = rest.to_vec(alloc)?;
    Ok(Message::Relay(relay_of(alloc, values, addr, message)))
}

fn leave_of(alloc: Global, values: Values) -> Leave
    ensures { leave_value result ≡ leave_of (slots_of values) }
{
    let [time, node, prune, ..] = values;
    Leave {
        time: huge(&time),
        node: into_raw(alloc, node),
        prune: flag(&prune),
    }
}

fn join_of(alloc: Global, values: Values) -> Join
    ensures { join_value result ≡ join_of (slots_of values) }
{
    let [time, node, ..] = values;
    Join {
        time: huge(&time),
        node: into_raw(alloc, node),
    }
}

fn event_of(alloc: Global, values: Values) -> UserEvent
    ensures { event_value result ≡ event_of (slots_of values) }
{
    let [time, name, payload, coalesce, ..] = values;
    UserEvent {
        time: huge(&time),
        name: into_raw(alloc, name),
        payload: into_raw(alloc, payload),
        coalesce: flag(&coalesce),
    }
}

fn query_of(alloc: Global, values: Values, filters: Vec<Vec<u8>>) -> Query
    ensures { query_value result ≡ query_of (slots_of values) (map (λ v. v.items) filters.items) }
{
    let [
        time,
        id,
        addr,
        port,
        source_node,
        _,
        flags,
        relay_factor,
        timeout,
        name,
        payload,
    ] = values;
    Query {
        time: huge(&time),
        id: long(&id),
        addr: into_raw(alloc, addr),
        port: short(&port),
        source_node: into_raw(alloc, source_node),
        filters,
        flags: long(&flags),
        relay_factor: tiny(&relay_factor),
        timeout: signed(&timeout),
        name: into_raw(alloc, name),
        payload: into_raw(alloc, payload),
    }
}

fn response_of(alloc: Global, values: Values) -> QueryResponse
    ensures { response_value result ≡ response_of (slots_of values) }
{
    let [time, id, from, flags, payload, ..] = values;
    QueryResponse {
        time: huge(&time),
        id: long(&id),
        from: into_raw(alloc, from),
        flags: long(&flags),
        payload: into_raw(alloc, payload),
    }
}

fn relay_of(alloc: Global, values: Values, addr: Values, message: Vec<u8>) -> Relay
    ensures { relay_value result ≡ relay_of (slots_of values) (slots_of addr) message.items }
{
    let [_, name, ..] = values;
    let [ip, port, zone, ..] = addr;
    Relay {
        addr: into_raw(alloc, ip),
        port: short(&port),
        zone: into_raw(alloc, zone),
        name: into_raw(alloc, name),
        message,
    }
}
