//! Messages in Serf's bytes: a type byte, and a map of the fields in alphabetical order, as
//! go-msgpack writes them in its old form.

ghost use Rattle.std.specs.Prelude.{◌≡◌, ◌<◌, ◌^◌, ◌++◌, ◌∷◌, length, IfOk, OnOk};
ghost use Rattle.serf_message.specs.Messages.{message_value, leave_value, join_value, event_value, query_value};
ghost use Rattle.serf_message.specs.Messages.{response_value, relay_value};
ghost use Rattle.serf_message.specs.Writing.{IsShort, IsShortQuery, IsShortRelay, message_bytes, entries_text};
ghost use Rattle.serf_message.specs.Writing.{list_text, leave_entries, join_entries, event_entries, query_entries};
ghost use Rattle.serf_message.specs.Writing.{response_entries, relay_entries};

use crate::decode::{
    EVENT_MESSAGE, JOIN_MESSAGE, LEAVE_MESSAGE, QUERY_MESSAGE, RELAY_MESSAGE, RESPONSE_MESSAGE,
};
use crate::layout::Key;
use crate::message::{Join, Leave, Message, Query, QueryResponse, Relay, UserEvent};
use crate::pairs::{Written, write_fields};
use crate::write::write_list;
use std::alloc::{AllocError, Global};

/// The body of the user message of memberlist that carries this message. Each text and each field of
/// bytes has at most 65,535 bytes.
///
/// # Errors
///
/// `AllocError` if memory ran out.
pub fn encode_message(alloc: Global, message: &Message) -> Result<Vec<u8>, AllocError>
    requires { IsShort (message_value message.now) }
    ensures { IfOk result (λ bytes. bytes.items ≡ message_bytes (message_value message.now)) }
{
    let mut out = Vec::new(alloc);
    match message {
        Message::Leave(leave) => write_leave(&mut out, leave)?,
        Message::Join(join) => write_join(&mut out, join)?,
        Message::Event(event) => write_event(&mut out, event)?,
        Message::Query(query) => write_query(alloc, &mut out, query)?,
        Message::Response(response) => write_response(&mut out, response)?,
        Message::Relay(relay) => write_relay(alloc, &mut out, relay)?,
    }
    Ok(out)
}

fn write_leave(out: &mut Vec<u8>, leave: &Leave) -> Result<(), AllocError>
    requires { length leave.now.node.items < 2 ^ 16 }
    ensures { OnOk result (out.new.items
        ≡ out.old.items ++ 0 ∷ entries_text (leave_entries (leave_value leave.now))) }
{
    out.extend_from_slice(&[LEAVE_MESSAGE])?;
    write_fields(
        out,
        &[
            (Key::Time, Written::Number(leave.time)),
            (Key::Node, Written::Text(&leave.node)),
            (Key::Prune, Written::Flag(leave.prune)),
        ],
    )
}

fn write_join(out: &mut Vec<u8>, join: &Join) -> Result<(), AllocError>
    requires { length join.now.node.items < 2 ^ 16 }
    ensures { OnOk result (out.new.items
        ≡ out.old.items ++ 1 ∷ entries_text (join_entries (join_value join.now))) }
{
    out.extend_from_slice(&[JOIN_MESSAGE])?;
    write_fields(
        out,
        &[
            (Key::Time, Written::Number(join.time)),
            (Key::Node, Written::Text(&join.node)),
        ],
    )
}

fn write_event(out: &mut Vec<u8>, event: &UserEvent) -> Result<(), AllocError>
    requires name { length event.now.name.items < 2 ^ 16 }
    requires payload { length event.now.payload.items < 2 ^ 16 }
    ensures { OnOk result (out.new.items
        ≡ out.old.items ++ 3 ∷ entries_text (event_entries (event_value event.now))) }
{
    out.extend_from_slice(&[EVENT_MESSAGE])?;
    write_fields(
        out,
        &[
            (Key::Coalesce, Written::Flag(event.coalesce)),
            (Key::Time, Written::Number(event.time)),
            (Key::Name, Written::Text(&event.name)),
            (Key::Payload, Written::Bytes(&event.payload)),
        ],
    )
}

fn write_query(alloc: Global, out: &mut Vec<u8>, query: &Query) -> Result<(), AllocError>
    requires { IsShortQuery (query_value query.now) }
    ensures { OnOk result (out.new.items
        ≡ out.old.items ++ 4 ∷ entries_text (query_entries (query_value query.now))) }
{
    let mut filters = Vec::new(alloc);
    write_list(&mut filters, &query.filters)?;
    write_query_with(out, query, &filters)
}

/// Appends a query, whose filters have these bytes.
fn write_query_with<'a>(
    out: &mut Vec<u8>,
    query: &'a Query,
    filters: &'a [u8],
) -> Result<(), AllocError>
    requires short { IsShortQuery (query_value query.now) }
    requires filters { filters.now ≡ list_text (query_value query.now).filters }
    ensures { OnOk result (out.new.items
        ≡ out.old.items ++ 4 ∷ entries_text (query_entries (query_value query.now))) }
{
    out.extend_from_slice(&[QUERY_MESSAGE])?;
    write_fields(
        out,
        &[
            (Key::Addr, Written::Bytes(&query.addr)),
            (Key::Filters, Written::Whole(filters)),
            (Key::Flags, Written::Number(u64::from(query.flags))),
            (Key::Id, Written::Number(u64::from(query.id))),
            (Key::Time, Written::Number(query.time)),
            (Key::Name, Written::Text(&query.name)),
            (Key::Payload, Written::Bytes(&query.payload)),
            (Key::Port, Written::Number(u64::from(query.port))),
            (
                Key::RelayFactor,
                Written::Number(u64::from(query.relay_factor)),
            ),
            (Key::SourceNode, Written::Text(&query.source_node)),
            (Key::Timeout, Written::Signed(query.timeout)),
        ],
    )
}

fn write_response(out: &mut Vec<u8>, response: &QueryResponse) -> Result<(), AllocError>
    requires from { length response.now.from.items < 2 ^ 16 }
    requires payload { length response.now.payload.items < 2 ^ 16 }
    ensures { OnOk result (out.new.items
        ≡ out.old.items ++ 5 ∷ entries_text (response_entries (response_value response.now))) }
{
    out.extend_from_slice(&[RESPONSE_MESSAGE])?;
    write_fields(
        out,
        &[
            (Key::Flags, Written::Number(u64::from(response.flags))),
            (Key::From, Written::Text(&response.from)),
            (Key::Id, Written::Number(u64::from(response.id))),
            (Key::Time, Written::Number(response.time)),
            (Key::Payload, Written::Bytes(&response.payload)),
        ],
    )
}

fn write_relay(alloc: Global, out: &mut Vec<u8>, relay: &Relay) -> Result<(), AllocError>
    requires { IsShortRelay (relay_value relay.now) }
    ensures { OnOk result (out.new.items ≡ out.old.items
        ++ 9 ∷ entries_text (relay_entries (relay_value relay.now)) ++ relay.now.message.items) }
{
    let mut addr = Vec::new(alloc);
    write_fields(
        &mut addr,
        &[
            (Key::Ip, Written::Bytes(&relay.addr)),
            (Key::Port, Written::Number(u64::from(relay.port))),
            (Key::Zone, Written::Text(&relay.zone)),
        ],
    )?;
    out.extend_from_slice(&[RELAY_MESSAGE])?;
    write_fields(
        out,
        &[
            (Key::DestAddr, Written::Whole(&addr)),
            (Key::DestName, Written::Text(&relay.name)),
        ],
    )?;
    out.extend_from_slice(&relay.message)
}
