//! The state of a push/pull from its bytes.

ghost use Rattle.std.specs.Prelude.{◌≡◌, Ok, map, MatchResult};
ghost use Rattle.serf_message.specs.Reading.{IsFault};
ghost use Rattle.serf_message.specs.Many.{listed, many_at};
ghost use Rattle.serf_message.specs.States.{state_of, state_after, state_from, state_value, statuses_in, status_at};
ghost use Rattle.serf_message.specs.States.{status_value, place_at, place_value, group_at, group_value, grouped_at};
ghost use Rattle.serf_message.specs.States.{grouped_value};
ghost use Rattle.serf_message.specs.Slots.{raw_in};
ghost use Rattle.serf_message.specs.Values.{slots_of};

use crate::fault::SerfFault;
use crate::field_value::{huge, into_raw};
use crate::fields::{Values, raw_at, read_all_fields, read_fields};
use crate::heads::{body_of, next_byte, next_number};
use crate::layout::{GROUP, GROUPED, STATE};
use crate::many::{append, list_of_texts, next_list_len, next_map_len, next_owned_text};
use crate::state::{EventGroup, GroupedEvent, State, StatusTime};
use std::alloc::Global;

/// The first byte of the state of a push/pull, as in Serf's `messages.go`.
pub(crate) const STATE_MESSAGE: u8 = 2;

/// The state in the user state of a push/pull of memberlist, as Serf decodes it (delegate.go,
/// `MergeRemoteState`): type byte 2, and one value with its fields.
///
/// # Errors
///
/// The first of these that holds: `Ended` if there are no bytes; `WrongType` if the first is not 2;
/// the faults of the value, as for `decode_message`; `Trailing` if there are bytes behind it; the
/// faults of the status times, then of the members that left, then of the events, as their bytes are
/// read: `NotMap` if the status times or an event are no map, and `NotList` if the others are no
/// list. `Memory` comes if an allocation failed.
pub fn decode_state(alloc: Global, bytes: &[u8]) -> Result<State, SerfFault>
    ensures { MatchResult result (λ s. state_of bytes.now ≡ Ok (state_value s))
        (IsFault (state_of bytes.now)) }
{
    let body = body_of(bytes, STATE_MESSAGE)?;
    state_after(alloc, body)
}

/// The state behind its type byte.
#[tactic(auto, unfolding(crate::specs::States::state_after))]
fn state_after(alloc: Global, body: &[u8]) -> Result<State, SerfFault>
    ensures { MatchResult result (λ s. state_after body.now ≡ Ok (state_value s))
        (IsFault (state_after body.now)) }
{
    let values = read_all_fields(alloc, body, &STATE)?;
    state_from(alloc, values)
}

/// The state of these fields.
#[tactic(auto, unfolding(crate::specs::States::state_from))]
fn state_from(alloc: Global, values: Values) -> Result<State, SerfFault>
    ensures { MatchResult result (λ s. state_from (slots_of values) ≡ Ok (state_value s))
        (IsFault (state_from (slots_of values))) }
{
    let status_times = list_of_statuses(alloc, raw_at(&values, 1))?;
    let left_members = list_of_texts(alloc, raw_at(&values, 2))?;
    let events = list_of_places(alloc, raw_at(&values, 4))?;
    let [time, _, _, event_time, _, query_time, ..] = values;
    Ok(State {
        time: huge(&time),
        status_times,
        left_members,
        event_time: huge(&event_time),
        events,
        query_time: huge(&query_time),
    })
}

/// The names and times of the map that is this value, or none if there are no bytes.
fn list_of_statuses(alloc: Global, whole: &[u8]) -> Result<Vec<StatusTime>, SerfFault>
    ensures { MatchResult result
        (λ list. statuses_in whole.now ≡ Ok (map status_value list.items))
        (IsFault (statuses_in whole.now)) }
{
    if whole.is_empty() {
        return Ok(Vec::new(alloc));
    }
    let (count, rest) = next_map_len(whole)?;
    let (list, _) = many_statuses(alloc, rest, count)?;
    Ok(list)
}

/// This many names and times.
fn many_statuses(
    alloc: Global,
    bytes: &[u8],
    count: u32,
) -> Result<(Vec<StatusTime>, &[u8]), SerfFault>
    ensures { MatchResult result
        (λ read. many_at status_at count bytes.now
        ≡ Ok (map status_value read.0.items, read.1.now))
        (IsFault (many_at status_at count bytes.now)) }
{
    let mut list = Vec::new(alloc);
    let mut rest = bytes;
    for _ in 0..count {
        let (value, after) = next_status(alloc, rest)?;
        append(&mut list, value)?;
        rest = after;
    }
    Ok((list, rest))
}

/// A name and a time.
#[tactic(auto, unfolding(crate::specs::States::status_at))]
fn next_status(alloc: Global, bytes: &[u8]) -> Result<(StatusTime, &[u8]), SerfFault>
    ensures { MatchResult result
        (λ read. status_at bytes.now ≡ Ok (status_value read.0, read.1.now))
        (IsFault (status_at bytes.now)) }
{
    let (node, rest) = next_owned_text(alloc, bytes)?;
    let (time, rest) = next_number(rest, 0xffff_ffff_ffff_ffff)?;
    Ok((StatusTime { node, time }, rest))
}

/// The places of the list that is this value, or none if there are no bytes.
fn list_of_places(alloc: Global, whole: &[u8]) -> Result<Vec<Option<EventGroup>>, SerfFault>
    ensures { MatchResult result
        (λ list. listed place_at whole.now ≡ Ok (map place_value list.items))
        (IsFault (listed place_at whole.now)) }
{
    if whole.is_empty() {
        return Ok(Vec::new(alloc));
    }
    let (count, rest) = next_list_len(whole)?;
    let (list, _) = many_places(alloc, rest, count)?;
    Ok(list)
}

/// This many places.
fn many_places(
    alloc: Global,
    bytes: &[u8],
    count: u32,
) -> Result<(Vec<Option<EventGroup>>, &[u8]), SerfFault>
    ensures { MatchResult result
        (λ read. many_at place_at count bytes.now
        ≡ Ok (map place_value read.0.items, read.1.now))
        (IsFault (many_at place_at count bytes.now)) }
{
    let mut list = Vec::new(alloc);
    let mut rest = bytes;
    for _ in 0..count {
        let (value, after) = next_place(alloc, rest)?;
        append(&mut list, value)?;
        rest = after;
    }
    Ok((list, rest))
}

/// A place of the ring of events. Nil is an empty one.
fn next_place(alloc: Global, bytes: &[u8]) -> Result<(Option<EventGroup>, &[u8]), SerfFault>
    ensures { MatchResult result (λ read. place_at bytes.now ≡ Ok (place_value read.0, read.1.now))
        (IsFault (place_at bytes.now)) }
{
    let (first, rest) = next_byte(bytes)?;
    if first == 0xc0 {
        return Ok((None, rest));
    }
    let (group, rest) = next_group(alloc, bytes)?;
    Ok((Some(group), rest))
}

/// The events of one time.
#[tactic(auto, unfolding(crate::specs::States::group_at))]
fn next_group(alloc: Global, bytes: &[u8]) -> Result<(EventGroup, &[u8]), SerfFault>
    ensures { MatchResult result (λ read. group_at bytes.now ≡ Ok (group_value read.0, read.1.now))
        (IsFault (group_at bytes.now)) }
{
    let (values, rest) = read_fields(alloc, bytes, &GROUP)?;
    let events = list_of_grouped(alloc, raw_at(&values, 1))?;
    let [time, ..] = values;
    Ok((
        EventGroup {
            time: huge(&time),
            events,
        },
        rest,
    ))
}

/// The events of the list that is this value, or none if there are no bytes.
fn list_of_grouped(alloc: Global, whole: &[u8]) -> Result<Vec<GroupedEvent>, SerfFault>
    ensures { MatchResult result
        (λ list. listed grouped_at whole.now ≡ Ok (map grouped_value list.items))
        (IsFault (listed grouped_at whole.now)) }
{
    if whole.is_empty() {
        return Ok(Vec::new(alloc));
    }
    let (count, rest) = next_list_len(whole)?;
    let (list, _) = many_grouped(alloc, rest, count)?;
    Ok(list)
}

/// This many events.
fn many_grouped(
    alloc: Global,
    bytes: &[u8],
    count: u32,
) -> Result<(Vec<GroupedEvent>, &[u8]), SerfFault>
    ensures { MatchResult result
        (λ read. many_at grouped_at count bytes.now
        ≡ Ok (map grouped_value read.0.items, read.1.now))
        (IsFault (many_at grouped_at count bytes.now)) }
{
    let mut list = Vec::new(alloc);
    let mut rest = bytes;
    for _ in 0..count {
        let (value, after) = next_grouped(alloc, rest)?;
        append(&mut list, value)?;
        rest = after;
    }
    Ok((list, rest))
}

/// An event.
#[tactic(auto, unfolding(crate::specs::States::grouped_at))]
fn next_grouped(alloc: Global, bytes: &[u8]) -> Result<(GroupedEvent, &[u8]), SerfFault>
    ensures { MatchResult result
        (λ read. grouped_at bytes.now ≡ Ok (grouped_value read.0, read.1.now))
        (IsFault (grouped_at bytes.now)) }
{
    let (values, rest) = read_fields(alloc, bytes, &GROUPED)?;
    Ok((grouped_of(alloc, values), rest))
}

fn grouped_of(alloc: Global, values: Values) -> GroupedEvent
    ensures { grouped_value result ≡ (raw_in (slots_of values) 0, raw_in (slots_of values) 1) }
{
    let [name, payload, ..] = values;
    GroupedEvent {
        name: into_raw(alloc, name),
        payload: into_raw(alloc, payload),
    }
}
