//! The state of a push/pull in Serf's bytes. A failed call may leave a part of what it appends.

ghost use Rattle.std.specs.Prelude.{◌≡◌, ◌<◌, ◌^◌, ◌++◌, length, map, IfOk, OnOk};
ghost use Rattle.std.specs.List.{AllByRecursion, flat_map};
ghost use Rattle.serf_message.specs.States.{IsShortState, IsShortStatus, IsShortGrouped, IsShortGroup, IsShortPlace};
ghost use Rattle.serf_message.specs.States.{state_bytes, state_value, state_entries, statuses_text, status_text};
ghost use Rattle.serf_message.specs.States.{status_value, names_text, places_text, place_text, place_value};
ghost use Rattle.serf_message.specs.States.{group_entries, group_value, all_grouped_text, grouped_text, grouped_value};
ghost use Rattle.serf_message.specs.Writing.{IsShortList, entries_text};

use crate::layout::Key;
use crate::pairs::{Written, write_fields};
use crate::read_state::STATE_MESSAGE;
use crate::state::{EventGroup, GroupedEvent, State, StatusTime};
use crate::write::{write_each_text, write_list_len, write_map_len};
use std::alloc::{AllocError, Global};
use swim_pack::{write_raw, write_uint};

/// The user state of a push/pull of memberlist with this state. There are at most 65,535 members
/// and places, and each name and payload has at most 65,535 bytes. The status times are in the
/// order in which they are given, where Serf writes them in any order.
///
/// # Errors
///
/// `AllocError` if memory ran out.
pub fn encode_state(alloc: Global, state: &State) -> Result<Vec<u8>, AllocError>
    requires { IsShortState (state_value state.now) }
    ensures { IfOk result (λ bytes. bytes.items ≡ state_bytes (state_value state.now)) }
{
    let mut statuses = Vec::new(alloc);
    write_statuses(&mut statuses, &state.status_times)?;
    let mut names = Vec::new(alloc);
    write_names(&mut names, &state.left_members)?;
    let mut places = Vec::new(alloc);
    write_places(alloc, &mut places, &state.events)?;
    let mut out = Vec::new(alloc);
    out.extend_from_slice(&[STATE_MESSAGE])?;
    write_fields(
        &mut out,
        &[
            (Key::EventTime, Written::Number(state.event_time)),
            (Key::Events, Written::Whole(&places)),
            (Key::Time, Written::Number(state.time)),
            (Key::LeftMembers, Written::Whole(&names)),
            (Key::QueryTime, Written::Number(state.query_time)),
            (Key::StatusTimes, Written::Whole(&statuses)),
        ],
    )?;
    Ok(out)
}

/// Appends a map of names and times.
fn write_statuses(out: &mut Vec<u8>, list: &[StatusTime]) -> Result<(), AllocError>
    requires few { length list.now < 2 ^ 16 }
    requires short { AllByRecursion IsShortStatus (map status_value list.now) }
    ensures { OnOk result
        (out.new.items ≡ out.old.items ++ statuses_text (map status_value list.now)) }
{
    write_map_len(out, list.len())?;
    write_each_status(out, list)
}

/// Appends each of these names and times.
fn write_each_status(out: &mut Vec<u8>, list: &[StatusTime]) -> Result<(), AllocError>
    requires { AllByRecursion IsShortStatus (map status_value list.now) }
    ensures { OnOk result
        (out.new.items ≡ out.old.items ++ flat_map status_text (map status_value list.now)) }
{
    for status in list {
        write_status(out, status)?;
    }
    Ok(())
}

/// Appends a name and a time.
fn write_status(out: &mut Vec<u8>, status: &StatusTime) -> Result<(), AllocError>
    requires { IsShortStatus (status_value status.now) }
    ensures { OnOk result (out.new.items ≡ out.old.items ++ status_text (status_value status.now)) }
{
    write_raw(out, &status.node)?;
    write_uint(out, status.time)
}

/// Appends a list of names.
fn write_names(out: &mut Vec<u8>, list: &[Vec<u8>]) -> Result<(), AllocError>
    requires { IsShortList (map (λ v. v.items) list.now) }
    ensures { OnOk result
        (out.new.items ≡ out.old.items ++ names_text (map (λ v. v.items) list.now)) }
{
    write_list_len(out, list.len())?;
    write_each_text(out, list)
}

/// Appends a list of places.
fn write_places(
    alloc: Global,
    out: &mut Vec<u8>,
    list: &[Option<EventGroup>],
) -> Result<(), AllocError>
    requires few { length list.now < 2 ^ 16 }
    requires short { AllByRecursion IsShortPlace (map place_value list.now) }
    ensures { OnOk result
        (out.new.items ≡ out.old.items ++ places_text (map place_value list.now)) }
{
    write_list_len(out, list.len())?;
    write_each_place(alloc, out, list)
}

/// Appends each of these places.
fn write_each_place(
    alloc: Global,
    out: &mut Vec<u8>,
    list: &[Option<EventGroup>],
) -> Result<(), AllocError>
    requires { AllByRecursion IsShortPlace (map place_value list.now) }
    ensures { OnOk result
        (out.new.items ≡ out.old.items ++ flat_map place_text (map place_value list.now)) }
{
    for place in list {
        write_place(alloc, out, place)?;
    }
    Ok(())
}

/// Appends a place, or nil for an empty one.
fn write_place(
    alloc: Global,
    out: &mut Vec<u8>,
    place: &Option<EventGroup>,
) -> Result<(), AllocError>
    requires { IsShortPlace (place_value place.now) }
    ensures { OnOk result (out.new.items ≡ out.old.items ++ place_text (place_value place.now)) }
{
    match place {
        Some(group) => write_group(alloc, out, group),
        None => out.extend_from_slice(&[0xc0]),
    }
}

/// Appends the events of one time.
fn write_group(alloc: Global, out: &mut Vec<u8>, group: &EventGroup) -> Result<(), AllocError>
    requires { IsShortGroup (group_value group.now) }
    ensures { OnOk result
        (out.new.items ≡ out.old.items ++ entries_text (group_entries (group_value group.now))) }
{
    let mut events = Vec::new(alloc);
    write_all_grouped(&mut events, &group.events)?;
    write_fields(
        out,
        &[
            (Key::Events, Written::Whole(&events)),
            (Key::Time, Written::Number(group.time)),
        ],
    )
}

/// Appends a list of events.
fn write_all_grouped(out: &mut Vec<u8>, list: &[GroupedEvent]) -> Result<(), AllocError>
    requires few { length list.now < 2 ^ 16 }
    requires short { AllByRecursion IsShortGrouped (map grouped_value list.now) }
    ensures { OnOk result
        (out.new.items ≡ out.old.items ++ all_grouped_text (map grouped_value list.now)) }
{
    write_list_len(out, list.len())?;
    write_each_grouped(out, list)
}

/// Appends each of these events.
fn write_each_grouped(out: &mut Vec<u8>, list: &[GroupedEvent]) -> Result<(), AllocError>
    requires { AllByRecursion IsShortGrouped (map grouped_value list.now) }
    ensures { OnOk result
        (out.new.items ≡ out.old.items ++ flat_map grouped_text (map grouped_value list.now)) }
{
    for event in list {
        write_grouped(out, event)?;
    }
    Ok(())
}

/// Appends an event.
fn write_grouped(out: &mut Vec<u8>, event: &GroupedEvent) -> Result<(), AllocError>
    requires { IsShortGrouped (grouped_value event.now) }
    ensures { OnOk result
        (out.new.items ≡ out.old.items ++ grouped_text (grouped_value event.now)) }
{
    write_fields(
        out,
        &[
            (Key::Name, Written::Text(&event.name)),
            (Key::Payload, Written::Bytes(&event.payload)),
        ],
    )
}
