//! Serf's state at the end of a push/pull stream: who left, and which user events the member
//! remembers.

ghost use Rattle.std.specs.Prelude.{◌≡◌, [], map, IfOk};
ghost use Rattle.swimwatch.specs.SerfState.{left_in};

use serf_message::{EventGroup, SerfFault, decode_state};
use std::alloc::{AllocError, Global};
use std::collections::BTreeSet;

/// The most bytes of a user state that is read (own): a byte may stand for an event, which takes some
/// fifty in memory. Serf's own states have a few megabytes at most.
pub(crate) const MAX_STATE_LEN: usize = 8_388_608;

/// A user event that a member remembers.
#[derive(Drop, PartialEq, Eq, PartialOrd, Ord)]
pub(crate) struct UserEvent {
    /// Its Lamport time.
    pub(crate) ltime: u64,
    /// Its name.
    pub(crate) name: Vec<u8>,
    /// What it carries; may be empty.
    pub(crate) payload: Vec<u8>,
}

/// Events, each once, by their times, then by their names, then by their payloads.
pub(crate) type UserEvents = BTreeSet<UserEvent>;

/// What Serf's state says.
#[derive(Drop)]
pub(crate) struct SerfState {
    /// The names of the members that left.
    pub(crate) left: Vec<Vec<u8>>,
    /// The events that the member remembers.
    pub(crate) events: UserEvents,
}

impl SerfState {
    /// What the user state of a push/pull stream says, if it is Serf's. One of another program says
    /// nothing, nor does one that Serf would not have written, or of more than 8,388,608 bytes.
    ///
    /// # Errors
    ///
    /// If out of memory.
    pub(crate) fn of_user(alloc: Global, user: &[u8]) -> Result<SerfState, AllocError>
        ensures left { IfOk result (λ state. map (λ v. v.items) state.left.items ≡ left_in user.now) }
    {
        if MAX_STATE_LEN < user.len() {
            return Ok(SerfState::nothing(alloc));
        }
        match decode_state(alloc, user) {
            Ok(state) => Ok(SerfState {
                left: state.left_members,
                events: events_in(alloc, state.events)?,
            }),
            Err(SerfFault::Memory) => Err(AllocError),
            Err(_) => Ok(SerfState::nothing(alloc)),
        }
    }

    /// Nothing.
    fn nothing(alloc: Global) -> SerfState
        ensures { result.left.items ≡ [] }
    {
        SerfState {
            left: Vec::new(alloc),
            events: BTreeSet::new(alloc),
        }
    }
}

/// The events at the places of a ring.
fn events_in(alloc: Global, places: Vec<Option<EventGroup>>) -> Result<UserEvents, AllocError> {
    let mut events = BTreeSet::new(alloc);
    for place in places {
        if let Some(group) = place {
            take_group(&mut events, group)?;
        }
    }
    Ok(events)
}

/// Adds the events of one time.
fn take_group(events: &mut UserEvents, group: EventGroup) -> Result<(), AllocError> {
    for event in group.events {
        events.insert(UserEvent {
            ltime: group.time,
            name: event.name,
            payload: event.payload,
        })?;
    }
    Ok(())
}
