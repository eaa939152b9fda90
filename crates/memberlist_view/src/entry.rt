//! What a view shows for a name.

ghost use Rattle.std.specs.Prelude.{◌≡◌, Some, IfOk};
ghost use Rattle.std.specs.Option.{option_copied};
ghost use Rattle.memberlist_view.specs.Member.{is_dropped, is_noted};
ghost use Rattle.memberlist_view.specs.Rules.{blank, is_gone, has_left, is_forgotten, lacks_place, place_of};

use crate::accusers::Accusers;
use crate::member_name::MemberName;
use crate::rivals::Rivals;
use std::alloc::{AllocError, Global};
use swim_claim::Details;

/// The state of a member.
#[derive(Drop)]
pub enum State {
    /// Only an Alive at incarnation 0 was heard, which gives an address and is not believed.
    Noted,
    /// Packets show that it is alive, and no claim about it was heard.
    Seen,
    /// Alive.
    Alive,
    /// Suspected by these members. Records of streams name nobody.
    Suspect { by: Accusers },
    /// Declared dead by this member. A record of a stream names nobody.
    Dead { by: Option<MemberName> },
    /// It left on its own.
    Left,
}

/// What a view shows for a name.
#[derive(Drop)]
pub struct Entry {
    /// The state of the member.
    pub state: State,
    /// The incarnation of that state, 0 to 4,294,967,295; 0 if the member was only noted or seen.
    pub inc: u32,
    /// The details of the newest Alive that was believed, or of the first that was heard. None if
    /// only others spoke of the member.
    pub details: Option<Details>,
    /// The address and port that a packet showed first, while there were no details.
    pub seen: Option<Details>,
    /// When the state began, in microseconds since the start of 1970. A further accuser, new
    /// details and a conflict do not change it.
    pub since: u64,
    /// What other agents of this name, at other addresses, said about themselves since the newest
    /// Alive that was believed.
    pub rivals: Rivals,
}

impl State {
    pub(crate) fn has_left(&self) -> bool
        ensures { result ≡ has_left self.now }
    {
        match self {
            State::Left => true,
            State::Noted
            | State::Seen
            | State::Alive
            | State::Suspect { .. }
            | State::Dead { .. } => false,
        }
    }

    /// Whether only its address is known.
    pub(crate) fn is_noted(&self) -> bool
        ensures { result ≡ is_noted self.now }
    {
        match self {
            State::Noted => true,
            State::Seen | State::Alive | State::Suspect { .. } | State::Dead { .. } | State::Left =>
                false,
        }
    }

    /// Whether it is dead or has left.
    pub(crate) fn is_gone(&self) -> bool
        ensures { result ≡ is_gone self.now }
    {
        match self {
            State::Dead { .. } | State::Left => true,
            State::Noted | State::Seen | State::Alive | State::Suspect { .. } => false,
        }
    }

    /// A copy.
    fn try_clone(&self, alloc: Global) -> Result<State, AllocError>
        ensures { IfOk result (λ state. state ≡ self.now) }
    {
        match self {
            State::Noted => Ok(State::Noted),
            State::Seen => Ok(State::Seen),
            State::Alive => Ok(State::Alive),
            State::Suspect { by } => Ok(State::Suspect {
                by: by.try_clone(alloc)?,
            }),
            State::Dead { by } => Ok(State::Dead {
                by: name_copy(alloc, by.as_ref())?,
            }),
            State::Left => Ok(State::Left),
        }
    }
}

/// A copy, or none.
pub(crate) fn name_copy(
    alloc: Global,
    name: Option<&MemberName>,
) -> Result<Option<MemberName>, AllocError>
    ensures { IfOk result (λ copy. copy ≡ option_copied name.entry) }
{
    match name {
        Some(name) => Ok(Some(name.try_clone(alloc)?)),
        None => Ok(None),
    }
}

/// A copy, or none.
fn copy_of(alloc: Global, details: Option<&Details>) -> Result<Option<Details>, AllocError>
    ensures { IfOk result (λ copy. copy ≡ option_copied details.entry) }
{
    match details {
        Some(details) => Ok(Some(details.try_clone(alloc)?)),
        None => Ok(None),
    }
}

impl Entry {
    /// The entry of a name about which nothing was heard. It takes no memory.
    pub(crate) fn blank(alloc: Global, time: u64) -> Entry
        ensures { result ≡ blank time }
    {
        Entry {
            state: State::Noted,
            inc: 0,
            details: None,
            seen: None,
            since: time,
            rivals: Rivals::new(alloc),
        }
    }

    /// Where the member is: by its details, or else as packets showed.
    pub fn place(&self) -> Option<&Details>
        ensures { option_copied result ≡ place_of self.now.details self.now.seen }
    {
        match &self.details {
            Some(details) => Some(details),
            None => self.seen.as_ref(),
        }
    }

    /// Whether it has been dead, or has left, for longer than the wait.
    pub(crate) fn is_forgotten(&self, wait: u64, time: u64) -> bool
        ensures { result ≡ is_forgotten wait time self.now }
    {
        self.state.is_gone() && wait < time.saturating_sub(self.since)
    }

    /// Whether a member that forgets drops it.
    pub(crate) fn is_dropped(&self, wait: u64, time: u64) -> bool
        ensures { result ≡ is_dropped wait time self.now }
    {
        self.is_forgotten(wait, time) || self.state.is_noted()
    }

    /// Whether neither an Alive nor a packet gave an address.
    pub(crate) fn lacks_place(&self) -> bool
        ensures { result ≡ lacks_place self.now }
    {
        self.details.is_none() && self.seen.is_none()
    }

    /// The entry with another state at this incarnation since this time.
    pub(crate) fn with_state(
        &self,
        alloc: Global,
        state: State,
        inc: u32,
        since: u64,
    ) -> Result<Entry, AllocError>
        ensures { IfOk result (λ entry.
            entry ≡ record self.now { state = state; inc = inc; since = since }) }
    {
        Ok(Entry {
            state,
            inc,
            details: copy_of(alloc, self.details.as_ref())?,
            seen: copy_of(alloc, self.seen.as_ref())?,
            since,
            rivals: self.rivals.try_clone(alloc)?,
        })
    }

    /// The entry with these details.
    pub(crate) fn with_details(&self, alloc: Global, details: &Details) -> Result<Entry, AllocError>
        ensures { IfOk result (λ entry. entry ≡ record self.now { details = Some details.now }) }
    {
        Ok(Entry {
            state: self.state.try_clone(alloc)?,
            inc: self.inc,
            details: Some(details.try_clone(alloc)?),
            seen: copy_of(alloc, self.seen.as_ref())?,
            since: self.since,
            rivals: self.rivals.try_clone(alloc)?,
        })
    }

    /// The entry with this address and port as packets show them.
    pub(crate) fn with_seen(&self, alloc: Global, place: &Details) -> Result<Entry, AllocError>
        ensures { IfOk result (λ entry. entry ≡ record self.now { seen = Some place.now }) }
    {
        Ok(Entry {
            state: self.state.try_clone(alloc)?,
            inc: self.inc,
            details: copy_of(alloc, self.details.as_ref())?,
            seen: Some(place.try_clone(alloc)?),
            since: self.since,
            rivals: self.rivals.try_clone(alloc)?,
        })
    }

    /// The entry after a conflict with one more agent.
    pub(crate) fn with_rivals(&self, alloc: Global, rivals: Rivals) -> Result<Entry, AllocError>
        ensures { IfOk result (λ entry. entry ≡ record self.now { rivals = rivals }) }
    {
        Ok(Entry {
            state: self.state.try_clone(alloc)?,
            inc: self.inc,
            details: copy_of(alloc, self.details.as_ref())?,
            seen: copy_of(alloc, self.seen.as_ref())?,
            since: self.since,
            rivals,
        })
    }
}
