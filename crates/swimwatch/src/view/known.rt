//! What somebody says about a member.

ghost use Rattle.std.specs.Prelude.{◌≡◌, ◌≢◌, IfOk};
ghost use Rattle.std.specs.Option.{option_copied};
ghost use Rattle.swimwatch.specs.Knowing.{are_apart, as_left, has_state_of, is_same, is_same_details};
ghost use Rattle.swimwatch.specs.Knowing.{is_still_leaving};
ghost use Rattle.swimwatch.specs.Knowing.{known_of_entry, known_of_record, lacks_claim, shown_kind};
ghost use Rattle.swimwatch.specs.Knowing.{with_intent};

use crate::text::json::Object;
use crate::text::tags::{is_bare, is_same_meta};
use crate::text::texts::{LEAVING, NONE, address_text, kind_word, meta_text};
use memberlist_view::{Entry, State};
use std::alloc::{AllocError, Global};
use swim_claim::{Details, Kind};
use swim_wire::StateRecord;

/// What was not heard about a member, though packets show that it is there.
#[derive(Clone, Copy, Default, PartialEq, Eq)]
pub(crate) struct Unheard {
    /// A claim about its state.
    pub(crate) state: bool,
    /// Its metadata and versions: of its details only the address and port are known.
    pub(crate) tags: bool,
}

/// A member's state and details, as somebody reports them.
#[derive(Drop)]
pub(crate) struct Known {
    pub(crate) kind: Kind,
    pub(crate) inc: u32,
    /// Its address, port, metadata and versions, if they were said.
    pub(crate) details: Option<Details>,
    /// What is not known; nothing, if a member reports it.
    pub(crate) unheard: Unheard,
    /// Whether it is alive and said that it leaves (Serf's leave intents).
    pub(crate) leaving: bool,
}

impl Known {
    /// What a view shows of a member that Serf's intents have as leaving, or not.
    pub(crate) fn of_entry(alloc: Global, entry: &Entry, leaving: bool) -> Result<Known, AllocError>
        ensures { IfOk result (λ known. known ≡ known_of_entry entry.now leaving) }
    {
        let shown = kind_of(&entry.state);
        Ok(Known {
            kind: with_intent(leaving, shown),
            inc: entry.inc,
            details: copy_of(alloc, entry.place())?,
            unheard: Unheard {
                state: lacks_claim(&entry.state),
                tags: entry.details.is_none(),
            },
            leaving: is_still_leaving(leaving, shown),
        })
    }

    /// What a record of a stream says. Its details are there in any state.
    pub(crate) fn of_record(alloc: Global, said: StateRecord) -> Result<Known, AllocError>
        ensures { IfOk result (λ known. known ≡ known_of_record said) }
    {
        let claim = said.claim;
        Ok(Known {
            kind: claim.kind(),
            inc: claim.inc(),
            details: match claim.details() {
                Some(details) => Some(details.try_clone(alloc)?),
                None => said.told,
            },
            unheard: Unheard::default(),
            leaving: false,
        })
    }

    /// Notes that Serf has it as left: what memberlist has as its death was then its leave.
    pub(crate) fn note_left(&mut self)
        ensures dead { self.old.kind ≡ Kind.Confirm → self.new.kind ≡ Kind.Leave }
        ensures other { self.old.kind ≢ Kind.Confirm → self.new ≡ self.old }
        ensures left { self.new ≡ as_left self.old }
    {
        if self.kind == Kind::Confirm {
            self.kind = Kind::Leave;
        }
    }

    /// Whether both say the same. Details that one of the two lacks are not compared, nor is the order
    /// of tags.
    pub(crate) fn is_same(&self, other: &Known) -> bool
        ensures { result ≡ is_same self.now other.now }
    {
        let same_details = match (&self.details, &other.details) {
            (Some(own), Some(others)) => is_same_details(own, others),
            _ => true,
        };
        self.has_state_of(other) && same_details
    }

    /// Whether both have the same state and incarnation.
    fn has_state_of(&self, other: &Known) -> bool
        ensures { result ≡ has_state_of self.now other.now }
    {
        self.kind == other.kind && self.leaving == other.leaving && self.inc == other.inc
    }

    /// Whether the two can be true of one member: what one of them did not hear is not compared.
    pub(crate) fn agrees(&self, other: &Known) -> bool {
        let is_seen = self.unheard.state || other.unheard.state;
        let is_tagless = self.unheard.tags || other.unheard.tags;
        let same_state = is_seen || self.has_state_of(other);
        let same_tags = is_tagless
            || (is_same_meta(self.meta(), other.meta()) && self.vsn() == other.vsn());
        same_state && same_tags && !self.is_elsewhere(other)
    }

    /// Whether it says something that the other did not hear.
    pub(crate) fn knows_more(&self, other: &Known) -> bool {
        (other.unheard.state && !self.unheard.state)
            || (other.unheard.tags && !self.unheard.tags)
            || (other.details.is_none() && self.details.is_some())
    }

    /// Whether both report an address and port, and these differ.
    pub(crate) fn is_elsewhere(&self, other: &Known) -> bool
        ensures { result ≡ are_apart self.now.details other.now.details }
    {
        match (&self.details, &other.details) {
            (Some(own), Some(others)) => {
                own.addr() != others.addr() || own.port() != others.port()
            }
            _ => false,
        }
    }

    /// The word for its state.
    pub(crate) fn state(&self) -> &'static str {
        if self.leaving {
            LEAVING
        } else {
            kind_word(self.kind)
        }
    }

    /// The address and port; empty if none were said.
    pub(crate) fn address(&self, alloc: Global) -> Result<String, AllocError> {
        match &self.details {
            Some(details) => address_text(alloc, details),
            None => Ok(String::new(alloc)),
        }
    }

    /// The incarnation, or `-` if no claim was heard.
    pub(crate) fn inc_text(&self, alloc: Global) -> Result<String, AllocError> {
        if self.unheard.state {
            String::from_str(alloc, NONE)
        } else {
            format!(in alloc; "{}", self.inc)
        }
    }

    /// The address and port, or `-` if none were said.
    pub(crate) fn place_text(&self, alloc: Global) -> Result<String, AllocError> {
        match &self.details {
            Some(details) => address_text(alloc, details),
            None => String::from_str(alloc, NONE),
        }
    }

    /// The metadata; empty if none were said.
    pub(crate) fn meta(&self) -> &[u8] {
        match &self.details {
            Some(details) => details.meta(),
            None => &[],
        }
    }

    /// The versions; empty if none were said.
    pub(crate) fn vsn(&self) -> &[u8] {
        match &self.details {
            Some(details) => details.vsn(),
            None => &[],
        }
    }

    /// Whether no tags and no other metadata were said.
    pub(crate) fn is_bare(&self) -> bool {
        is_bare(self.meta())
    }

    /// The metadata, in readable form.
    pub(crate) fn tags(&self, alloc: Global) -> Result<String, AllocError> {
        meta_text(alloc, self.meta())
    }

    /// Adds it to an object of JSON.
    pub(crate) fn write(&self, object: &mut Object) {
        object.word("state", self.state());
        if !self.unheard.state {
            object.number("incarnation", u64::from(self.inc));
        }
        match &self.details {
            Some(details) => object.details(details),
            None => {}
        }
    }
}

fn is_same_details(one: &Details, other: &Details) -> bool
    ensures { result ≡ is_same_details one.now other.now }
{
    one.addr() == other.addr()
        && one.port() == other.port()
        && one.vsn() == other.vsn()
        && is_same_meta(one.meta(), other.meta())
}

fn kind_of(state: &State) -> Kind
    ensures { result ≡ shown_kind state.now }
{
    match state {
        State::Noted | State::Seen | State::Alive => Kind::Alive,
        State::Suspect { .. } => Kind::Suspect,
        State::Dead { .. } => Kind::Confirm,
        State::Left => Kind::Leave,
    }
}

/// Serf's rule: a member that said that it leaves, and then is dead, has left.
fn with_intent(leaving: bool, kind: Kind) -> Kind
    ensures { result ≡ with_intent leaving kind }
{
    match kind {
        Kind::Confirm if leaving => Kind::Leave,
        kind => kind,
    }
}

/// Whether it is leaving: it said so and is alive.
fn is_still_leaving(leaving: bool, kind: Kind) -> bool
    ensures { result ≡ is_still_leaving leaving kind }
{
    leaving && kind == Kind::Alive
}

/// Whether no claim about its state was heard.
fn lacks_claim(state: &State) -> bool
    ensures { result ≡ lacks_claim state.now }
{
    match state {
        State::Noted | State::Seen => true,
        State::Alive | State::Suspect { .. } | State::Dead { .. } | State::Left => false,
    }
}

/// A copy, or none.
fn copy_of(alloc: Global, details: Option<&Details>) -> Result<Option<Details>, AllocError>
    ensures { IfOk result (λ copy. copy ≡ option_copied details.entry) }
{
    match details {
        Some(details) => Ok(Some(details.try_clone(alloc)?)),
        None => Ok(None),
    }
}
