//! A listener, which hears what members say and says nothing itself.

ghost use Rattle.std.specs.Prelude.{◌≡◌, ◌∷◌, [], IfOk, OnOk};
ghost use Rattle.memberlist_view.specs.declared.heard.Heard.{Heard};
ghost use Rattle.memberlist_view.specs.Told.{event_of, view_after};
ghost use Rattle.swimwatch.specs.Viewed.{begin_with, said_at_start};

use crate::heard::sent::Sent;
use crate::text::texts::{NONE, name_text};
use crate::text::written::Text;
use crate::view::directory::{Directory, place_in, place_of};
use memberlist_view::{Changed, Entry, Event, Heard, MemberName, Said, View};
use std::alloc::{AllocError, Global};
use std::net::SocketAddr;
use swim_claim::{Claim, Name};

/// A listener: its view of the members, and their endpoints.
#[derive(Drop)]
pub(crate) struct Listener {
    alloc: Global,
    pub(crate) view: View,
    directory: Directory,
    /// The name of the view among several.
    pub(crate) name: Option<String>,
}

impl Listener {
    /// A listener that has heard nothing, and forgets a dead member after this many microseconds.
    pub(crate) fn new(alloc: Global, wait: u64, name: Option<String>) -> Listener
        ensures { result.view ≡ record { wait = wait; entries = [] } }
    {
        Listener {
            alloc,
            view: View::new(alloc, wait),
            directory: Directory::new(alloc),
            name,
        }
    }

    /// Hears at this time the records of a table, as the member that it is from shows them: the
    /// deaths in it are no suspicions. Nobody is named.
    pub(crate) fn begin_with(&mut self, time: u64, claims: &[Claim]) -> Result<(), AllocError>
        ensures { OnOk result (self.new.view ≡ begin_with time self.old.view claims.now) }
    {
        for claim in claims {
            self.begin_with_one(time, claim)?;
        }
        Ok(())
    }

    /// Hears such a record.
    fn begin_with_one(&mut self, time: u64, claim: &Claim) -> Result<(), AllocError>
        ensures { OnOk result (self.new.view ≡ view_after self.old.view
            (record { time = time; said = said_at_start claim.now })) }
    {
        let said = said_at_start(self.alloc, claim)?;
        self.hear(&Heard { time, said })?;
        Ok(())
    }

    /// Hears what was said, and returns what changed in the view.
    pub(crate) fn hear(&mut self, heard: &Heard) -> Result<Option<Event>, AllocError>
        ensures event { IfOk result (λ event. event ≡ event_of self.old.view heard.now) }
        ensures view { OnOk result (self.new.view ≡ view_after self.old.view heard.now) }
    {
        let Some(Changed { event, before }) = self.view.hear_over(heard)? else {
            return Ok(None);
        };
        let before = match &before {
            Some(entry) => place_in(entry),
            None => None,
        };
        self.note_place(heard.said.name(), before)?;
        Ok(Some(event))
    }

    /// Notes where a member is now. `before` is where it was.
    fn note_place(
        &mut self,
        name: &MemberName,
        before: Option<SocketAddr>,
    ) -> Result<(), AllocError>
        ensures { self.new.view ≡ self.old.view }
    {
        match place_of(&self.view, name) {
            Some(place) => self.directory.moved(name, before, place),
            None => Ok(()),
        }
    }

    /// What the view shows about the member with this name.
    pub(crate) fn entry_of(&self, name: &[u8]) -> Result<Option<&Entry>, AllocError> {
        match Name::copied(self.alloc, name)? {
            Ok(name) => Ok(self.view.get(&MemberName::new(name))),
            Err(_) => Ok(None),
        }
    }

    /// Where the member with this name is, if that is known.
    pub(crate) fn place(&self, name: &MemberName) -> Option<SocketAddr> {
        place_of(&self.view, name)
    }

    /// Whether a member is at this address and port.
    pub(crate) fn has_member_at(&self, end: SocketAddr) -> bool {
        match self.member_at(end) {
            Some(name) => self.place(name) == Some(end),
            None => false,
        }
    }

    /// The member at this endpoint, if there is one.
    pub(crate) fn member_at(&self, end: SocketAddr) -> Option<&MemberName> {
        self.directory.member_at(&self.view, end)
    }

    /// The name of the member at this endpoint, if there is one.
    pub(crate) fn name_at(&self, end: SocketAddr) -> Result<Option<String>, AllocError> {
        match self.member_at(end) {
            Some(name) => Ok(Some(name_text(self.alloc, name)?)),
            None => Ok(None),
        }
    }

    /// The name of the member at this endpoint, or its address and port if there is none, without
    /// the port if that is 0.
    pub(crate) fn end_text(&self, end: SocketAddr) -> Result<String, AllocError> {
        match self.name_at(end)? {
            Some(name) => Ok(name),
            None if end.port() == 0 => format!(in self.alloc; "{}", end.ip()),
            None => format!(in self.alloc; "{end}"),
        }
    }
}

/// Ends a line with the two endpoints: ` (web-2 to web-3, udp)`, and the view if there are several.
pub(crate) fn write_ends(text: &mut Text, listener: &Listener, sent: &Sent) {
    text.push_str(" (");
    text.add(listener.end_text(sent.source));
    text.push_str(" to ");
    text.add(listener.end_text(sent.destination));
    text.push_str(", ");
    text.push_str(sent.proto.name());
    if let Some(name) = &listener.name {
        text.push_str(", ");
        text.push_str(name);
    }
    text.push_str(")\n");
}

/// What a record of the table to begin with says.
fn said_at_start(alloc: Global, claim: &Claim) -> Result<Said, AllocError>
    ensures { IfOk result (λ said. said ≡ said_at_start claim.now) }
{
    match claim {
        Claim::Confirm { name, inc } => Ok(Said::Dead {
            name: MemberName::new(name.try_clone(alloc)?),
            inc: *inc,
            from: Some(nobody(alloc)?),
        }),
        _ => Ok(Said::of_record(claim.try_clone(alloc)?, false)),
    }
}

/// The name that stands for nobody.
fn nobody(alloc: Global) -> Result<MemberName, AllocError>
    ensures { IfOk result (λ name. name ≡ 45 ∷ []) }
{
    match Name::copied(alloc, NONE.as_bytes())? {
        Ok(name) => Ok(MemberName::new(name)),
        Err(_) => Err(AllocError),
    }
}
