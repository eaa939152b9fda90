//! The members that somebody knows.

ghost use Rattle.std.specs.Prelude.{◌≡◌, [], List, map, IfNone, IfOk, IfSome, OnOk};
ghost use Rattle.std.specs.BTreeMap.{insert_entry};
ghost use Rattle.std.specs.Option.{option_copied};
ghost use Rattle.memberlist_view.specs.Rules.{name_cmp};
ghost use Rattle.memberlist_view.specs.Told.{IsAscending};
ghost use Rattle.swim_claim.specs.declared.claim.Claim.{Claim};
ghost use Rattle.swimwatch.specs.Records.{BeginsWithStream};
ghost use Rattle.swimwatch.specs.Rosters.{IsInOrder, SaidInStream, left_at, members_of, noted};
ghost use Rattle.swimwatch.specs.Rosters.{said_of, shown_members, with_details_of, with_left};
ghost use Rattle.swimwatch.specs.declared.view.known.Known.{Known};

use crate::heard::records::records_of_stream;
use crate::heard::serf_state::{SerfState, UserEvents};
use crate::view::directory::copy_of;
use crate::view::known::Known;
use crate::view::listener::Listener;
use memberlist_view::MemberName;
use serf_view::Intents;
use std::alloc::{AllocError, Global};
use std::collections::{BTreeMap, btree_map};
use std::marker::Model;
use swim_claim::Name;
use swim_wire::StateRecord;

/// Names, each with what is said about it.
#[derive(Drop)]
pub(crate) struct Roster {
    members: BTreeMap<MemberName, Known>,
}

impl Model for Roster {
    ghost use Rattle.swimwatch.specs.Rosters.{Members};

    ghost Value = { Members };

    ghost view = { λ r. r.members.entries };
}

impl Roster {
    /// Nobody.
    pub(crate) fn new(alloc: Global) -> Roster
        ensures { result ≡ [] }
    {
        Roster {
            members: BTreeMap::new(alloc),
        }
    }

    /// What a push/pull stream says about members. A member that it has as dead, and that Serf's
    /// state in it has among those that left, has left. None if the bytes do not begin with a whole
    /// stream.
    pub(crate) fn of_stream(alloc: Global, stream: &[u8]) -> Result<Option<Roster>, AllocError>
        ensures whole { IfOk result (λ found. IfSome found (λ roster.
            SaidInStream stream.now roster)) }
        ensures none { IfOk result (λ found. IfNone found ((claims : List Claim)
            → ¬ BeginsWithStream stream.now claims)) }
    {
        match Roster::with_events(alloc, stream)? {
            Some((roster, _)) => Ok(Some(roster)),
            None => Ok(None),
        }
    }

    /// The same, and the user events in Serf's state.
    pub(crate) fn with_events(
        alloc: Global,
        stream: &[u8],
    ) -> Result<Option<(Roster, UserEvents)>, AllocError>
        ensures whole { IfOk result (λ found. IfSome found (λ read.
            SaidInStream stream.now read.0)) }
        ensures none { IfOk result (λ found. IfNone found ((claims : List Claim)
            → ¬ BeginsWithStream stream.now claims)) }
    {
        let Some(read) = records_of_stream(alloc, stream)? else {
            return Ok(None);
        };
        let state = SerfState::of_user(alloc, &read.user)?;
        let mut roster = Roster::of_records(alloc, read.records)?;
        roster.note_left(state.left);
        Ok(Some((roster, state.events)))
    }

    /// What the records of a push/pull stream say. If two are about one name, the later one counts.
    /// If that has no details, it gets those of the earlier one: the canonical dump of a table
    /// first has a member's details, and then its state.
    fn of_records(alloc: Global, records: Vec<StateRecord>) -> Result<Roster, AllocError>
        ensures { IfOk result (λ roster. roster ≡ members_of records.items) }
    {
        let mut roster = Roster::new(alloc);
        for record in records {
            let name = record.claim.name().try_clone(alloc)?;
            roster.note(MemberName::new(name), Known::of_record(alloc, record)?)?;
        }
        Ok(roster)
    }

    /// Notes that Serf has these names as left. One that no member can have is passed over.
    fn note_left(&mut self, left: Vec<Vec<u8>>)
        ensures { self.new ≡ with_left (map (λ v. v.items) left.items) self.old }
    {
        for bytes in left {
            match Name::new(bytes) {
                Ok(name) => self.note_left_at(&MemberName::new(name)),
                Err(_) => {}
            }
        }
    }

    /// Notes that Serf has this name as left, if something is said about it.
    fn note_left_at(&mut self, name: &MemberName)
        ensures { self.new ≡ left_at self.old name.now }
    {
        let Some(known) = self.members.get_mut(name) else {
            return;
        };
        known.note_left();
    }

    /// What a listener shows: the members in its view, and who leaves or has left by an intent.
    pub(crate) fn of_listener(
        alloc: Global,
        listener: &Listener,
        intents: &Intents,
    ) -> Result<Roster, AllocError>
        ensures { IfOk result (λ roster. IsAscending listener.now.view.entries
            → roster ≡ shown_members intents.now listener.now.view.entries) }
    {
        let mut roster = Roster::new(alloc);
        for (name, entry) in listener.view.iter() {
            let leaving = intents.is_leaving(name.name().bytes());
            let known = Known::of_entry(alloc, entry, leaving)?;
            roster.note(copy_of(alloc, name)?, known)?;
        }
        Ok(roster)
    }

    /// Notes what is said about a name. Its details stay if none are given.
    fn note(&mut self, name: MemberName, known: Known) -> Result<(), AllocError>
        ensures { OnOk result (self.new ≡ noted self.old name known) }
    {
        let known = self.with_details(&name, known);
        self.members.insert(name, known)?;
        Ok(())
    }

    /// What is said about a name, with the details that were noted before if none are given. They are
    /// moved out of the roster, in which the name is then to be noted.
    fn with_details(&mut self, name: &MemberName, known: Known) -> Known
        ensures known { result ≡ with_details_of (said_of self.old name.now) known }
        // Whatever is then noted about the name, the members are as if nothing had been moved.
        ensures others { (known : Known) → insert_entry name_cmp self.new name.now known
            ≡ insert_entry name_cmp self.old name.now known }
    {
        let mut known = known;
        if known.details.is_some() {
            return known;
        }
        let Some(noted) = self.members.get_mut(name) else {
            return known;
        };
        known.details = noted.details.take();
        known
    }

    /// What is said about this name, if anything.
    pub(crate) fn get(&self, name: &MemberName) -> Option<&Known>
        ensures { option_copied result ≡ said_of self.now name.now }
    {
        self.members.get(name)
    }

    /// Each name with what is said about it, in ascending byte order.
    pub(crate) fn iter(&self) -> btree_map::Iter<'_, MemberName, Known>
        ensures members { result ≡ self.now }
        ensures in_order { IsInOrder self.now }
    {
        self.members.iter()
    }
}
