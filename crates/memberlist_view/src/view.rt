//! The view of all names.

ghost use Rattle.std.specs.Prelude.{◌≡◌, ◌↔◌, ◌+◌, ◌<◌, ◌^◌, ◌++◌, ◌∷◌, [], not, List, length, slice_get, IsSome};
ghost use Rattle.std.specs.Prelude.{IfSome, IfOk, OnOk, OnErr, IsTrue};
ghost use Rattle.std.specs.BTreeMap.{insert_entry};
ghost use Rattle.std.specs.Option.{option_copied, option_map};
ghost use Rattle.memberlist_view.specs.declared.heard.Heard.{Heard};
ghost use Rattle.memberlist_view.specs.Heard.{about};
ghost use Rattle.memberlist_view.specs.Member.{about_others, entries_above, heeded, is_dropped, is_known};
ghost use Rattle.memberlist_view.specs.Member.{member_event_of, member_view_after, view_without_dropped};
ghost use Rattle.memberlist_view.specs.Rules.{name_cmp};
ghost use Rattle.memberlist_view.specs.Told.{entry_of, change_of, event_of, view_after, IsViewOf};

use crate::change::change;
use crate::entry::Entry;
use crate::event::Event;
use crate::heard::Heard;
use crate::member_name::MemberName;
use std::alloc::{AllocError, Global};
use std::collections::{BTreeMap, btree_map};
use std::marker::Model;
use std::ops::Bound;

/// What changed in a view.
#[derive(Drop)]
pub struct Changed {
    /// What changed.
    pub event: Event,
    /// What the view showed for the name before.
    pub before: Option<Entry>,
}

/// What a member of a cluster that heard these messages at these times would show, by memberlist's
/// `state.go`, if it only listens and says nothing.
#[derive(Drop)]
pub struct View {
    alloc: Global,
    wait: u64,
    entries: BTreeMap<MemberName, Entry>,
}

impl Model for View {
    ghost use Rattle.memberlist_view.specs.Told.{ViewValue};

    ghost Value = { ViewValue };

    ghost view = { λ v. record { wait = v.wait; entries = v.entries.entries } };
}

impl View {
    /// The view of a member that heard nothing, and that forgets a dead member after this wait in
    /// microseconds (memberlist's `GossipToTheDeadTime`: 30 seconds in a local network, 60 in a
    /// wide one). What grows later takes memory from the allocator.
    pub fn new(alloc: Global, wait: u64) -> View
        ensures wait { result.wait ≡ wait }
        ensures empty { result.entries ≡ [] }
        ensures view { IsViewOf result [] }
    {
        View {
            alloc,
            wait,
            entries: BTreeMap::new(alloc),
        }
    }

    /// Adds what was heard, and returns what changed. `None` if nothing did, and then it takes no
    /// memory.
    ///
    /// # Errors
    ///
    /// `AllocError` if there is not enough memory for the change. The view is as it was.
    pub fn hear(&mut self, heard: &Heard) -> Result<Option<Event>, AllocError>
        ensures event { IfOk result (λ event. event ≡ event_of self.old heard.now) }
        ensures step { OnOk result (self.new ≡ view_after self.old heard.now) }
        ensures view { OnOk result ((past : List Heard) → IsViewOf self.old past
            → IsViewOf self.new (past ++ heard.now ∷ [])) }

        ensures err { OnErr result (self.new ≡ self.old) }
        ensures asks { OnErr result (IsSome (event_of self.old heard.now)) }
    {
        match self.hear_over(heard) {
            Ok(changed) => Ok(event_in(changed)),
            Err(error) => Err(error),
        }
    }

    /// The same as [`View::hear`], and what the view showed for the name before.
    ///
    /// # Errors
    ///
    /// Those of [`View::hear`].
    pub fn hear_over(&mut self, heard: &Heard) -> Result<Option<Changed>, AllocError>
        ensures event { IfOk result (λ changed.
            option_map (λ c. c.event) changed ≡ event_of self.old heard.now) }
        ensures before { IfOk result (λ changed. IfSome changed (λ c.
            c.before ≡ entry_of self.old (about heard.now.said))) }
        ensures step { OnOk result (self.new ≡ view_after self.old heard.now) }
        ensures view { OnOk result ((past : List Heard) → IsViewOf self.old past
            → IsViewOf self.new (past ++ heard.now ∷ [])) }

        ensures err { OnErr result (self.new ≡ self.old) }
        ensures asks { OnErr result (IsSome (event_of self.old heard.now)) }
    {
        self.take(heard)
    }

    /// Adds what was heard as a member of the cluster does, and returns what changed: a member knows
    /// a name by an Alive that it believed, and passes over what else is said about a name that it
    /// does not know. `None` if nothing changed, and then it takes no memory.
    ///
    /// # Errors
    ///
    /// `AllocError` if there is not enough memory for the change. The view is as it was.
    pub fn hear_as_member(&mut self, heard: &Heard) -> Result<Option<Event>, AllocError>
        ensures event { IfOk result (λ event. event ≡ member_event_of self.old heard.now) }
        ensures step { OnOk result (self.new ≡ member_view_after self.old heard.now) }
        ensures view { OnOk result ((past : List Heard) → IsViewOf self.old past
            → IsViewOf self.new (past ++ heeded self.old heard.now)) }

        ensures err { OnErr result (self.new ≡ self.old) }
        ensures asks { OnErr result (IsSome (member_event_of self.old heard.now)) }
    {
        if heard.said.is_alive() || self.knows(heard.said.name()) {
            self.hear(heard)
        } else {
            Ok(None)
        }
    }

    /// Whether an Alive of the name was believed.
    fn knows(&self, name: &MemberName) -> bool
        ensures { result ≡ is_known (entry_of self.now name.now) }
    {
        match self.get(name) {
            Some(entry) => !entry.state.is_noted(),
            None => false,
        }
    }

    fn take(&mut self, heard: &Heard) -> Result<Option<Changed>, AllocError>
        ensures event { IfOk result (λ changed.
            option_map (λ c. c.event) changed ≡ event_of self.old heard.now) }
        ensures before { IfOk result (λ changed. IfSome changed (λ c.
            c.before ≡ entry_of self.old (about heard.now.said))) }
        ensures step { OnOk result (self.new ≡ view_after self.old heard.now) }
        ensures err { OnErr result (self.new ≡ self.old) }
        ensures asks { OnErr result (IsSome (change_of self.old heard.now)) }
    {
        let name = heard.said.name();
        let Some((entry, event)) = change(self.alloc, self.wait, self.entries.get(name), heard)?
        else {
            return Ok(None);
        };
        let name = name.try_clone(self.alloc)?;
        let before = self.put(name, entry)?;
        Ok(Some(Changed { event, before }))
    }

    /// Shows this entry for the name, and returns the one that was shown before.
    fn put(&mut self, name: MemberName, entry: Entry) -> Result<Option<Entry>, AllocError>
        ensures old { IfOk result (λ before. before ≡ entry_of self.old name) }
        ensures ok { OnOk result (self.new ≡ record self.old {
          entries = insert_entry name_cmp self.old.entries name entry;
        }) }
        ensures err { OnErr result (self.new ≡ self.old) }
    {
        match self.entries.insert(name, entry) {
            Ok(before) => Ok(before),
            Err(_) => Err(AllocError),
        }
    }

    /// Forgets the members that have been dead, or have left, for longer than the wait at this time,
    /// in microseconds since the start of 1970, and those that are only noted, and returns how many
    /// these are (`resetNodes`). What is left is the view of what was heard about the other names.
    /// It takes no memory.
    pub fn forget(&mut self, time: u64) -> usize
        ensures forgets { self.new ≡ view_without_dropped self.old time }
        ensures count { result + length self.new.entries ≡ length self.old.entries }
        ensures view { (past : List Heard) → IsViewOf self.old past
            → IsViewOf self.new (about_others self.old time past) }
    {
        let wait = self.wait;
        let before = self.entries.len();
        self.entries.retain(
            |_: &MemberName, entry: &mut Entry| -> bool
                ensures kept { result ≡ not (is_dropped wait time entry.old) }
                ensures same { entry.new ≡ entry.old }
            { !entry.is_dropped(wait, time) },
        );
        before - self.entries.len()
    }

    /// How many microseconds after its death a member is forgotten.
    pub fn wait(&self) -> u64
        ensures { result ≡ self.now.wait }
    {
        self.wait
    }

    /// What the view shows for a name, or `None` if it shows nothing.
    pub fn get(&self, name: &MemberName) -> Option<&Entry>
        ensures { option_copied result ≡ entry_of self.now name.now }
    {
        self.entries.get(name)
    }

    /// The first name above this one in byte order that the view shows, with its entry, whether or
    /// not it shows this one. `None` past the last name.
    pub fn after(&self, name: &MemberName) -> Option<(&MemberName, &Entry)>
        ensures { option_map (λ p. (p.0.now, p.1.now)) result
            ≡ slice_get (entries_above name.now self.now.entries) 0 }
    {
        let mut above = self
            .entries
            .range((Bound::Excluded(name), Bound::Unbounded));
        above.next()
    }

    /// Each name that the view shows, with its entry, in ascending byte order of the names.
    pub fn iter(&self) -> btree_map::Iter<'_, MemberName, Entry>
        ensures { result ≡ self.now.entries }
    {
        self.entries.iter()
    }

    /// How many names the view shows.
    pub fn len(&self) -> usize
        ensures len { result ≡ length self.now.entries }
        ensures small { result < 2 ^ 63 }
    {
        self.entries.len()
    }

    /// Whether the view shows no name.
    pub fn is_empty(&self) -> bool
        ensures { IsTrue result ↔ (self.now.entries ≡ []) }
    {
        self.entries.is_empty()
    }
}

/// The event of a change.
fn event_in(changed: Option<Changed>) -> Option<Event>
    ensures { result ≡ option_map (λ c. c.event) changed }
{
    match changed {
        Some(changed) => Some(changed.event),
        None => None,
    }
}
