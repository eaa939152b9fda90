//! Listening to packets and streams.
//!
//! `datagrams` hears messages, `streams` connections, `serf_messages` what Serf says in both, and
//! `intents` who leaves; `tallies` counts what senders sent; `noting` notes what tells of probes;
//! `spreading` follows news, `locating` coordinates; `showing` shows what was asked for, and
//! `reporting` all of it in one page.

ghost use Rattle.std.specs.Prelude.{◌≡◌, IfOk, OnOk};
ghost use Rattle.memberlist_view.specs.Told.{event_of, view_after};
ghost use Rattle.swimwatch.specs.Told.{told_text, heard_of};
ghost use Rattle.swimwatch.specs.Viewed.{first_view};
ghost use Rattle.swimwatch.specs.Views.{HearsDatagram};

mod datagrams;
mod intents;
mod locating;
mod noting;
mod reporting;
mod serf_messages;
mod showing;
mod spreading;
mod streams;
mod tallies;

use crate::arguments::chosen::Verb;
use crate::chart::Chart;
use crate::heard::carriage::{Carriage, Opening, carriage_of, is_of_cluster};
use crate::heard::counts::{Counts, count};
use crate::heard::noted::Notes;
use crate::heard::pings::Pings;
use crate::heard::sent::Sent;
use crate::heard::serf::Serf;
use crate::heard::serf::queries::Sighting;
use crate::heard::told::Told;
use crate::heard::warnings::Warnings;
use crate::listening::setting::Setting;
use crate::shown::distances::Distances;
use crate::shown::report::Gathered;
use crate::shown::spread::Spread;
use crate::shown::talkers::{Kind, Talkers};
use crate::text::moment::Clock;
use crate::text::window::Window;
use crate::text::written::Text;
use crate::view::listener::Listener;
use crate::view::places::Places;
use memberlist_view::{Event, Heard};
use spreading::spread_of;
use std::alloc::{AllocError, Global};
use std::collections::BTreeMap;
use swim_table::Table;

/// An event to print.
#[derive(Drop)]
pub(crate) struct News {
    /// None if no other view has it.
    pub(crate) occurrence: Option<Occurrence>,
    pub(crate) line: String,
}

/// Which event it is among those of several views.
#[derive(Drop)]
pub(crate) struct Occurrence {
    /// What makes it another event than others: its kind, the member, the incarnation, and who said
    /// so.
    pub(crate) key: String,
    /// How often this event came in the view so far.
    pub(crate) nth: u64,
}

/// Listens to what members sent, and shows what was asked for.
#[derive(Drop)]
pub(crate) struct Watch {
    alloc: Global,
    /// Whether there are keys, under which what is heard may be encrypted.
    has_keys: bool,
    listener: Listener,
    pings: Pings,
    warnings: Warnings,
    places: Places,
    verb: Verb,
    json: bool,
    /// Whether only events and queries of users are shown.
    events: bool,
    /// What Serf's messages say.
    pub(crate) serf: Serf,
    /// What was seen of queries, until it is taken.
    pub(crate) sightings: Vec<Sighting>,
    /// The coordinates of members, if their distances are asked for.
    distances: Option<Distances>,
    /// The only name to show, if there is one.
    member: Option<Vec<u8>>,
    /// The last moment at which something was captured, in microseconds since the start of 1970.
    now: u64,
    /// memberlist's `SuspicionMult`.
    mult: u64,
    /// The time that is shown.
    window: Window,
    talkers: Talkers,
    chart: Chart,
    /// What a report needs before the end.
    gathered: Gathered,
    table: Table,
    pub(crate) counts: Counts,
    /// What is noted of probes, until it is taken.
    pub(crate) notes: Notes,
    /// How news spread, if that is asked for.
    spread: Option<Spread>,
    /// Whose distances from others are shown, if one is chosen.
    target: Option<Vec<u8>>,
    /// How often each event came.
    came: BTreeMap<String, u64>,
    /// The events that were not printed yet.
    pub(crate) news: Vec<News>,
    /// The other output that was not printed yet.
    pub(crate) out: Text,
    clock: Clock,
}

impl Watch {
    /// A view with this name, which lines show if there is one.
    pub(crate) fn new(
        alloc: Global,
        setting: Setting,
        name: Option<String>,
    ) -> Result<Watch, AllocError>
        ensures { IfOk result (λ watch. watch.listener.view ≡ first_view setting.entry) }
    {
        let Setting {
            keys,
            chosen,
            window,
            ..
        } = setting;
        let member = copied(alloc, &chosen.member)?;
        let target = copied(alloc, &chosen.probing.target)?;
        let gathered = Gathered::new(alloc, chosen)?;
        let listener = listener_of(alloc, setting, name)?;
        Ok(Watch {
            alloc,
            has_keys: !keys.is_empty(),
            listener,
            pings: Pings::new(alloc),
            warnings: Warnings::new(alloc),
            places: Places::new(alloc, chosen.verb.shows_places()),
            verb: chosen.verb,
            json: chosen.json || chosen.verb.gathers(),
            events: chosen.events,
            serf: Serf::new(alloc),
            sightings: Vec::new(alloc),
            distances: Distances::if_chosen(alloc, chosen),
            member,
            now: 0,
            mult: chosen.mult,
            window,
            talkers: Talkers::new(alloc, chosen.verb == Verb::Talkers),
            chart: Chart::new(alloc),
            gathered,
            table: Table::new(alloc),
            counts: Counts::default(),
            notes: Notes::new(alloc, chosen.verb.detects()),
            spread: spread_of(alloc, chosen),
            target,
            came: BTreeMap::new(alloc),
            news: Vec::new(alloc),
            out: Text::new(alloc),
            clock: Clock::new(alloc),
        })
    }

    /// The name of the view, or an empty one.
    pub(crate) fn name(&self) -> Result<String, AllocError> {
        match &self.listener.name {
            Some(name) => name.clone(),
            None => Ok(String::new(self.alloc)),
        }
    }

    /// The last moment at which something was captured.
    pub(crate) fn now(&self) -> u64 {
        self.now
    }

    /// Notes that something was captured at this time.
    fn reach(&mut self, time: u64)
        ensures { self.new.listener ≡ self.old.listener }
    {
        self.now = time.max(self.now);
        if self.window.shows(time) {
            self.chart.reach(time);
        }
    }

    /// Takes in what a datagram carried.
    pub(crate) fn datagram(
        &mut self,
        opening: Opening,
        sent: Sent,
        payload: &[u8],
    ) -> Result<(), AllocError>
        ensures hears { OnOk result (HearsDatagram opening.entry.clear opening.entry.keys.now
            opening.entry.label.now payload.now sent.time
            self.old.listener.view self.new.listener.view) }
    {
        count(&mut self.counts.datagrams);
        self.reach(sent.time);
        if self.verb.tells_news() {
            self.serf.note(self.notes.capture, &sent)?;
        }
        if !is_of_cluster(opening.label, payload) {
            count(&mut self.counts.other_labels);
            return Ok(());
        }
        match carriage_of(self.alloc, opening.keys, opening.clear, payload)? {
            Carriage::Read(messages) => {
                self.count_bytes(sent, payload.len())?;
                self.messages(sent, messages)
            }
            Carriage::Closed => {
                count(&mut self.counts.closed);
                self.count_bytes(sent, payload.len())?;
                self.said(sent, Kind::Unread)
            }
            Carriage::Unencrypted => {
                self.counts.refuse(sent.source.ip());
                self.count_bytes(sent, payload.len())?;
                self.said(sent, Kind::Unread)
            }
            Carriage::Foreign => {
                count(&mut self.counts.foreign);
                Ok(())
            }
        }
    }

    /// Whether what was captured at this time is shown.
    fn is_timely(&self, time: u64) -> bool {
        self.window.shows(time)
    }

    /// Hears what was said, and returns what changed. What a member sent from an end that it leaves
    /// stays its own.
    fn take_in(&mut self, heard: &Heard) -> Result<Option<Event>, AllocError>
        ensures event { IfOk result (λ event. event ≡ event_of self.old.listener.view heard.now) }
        ensures view { OnOk result (self.new.listener.view
            ≡ view_after self.old.listener.view heard.now) }
    {
        self.settle(&heard.said)?;
        let event = self.listener.hear(heard)?;
        if event == Some(Event::Back) {
            self.serf.intents.returned(heard.said.name().name().bytes());
        }
        Ok(event)
    }

    /// Hears what a message says, and shows it.
    fn hear(&mut self, sent: Sent, told: &Told) -> Result<(), AllocError>
        ensures view { OnOk result (self.new.listener.view
            ≡ view_after self.old.listener.view (heard_of sent.time (told_text told.now))) }
    {
        let heard = told.heard(self.alloc, sent.time)?;
        self.hear_told(&sent, told, &heard)
    }

    /// Hears this, which a message says, and shows it.
    fn hear_told(&mut self, sent: &Sent, told: &Told, heard: &Heard) -> Result<(), AllocError>
        ensures view { OnOk result (self.new.listener.view
            ≡ view_after self.old.listener.view heard.now) }
    {
        let event = self.take_in(heard)?;
        self.places.note(told.claim, sent.time)?;
        self.show(sent, told, heard.said.name(), event)
    }
}

/// The listener of a view with this name, which begins with the records of `--start`.
fn listener_of(
    alloc: Global,
    setting: Setting,
    name: Option<String>,
) -> Result<Listener, AllocError>
    ensures { IfOk result (λ listener. listener.view ≡ first_view setting.entry) }
{
    let mut listener = Listener::new(alloc, setting.chosen.wait, name);
    listener.begin_with(setting.window.begun, setting.start)?;
    Ok(listener)
}

/// A copy of a name, if there is one.
fn copied(alloc: Global, name: &Option<Vec<u8>>) -> Result<Option<Vec<u8>>, AllocError> {
    match name {
        Some(name) => Ok(Some(name.to_vec(alloc)?)),
        None => Ok(None),
    }
}
