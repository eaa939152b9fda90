//! Showing what was asked for.

ghost use Rattle.std.specs.Prelude.{◌≡◌, false, Decides, IfOk, IfSome};
ghost use Rattle.swim_table.specs.Dump.{dump_bytes};

use super::{News, Occurrence, Watch};
use crate::arguments::chosen::Verb;
use crate::heard::sent::Sent;
use crate::heard::told::Told;
use crate::listening::detecting::Detected;
use crate::shown::claims::write_claim;
use crate::shown::deadline::Deadline;
use crate::shown::members::{Cluster, write_member_objects, write_members};
use crate::shown::objects::{write_change, write_told, write_warned};
use crate::shown::timeline::{write_event, write_warning};
use crate::text::names::write_name;
use crate::text::texts::event_words;
use crate::text::written::Text;
use crate::view::change::Change;
use crate::view::roster::Roster;
use memberlist_view::{Event, MemberName};
use std::alloc::AllocError;
use swim_table::{EncodeFault, encode};
use swim_wire::Packet;

impl Watch {
    /// Shows what a message said, or what it changed.
    pub(super) fn show(
        &mut self,
        sent: &Sent,
        told: &Told,
        member: &MemberName,
        event: Option<Event>,
    ) -> Result<(), AllocError>
        ensures { self.new.listener ≡ self.old.listener }
    {
        self.spread_news(sent, told)?;
        let name = member.name().bytes();
        self.note_claim(sent, told)?;
        self.note_event(sent, told, event)?;
        match (self.verb, event) {
            (Verb::Claims, _) if self.is_shown(name) && self.is_timely(sent.time) => {
                self.show_claim(sent, told);
                Ok(())
            }
            (Verb::Dump, _) if self.is_shown(name) => self.take_claim(told),
            (_, Some(event)) => {
                let from = told.from;
                self.show_change(
                    sent,
                    &Change {
                        member,
                        from,
                        event,
                    },
                )
            }
            _ => Ok(()),
        }
    }

    /// Shows a claim.
    fn show_claim(&mut self, sent: &Sent, told: &Told)
        ensures { self.new.listener ≡ self.old.listener }
    {
        if self.json {
            write_told(&mut self.out, &self.listener, sent, told);
        } else {
            self.clock.write(&mut self.out, sent.time);
            write_claim(&mut self.out, &self.listener, sent, told);
        }
    }

    /// Takes a claim into the table.
    fn take_claim(&mut self, told: &Told) -> Result<(), AllocError>
        ensures { self.new.listener ≡ self.old.listener }
    {
        match self.table.take(told.claim.try_clone(self.alloc)?) {
            Ok(_) => Ok(()),
            Err((_, error)) => Err(error),
        }
    }

    /// Shows what a message changed.
    pub(super) fn show_change(&mut self, sent: &Sent, change: &Change) -> Result<(), AllocError>
        ensures { self.new.listener ≡ self.old.listener }
    {
        self.note_ports(change)?;
        if !self.is_shown(change.name()) || self.events {
            return Ok(());
        }
        match self.verb {
            Verb::Timeline if self.is_timely(sent.time) => self.show_event(sent, change),
            Verb::Chart => self.chart.take(&self.listener, sent, change),
            Verb::Report => self.report_event(sent, change),
            _ => Ok(()),
        }
    }

    /// Shows an event.
    pub(super) fn show_event(&mut self, sent: &Sent, change: &Change) -> Result<(), AllocError>
        ensures { self.new.listener ≡ self.old.listener }
    {
        let listener = &self.listener;
        let Some(entry) = listener.view.get(change.member) else {
            return Ok(());
        };
        let inc = entry.inc;
        let mut line = Text::new(self.alloc);
        if self.json {
            write_change(&mut line, listener, sent, change, entry);
        } else {
            self.clock.write(&mut line, sent.time);
            write_event(&mut line, listener, sent, change, entry);
        }
        let parts = EventParts {
            words: event_words(change.event),
            name: change.name(),
            inc,
            from: change.from,
        };
        let key = self.key_of(parts)?;
        self.tell_if_new(key, line.end()?)
    }

    /// Notes a name that is claimed at two ports of one address: then two clusters are mixed.
    fn note_ports(&mut self, change: &Change) -> Result<(), AllocError>
        ensures { self.new.listener ≡ self.old.listener }
    {
        if change.event != Event::Conflict || self.counts.mixed.is_some() {
            return Ok(());
        }
        let Some(entry) = self.listener.view.get(change.member) else {
            return Ok(());
        };
        let (Some(place), Some(rival)) = (entry.place(), entry.rivals.details().last()) else {
            return Ok(());
        };
        if place.addr() == rival.addr() {
            self.counts.mixed = Some((place.port(), rival.port()));
        }
        Ok(())
    }

    /// Shows a suspicion that only warns the suspect, if it is the first of its accuser.
    pub(super) fn warn(&mut self, sent: Sent, packet: &Packet) -> Result<(), AllocError>
        ensures { self.new.listener ≡ self.old.listener }
    {
        let is_first = self.warnings.note(packet)?;
        if !self.is_shown(packet.claim().name().bytes()) || self.events {
            return Ok(());
        }
        match (self.verb, self.json) {
            (Verb::Claims, _) => {
                self.show_claim(&sent, &Told::of_packet(packet));
                Ok(())
            }
            (Verb::Timeline | Verb::Report, is_json) if is_first && self.is_timely(sent.time) => {
                let mut line = Text::new(self.alloc);
                if is_json {
                    write_warned(&mut line, &self.listener, &sent, packet);
                } else {
                    self.clock.write(&mut line, sent.time);
                    write_warning(&mut line, &self.listener, &sent, packet);
                }
                let key = self.key_of(EventParts {
                    words: "warned",
                    name: packet.claim().name().bytes(),
                    inc: packet.claim().inc(),
                    from: packet.from_name(),
                })?;
                self.tell_if_new(key, line.end()?)
            }
            _ => Ok(()),
        }
    }

    /// What makes an event another one than others, if other views may have it too.
    fn key_of(&self, parts: EventParts) -> Result<Option<String>, AllocError> {
        if self.listener.name.is_none() {
            return Ok(None);
        }
        let mut key = Text::new(self.alloc);
        write!(key, "{} {} ", parts.words, parts.inc);
        write_name(&mut key, parts.name);
        key.push(' ');
        write_name(&mut key, parts.from);
        Ok(Some(key.end()?))
    }

    /// Notes an event to print, or to report.
    pub(super) fn tell(&mut self, key: String, line: String) -> Result<(), AllocError>
        ensures listener { self.new.listener ≡ self.old.listener }
        ensures serf { self.new.serf ≡ self.old.serf }
    {
        self.tell_if_new(Some(key), line)
    }

    /// Notes an event to print unless another view printed it, or to report. No other view has one
    /// without a key.
    fn tell_if_new(&mut self, key: Option<String>, line: String) -> Result<(), AllocError>
        ensures listener { self.new.listener ≡ self.old.listener }
        ensures serf { self.new.serf ≡ self.old.serf }
    {
        let occurrence = match key {
            Some(key) => Some(Occurrence {
                nth: self.nth(&key)?,
                key,
            }),
            None => None,
        };
        if self.verb.gathers() {
            return self.report_line(&line);
        }
        self.news
            .push(News { occurrence, line })
            .map_err(AllocError::from)
    }

    /// How often this event came, with this time.
    fn nth(&mut self, key: &String) -> Result<u64, AllocError>
        ensures listener { self.new.listener ≡ self.old.listener }
        ensures serf { self.new.serf ≡ self.old.serf }
    {
        if let Some(came) = self.came.get_mut(key) {
            *came = came.saturating_add(1);
            return Ok(*came);
        }
        self.came.insert(key.clone()?, 1)?;
        Ok(1)
    }

    /// Whether to show what is said about the member with this name.
    pub(super) fn is_shown(&self, name: &[u8]) -> bool
        ensures { Decides result (IfSome self.entry.now.member (λ only. only.items ≡ name.now)) }
    {
        match &self.member {
            Some(only) => only.as_slice() == name,
            None => true,
        }
    }

    /// Whether nothing was heard about the only member to show, or not its coordinate, if distances
    /// are asked for.
    pub(crate) fn lacks_member(&self) -> Result<bool, AllocError> {
        if let (Some(distances), Some(target)) = (&self.distances, &self.target) {
            return Ok(distances.lacks(target));
        }
        match &self.member {
            Some(name) => Ok(self.listener.entry_of(name)?.is_none()),
            None => Ok(false),
        }
    }

    /// Shows what is shown only at the end.
    pub(crate) fn finish(&mut self, detected: &Detected) -> Result<(), AllocError>
        ensures { self.new.listener ≡ self.old.listener }
    {
        let deadline = Deadline {
            now: self.window.until.unwrap_or(self.now),
            from: self.window.from,
            mult: self.mult,
        };
        match self.verb {
            Verb::Members => self.show_members(deadline),
            Verb::Talkers => self.show_talkers(),
            Verb::Chart => self.chart.write(&mut self.out)?,
            Verb::Spread => self.show_spread()?,
            Verb::Distances => self.show_distances(),
            Verb::Report => self.write_report(deadline, detected)?,
            _ => {}
        }
        Ok(())
    }

    /// Shows what each sender sent.
    fn show_talkers(&mut self)
        ensures { self.new.listener ≡ self.old.listener }
    {
        if self.json {
            self.talkers.write_objects(&mut self.out, &self.listener);
        } else {
            self.talkers.write(&mut self.out, &self.listener);
        }
    }

    /// Shows the members.
    fn show_members(&mut self, deadline: Deadline)
        ensures { self.new.listener ≡ self.old.listener }
    {
        let mut text = Text::new(self.alloc);
        if self.json {
            write_member_objects(&mut text, self.cluster(deadline));
        } else {
            write_members(&mut text, self.cluster(deadline));
        }
        self.out.push_text(&text);
    }

    /// What is shown of members.
    pub(super) fn cluster(&self, deadline: Deadline) -> Cluster {
        Cluster {
            listener: &self.listener,
            places: &self.places,
            intents: &self.serf.intents,
            deadline,
        }
    }

    /// The members, as a listener shows them.
    pub(crate) fn roster(&self) -> Result<Roster, AllocError> {
        Roster::of_listener(self.alloc, &self.listener, &self.serf.intents)
    }

    /// The canonical dump of the table of all claims.
    pub(crate) fn dump(&self) -> Result<Vec<u8>, EncodeFault>
        ensures { IfOk result (λ bytes. bytes.items ≡ dump_bytes self.entry.now.table false) }
    {
        encode(self.alloc, &self.table, false)
    }
}

/// What makes an event of a member another one than others.
#[derive(Clone, Copy)]
struct EventParts<'a> {
    words: &'a str,
    name: &'a [u8],
    inc: u32,
    from: &'a [u8],
}
