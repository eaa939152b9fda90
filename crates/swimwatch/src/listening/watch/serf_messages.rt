//! Hearing Serf's messages, which change nothing in memberlist's view.

ghost use Rattle.std.specs.Prelude.{◌≡◌};
ghost use Rattle.swimwatch.specs.Serf.{IsNoMessage, IsNoState};

use super::Watch;
use crate::heard::sent::Sent;
use crate::heard::serf::queries::{Id, Sighting};
use crate::heard::serf_state::MAX_STATE_LEN;
use crate::shown::serf_lines::{write_query, write_user_event};
use crate::shown::serf_objects::{write_query_object, write_user_event_object};
use crate::text::written::Text;
use serf_message::{
    EventGroup, GroupedEvent, Message, Query, QueryResponse, Relay, SerfFault, State, UserEvent,
    decode_message, decode_state,
};
use std::alloc::AllocError;

/// The bit of a response that makes it a receipt (Serf's `queryFlagAck`, messages.go).
const ACK: u32 = 1;

impl Watch {
    /// Hears the body of a user message. What is none of Serf's messages, or has bytes behind one,
    /// is counted.
    pub(super) fn user(&mut self, sent: Sent, body: &[u8]) -> Result<(), AllocError>
        ensures listener { self.new.listener ≡ self.old.listener }
        ensures others_say_nothing { IsNoMessage body.now → self.new.serf ≡ self.old.serf }
    {
        if !self.verb.hears_serf() {
            return Ok(());
        }
        match decode_message(self.alloc, body) {
            Ok(Message::Relay(relay)) => self.relayed(sent, &relay),
            Ok(message) => self.serf_message(sent, &message),
            Err(SerfFault::Memory) => Err(AllocError),
            Err(_) => {
                self.counts.users.note(body);
                Ok(())
            }
        }
    }

    /// Hears a message that a member is to pass on. Only answers to queries are passed on.
    fn relayed(&mut self, sent: Sent, relay: &Relay) -> Result<(), AllocError>
        ensures listener { self.new.listener ≡ self.old.listener }
        ensures serf { self.new.serf ≡ self.old.serf }
    {
        match decode_message(self.alloc, &relay.message) {
            Ok(Message::Response(response)) => self.response(sent, &response),
            Ok(_) => Ok(()),
            Err(SerfFault::Memory) => Err(AllocError),
            Err(_) => {
                self.counts.users.note(&relay.message);
                Ok(())
            }
        }
    }

    fn serf_message(&mut self, sent: Sent, message: &Message) -> Result<(), AllocError>
        ensures { self.new.listener ≡ self.old.listener }
    {
        match message {
            Message::Leave(leave) => self.leave(sent, &leave.node, leave.time, leave.prune),
            Message::Join(join) => self.join(sent, &join.node, join.time),
            Message::Event(event) => self.user_event(sent, event),
            Message::Query(query) => self.query(sent, query),
            Message::Response(response) => self.response(sent, response),
            Message::Relay(_) => Ok(()),
        }
    }

    /// Hears the user state of a push/pull (Serf's delegate.go, `MergeRemoteState`): a member that
    /// left has a leave intent one tick after the time of its status, and each other member a join
    /// intent at the time of its status. What is not Serf's, or too long, is counted.
    pub(super) fn user_state(&mut self, sent: Sent, bytes: &[u8]) -> Result<(), AllocError>
        ensures listener { self.new.listener ≡ self.old.listener }
        ensures others_say_nothing { IsNoState bytes.now → self.new.serf ≡ self.old.serf }
    {
        if bytes.is_empty() || !self.verb.hears_serf() {
            return Ok(());
        }
        if MAX_STATE_LEN < bytes.len() {
            self.counts.users.note(bytes);
            return Ok(());
        }
        match decode_state(self.alloc, bytes) {
            Ok(state) => {
                self.statuses(sent, &state)?;
                self.recent_events(sent, state)
            }
            Err(SerfFault::Memory) => Err(AllocError),
            Err(_) => {
                self.counts.users.note(bytes);
                Ok(())
            }
        }
    }

    /// Hears the events that a member remembers. Those in the first state that is heard are older
    /// than the capture, and are no news.
    fn recent_events(&mut self, sent: Sent, state: State) -> Result<(), AllocError>
        ensures { self.new.listener ≡ self.old.listener }
    {
        let is_first = !self.serf.is_late;
        self.serf.is_late = true;
        for group in state.events {
            if let Some(group) = group {
                self.event_group(sent, group, is_first)?;
            }
        }
        Ok(())
    }

    /// Hears the events of one time that a member remembers.
    fn event_group(&mut self, sent: Sent, group: EventGroup, is_old: bool) -> Result<(), AllocError>
        ensures { self.new.listener ≡ self.old.listener }
    {
        for grouped in group.events {
            self.remembered(sent, &event_of(group.time, grouped), is_old)?;
        }
        Ok(())
    }

    /// Hears an event that a member remembers.
    fn remembered(&mut self, sent: Sent, event: &UserEvent, is_old: bool) -> Result<(), AllocError>
        ensures { self.new.listener ≡ self.old.listener }
    {
        if !is_old {
            return self.user_event(sent, event);
        }
        let key = self.event_key(event)?;
        self.came.insert(key, 1)?;
        Ok(())
    }

    /// Hears an event of a user.
    fn user_event(&mut self, sent: Sent, event: &UserEvent) -> Result<(), AllocError>
        ensures listener { self.new.listener ≡ self.old.listener }
        ensures serf { self.new.serf ≡ self.old.serf }
    {
        if !self.verb.tells_news() {
            return Ok(());
        }
        let key = self.event_key(event)?;
        if !self.is_news(&key, sent.time)? {
            return Ok(());
        }
        let mut line = Text::new(self.alloc);
        let is_origin = self.serf.is_origin(&sent);
        if self.json {
            write_user_event_object(&mut line, &self.listener, &sent, event, is_origin);
        } else {
            write_user_event(&mut line, &self.listener, &sent, event, is_origin);
        }
        self.tell(key, line.end()?)
    }

    /// Hears a query, which shows when it is first seen.
    fn query(&mut self, sent: Sent, query: &Query) -> Result<(), AllocError>
        ensures listener { self.new.listener ≡ self.old.listener }
        ensures serf { self.new.serf ≡ self.old.serf }
    {
        if !self.verb.tells_news() {
            return Ok(());
        }
        let key = format!(in self.alloc; "query {} {}", query.time, query.id)?;
        if !self.is_news(&key, sent.time)? {
            return Ok(());
        }
        self.note_query(query, sent.time)?;
        let mut line = Text::new(self.alloc);
        if self.json {
            write_query_object(&mut line, &self.listener, &sent, query);
        } else {
            write_query(&mut line, &self.listener, &sent, query);
        }
        self.tell(key, line.end()?)
    }

    /// Whether this came for the first time, and is shown. What is not shown is noted as come.
    fn is_news(&mut self, key: &String, time: u64) -> Result<bool, AllocError>
        ensures listener { self.new.listener ≡ self.old.listener }
        ensures serf { self.new.serf ≡ self.old.serf }
    {
        if self.came.contains_key(key) {
            return Ok(false);
        }
        let is_shown = self.member.is_none() && self.is_timely(time);
        if !is_shown {
            self.came.insert(key.clone()?, 1)?;
        }
        Ok(is_shown)
    }

    /// Notes that a query was asked, to tell later what came of it.
    fn note_query(&mut self, query: &Query, time: u64) -> Result<(), AllocError>
        ensures listener { self.new.listener ≡ self.old.listener }
        ensures serf { self.new.serf ≡ self.old.serf }
    {
        let micros = u64::try_from(query.timeout / 1000).unwrap_or(0);
        self.sightings
            .push(Sighting::Asked {
                id: (query.time, query.id),
                name: query.name.to_vec(self.alloc)?,
                time,
                until: time.saturating_add(micros),
            })
            .map_err(AllocError::from)
    }

    /// Hears an answer to a query, or a receipt.
    fn response(&mut self, sent: Sent, response: &QueryResponse) -> Result<(), AllocError>
        ensures listener { self.new.listener ≡ self.old.listener }
        ensures serf { self.new.serf ≡ self.old.serf }
    {
        if !self.verb.tells_news() || !self.is_timely(sent.time) {
            return Ok(());
        }
        let id: Id = (response.time, response.id);
        self.sightings
            .push(Sighting::Answered {
                id,
                from: response.from.to_vec(self.alloc)?,
                is_ack: response.flags & ACK == ACK,
                time: sent.time,
            })
            .map_err(AllocError::from)
    }

    /// What makes an event of a user another one than others.
    fn event_key(&self, event: &UserEvent) -> Result<String, AllocError> {
        let mut key = Text::new(self.alloc);
        write!(key, "event {} ", event.time);
        key.add(hex::encode(self.alloc, &event.name));
        key.push(' ');
        key.add(hex::encode(self.alloc, &event.payload));
        key.end()
    }
}

/// An event that a member remembers, as the message of it.
fn event_of(time: u64, grouped: GroupedEvent) -> UserEvent {
    UserEvent {
        time,
        name: grouped.name,
        payload: grouped.payload,
        coalesce: false,
    }
}
