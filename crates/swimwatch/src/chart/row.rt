//! What is drawn for a member.

use crate::text::names::escaped_name;
use crate::text::texts::{place_text, state_word, write_rival};
use crate::text::written::Text;
use crate::view::change::Change;
use memberlist_view::{Entry, Event};
use std::alloc::{AllocError, Global};

/// The state of a member from one moment on.
#[derive(Drop)]
pub(crate) struct Bar {
    /// The word for the state.
    pub(crate) state: &'static str,
    /// When it began, in microseconds since the start of 1970.
    pub(crate) since: u64,
    /// The incarnation at which it began.
    pub(crate) first_inc: u32,
    /// The incarnation at which it ended.
    pub(crate) last_inc: u32,
    /// The member's address: ` at 10.20.1.11:7946`.
    pub(crate) place: String,
    /// Who said so, separated by commas.
    pub(crate) by: String,
}

/// What happened to a member at a moment.
#[derive(Drop)]
pub(crate) struct Mark {
    pub(crate) event: Event,
    /// When it happened, in microseconds since the start of 1970.
    pub(crate) time: u64,
    pub(crate) inc: u32,
    /// The member's address, or both addresses if there is a conflict.
    pub(crate) place: String,
}

/// What is drawn for a member, in the order in which it was heard.
#[derive(Drop)]
pub(crate) struct Row {
    alloc: Global,
    pub(crate) bars: Vec<Bar>,
    pub(crate) marks: Vec<Mark>,
}

impl Row {
    pub(crate) fn new(alloc: Global) -> Row {
        Row {
            alloc,
            bars: Vec::new(alloc),
            marks: Vec::new(alloc),
        }
    }

    /// Takes in what a message changed. The view now shows this entry.
    pub(crate) fn take(
        &mut self,
        time: u64,
        change: &Change,
        entry: &Entry,
    ) -> Result<(), AllocError> {
        let event = change.event;
        match event {
            Event::Joined | Event::Left => self.begin(time, entry),
            Event::Known | Event::Seen => self.learn(time, entry),
            Event::Suspected | Event::Dead => {
                self.begin(time, entry)?;
                self.accuse(change.from)
            }
            Event::AlsoSuspected => self.accuse(change.from),
            Event::Back | Event::Refuted => {
                self.mark(time, event, entry)?;
                self.begin(time, entry)
            }
            Event::Conflict => self.mark(time, event, entry),
            Event::Updated | Event::Renewed => {
                self.raise(entry.inc);
                Ok(())
            }
        }
    }

    /// Begins a bar if there is none in this state, and else notes the incarnation and the address
    /// in the last one.
    fn learn(&mut self, time: u64, entry: &Entry) -> Result<(), AllocError> {
        let state = state_word(&entry.state);
        let place = where_text(self.alloc, entry)?;
        match self.bars.last_mut() {
            Some(bar) if bar.state == state => {
                bar.last_inc = entry.inc;
                bar.place = place;
                Ok(())
            }
            _ => self.begin(time, entry),
        }
    }

    /// Begins a bar.
    fn begin(&mut self, time: u64, entry: &Entry) -> Result<(), AllocError> {
        let bar = Bar {
            state: state_word(&entry.state),
            since: time,
            first_inc: entry.inc,
            last_inc: entry.inc,
            place: where_text(self.alloc, entry)?,
            by: String::new(self.alloc),
        };
        self.bars.push(bar).map_err(AllocError::from)
    }

    /// Adds a mark.
    fn mark(&mut self, time: u64, event: Event, entry: &Entry) -> Result<(), AllocError> {
        let place = match event {
            Event::Conflict => places_text(self.alloc, entry)?,
            _ => where_text(self.alloc, entry)?,
        };
        let mark = Mark {
            event,
            time,
            inc: entry.inc,
            place,
        };
        self.marks.push(mark).map_err(AllocError::from)
    }

    /// Notes who said what the last bar shows, if somebody is named.
    fn accuse(&mut self, from: &[u8]) -> Result<(), AllocError> {
        if from.is_empty() {
            return Ok(());
        }
        let Some(bar) = self.bars.last_mut() else {
            return Ok(());
        };
        if !bar.by.is_empty() {
            bar.by.push_str(", ")?;
        }
        bar.by.push_str(&escaped_name(self.alloc, from)?)
    }

    /// Notes a greater incarnation in the last bar.
    fn raise(&mut self, inc: u32) {
        if let Some(bar) = self.bars.last_mut() {
            bar.last_inc = inc;
        }
    }

    /// When a bar ends: when the next one begins, or at the last moment.
    pub(crate) fn until(&self, index: usize, last: u64) -> u64 {
        let until = match self.bars.get(index.saturating_add(1)) {
            Some(next) => next.since,
            None => last,
        };
        match self.bars.get(index) {
            Some(bar) => until.max(bar.since),
            None => until,
        }
    }
}

fn places_text(alloc: Global, entry: &Entry) -> Result<String, AllocError> {
    let mut text = Text::new(alloc);
    write_rival(&mut text, entry);
    text.end()
}

fn where_text(alloc: Global, entry: &Entry) -> Result<String, AllocError> {
    let address = place_text(alloc, entry)?;
    format!(in alloc; " at {address}")
}
