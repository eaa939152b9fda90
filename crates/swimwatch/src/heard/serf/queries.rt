//! Queries, and who answered them.

use std::alloc::{AllocError, Global};
use std::collections::{BTreeMap, BTreeSet};

/// What makes a query another one than others: its Lamport time and its number.
pub(crate) type Id = (u64, u32);

/// What was seen of a query.
#[derive(Drop)]
pub(crate) enum Sighting {
    /// It was seen at this time for the first time in a view. Its answers are taken until another
    /// time.
    Asked {
        id: Id,
        name: Vec<u8>,
        time: u64,
        until: u64,
    },
    /// A member answered it, or sent a receipt (Serf's ack).
    Answered {
        id: Id,
        from: Vec<u8>,
        is_ack: bool,
        time: u64,
    },
}

/// Who answered a query.
#[derive(Drop)]
pub(crate) struct Answers {
    /// Who sent a receipt.
    pub(crate) acks: BTreeSet<Vec<u8>>,
    /// Who answered.
    pub(crate) answers: BTreeSet<Vec<u8>>,
    /// When the last receipt or answer was first seen.
    last: Option<u64>,
}

impl Answers {
    fn new(alloc: Global) -> Answers {
        Answers {
            acks: BTreeSet::new(alloc),
            answers: BTreeSet::new(alloc),
            last: None,
        }
    }

    /// Takes in that a member answered. Its answer counts once, however often it is seen.
    fn note(&mut self, from: Vec<u8>, is_ack: bool, time: u64) -> Result<(), AllocError> {
        let members = if is_ack {
            &mut self.acks
        } else {
            &mut self.answers
        };
        if members.insert(from)? {
            self.last = Some(time);
        }
        Ok(())
    }
}

/// The most queries of which only answers were seen (own). With one more all are forgotten.
const MAX_EARLY: usize = 1024;

/// A query, and who answered it.
#[derive(Drop)]
struct Query {
    name: Vec<u8>,
    /// When it was first seen.
    begun: u64,
    answers: Answers,
}

/// What came of a query.
#[derive(Drop)]
pub(crate) struct Tally {
    /// When its time was over, or when listening ended.
    pub(crate) time: u64,
    pub(crate) ltime: u64,
    pub(crate) id: u32,
    /// Whether its time is over.
    is_over: bool,
    pub(crate) name: Vec<u8>,
    pub(crate) answers: Answers,
    /// When it was first seen.
    begun: u64,
}

impl Tally {
    /// Whether it has ended, in a word.
    pub(crate) fn word(&self) -> &'static str {
        if self.is_over { "ended" } else { "open" }
    }

    /// How many microseconds after the query the last receipt or answer was seen.
    pub(crate) fn last(&self) -> Option<u64> {
        Some(self.answers.last?.saturating_sub(self.begun))
    }
}

/// The queries of all views, so that an answer counts which any of them saw.
#[derive(Drop)]
pub(crate) struct Queries {
    alloc: Global,
    open: BTreeMap<Id, Query>,
    /// Answers to queries that were not seen yet: a member may answer its own query before it sends
    /// it to others.
    early: BTreeMap<Id, Answers>,
    /// When the answers of each open query end.
    ends: BTreeSet<(u64, u64, u32)>,
    /// The queries that were seen.
    known: BTreeSet<Id>,
}

impl Queries {
    pub(crate) fn new(alloc: Global) -> Queries {
        Queries {
            alloc,
            open: BTreeMap::new(alloc),
            early: BTreeMap::new(alloc),
            ends: BTreeSet::new(alloc),
            known: BTreeSet::new(alloc),
        }
    }

    /// How many are followed.
    pub(crate) fn len(&self) -> usize {
        self.open.len()
    }

    /// Takes in what was seen of a query. What is seen of one whose time is over counts no longer.
    pub(crate) fn note(&mut self, sighting: Sighting) -> Result<(), AllocError> {
        match sighting {
            Sighting::Asked {
                id,
                name,
                time,
                until,
            } => self.ask(id, name, time, until),
            Sighting::Answered {
                id,
                from,
                is_ack,
                time,
            } => self.answer(id, from, is_ack, time),
        }
    }

    fn ask(&mut self, id: Id, name: Vec<u8>, time: u64, until: u64) -> Result<(), AllocError> {
        if !self.known.insert(id)? {
            return Ok(());
        }
        let (ltime, number) = id;
        self.ends.insert((until, ltime, number))?;
        let query = Query {
            name,
            begun: time,
            answers: match self.early.remove(&id) {
                Some(answers) => answers,
                None => Answers::new(self.alloc),
            },
        };
        self.open.insert(id, query)?;
        Ok(())
    }

    fn answer(&mut self, id: Id, from: Vec<u8>, is_ack: bool, time: u64) -> Result<(), AllocError> {
        if let Some(query) = self.open.get_mut(&id) {
            return query.answers.note(from, is_ack, time);
        }
        if self.known.contains(&id) {
            return Ok(());
        }
        if let Some(answers) = self.early.get_mut(&id) {
            return answers.note(from, is_ack, time);
        }
        if MAX_EARLY <= self.early.len() {
            self.early = BTreeMap::new(self.alloc);
        }
        let mut answers = Answers::new(self.alloc);
        answers.note(from, is_ack, time)?;
        self.early.insert(id, answers)?;
        Ok(())
    }

    /// The next query whose time is over at this time, which is followed no longer.
    pub(crate) fn over(&mut self, now: u64) -> Option<Tally> {
        let (until, ltime, id) = *self.ends.first()?;
        if now < until {
            return None;
        }
        self.tally(until, ltime, id, until)
    }

    /// The next query that is left when listening ends at this time.
    pub(crate) fn left(&mut self, now: u64) -> Option<Tally> {
        let (until, ltime, id) = *self.ends.first()?;
        self.tally(until, ltime, id, now.min(until))
    }

    fn tally(&mut self, until: u64, ltime: u64, id: u32, time: u64) -> Option<Tally> {
        self.ends.remove(&(until, ltime, id));
        let query = self.open.remove(&(ltime, id))?;
        Some(Tally {
            time,
            ltime,
            id,
            is_over: until <= time,
            name: query.name,
            answers: query.answers,
            begun: query.begun,
        })
    }
}
