//! When each member first had each piece of news.
//!
//! `agents` tells who is at an address, `hops` puts the packets of several captures together, and
//! `written` shows what came of each piece.

mod agents;
mod hops;
mod written;

use crate::heard::counts::count;
use crate::heard::sent::Sent;
use crate::heard::told::Told;
use crate::shown::talkers::ends_moved;
use crate::text::texts::kind_word;
use crate::view::listener::Listener;
use agents::Agents;
use hops::{Hop, Hops};
use memberlist_probes::{Captures, Sighting, Sightings};
use memberlist_view::Said;
use std::alloc::{AllocError, Global};
use std::collections::BTreeMap;
use swim_claim::Kind;
pub(crate) use written::{Shown, write_spread, write_spread_objects};

/// How long before or after news begins an agent that should get it is heard (own), in
/// microseconds: one that runs is heard every second or two.
const NEAR: u64 = 6_000_000;

/// The most pieces of news that are followed (own). Later ones are left out, and counted.
const MAX_PIECES: usize = 65_536;

/// The most pairs of a piece of news and an agent that are kept (own), as of 2,048 members and as
/// many pieces: some 300 MiB of memory. Later ones are left out, and counted.
const MAX_PARTS: usize = 4_194_304;

/// What tells a piece of news from others: the member's name, the incarnation, and the word for
/// what is claimed.
type Topic = (Vec<u8>, u32, &'static str);

/// A piece of news: what is claimed about a member, whoever says it.
#[derive(Drop)]
struct Piece {
    name: Vec<u8>,
    kind: Kind,
    inc: u32,
    /// Who is named in the first claim as the one who says so; empty if nobody is.
    by: Vec<u8>,
    /// When it was first seen, in microseconds since the start of 1970.
    time: u64,
    /// In how many packets it was sent.
    sent: u64,
}

/// What an agent has of a piece of news.
#[derive(Clone, Copy, Default)]
struct Part {
    /// When it first heard or said it.
    first: Option<u64>,
    /// Whether it was heard at about the time when the news began.
    is_near: bool,
}

impl Part {
    /// The same after it heard or said the news at this time.
    fn at(self, time: u64) -> Part {
        let first = match self.first {
            Some(first) => first.min(time),
            None => time,
        };
        Part {
            first: Some(first),
            ..self
        }
    }

    /// The same with what the member has of it at another end.
    fn and(self, other: Part) -> Part {
        let part = match other.first {
            Some(first) => self.at(first),
            None => self,
        };
        Part {
            is_near: self.is_near || other.is_near,
            ..part
        }
    }
}

/// How news spread. Packets come in the order of their times, as far as the clocks of the captures
/// agree.
#[derive(Drop)]
pub(crate) struct Spread {
    alloc: Global,
    captures: Captures,
    agents: Agents,
    pieces: Vec<Piece>,
    /// The number of the piece on each topic.
    topics: BTreeMap<Topic, usize>,
    /// What agents have of pieces, by the numbers of both.
    parts: BTreeMap<(usize, usize), Part>,
    hops: Hops,
    /// How many pieces, from the first on, have got the agents near them.
    marked: usize,
    /// The last time of a packet.
    now: u64,
    /// How many claims were left out because there were too many pieces, agents or parts.
    pub(crate) left_out: u64,
}

impl Spread {
    /// Nothing was heard yet.
    pub(crate) fn new(alloc: Global) -> Spread {
        Spread {
            alloc,
            captures: Captures::new(alloc),
            agents: Agents::new(alloc),
            pieces: Vec::new(alloc),
            topics: BTreeMap::new(alloc),
            parts: BTreeMap::new(alloc),
            hops: Hops::new(alloc),
            marked: 0,
            now: 0,
            left_out: 0,
        }
    }

    /// Takes in that the capture with this number has a packet, whatever it carries.
    pub(crate) fn packet(&mut self, capture: usize, sent: &Sent) -> Result<(), AllocError> {
        self.now = self.now.max(sent.time);
        self.captures.note(capture, sent.time, sent.source.ip(), sent.destination.ip())?;
        self.mark()?;
        for _ in 0..self.hops.len() {
            let Some((hop, seen)) = self.hops.pop(self.now) else {
                break;
            };
            self.arrive(hop, &seen)?;
        }
        Ok(())
    }

    /// Takes in that an agent sent something.
    pub(crate) fn sender(&mut self, listener: &Listener, sent: &Sent) -> Result<(), AllocError> {
        match self.agents.number_at(listener, sent.proto, sent.source)? {
            Some(number) => self.agents.note(number, sent.time),
            None => Ok(()),
        }
    }

    /// Before this is heard: what agents had so far at the endpoints that a member leaves or takes
    /// is that of the members that are there now.
    pub(crate) fn settle(&mut self, listener: &Listener, said: &Said) -> Result<(), AllocError> {
        for end in ends_moved(listener, said) {
            if let Some(end) = end {
                self.agents.settle(listener, end)?;
            }
        }
        Ok(())
    }

    /// Takes in what a message says that the capture with this number has. Who sends it has the
    /// news, and so has who gets it: a connection's other end at once, but a packet may be lost, so
    /// it is waited for at the captures of its destination.
    pub(crate) fn news(
        &mut self,
        listener: &Listener,
        capture: usize,
        sent: &Sent,
        told: &Told,
    ) -> Result<(), AllocError> {
        let Some(piece) = self.piece_of(told, sent.time)? else {
            return Ok(());
        };
        let from = self.agents.number_at(listener, sent.proto, sent.source)?;
        let to = self
            .agents
            .number_at(listener, sent.proto, sent.destination)?;
        let (Some(from), Some(to)) = (from, to) else {
            count(&mut self.left_out);
            return Ok(());
        };
        if told.is_record {
            self.has(piece, from, sent.time)?;
            return self.has(piece, to, sent.time);
        }
        let seen = Sighting {
            capture,
            time: sent.time,
        };
        self.hops.note(Hop { piece, from, to }, seen)
    }

    /// Takes in that the captures end.
    pub(crate) fn finish(&mut self) -> Result<(), AllocError> {
        self.now = u64::MAX;
        self.mark()?;
        for _ in 0..self.hops.len() {
            let Some((hop, seen)) = self.hops.finish() else {
                break;
            };
            self.arrive(hop, &seen)?;
        }
        Ok(())
    }

    /// The number of the piece of news that a message tells. None if it tells none, or there are
    /// too many.
    fn piece_of(&mut self, told: &Told, time: u64) -> Result<Option<usize>, AllocError> {
        let claim = told.claim;
        let (name, kind) = (claim.name().bytes(), claim.kind());
        let topic = (name.to_vec(self.alloc)?, claim.inc(), kind_word(kind));
        if let Some(number) = self.topics.get(&topic) {
            return Ok(Some(*number));
        }
        if told.is_record && matches!(kind, Kind::Suspect | Kind::Confirm) {
            return Ok(None);
        }
        let number = self.pieces.len();
        if MAX_PIECES <= number || MAX_PARTS <= self.parts.len() {
            count(&mut self.left_out);
            return Ok(None);
        }
        self.pieces.push(Piece {
            name: name.to_vec(self.alloc)?,
            kind,
            inc: claim.inc(),
            by: speaker(told).to_vec(self.alloc)?,
            time,
            sent: 0,
        })?;
        self.topics.insert(topic, number)?;
        Ok(Some(number))
    }

    /// Takes in what the captures have of a packet.
    fn arrive(&mut self, hop: Hop, seen: &Sightings) -> Result<(), AllocError> {
        if let Some(piece) = self.pieces.get_mut(hop.piece) {
            count(&mut piece.sent);
        }
        if let Some(first) = seen.first() {
            self.has(hop.piece, hop.from, first.time)?;
        }
        let Some(host) = self.agents.host(hop.to) else {
            return Ok(());
        };
        match seen.came_to(&self.captures, host) {
            Some(time) => self.has(hop.piece, hop.to, time),
            None => Ok(()),
        }
    }

    /// Notes which agents are near the pieces of news that began so long ago that no more can be.
    fn mark(&mut self) -> Result<(), AllocError> {
        for number in self.marked..self.pieces.len() {
            let Some(piece) = self.pieces.get(number) else {
                break;
            };
            let time = piece.time;
            if self.now.saturating_sub(time) <= NEAR {
                break;
            }
            self.mark_one(number, time.saturating_sub(NEAR))?;
            self.marked = number.saturating_add(1);
        }
        Ok(())
    }

    /// Notes that the agents that were heard at this time or later are near a piece of news.
    fn mark_one(&mut self, piece: usize, since: u64) -> Result<(), AllocError> {
        let room = MAX_PARTS.saturating_sub(self.parts.len());
        let near = self.agents.since(since, room)?;
        if near.len() == room {
            count(&mut self.left_out);
        }
        for agent in &near {
            let part = Part {
                is_near: true,
                ..self.part(piece, *agent)
            };
            self.keep(piece, *agent, part)?;
        }
        Ok(())
    }

    /// Notes that an agent has a piece of news at this time.
    fn has(&mut self, piece: usize, agent: usize, time: u64) -> Result<(), AllocError> {
        let part = self.part(piece, agent).at(time);
        self.keep(piece, agent, part)
    }

    /// What an agent has of a piece of news.
    fn part(&self, piece: usize, agent: usize) -> Part {
        self.parts.get(&(piece, agent)).copied().unwrap_or_default()
    }

    /// Keeps what an agent has of a piece of news, unless there are too many.
    fn keep(&mut self, piece: usize, agent: usize, part: Part) -> Result<(), AllocError> {
        let key = (piece, agent);
        if MAX_PARTS <= self.parts.len() && !self.parts.contains_key(&key) {
            count(&mut self.left_out);
            return Ok(());
        }
        let _ = self.parts.insert(key, part)?;
        Ok(())
    }
}

/// Who is named as the one who says so: a member itself that is alive or leaves, or the accuser,
/// which is empty if nobody is named.
fn speaker<'a>(told: &Told<'a>) -> &'a [u8] {
    match told.claim.kind() {
        Kind::Alive | Kind::Leave => told.claim.name().bytes(),
        Kind::Suspect | Kind::Confirm => told.from,
    }
}
