//! Probes, as the packets of the captures tell them.

use crate::captures::{Captures, Sighting, Sightings};
use crate::fallbacks::Dial;
use crate::indirect::Asked;
use crate::probe::Probe;
use crate::timing::Timing;
use memberlist_message::{Message, Ping};
use std::alloc::{AllocError, Global};
use std::collections::{BTreeMap, BTreeSet, VecDeque};
use std::net::SocketAddr;

/// How far apart two captures may have one packet, in microseconds (own).
pub const SAME: u64 = 5_000_000;

/// How long after its ping a probe is followed, in microseconds (own): an agent that was stopped
/// answers late.
pub(crate) const FOLLOWED: u64 = 30_000_000;

/// How long after its ping a probe may lead to a suspicion, in microseconds (own).
const ACCUSED: u64 = 12_000_000;

/// How much sooner than an interval after its ping that may be (own).
const EARLY: u64 = 150_000;

/// The most probes that are followed (own). With one more the oldest is over.
const MAX_OPEN: usize = 65_536;

/// A packet that a capture has.
#[derive(Clone, Copy)]
pub struct Observed {
    pub seen: Sighting,
    pub from: SocketAddr,
    pub to: SocketAddr,
}

/// Which probe: who sent the ping, and the number in it.
pub(crate) type Key = (SocketAddr, u32);

/// The most accusations that are remembered (own). With one more all are forgotten.
const MAX_ACCUSATIONS: usize = 65_536;

/// What a suspect message says.
#[derive(Clone, Copy)]
pub struct Accusation<'a> {
    pub accuser: &'a [u8],
    pub suspect: &'a [u8],
    pub inc: u32,
}

/// The probes that are followed.
#[derive(Drop)]
pub struct Probes {
    pub(crate) alloc: Global,
    pub(crate) open: BTreeMap<Key, Probe>,
    /// Those that are open, by the times of their pings.
    queue: VecDeque<(u64, Key)>,
    /// Those whose numbers were used again.
    over: VecDeque<Probe>,
    /// The last ping of its own that each prober sent.
    last: BTreeMap<SocketAddr, u32>,
    /// From where the members with these names sent pings last.
    pub(crate) ends: BTreeMap<Vec<u8>, SocketAddr>,
    /// The pings that were asked for, by who is to send them, and to whom.
    pub(crate) asked: BTreeMap<(SocketAddr, Vec<u8>), Asked>,
    /// The accusations that were heard.
    accusations: BTreeSet<(Vec<u8>, Vec<u8>, u32)>,
    /// The connections by which probers try again, by who opened them and to where.
    pub(crate) dials: BTreeMap<(SocketAddr, SocketAddr), Dial>,
    pub timing: Timing,
}

impl Probes {
    /// None yet.
    pub fn new(alloc: Global, timing: Timing) -> Probes {
        Probes {
            alloc,
            open: BTreeMap::new(alloc),
            queue: VecDeque::new(alloc),
            over: VecDeque::new(alloc),
            last: BTreeMap::new(alloc),
            ends: BTreeMap::new(alloc),
            asked: BTreeMap::new(alloc),
            accusations: BTreeSet::new(alloc),
            dials: BTreeMap::new(alloc),
            timing,
        }
    }

    /// Takes in a message of a datagram.
    ///
    /// # Errors
    ///
    /// `AllocError` if out of memory.
    pub fn take(
        &mut self,
        captures: &Captures,
        packet: Observed,
        message: &Message,
    ) -> Result<(), AllocError> {
        match message {
            Message::Ping(ping) => self.ping(captures, packet, ping),
            Message::IndirectPing(ping) => self.indirect_ping(captures, packet, ping),
            Message::Ack(ack) => self.ack(packet, ack.seq_no),
            Message::Nack(nack) => self.nack(packet, nack.seq_no),
            Message::User(_) | Message::Error(_) | Message::Claim(_) => Ok(()),
        }
    }

    /// Takes in that one member suspects another: it does so if nothing answered its last probe of it,
    /// an interval ago or longer (memberlist's `probeNode`, state.go). When it is said again counts for
    /// nothing.
    ///
    /// # Errors
    ///
    /// `AllocError` if out of memory.
    pub fn accuse(&mut self, time: u64, accusation: &Accusation) -> Result<(), AllocError> {
        if !self.is_new(accusation)? {
            return Ok(());
        }
        let accuser = accusation.accuser.to_vec(self.alloc)?;
        let Some(end) = self.ends.get(&accuser).copied() else {
            return Ok(());
        };
        let Some(key) = self.accusing(end, time, accusation.suspect) else {
            return Ok(());
        };
        if let Some(probe) = self.open.get_mut(&key) {
            probe.is_accused = true;
        }
        Ok(())
    }

    /// Whether an accusation was not heard before.
    fn is_new(&mut self, accusation: &Accusation) -> Result<bool, AllocError> {
        if MAX_ACCUSATIONS <= self.accusations.len() {
            self.accusations = BTreeSet::new(self.alloc);
        }
        let accuser = accusation.accuser.to_vec(self.alloc)?;
        let suspect = accusation.suspect.to_vec(self.alloc)?;
        Ok(self.accusations.insert((accuser, suspect, accusation.inc))?)
    }

    /// The probe that leads to a suspicion at this time.
    fn accusing(&self, end: SocketAddr, time: u64, suspect: &[u8]) -> Option<Key> {
        let latest = time
            .saturating_add(EARLY)
            .saturating_sub(self.timing.interval());
        let mut found = None;
        for (key, probe) in self.open.range((end, 0)..) {
            if key.0 != end {
                break;
            }
            let sent = self.sent_at_most(probe);
            let is_timely = sent <= latest && time.saturating_sub(sent) < ACCUSED;
            if is_timely && !probe.is_relayed && probe.target.as_slice() == suspect {
                found = later(found, sent, *key);
            }
        }
        let (_, key) = found?;
        Some(key)
    }

    /// When the ping was sent at the latest: a timeout before the first indirect one.
    fn sent_at_most(&self, probe: &Probe) -> u64 {
        if probe.is_seen() {
            probe.time()
        } else {
            probe.time().saturating_sub(self.timing.timeout())
        }
    }

    /// How many are followed, or over and not taken out yet.
    pub fn len(&self) -> usize {
        self.queue.len().saturating_add(self.over.len())
    }

    /// The oldest probe that is over at this time.
    pub fn pop(&mut self, now: u64) -> Option<Probe> {
        if let Some(probe) = self.over.pop_front() {
            return Some(probe);
        }
        let (time, _) = self.queue.front().copied()?;
        if now.saturating_sub(time) < FOLLOWED && self.open.len() <= MAX_OPEN {
            return None;
        }
        self.finish()
    }

    /// The oldest probe that is left.
    pub fn finish(&mut self) -> Option<Probe> {
        if let Some(probe) = self.over.pop_front() {
            return Some(probe);
        }
        for _ in 0..self.queue.len() {
            let (time, key) = self.queue.pop_front()?;
            let is_it = match self.open.get(&key) {
                Some(probe) => probe.time() == time,
                None => false,
            };
            if is_it {
                return self.open.remove(&key);
            }
        }
        None
    }

    /// Takes in a ping: one that another capture has, too, or that of a new probe.
    fn ping(
        &mut self,
        captures: &Captures,
        packet: Observed,
        ping: &Ping,
    ) -> Result<(), AllocError> {
        let key = (packet.from, ping.seq_no);
        let mut helpers = Vec::new(self.alloc);
        if let Some(probe) = self.open.get_mut(&key) {
            if is_same(probe, packet, ping) {
                if probe.is_seen() {
                    return probe.pinged.note(packet.seen);
                }
                std::mem::swap(&mut helpers, &mut probe.helpers);
            }
        }
        let asked_by = self.asked_by(captures, packet, &ping.node)?;
        let is_relayed = asked_by.is_some();
        if !is_relayed {
            self.follow_last(packet, ping.seq_no)?;
            self.ends
                .insert(ping.source_node.to_vec(self.alloc)?, packet.from)?;
        }
        let mut pinged = Sightings::new(self.alloc);
        pinged.note(packet.seen)?;
        let probe = Probe {
            prober: self.name_of(&ping.source_node, packet.from)?,
            target: self.name_of(&ping.node, packet.to)?,
            from: packet.from,
            to: packet.to,
            seq_no: ping.seq_no,
            is_relayed,
            is_for_unseen: self.is_unseen(asked_by),
            pinged,
            acked: Sightings::new(self.alloc),
            helpers,
            fallback: None,
            is_refused: false,
            next: None,
            is_accused: false,
        };
        self.follow(key, probe)
    }

    /// Follows a probe from now on. An older one with its number is over.
    pub(crate) fn follow(&mut self, key: Key, probe: Probe) -> Result<(), AllocError> {
        self.queue.push_back((probe.time(), key))?;
        if let Some(older) = self.open.insert(key, probe)? {
            if older.is_seen() || !older.helpers.is_empty() {
                self.over.push_back(older)?;
            }
        }
        Ok(())
    }

    /// The name that a ping gives, or else the address and the port.
    pub(crate) fn name_of(&self, name: &[u8], end: SocketAddr) -> Result<Vec<u8>, AllocError> {
        if name.is_empty() {
            let text = format!(in self.alloc; "{end}")?;
            text.as_bytes().to_vec(self.alloc)
        } else {
            name.to_vec(self.alloc)
        }
    }

    /// Notes at the prober's last ping of its own when this one followed.
    fn follow_last(&mut self, packet: Observed, seq_no: u32) -> Result<(), AllocError> {
        let Some(last) = self.last.insert(packet.from, seq_no)? else {
            return Ok(());
        };
        let Some(probe) = self.open.get_mut(&(packet.from, last)) else {
            return Ok(());
        };
        if probe.next.is_some() {
            return Ok(());
        }
        probe.next = Some(packet.seen.time);
        let gap = packet.seen.time.saturating_sub(probe.time());
        if probe.helpers.is_empty() {
            self.timing.note_gap(gap)?;
        }
        Ok(())
    }

    /// Takes in an ack: the target's own, or that of a member that was asked.
    fn ack(&mut self, packet: Observed, seq_no: u32) -> Result<(), AllocError> {
        let Some(probe) = self.open.get_mut(&(packet.to, seq_no)) else {
            return Ok(());
        };
        if packet.from.ip() == probe.to.ip() && packet.from.port() == probe.to.port() {
            return probe.acked.note(packet.seen);
        }
        match probe
            .helpers
            .iter_mut()
            .find(|helper| helper.end == packet.from)
        {
            Some(helper) => helper.acked.note(packet.seen),
            None => Ok(()),
        }
    }

    /// Takes in a nack of a member that was asked.
    fn nack(&mut self, packet: Observed, seq_no: u32) -> Result<(), AllocError> {
        let Some(probe) = self.open.get_mut(&(packet.to, seq_no)) else {
            return Ok(());
        };
        match probe
            .helpers
            .iter_mut()
            .find(|helper| helper.end == packet.from)
        {
            Some(helper) => helper.nacked.note(packet.seen),
            None => Ok(()),
        }
    }
}

/// Whether the probe is of the member with this name, as far as a message names it.
pub(crate) fn is_of(probe: &Probe, name: &[u8]) -> bool {
    name.is_empty() || probe.target.as_slice() == name
}

/// Whether a ping is the one of this probe, in another capture.
fn is_same(probe: &Probe, packet: Observed, ping: &Ping) -> bool {
    probe.to == packet.to
        && is_of(probe, &ping.node)
        && packet.seen.time.saturating_sub(probe.time()) <= SAME
        && !probe.pinged.is_in(packet.seen.capture)
}

/// The later of two probes, of which the first may not be known.
fn later(found: Option<(u64, Key)>, sent: u64, key: Key) -> Option<(u64, Key)> {
    match found {
        Some((last, key)) if sent < last => Some((last, key)),
        _ => Some((sent, key)),
    }
}
