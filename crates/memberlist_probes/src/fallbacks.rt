//! What the target's host answers: to the TCP connections by which probers try again, and by
//! refusals.

use crate::captures::{Sighting, Sightings};
use crate::probe::Fallback;
use crate::probes::{Key, Observed, Probes};
use std::alloc::AllocError;
use std::net::SocketAddr;

/// How much sooner than the timeout after its ping a prober may dial (own), in microseconds.
const EARLY: u64 = 60_000;

/// How much later (own).
const LATE: u64 = 250_000;

/// How long after a ping a refusal may quote it (own).
const REFUSED: u64 = 2_000_000;

/// The most connections that are followed (own). With one more all are forgotten.
const MAX_DIALS: usize = 65_536;

/// A segment of TCP, as far as it tells of a probe.
#[derive(Clone, Copy)]
pub struct Segment {
    pub syn: bool,
    pub rst: bool,
    pub has_payload: bool,
}

/// A connection by which a prober tries again.
#[derive(Clone, Copy)]
pub(crate) struct Dial {
    probe: Key,
    /// When it was sent, so that it is not taken for a later one with its number.
    sent: u64,
    /// The number of the capture that has its first SYN.
    capture: usize,
}

impl Probes {
    /// Takes in a segment: of the connection by which a prober tries again, or of another one.
    ///
    /// # Errors
    ///
    /// `AllocError` if out of memory.
    pub fn segment(&mut self, packet: Observed, segment: Segment) -> Result<(), AllocError> {
        if let Some(dial) = self.dials.get(&(packet.to, packet.from)).copied() {
            self.answer(dial, packet.seen.time, segment);
            return Ok(());
        }
        match self.dials.get(&(packet.from, packet.to)).copied() {
            Some(dial) => self.go_on(dial, packet.seen, segment),
            None if segment.syn => self.dial(packet),
            None => Ok(()),
        }
    }

    /// Takes in the first SYN of a connection.
    fn dial(&mut self, packet: Observed) -> Result<(), AllocError> {
        let time = packet.seen.time;
        let Some((sent, probe)) = self.dialling(packet.from, packet.to, time) else {
            return Ok(());
        };
        if MAX_DIALS <= self.dials.len() {
            self.dials.clear();
        }
        let dial = Dial {
            probe,
            sent,
            capture: packet.seen.capture,
        };
        self.dials.insert((packet.from, packet.to), dial)?;
        let mut dialled = Sightings::new(self.alloc);
        dialled.note(packet.seen)?;
        if let Some(probe) = self.open.get_mut(&probe) {
            probe.fallback = Some(Fallback {
                dialled,
                syns: 1,
                accepted: None,
                established: None,
                is_refused: false,
                answered: None,
            });
        }
        Ok(())
    }

    /// The probe for which a connection is opened at this time: the last one whose timeout is over
    /// just then.
    fn dialling(&self, from: SocketAddr, to: SocketAddr, time: u64) -> Option<(u64, Key)> {
        let timeout = self.timing.timeout();
        let least = SocketAddr::new(from.ip(), 0);
        let mut found = None;
        for (key, probe) in self.open.range((least, 0)..) {
            if key.0.ip() != from.ip() {
                break;
            }
            let due = probe.time().saturating_add(timeout);
            let is_due = due <= time.saturating_add(EARLY) && time <= due.saturating_add(LATE);
            let is_own = probe.is_seen() && !probe.is_relayed;
            if is_due && probe.to == to && is_own && probe.fallback.is_none() {
                found = Some((probe.time(), *key));
            }
        }
        found
    }

    /// Takes in that the connection from one end to another carries a push/pull, so that it tries no
    /// probe again.
    pub(crate) fn push_pull(&mut self, from: SocketAddr, to: SocketAddr) {
        let Some(dial) = self.dials.remove(&(from, to)) else {
            return;
        };
        if let Some(probe) = self.open.get_mut(&dial.probe) {
            if probe.time() == dial.sent {
                probe.fallback = None;
            }
        }
    }

    /// Takes in what the prober sends on its connection.
    fn go_on(&mut self, dial: Dial, seen: Sighting, segment: Segment) -> Result<(), AllocError> {
        let Some(probe) = self.open.get_mut(&dial.probe) else {
            return Ok(());
        };
        let (true, Some(fallback)) = (probe.time() == dial.sent, &mut probe.fallback) else {
            return Ok(());
        };
        if !segment.syn {
            if fallback.accepted.is_some() && fallback.established.is_none() && !segment.rst {
                fallback.established = Some(seen.time);
            }
            return Ok(());
        }
        if seen.capture == dial.capture {
            fallback.syns = fallback.syns.saturating_add(1);
        }
        fallback.dialled.note(seen)
    }

    /// Takes in what the target's host sends on that connection.
    fn answer(&mut self, dial: Dial, time: u64, segment: Segment) {
        let Some(probe) = self.open.get_mut(&dial.probe) else {
            return;
        };
        if probe.time() != dial.sent {
            return;
        }
        let Some(fallback) = &mut probe.fallback else {
            return;
        };
        if segment.syn && fallback.accepted.is_none() {
            fallback.accepted = Some(time);
        }
        if segment.rst && fallback.accepted.is_none() {
            fallback.is_refused = true;
        }
        if segment.has_payload && fallback.answered.is_none() {
            fallback.answered = Some(time);
        }
    }

    /// Takes in that a host refused a datagram between these ends.
    pub fn refuse(&mut self, time: u64, from: SocketAddr, to: SocketAddr) {
        let mut last = None;
        for (key, probe) in self.open.range((from, 0)..) {
            if key.0 != from {
                break;
            }
            let sent = probe.time();
            if probe.to == to && sent <= time && time.saturating_sub(sent) < REFUSED {
                last = last.max(Some((sent, *key)));
            }
        }
        if let Some((_, key)) = last {
            if let Some(probe) = self.open.get_mut(&key) {
                probe.is_refused = true;
            }
        }
    }
}
