//! What the failure detectors of a cluster did, from the packets of captures.

ghost use Rattle.std.specs.Prelude.{◌≡◌, None, IsOk, slice_get};

use crate::captures::Captures;
use crate::fallbacks::Segment;
use crate::health::Healths;
use crate::pairs::Pairs;
use crate::probe::Probe;
use crate::probes::{Accusation, FOLLOWED, Observed, Probes};
use crate::timing::Timing;
use memberlist_message::Message;
use std::alloc::{AllocError, Global};
use std::net::SocketAddr;

/// The times that are told, in microseconds since the start of 1970.
#[derive(Clone, Copy)]
pub struct Span {
    pub from: u64,
    pub to: u64,
}

/// What the failure detectors of a cluster did. Packets come in the order of their times, as far as
/// the clocks of the captures agree.
#[derive(Drop)]
pub struct Detector {
    captures: Captures,
    probes: Probes,
    pub pairs: Pairs,
    pub healths: Healths,
    /// The probes outside of it are left out.
    span: Span,
    /// The last time of a packet.
    now: u64,
}

impl Detector {
    /// One that has seen nothing.
    pub fn new(alloc: Global, timing: Timing, span: Span) -> Detector {
        Detector {
            captures: Captures::new(alloc),
            probes: Probes::new(alloc, timing),
            pairs: Pairs::new(alloc),
            healths: Healths::new(alloc),
            span,
            now: 0,
        }
    }

    /// Takes in that a capture has a packet, whatever it carries.
    ///
    /// # Errors
    ///
    /// `AllocError` if out of memory.
    pub fn packet(&mut self, packet: Observed) -> Result<(), AllocError> {
        let seen = packet.seen;
        self.now = self.now.max(seen.time);
        self.captures
            .note(seen.capture, seen.time, packet.from.ip(), packet.to.ip())
    }

    /// How many probes are followed, or over and not taken out yet.
    pub fn len(&self) -> usize {
        self.probes.len()
    }

    /// Takes out the oldest probe that is over.
    pub fn pop(&mut self) -> Option<Probe> {
        self.probes.pop(self.now)
    }

    /// Takes out the oldest probe that is left, since the captures end.
    pub fn finish(&mut self) -> Option<Probe> {
        self.probes.finish()
    }

    /// Takes in a message of a datagram.
    ///
    /// # Errors
    ///
    /// `AllocError` if out of memory.
    pub fn message(&mut self, packet: Observed, message: &Message) -> Result<(), AllocError> {
        self.probes.take(&self.captures, packet, message)
    }

    /// Takes in a segment of TCP.
    ///
    /// # Errors
    ///
    /// `AllocError` if out of memory.
    pub fn segment(&mut self, packet: Observed, segment: Segment) -> Result<(), AllocError> {
        self.probes.segment(packet, segment)
    }

    /// Takes in that a capture has a refusal of a packet between these ends.
    pub fn refusal(&mut self, packet: Observed, from: SocketAddr, to: SocketAddr) {
        self.captures.note_refusal(packet.seen.capture);
        self.probes.refuse(packet.seen.time, from, to);
    }

    /// Takes in that one member suspects another, and says so itself.
    ///
    /// # Errors
    ///
    /// `AllocError` if out of memory.
    pub fn accusation(&mut self, time: u64, accusation: &Accusation) -> Result<(), AllocError> {
        self.probes.accuse(time, accusation)
    }

    /// Takes in that a connection between these ends, or back, carries a push/pull: it tries no probe
    /// again.
    pub fn push_pull(&mut self, from: SocketAddr, to: SocketAddr) {
        self.probes.push_pull(from, to);
        self.probes.push_pull(to, from);
    }

    /// Takes in that a member refuted a suspicion or a death of itself.
    ///
    /// # Errors
    ///
    /// `AllocError` if out of memory.
    pub fn refutation(&mut self, name: &[u8]) -> Result<(), AllocError> {
        self.healths.note_refuted(name)
    }

    /// The captures.
    pub fn captures(&self) -> &Captures {
        &self.captures
    }

    /// The last time of a packet.
    pub fn now(&self) -> u64 {
        self.now
    }

    /// The time until which all probes are over, if those that are were taken out.
    pub fn settled(&self) -> u64 {
        self.now.saturating_sub(FOLLOWED)
    }

    /// The timeout and the interval of probes.
    pub fn timing(&self) -> &Timing {
        &self.probes.timing
    }

    /// Counts a probe that is over, for its pair and its prober, if a capture has its ping.
    ///
    /// # Errors
    ///
    /// `AllocError` if out of memory.
    pub fn note(&mut self, probe: &Probe) -> Result<(), AllocError>
        ensures unseen { slice_get probe.now.pinged 0 ≡ None → IsOk result × (self.new ≡ self.old) }
    {
        let time = probe.time();
        if !probe.is_seen() || time < self.span.from || self.span.to < time {
            return Ok(());
        }
        let timing = &self.probes.timing;
        self.pairs.note(probe, &self.captures, timing, self.now)?;
        self.healths.note(probe, &self.captures, timing, self.now)
    }
}
