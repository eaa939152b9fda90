//! The captures, and when each of them has a packet.

ghost use Rattle.std.specs.Prelude.{◌≡◌, ◌+◌, ◌≤◌, ◌∷◌, [], ◌++◌, if◌then◌else◌, Some, ◌⊎◌, OnOk, OnErr, All};
ghost use Rattle.std.specs.Prelude.{MatchBool, MatchOption, Contains, slice_get};
ghost use Rattle.memberlist_probes.specs.declared.captures.Sighting.{Sighting};
ghost use Rattle.memberlist_probes.specs.Captured.{IsAt, IsCovering, Covers, IsSeenAt, WasNotSeen, WasSeen, has_capture};
ghost use Rattle.memberlist_probes.specs.Points.{host_of};

use crate::Point;
use std::alloc::{AllocError, Global};
use std::marker::Model;
use std::net::IpAddr;

/// A capture: where it was taken, and from when to when.
#[derive(Clone, Copy)]
pub struct Capture {
    pub point: Point,
    /// The time of its first record, in microseconds by its clock.
    pub begin: u64,
    /// The time of its last record.
    pub end: u64,
    /// Whether its filter lets refusals through, as one that it has shows.
    pub has_refusals: bool,
}

impl Capture {
    /// Whether it was taken at the host.
    pub fn is_at(&self, host: IpAddr) -> bool
        ensures { MatchBool result (host_of self.now.point ≡ Some host)
            (host_of self.now.point ≡ Some host → ⊥) }
    {
        self.point.host() == Some(host)
    }

    /// Whether it was taken at the host, and ran from this time on, for so long.
    fn covers(&self, host: IpAddr, start: u64, span: u64) -> bool
        ensures { MatchBool result (IsCovering self.now host start span)
            (IsCovering self.now host start span → ⊥) }
    {
        self.is_at(host)
            && self.begin <= start
            && start <= self.end
            && span <= self.end.saturating_sub(start)
    }
}

/// The captures, by their numbers.
#[derive(Drop)]
pub struct Captures {
    all: Vec<Capture>,
}

impl Model for Captures {
    ghost use Rattle.std.specs.Prelude.{List};
    ghost use Rattle.memberlist_probes.specs.declared.captures.Capture.{Capture};

    ghost Value = { List Capture };

    ghost view = { λ c. c.all.items };
}

impl Captures {
    /// None yet.
    pub fn new(alloc: Global) -> Captures
        ensures { result ≡ [] }
    {
        Captures {
            all: Vec::new(alloc),
        }
    }

    /// Notes a packet of the capture with this number. The numbers of captures begin at 0.
    ///
    /// # Errors
    ///
    /// `AllocError` if out of memory.
    pub fn note(
        &mut self,
        number: usize,
        time: u64,
        from: IpAddr,
        to: IpAddr,
    ) -> Result<(), AllocError> {
        for _ in self.all.len()..=number {
            self.all.push(Capture {
                point: Point::new(),
                begin: time,
                end: time,
                has_refusals: false,
            })?;
        }
        if let Some(capture) = self.all.get_mut(number) {
            if let Point::Unknown = capture.point {
                capture.begin = time;
            }
            capture.point = capture.point.after(from, to);
            capture.end = capture.end.max(time);
        }
        Ok(())
    }

    /// Notes that the capture with this number has a refusal.
    pub fn note_refusal(&mut self, number: usize) {
        if let Some(capture) = self.all.get_mut(number) {
            capture.has_refusals = true;
        }
    }

    /// All of them, by their numbers.
    pub fn as_slice(&self) -> &[Capture]
        ensures { result.now ≡ self.now }
    {
        &self.all
    }

    /// Whether the capture with this number was taken at the host.
    pub fn is_at(&self, number: usize, host: IpAddr) -> bool
        ensures { MatchBool result (IsAt self.now number host) (IsAt self.now number host → ⊥) }
    {
        match self.all.get(number) {
            Some(capture) => capture.is_at(host),
            None => false,
        }
    }

    /// Whether a capture at the host ran from this time on, for so many microseconds.
    pub fn covers(&self, host: IpAddr, start: u64, span: u64) -> bool
        ensures { MatchBool result (Covers self.now host start span)
            (Covers self.now host start span → ⊥) }
    {
        for capture in &self.all {
            if capture.covers(host, start, span) {
                return true;
            }
        }
        false
    }

    /// Whether a capture at the host lets refusals through.
    pub fn shows_refusals(&self, host: IpAddr) -> bool {
        self.all
            .iter()
            .any(|capture| capture.has_refusals && capture.is_at(host))
    }
}

/// When a capture has a packet.
#[derive(Clone, Copy, PartialEq, Eq)]
pub struct Sighting {
    /// The number of the capture.
    pub capture: usize,
    /// In microseconds by its clock.
    pub time: u64,
}

/// When the captures have a packet, each at most once.
#[derive(Drop)]
pub struct Sightings {
    all: Vec<Sighting>,
}

impl Model for Sightings {
    ghost use Rattle.std.specs.Prelude.{List};
    ghost use Rattle.memberlist_probes.specs.declared.captures.Sighting.{Sighting};

    ghost Value = { List Sighting };

    ghost view = { λ s. s.all.items };
}

impl Sightings {
    /// None yet.
    pub fn new(alloc: Global) -> Sightings
        ensures { result ≡ [] }
    {
        Sightings {
            all: Vec::new(alloc),
        }
    }

    /// Adds one, unless the capture has the packet already.
    ///
    /// # Errors
    ///
    /// `AllocError` if out of memory.
    pub fn note(&mut self, sighting: Sighting) -> Result<(), AllocError>
        ensures ok { OnOk result (self.new ≡ (if has_capture self.old sighting.capture then self.old
            else self.old ++ sighting ∷ [])) }
        ensures err { OnErr result (self.new ≡ self.old) }
    {
        if !self.is_in(sighting.capture) {
            self.all.push(sighting)?;
        }
        Ok(())
    }

    /// Whether the capture with this number has it.
    pub fn is_in(&self, capture: usize) -> bool
        ensures { result ≡ has_capture self.now capture }
    {
        self.all.iter().any(|seen| seen.capture == capture)
    }

    /// When the capture with this number has it.
    pub fn in_capture(&self, capture: usize) -> Option<u64>
        ensures { MatchOption result (All (λ seen. seen.capture ≡ capture → ⊥) self.now)
            (λ time. (seen : Sighting) × Contains self.now seen
            × (seen.capture ≡ capture) × (seen.time ≡ time)) }
    {
        for seen in &self.all {
            if seen.capture == capture {
                return Some(seen.time);
            }
        }
        None
    }

    /// The first of them, in the order in which they were added.
    pub fn first(&self) -> Option<Sighting>
        ensures { result ≡ slice_get self.now 0 }
    {
        self.all.first().copied()
    }

    /// All of them.
    pub fn as_slice(&self) -> &[Sighting]
        ensures { result.now ≡ self.now }
    {
        &self.all
    }

    /// When it was seen at the host, by the first capture there that has it.
    pub fn at(&self, captures: &Captures, host: IpAddr) -> Option<u64>
        ensures { IsSeenAt captures.now host self.now result }
    {
        for seen in &self.all {
            if captures.is_at(seen.capture, host) {
                return Some(seen.time);
            }
        }
        None
    }

    /// When it came to the host: when it was seen there, or, if no capture was running there, when it
    /// was first seen.
    pub fn came_to(&self, captures: &Captures, host: IpAddr) -> Option<u64>
        ensures { MatchOption result ((first : Sighting) → slice_get self.now 0 ≡ Some first
            → WasNotSeen captures.now host self.now × Covers captures.now host first.time 0)
            (λ time. WasSeen captures.now host self.now time
            ⊎ (WasNotSeen captures.now host self.now × (first : Sighting)
            × (slice_get self.now 0 ≡ Some first) × (first.time ≡ time)
            × (Covers captures.now host first.time 0 → ⊥))) }
    {
        let first = self.first()?.time;
        match self.at(captures, host) {
            None if captures.covers(host, first, 0) => None,
            None => Some(first),
            Some(time) => Some(time),
        }
    }
}
