//! Probes (`probe`, `probeNode` in state.go).

ghost use Rattle.std.specs.Prelude.{◌≡◌, ◌<◌, ◌≤◌, IfOk, IfSome, List, true};
ghost use Rattle.std.specs.List.{Contains};
ghost use Rattle.swim_claim.specs.declared.claim.Claim.TheVariants.{Suspect};
ghost use Rattle.memberlist_member.specs.Claims.{packet_of};
ghost use Rattle.memberlist_member.specs.Saying.{said_of};
ghost use Rattle.memberlist_member.specs.Staying.{Adds, BeginsInTime, BeginsNoProbe, HasNoProbe};
ghost use Rattle.memberlist_member.specs.Staying.{KeepsAnswered, Stays, StaysButProbe, unless_silent};
ghost use Rattle.memberlist_member.specs.Showing.{KeepsLines, GoesBy, GoesOn, IsUnanswered};
ghost use Rattle.memberlist_view.specs.declared.heard.Said.{Said};

use crate::claims;
use crate::config::micros;
use crate::member::Member;
use crate::member::hearing::copy_of;
use crate::output::Output;
use crate::place::place_of;
use crate::probe::Probe;
use memberlist_view::{Entry, MemberName, State, View};
use rand_core::Rng;
use std::alloc::AllocError;
use std::net::SocketAddr;
use swim_wire::{Packet, encode_packet};

impl Member {
    /// Probes the next member, unless a probe runs.
    pub(crate) fn begin_probe<R: Rng>(&mut self, rng: &mut R) -> Result<(), AllocError>
        ensures adds { Adds (unless_silent self.old.settings 1) 0 0 self.old self.new }
        ensures stays { StaysButProbe self.old self.new }
        ensures probes { BeginsInTime self.old self.new }
        ensures goes { GoesOn self.old self.new }
        ensures lines { KeepsLines self.old self.new }
    {
        if self.probe.is_some() || self.own.is_leaving || self.config().is_silent {
            return Ok(());
        }
        match self.next_to_probe(rng)? {
            Some(name) => self.probe_member(name, rng),
            None => Ok(()),
        }
    }

    /// The next member that is neither this one nor gone; none if there is none in two rounds.
    fn next_to_probe<R: Rng>(&mut self, rng: &mut R) -> Result<Option<MemberName>, AllocError>
        ensures adds { Adds 0 0 0 self.old self.new }
        ensures stays { Stays self.old self.new }
        ensures goes { GoesOn self.old self.new }
        ensures lines { KeepsLines self.old self.new }
    {
        if let Some(name) = self.next_in_round()? {
            return Ok(Some(name));
        }
        self.begin_round(rng)?;
        if let Some(name) = self.next_in_round()? {
            return Ok(Some(name));
        }
        self.begin_round(rng)?;
        Ok(None)
    }

    /// The next one until the end of the round.
    fn next_in_round(&mut self) -> Result<Option<MemberName>, AllocError>
        ensures adds { Adds 0 0 0 self.old self.new }
        ensures stays { Stays self.old self.new }
        ensures goes { GoesOn self.old self.new }
        ensures lines { KeepsLines self.old self.new }
    {
        for _ in 0..self.rounds.len() {
            let Some(name) = self.rounds.next() else {
                break;
            };
            if is_here(&self.view, name, &self.own.name) {
                return Ok(Some(copy_of(self.alloc, name)?));
            }
        }
        Ok(None)
    }

    /// Begins another round, and forgets who has been gone for long (`resetNodes`).
    fn begin_round<R: Rng>(&mut self, rng: &mut R) -> Result<(), AllocError>
        ensures adds { Adds 0 0 0 self.old self.new }
        ensures stays { Stays self.old self.new }
        ensures goes { GoesOn self.old self.new }
        ensures lines { KeepsLines self.old self.new }
    {
        let count = self.view.forget(self.time);
        self.rounds.begin(&self.view, rng);
        if count == 0 {
            return Ok(());
        }
        self.put(Output::Forgotten { count })
    }

    /// Begins to probe this member.
    fn probe_member<R: Rng>(&mut self, name: MemberName, rng: &mut R) -> Result<(), AllocError>
        ensures adds { Adds 1 0 0 self.old self.new }
        ensures stays { StaysButProbe self.old self.new }
        ensures probes { BeginsInTime self.old self.new }
        ensures goes { GoesOn self.old self.new }
        ensures lines { KeepsLines self.old self.new }
    {
        let Some(entry) = self.view.get(&name) else {
            return Ok(());
        };
        let inc = entry.inc;
        let is_suspect = matches!(entry.state, State::Suspect { .. });
        let Some(place) = place_in(entry) else {
            return Ok(());
        };
        let seq = self.next_seq();
        let ping = self.ping(seq, name.name().bytes())?;
        if is_suspect {
            return self.probe_suspect(seq, name, inc, place, ping, rng);
        }
        self.set_probe(seq, name, inc);
        self.send_with_news(place, ping, rng)
    }

    /// Begins to probe a member that is suspected, by this ping.
    fn probe_suspect<R: Rng>(
        &mut self,
        seq: u32,
        name: MemberName,
        inc: u32,
        place: SocketAddr,
        ping: Vec<u8>,
        rng: &mut R,
    ) -> Result<(), AllocError>
        ensures adds { Adds 1 0 0 self.old self.new }
        ensures stays { StaysButProbe self.old self.new }
        ensures probes { BeginsInTime self.old self.new }
        ensures goes { GoesOn self.old self.new }
        ensures lines { KeepsLines self.old self.new }
    {
        let packet = self.suspicion_of(&name, inc)?;
        self.set_probe(seq, name, inc);
        self.send_warning(place, ping, &packet, rng)
    }

    /// Waits for the answer to a ping with this number from now on.
    fn set_probe(&mut self, seq: u32, name: MemberName, inc: u32)
        ensures adds { Adds 0 0 0 self.old self.new }
        ensures stays { StaysButProbe self.old self.new }
        ensures probes { BeginsInTime self.old self.new }
        ensures goes { GoesOn self.old self.new }
        ensures lines { KeepsLines self.old self.new }
    {
        self.probe = Some(Probe {
            seq,
            name,
            inc,
            ask_at: Some(
                self.time
                    .saturating_add(micros(self.config().probe_timeout)),
            ),
            due: self.time.saturating_add(
                self.health
                    .scaled(self.config().probe_interval)
                    .saturating_mul(1000),
            ),
            expected: 0,
            nacks: 0,
            conn: None,
        });
    }

    /// Where a member is, if it is known.
    pub(crate) fn place_of(&self, name: &MemberName) -> Option<SocketAddr> {
        place_in(self.view.get(name)?)
    }

    /// Its own suspicion of a member.
    fn suspicion_of(&self, name: &MemberName, inc: u32) -> Result<Packet, AllocError>
        ensures { IfOk result (λ packet.
            packet ≡ packet_of (Suspect name.now inc) self.now.own.name) }
    {
        let copy = name.name().try_clone(self.alloc)?;
        claims::suspect(self.alloc, copy, inc, self.own.name.name())
    }

    /// Sends a ping to a member that is suspected, and tells it so, so that it can refute at once.
    fn send_warning<R: Rng>(
        &mut self,
        to: SocketAddr,
        ping: Vec<u8>,
        packet: &Packet,
        rng: &mut R,
    ) -> Result<(), AllocError>
        ensures adds { Adds 1 0 0 self.old self.new }
        ensures stays { Stays self.old self.new }
        ensures goes { GoesOn self.old self.new }
        ensures lines { KeepsLines self.old self.new }
    {
        let warning = encode_packet(self.alloc, packet)?;
        let room = self.room();
        if room < ping.len() {
            return Ok(());
        }
        let fits = 6 + ping.len() + warning.len() <= room;
        let mut parts = Vec::new(self.alloc);
        parts.push(ping)?;
        if fits {
            parts.push(warning)?;
        }
        self.send(to, parts, rng)
    }

    /// Goes on with the probe: asks others if there was no answer yet, and ends it in time. A
    /// silent member has none.
    pub(crate) fn go_on_probing<R: Rng>(&mut self, rng: &mut R) -> Result<(), AllocError>
        ensures adds { Adds (unless_silent self.old.settings self.old.settings.indirect_checks)
            (unless_silent self.old.settings 1) 0 self.old self.new }
        ensures stays { StaysButProbe self.old self.new }
        ensures probes { BeginsNoProbe self.old self.new }
        ensures goes { (told : List Said)
            → ((said : Said) → IsUnanswered self.old.time self.old said → Contains told said)
            → GoesBy told self.old self.new }
        ensures lines { KeepsLines self.old self.new }
    {
        if self.config().is_silent {
            return Ok(());
        }
        let Some(probe) = &mut self.probe else {
            return Ok(());
        };
        if probe.due <= self.time {
            return self.end_probe(rng);
        }
        match probe.ask_at {
            Some(ask_at) if ask_at <= self.time => {
                probe.ask_at = None;
                self.ask_others(rng)
            }
            _ => Ok(()),
        }
    }

    /// Ends the probe if this ack answers it.
    pub(crate) fn answer_probe(&mut self, seq: u32) -> Result<(), AllocError>
        ensures adds { Adds 0 0 0 self.old self.new }
        ensures answered { HasNoProbe seq self.new }
        ensures keeps { KeepsAnswered self.old self.new }
        ensures stays { StaysButProbe self.old self.new }
        ensures goes { GoesOn self.old self.new }
        ensures probes { BeginsNoProbe self.old self.new }
        ensures lines { KeepsLines self.old self.new }
    {
        let Some(probe) = &self.probe else {
            return Ok(());
        };
        if !probe.is_answered_by(seq, self.time) {
            return Ok(());
        }
        let conn = probe.conn;
        self.probe = None;
        self.health.improve();
        match conn {
            Some(conn) => self.hang_up(conn),
            None => Ok(()),
        }
    }

    /// Notes that a member that was asked got no answer.
    pub(crate) fn take_nack(&mut self, seq: u32)
        ensures adds { Adds 0 0 0 self.old self.new }
        ensures keeps { KeepsAnswered self.old self.new }
        ensures stays { StaysButProbe self.old self.new }
        ensures probes { BeginsNoProbe self.old self.new }
        ensures goes { GoesOn self.old self.new }
        ensures lines { KeepsLines self.old self.new }
    {
        if let Some(probe) = &mut self.probe {
            probe.take_nack(seq);
        }
    }

    /// Ends the probe, whose time is over, without an answer: the member is suspected.
    fn end_probe<R: Rng>(&mut self, rng: &mut R) -> Result<(), AllocError>
        requires over { IfSome self.old.probe (λ probe. probe.due ≤ self.old.time) }
        ensures adds { Adds 0 0 0 self.old self.new }
        ensures stays { StaysButProbe self.old self.new }
        ensures probes { BeginsNoProbe self.old self.new }
        ensures goes { (told : List Said)
            → ((said : Said) → IsUnanswered self.old.time self.old said → Contains told said)
            → GoesBy told self.old self.new }
        ensures lines { KeepsLines self.old self.new }
    {
        let Some(probe) = self.probe.take() else {
            return Ok(());
        };
        self.health.worsen(probe.penalty());
        self.suspect_probed(&probe, rng)
    }

    /// Suspects the member that did not answer this probe.
    fn suspect_probed<R: Rng>(&mut self, probe: &Probe, rng: &mut R) -> Result<(), AllocError>
        ensures adds { Adds 0 0 0 self.old self.new }
        ensures stays { Stays self.old self.new }
        ensures goes { (told : List Said) → Contains told (said_of (packet_of
            (Suspect probe.now.name probe.now.inc) self.old.own.name) true)
            → GoesBy told self.old self.new }
        ensures lines { KeepsLines self.old self.new }
    {
        self.show_unanswered(probe)?;
        let packet = self.suspicion_of(&probe.name, probe.inc)?;
        self.hear(&packet, true, rng)
    }

    /// Closes the connection of a probe that was not answered, and says so.
    fn show_unanswered(&mut self, probe: &Probe) -> Result<(), AllocError>
        ensures adds { Adds 0 0 0 self.old self.new }
        ensures stays { Stays self.old self.new }
        ensures goes { GoesOn self.old self.new }
        ensures lines { KeepsLines self.old self.new }
    {
        if let Some(conn) = probe.conn {
            self.hang_up(conn)?;
        }
        self.put(Output::Unanswered {
            name: copy_of(self.alloc, &probe.name)?,
            seq: probe.seq,
            expected: probe.expected,
            nacks: probe.nacks,
        })
    }
}

/// Whether this is another member, and neither dead nor left.
pub(crate) fn is_here(view: &View, name: &MemberName, own: &MemberName) -> bool {
    let Some(entry) = view.get(name) else {
        return false;
    };
    match entry.state {
        State::Alive | State::Suspect { .. } => *name != *own,
        State::Noted | State::Seen | State::Dead { .. } | State::Left => false,
    }
}

/// Where a member is.
pub(crate) fn place_in(entry: &Entry) -> Option<SocketAddr> {
    match &entry.details {
        Some(details) => place_of(details),
        None => None,
    }
}
