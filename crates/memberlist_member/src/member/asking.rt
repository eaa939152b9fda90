//! How others are asked to ping the member that is probed.

ghost use Rattle.std.specs.Prelude.{◌<◌, ◌^◌, length};
ghost use Rattle.memberlist_member.specs.Staying.{Adds, BeginsNoProbe};
ghost use Rattle.memberlist_member.specs.Staying.{StaysButProbe};
ghost use Rattle.memberlist_member.specs.Showing.{KeepsLines, GoesOn};

use crate::connections::Purpose;
use crate::member::Member;
use crate::member::gossiping::Among;
use crate::member::hearing::copy_of;
use crate::member::probing::place_in;
use memberlist_message::{IndirectPing, encode_indirect_ping};
use memberlist_view::{Entry, MemberName};
use rand_core::Rng;
use std::alloc::AllocError;
use std::net::SocketAddr;

/// From this version of the protocol on a member that is asked to ping another one says so if it
/// gets no answer; and one is asked over TCP too.
const HAS_NACK: u8 = 4;

const HAS_TCP_PING: u8 = 3;

impl Member {
    /// Asks other members to ping the one that is probed, and asks itself over TCP.
    pub(crate) fn ask_others<R: Rng>(&mut self, rng: &mut R) -> Result<(), AllocError>
        ensures adds { Adds self.old.settings.indirect_checks 1 0 self.old self.new }
        ensures stays { StaysButProbe self.old self.new }
        ensures probes { BeginsNoProbe self.old self.new }
        ensures goes { GoesOn self.old self.new }
        ensures lines { KeepsLines self.old self.new }
    {
        let Some(probe) = &self.probe else {
            return Ok(());
        };
        let name = copy_of(self.alloc, &probe.name)?;
        let seq = probe.seq;
        self.ask_about(seq, &name, rng)
    }

    /// Asks other members, and over TCP, for this one.
    fn ask_about<R: Rng>(
        &mut self,
        seq: u32,
        name: &MemberName,
        rng: &mut R,
    ) -> Result<(), AllocError>
        ensures adds { Adds self.old.settings.indirect_checks 1 0 self.old self.new }
        ensures stays { StaysButProbe self.old self.new }
        ensures probes { BeginsNoProbe self.old self.new }
        ensures goes { GoesOn self.old self.new }
        ensures lines { KeepsLines self.old self.new }
    {
        let Some(entry) = self.view.get(name) else {
            return Ok(());
        };
        let Some(place) = place_in(entry) else {
            return Ok(());
        };
        let speaks_tcp = HAS_TCP_PING <= version_of(entry);
        self.ask_some(seq, name, place, rng)?;
        if !speaks_tcp {
            return Ok(());
        }
        self.ask_over_tcp(seq, name, place, rng)
    }

    /// Asks some members at random to ping this one.
    fn ask_some<R: Rng>(
        &mut self,
        seq: u32,
        name: &MemberName,
        place: SocketAddr,
        rng: &mut R,
    ) -> Result<(), AllocError>
        ensures adds { Adds self.old.settings.indirect_checks 0 0 self.old self.new }
        ensures stays { StaysButProbe self.old self.new }
        ensures probes { BeginsNoProbe self.old self.new }
        ensures goes { GoesOn self.old self.new }
        ensures lines { KeepsLines self.old self.new }
    {
        let count = self.config().indirect_checks as usize;
        let peers = self.some_members(count, Some(name), Among::Alive, rng)?;
        for peer in &peers {
            self.ask(peer, seq, name, place, rng)?;
        }
        Ok(())
    }

    /// Asks this member to ping the one that is probed.
    fn ask<R: Rng>(
        &mut self,
        peer: &MemberName,
        seq_no: u32,
        name: &MemberName,
        place: SocketAddr,
        rng: &mut R,
    ) -> Result<(), AllocError>
        ensures adds { Adds 1 0 0 self.old self.new }
        ensures stays { StaysButProbe self.old self.new }
        ensures probes { BeginsNoProbe self.old self.new }
        ensures goes { GoesOn self.old self.new }
        ensures lines { KeepsLines self.old self.new }
    {
        let Some(entry) = self.view.get(peer) else {
            return Ok(());
        };
        let nack = HAS_NACK <= version_of(entry);
        let Some(to) = place_in(entry) else {
            return Ok(());
        };
        self.note_asked(nack);
        let message = self.indirect_ping(seq_no, name.name().bytes(), place, nack)?;
        self.send_with_news(to, message, rng)
    }

    /// Notes that a member was asked, and whether it says so if it gets no answer.
    fn note_asked(&mut self, nack: bool)
        ensures adds { Adds 0 0 0 self.old self.new }
        ensures stays { StaysButProbe self.old self.new }
        ensures probes { BeginsNoProbe self.old self.new }
        ensures goes { GoesOn self.old self.new }
        ensures lines { KeepsLines self.old self.new }
    {
        if !nack {
            return;
        }
        if let Some(probe) = &mut self.probe {
            probe.expected = probe.expected.saturating_add(1);
        }
    }

    /// The bytes of an indirect ping; names that would not fit are left out, as in a ping.
    fn indirect_ping(
        &self,
        seq_no: u32,
        name: &[u8],
        place: SocketAddr,
        nack: bool,
    ) -> Result<Vec<u8>, AllocError>
        requires { length name.now < 2 ^ 16 }
    {
        let own = self.own.name.name().bytes();
        let whole = self.indirect_ping_with(seq_no, name, place, nack, own)?;
        if whole.len() <= self.room() {
            return Ok(whole);
        }
        let shorter = self.indirect_ping_with(seq_no, name, place, nack, &[])?;
        if shorter.len() <= self.room() {
            return Ok(shorter);
        }
        self.indirect_ping_with(seq_no, &[], place, nack, &[])
    }

    fn indirect_ping_with(
        &self,
        seq_no: u32,
        name: &[u8],
        place: SocketAddr,
        nack: bool,
        own: &[u8],
    ) -> Result<Vec<u8>, AllocError>
        requires name { length name.now < 2 ^ 16 }
        requires own { length own.now < 2 ^ 16 }
    {
        let ping = IndirectPing {
            seq_no,
            target: crate::place::bytes_of(self.alloc, &place)?,
            port: place.port(),
            node: name.to_vec(self.alloc)?,
            nack,
            source_addr: self.own_addr()?,
            source_port: self.own.details.port(),
            source_node: own.to_vec(self.alloc)?,
        };
        encode_indirect_ping(self.alloc, &ping)
    }

    /// Pings the member that is probed over a connection (`sendPingAndWaitForAck`).
    fn ask_over_tcp<R: Rng>(
        &mut self,
        seq: u32,
        name: &MemberName,
        place: SocketAddr,
        rng: &mut R,
    ) -> Result<(), AllocError>
        ensures adds { Adds 0 1 0 self.old self.new }
        ensures stays { StaysButProbe self.old self.new }
        ensures probes { BeginsNoProbe self.old self.new }
        ensures goes { GoesOn self.old self.new }
        ensures lines { KeepsLines self.old self.new }
    {
        let message = self.ping(seq, name.name().bytes())?;
        let due = match &self.probe {
            Some(probe) => probe.due,
            None => self.time,
        };
        let conn = self.dial(place, Purpose::Ping { seq }, message, due, rng)?;
        if let Some(probe) = &mut self.probe {
            probe.conn = conn;
        }
        Ok(())
    }
}

/// The greatest version of the protocol that a member speaks.
fn version_of(entry: &Entry) -> u8 {
    let Some(details) = &entry.details else {
        return 0;
    };
    match details.vsn() {
        [_, greatest, ..] => *greatest,
        _ => 0,
    }
}
