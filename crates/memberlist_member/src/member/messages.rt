//! Pings and their answers.

ghost use Rattle.std.specs.Prelude.{◌<◌, ◌≤◌, ◌^◌, IfOk, OnOk, length};
ghost use Rattle.memberlist_member.specs.Staying.{Adds, BeginsNoProbe, HasNoProbe, KeepsAnswered};
ghost use Rattle.memberlist_member.specs.Staying.{Stays, StaysButProbe};
ghost use Rattle.memberlist_member.specs.Showing.{KeepsLines, GoesOn};

use crate::config::micros;
use crate::member::Member;
use crate::output::Output;
use crate::place::ip_of;
use crate::relays::Relay;
use memberlist_message::{Ack, IndirectPing, Nack, Ping, encode_ack, encode_nack, encode_ping};
use rand_core::Rng;
use std::alloc::AllocError;
use std::net::SocketAddr;

/// The most bytes of a name.
const MAX_NAME: usize = 1024;

impl Member {
    /// Answers a ping that is for this member (`handlePing`).
    pub(crate) fn answer_ping<R: Rng>(
        &mut self,
        from: SocketAddr,
        ping: &Ping,
        rng: &mut R,
    ) -> Result<(), AllocError>
        ensures adds { Adds 1 0 0 self.old self.new }
        ensures stays { Stays self.old self.new }
        ensures goes { GoesOn self.old self.new }
        ensures lines { KeepsLines self.old self.new }
    {
        if !self.is_own(&ping.node) {
            return Ok(());
        }
        let to = source(from, &ping.source_addr, ping.source_port);
        self.send_ack(to, ping.seq_no, rng)
    }

    /// Whether this name, if it is one, is its own.
    pub(crate) fn is_own(&self, name: &[u8]) -> bool {
        name.is_empty() || *name == *self.own.name.name().bytes()
    }

    fn send_ack<R: Rng>(
        &mut self,
        to: SocketAddr,
        seq_no: u32,
        rng: &mut R,
    ) -> Result<(), AllocError>
        ensures adds { Adds 1 0 0 self.old self.new }
        ensures stays { Stays self.old self.new }
        ensures goes { GoesOn self.old self.new }
        ensures lines { KeepsLines self.old self.new }
    {
        let message = self.ack(seq_no)?;
        self.send_with_news(to, message, rng)
    }

    /// The bytes of an ack.
    pub(crate) fn ack(&self, seq_no: u32) -> Result<Vec<u8>, AllocError> {
        let payload = Vec::new(self.alloc);
        encode_ack(self.alloc, &Ack { seq_no, payload })
    }

    /// Pings a member for another one (`handleIndirectPing`).
    pub(crate) fn relay_ping<R: Rng>(
        &mut self,
        from: SocketAddr,
        ping: &IndirectPing,
        rng: &mut R,
    ) -> Result<(), AllocError>
        ensures adds { Adds 1 0 0 self.old self.new }
        ensures stays { Stays self.old self.new }
        ensures goes { GoesOn self.old self.new }
        ensures lines { KeepsLines self.old self.new }
    {
        let Some(ip) = ip_of(&ping.target) else {
            self.refuse();
            return Ok(());
        };
        if MAX_NAME < ping.node.len() {
            self.refuse();
            return Ok(());
        }
        let seq = self.next_seq();
        let due = self
            .time
            .saturating_add(micros(self.config().probe_timeout));
        self.relays.add(Relay {
            seq,
            asker: source(from, &ping.source_addr, ping.source_port),
            asked: ping.seq_no,
            due,
            wants_nack: ping.nack,
        })?;
        let message = self.ping(seq, &ping.node)?;
        self.send_with_news(SocketAddr::new(ip, ping.port), message, rng)
    }

    /// The bytes of a ping of the member with this name. Names that would not fit a datagram are left
    /// out: first its own, then that of the member.
    pub(crate) fn ping(&self, seq_no: u32, name: &[u8]) -> Result<Vec<u8>, AllocError>
        requires { length name.now < 2 ^ 16 }
    {
        let whole = self.ping_with(seq_no, name, self.own.name.name().bytes())?;
        if whole.len() <= self.room() {
            return Ok(whole);
        }
        let shorter = self.ping_with(seq_no, name, &[])?;
        if shorter.len() <= self.room() {
            return Ok(shorter);
        }
        self.ping_with(seq_no, &[], &[])
    }

    fn ping_with(&self, seq_no: u32, name: &[u8], own: &[u8]) -> Result<Vec<u8>, AllocError>
        requires name { length name.now < 2 ^ 16 }
        requires own { length own.now < 2 ^ 16 }
    {
        let ping = Ping {
            seq_no,
            node: name.to_vec(self.alloc)?,
            source_addr: self.own.details.addr().to_vec(self.alloc)?,
            source_port: self.own.details.port(),
            source_node: own.to_vec(self.alloc)?,
        };
        encode_ping(self.alloc, &ping)
    }

    /// Takes in an ack: it answers the ping of a probe, or one for another member, which is told.
    pub(crate) fn take_ack<R: Rng>(&mut self, seq: u32, rng: &mut R) -> Result<(), AllocError>
        ensures adds { Adds 1 0 0 self.old self.new }
        ensures answered { OnOk result (HasNoProbe seq self.new) }
        ensures keeps { KeepsAnswered self.old self.new }
        ensures stays { StaysButProbe self.old self.new }
        ensures probes { BeginsNoProbe self.old self.new }
        ensures goes { GoesOn self.old self.new }
        ensures lines { KeepsLines self.old self.new }
    {
        self.answer_asker(seq, rng)?;
        self.answer_probe(seq)
    }

    /// Tells the one that asked for the ping with this number that an answer came, if it is in time.
    fn answer_asker<R: Rng>(&mut self, seq: u32, rng: &mut R) -> Result<(), AllocError>
        ensures adds { Adds 1 0 0 self.old self.new }
        ensures stays { Stays self.old self.new }
        ensures goes { GoesOn self.old self.new }
        ensures lines { KeepsLines self.old self.new }
    {
        let Some(relay) = self.relays.take(seq) else {
            return Ok(());
        };
        if relay.due < self.time {
            return Ok(());
        }
        self.send_ack(relay.asker, relay.asked, rng)
    }

    /// Tells those who asked that no answer came.
    pub(crate) fn end_relays<R: Rng>(&mut self, rng: &mut R) -> Result<(), AllocError>
        ensures adds { Adds (length self.old.relays.waiting.items) 0 0 self.old self.new }
        ensures stays { Stays self.old self.new }
        ensures goes { GoesOn self.old self.new }
        ensures lines { KeepsLines self.old self.new }
    {
        for _ in 0..self.relays.len() {
            let Some(relay) = self.relays.take_due(self.time) else {
                break;
            };
            self.end_relay(relay, rng)?;
        }
        Ok(())
    }

    /// Tells the one that asked that no answer came, if it wants to know.
    fn end_relay<R: Rng>(&mut self, relay: Relay, rng: &mut R) -> Result<(), AllocError>
        ensures adds { Adds 1 0 0 self.old self.new }
        ensures stays { Stays self.old self.new }
        ensures goes { GoesOn self.old self.new }
        ensures lines { KeepsLines self.old self.new }
    {
        if !relay.wants_nack {
            return Ok(());
        }
        let message = encode_nack(
            self.alloc,
            &Nack {
                seq_no: relay.asked,
            },
        )?;
        self.send_with_news(relay.asker, message, rng)
    }

    /// Puts out a message of another program.
    pub(crate) fn take_user_message(&mut self, bytes: Vec<u8>) -> Result<(), AllocError>
        ensures adds { Adds 0 0 0 self.old self.new }
        ensures stays { Stays self.old self.new }
        ensures goes { GoesOn self.old self.new }
        ensures lines { KeepsLines self.old self.new }
    {
        self.put(Output::User { bytes })
    }

    /// The bytes of its own address.
    pub(crate) fn own_addr(&self) -> Result<Vec<u8>, AllocError>
        ensures { IfOk result (λ bytes. length bytes.items ≤ 16) }
    {
        self.own.details.addr().to_vec(self.alloc)
    }
}

/// Where an answer goes: to the place that the message names, or to where it came from.
fn source(from: SocketAddr, addr: &[u8], port: u16) -> SocketAddr {
    if port == 0 {
        return from;
    }
    match ip_of(addr) {
        Some(ip) => SocketAddr::new(ip, port),
        None => from,
    }
}
