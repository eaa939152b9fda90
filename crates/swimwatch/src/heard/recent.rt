//! Packets that a capture of several interfaces has twice.

ghost use Rattle.std.specs.Prelude.{◌≡◌, ◌++◌, ◌∷◌, [], List, true, IfOk, OnOk};
ghost use Rattle.std.specs.List.{list_any};
ghost use Rattle.std.specs.VecDeque.{deque_items};
ghost use Rattle.swimwatch.specs.Ways.{PacketText, packet_text, packet_of, cooked_of, way_of, is_unknown, is_again, CameBefore, AreKept};

use crate::heard::sent::Sent;
use byteorder::{BigEndian, ByteOrder};
use capture::Link;
use std::alloc::{AllocError, Global};
use std::collections::VecDeque;

/// How long after a packet it may be seen on another interface, in microseconds. A member sends no
/// packet twice in that time: it gossips every 200 milliseconds (`config.go`).
const LAG: u64 = 5000;

/// The most packets that are kept.
const MAX_KEPT: usize = 64;

/// On which interface and in which direction a frame was captured, as far as the capture says so.
#[derive(Clone, Copy, PartialEq, Eq)]
pub(crate) struct Way {
    /// The number of the interface in a pcapng file.
    interface: Option<u32>,
    /// Of Linux cooked, the interface's index (version 2) and the packet type.
    cooked: Option<(u32, u8)>,
}

impl Way {
    /// The way of a frame with these bytes.
    pub(crate) fn of(interface: Option<u32>, link: Link, bytes: &[u8]) -> Way
        ensures { result ≡ way_of interface link bytes.now }
    {
        Way {
            interface,
            cooked: cooked_of(link, bytes),
        }
    }

    /// Whether the capture does not say it.
    fn is_unknown(self) -> bool
        ensures { result ≡ is_unknown self }
    {
        self.interface.is_none() && self.cooked.is_none()
    }
}

/// The interface's index and the packet type of a frame of Linux cooked.
fn cooked_of(link: Link, bytes: &[u8]) -> Option<(u32, u8)>
    ensures { result ≡ cooked_of link bytes.now }
{
    match link {
        Link::Cooked if bytes.len() >= 2 => Some((0, bytes[1])),
        Link::Cooked2 if bytes.len() >= 11 => {
            Some((BigEndian::read_u32(&bytes[4..8]), bytes[10]))
        }
        _ => None,
    }
}

/// A packet that was captured.
#[derive(Drop)]
struct Packet {
    sent: Sent,
    way: Way,
    /// The sequence number of a segment, and 0 of a datagram.
    seq: u32,
    payload: Vec<u8>,
}

impl Packet {
    /// A packet with a copy of its payload.
    fn copied(
        alloc: Global,
        sent: &Sent,
        way: Way,
        seq: u32,
        payload: &[u8],
    ) -> Result<Packet, AllocError>
        ensures { IfOk result (λ packet.
            packet_text packet ≡ packet_of sent.now way seq payload.now) }
    {
        Ok(Packet {
            sent: *sent,
            way,
            seq,
            payload: payload.to_vec(alloc)?,
        })
    }

    /// Whether the packet with these is this one, captured on another way a few milliseconds later.
    fn is_again(&self, sent: &Sent, way: Way, seq: u32, payload: &[u8]) -> bool
        ensures { result
            ≡ is_again (packet_text self.now) (packet_of sent.now way seq payload.now) }
    {
        self.way != way
            && self.seq == seq
            && sent.time.saturating_sub(self.sent.time) <= LAG
            && self.sent.proto == sent.proto
            && self.sent.source == sent.source
            && self.sent.destination == sent.destination
            && self.payload.as_slice() == payload
    }
}

/// The last packets of a capture of several interfaces.
#[derive(Drop)]
pub(crate) struct Recent {
    alloc: Global,
    packets: VecDeque<Packet>,
}

impl Recent {
    /// No packets.
    pub(crate) fn new(alloc: Global) -> Recent
        ensures { deque_items result.packets ≡ [] }
    {
        Recent {
            alloc,
            packets: VecDeque::new(alloc),
        }
    }

    /// Whether the packet was captured on another way a few milliseconds ago. If not, it is kept.
    /// What has no payload, or an unknown way, is not compared.
    pub(crate) fn has(
        &mut self,
        sent: &Sent,
        way: Way,
        seq: u32,
        payload: &[u8],
    ) -> Result<bool, AllocError>
        ensures again { (past : List PacketText) → AreKept past self.old → IfOk result (λ again.
            again ≡ true → CameBefore past (packet_of sent.now way seq payload.now)) }
        ensures kept { (past : List PacketText) → AreKept past self.old → OnOk result
            (AreKept (past ++ packet_of sent.now way seq payload.now ∷ []) self.new) }
    {
        if way.is_unknown() || payload.is_empty() {
            return Ok(false);
        }
        let (first, last) = self.packets.as_slices();
        if is_among(first, sent, way, seq, payload) || is_among(last, sent, way, seq, payload) {
            return Ok(true);
        }
        self.keep(Packet::copied(self.alloc, sent, way, seq, payload)?)?;
        Ok(false)
    }

    /// Keeps a packet, and drops the oldest one if there are too many.
    fn keep(&mut self, packet: Packet) -> Result<(), AllocError>
        ensures { (past : List PacketText) → AreKept past self.old → OnOk result
            (AreKept (past ++ packet_text packet ∷ []) self.new) }
    {
        if self.packets.len() >= MAX_KEPT {
            let _ = self.packets.pop_front();
        }
        self.packets.push_back(packet)?;
        Ok(())
    }
}

/// Whether the packet with these is one of those, captured again on another way.
fn is_among(packets: &[Packet], sent: &Sent, way: Way, seq: u32, payload: &[u8]) -> bool
    ensures { result ≡ list_any (λ old.
        is_again (packet_text old) (packet_of sent.now way seq payload.now)) packets.now }
{
    packets
        .iter()
        .any(|old| old.is_again(sent, way, seq, payload))
}
