//! Packets: one claim each.

ghost use Rattle.std.specs.Prelude.{◌≡◌, ◌≢◌, Err, IfOk, IfErr, IsErrOf};
ghost use Rattle.swim_pack.specs.Composing.{ReadsAs, same, lift};
ghost use Rattle.swim_pack.specs.Reading.{next_byte};
ghost use Rattle.swim_wire.specs.Asking.{MapAsks, PacketAsks};
ghost use Rattle.swim_wire.specs.Checks.{ReasonForStart, ReasonForWhole};
ghost use Rattle.swim_wire.specs.Fault.{fault_of_pack};
ghost use Rattle.swim_wire.specs.Layout.{alive_layout, accusation_layout};
ghost use Rattle.swim_wire.specs.Packet.{PacketValue, IsLegalPacket};
ghost use Rattle.swim_wire.specs.Reading.{wire_cause, packet_at, alive_at, suspect_at, dead_at, whole_packet, AnswersUnlessMemory};
ghost use Rattle.swim_wire.specs.Texts.{PacketText};

use crate::WireFault;
use crate::claims::{packet_of_alive, packet_of_dead, packet_of_suspect};
use crate::in_order::packet_in_order;
use crate::layout::{ACCUSATION, ALIVE};
use crate::map::read_map;
use crate::message::{ALIVE_MESSAGE, Accusation, Alive, DEAD_MESSAGE, SUSPECT_MESSAGE};
use std::alloc::Global;
use std::marker::Model;
use swim_claim::Claim;
use swim_pack::{Inlet, SliceInlet};

/// A claim, and the member that makes it. Contracts see the packet as this pair.
#[derive(Drop)]
pub struct Packet {
    claim: Claim,
    from: Vec<u8>,
}

impl Model for Packet {
    ghost use Rattle.swim_wire.specs.Packet.{PacketValue, IsLegalPacket};

    ghost Value = { PacketValue };

    ghost view = { λ p. record { claim = p.claim; from = p.from.items } };

    ghost invariant = { λ p. IsLegalPacket p.claim p.from.items };
}

impl Packet {
    /// A packet of a claim made by the member `from`, of at most 1,024 bytes. `from` is empty for
    /// an Alive, which a member makes about itself, the claim's name for a Leave, and another name
    /// for a Confirm.
    pub fn new(claim: Claim, from: Vec<u8>) -> Packet
        requires { IsLegalPacket claim from.items }
        ensures { result ≡ record { claim = claim; from = from.items } }
    {
        Packet { claim, from }
    }

    pub fn claim(&self) -> &Claim
        ensures { result.now ≡ self.now.claim }
    {
        &self.claim
    }

    /// The name of the member that makes the claim, or empty for an Alive.
    pub fn from_name(&self) -> &[u8]
        ensures from { result.now ≡ self.now.from }
        ensures legal { IsLegalPacket self.now.claim self.now.from }
    {
        &self.from
    }

    pub fn into_claim(self) -> Claim
        ensures { result ≡ self.claim }
    {
        self.claim
    }
}

/// Reads a packet: its type byte, one map, and nothing after it (memberlist's `net.go`).
///
/// # Errors
///
/// The first of these that holds: `Ended` if there are no bytes; `WrongType` if the first is not 3,
/// 4 or 5; the faults of the map, as its count, its keys and values are read; for the whole,
/// `NameEmpty`, then `BadAddress` and `BadVersions` in an alive packet; `Trailing` if bytes follow.
/// `Memory` comes if an allocation failed, of at most the limit of a value, and never before the
/// length of a text or bytes is read.
pub fn decode_packet(alloc: Global, bytes: &[u8]) -> Result<Packet, WireFault>
    // The bytes are the packet.
    ensures reads { IfOk result (λ packet. PacketText bytes.now packet) }

    // If refused for a reason other than memory, the bytes are not a packet, and the refusal says
    // why. Memory is requested only after the length of a text or bytes, within its limit, was
    // read.
    ensures refuses { IfErr result (λ fault. fault ≢ WireFault.Memory
        → (p : PacketValue) → ¬ PacketText bytes.now p) }
    ensures reason { IfErr result (λ fault. ReasonForWhole fault bytes.now) }

    // The error is the one at which the reading stops. A slice never fails.
    ensures exact { IfErr result (λ fault. fault ≢ WireFault.Memory
        → whole_packet bytes.now ≡ Err fault) }
    ensures no_fault { ¬ IsErrOf result WireFault.Fault }
{
    decode_whole_packet(alloc, bytes)
}

pub(crate) fn decode_whole_packet(alloc: Global, bytes: &[u8]) -> Result<Packet, WireFault>
    ensures answers { AnswersUnlessMemory (whole_packet bytes.now) result }
    ensures no_fault { ¬ IsErrOf result WireFault.Fault }
    ensures memory { IsErrOf result WireFault.Memory → PacketAsks bytes.now }
{
    match packet_in_order(alloc, bytes) {
        Some(read) => read,
        None => decode_any_packet(alloc, bytes),
    }
}

/// The packet, whatever the encoding of its map.
pub(crate) fn decode_any_packet(alloc: Global, bytes: &[u8]) -> Result<Packet, WireFault>
    ensures answers { AnswersUnlessMemory (whole_packet bytes.now) result }
    ensures no_fault { ¬ IsErrOf result WireFault.Fault }
    ensures memory { IsErrOf result WireFault.Memory → PacketAsks bytes.now }
{
    let mut inlet = SliceInlet::new(bytes);
    let packet = read_packet(alloc, &mut inlet)?;
    if inlet.rest().is_empty() {
        Ok(packet)
    } else {
        Err(WireFault::Trailing)
    }
}

fn read_packet<I: Inlet>(alloc: Global, inlet: &mut I) -> Result<Packet, WireFault>
    ensures exact { ReadsAs wire_cause same packet_at
        (I.seen inlet.old) (I.seen inlet.new) result }
    ensures memory { IsErrOf result WireFault.Memory
        → ReasonForStart PacketAsks (I.seen inlet.old) }
{
    let found = read_type(inlet)?;
    match found {
        ALIVE_MESSAGE => read_alive(alloc, inlet),
        SUSPECT_MESSAGE => read_suspect(alloc, inlet),
        DEAD_MESSAGE => read_dead(alloc, inlet),
        _ => Err(WireFault::WrongType { found }),
    }
}

/// Reads the type byte of a message.
pub(crate) fn read_type<I: Inlet>(inlet: &mut I) -> Result<u8, WireFault>
    ensures no_memory { ¬ IsErrOf result WireFault.Memory }
    ensures exact { ReadsAs wire_cause same (lift fault_of_pack next_byte)
        (I.seen inlet.old) (I.seen inlet.new) result }
{
    let mut first = [0];
    inlet.pull(&mut first)?;
    Ok(first[0])
}

fn read_alive<I: Inlet>(alloc: Global, inlet: &mut I) -> Result<Packet, WireFault>
    ensures exact { ReadsAs wire_cause same alive_at (I.seen inlet.old) (I.seen inlet.new) result }
    ensures memory { IsErrOf result WireFault.Memory
        → ReasonForStart (MapAsks alive_layout) (I.seen inlet.old) }
{
    let values = read_map(Some(alloc), inlet, &ALIVE)?;
    packet_of_alive(alloc, &Alive::new(&values))
}

fn read_suspect<I: Inlet>(alloc: Global, inlet: &mut I) -> Result<Packet, WireFault>
    ensures exact { ReadsAs wire_cause same suspect_at
        (I.seen inlet.old) (I.seen inlet.new) result }
    ensures memory { IsErrOf result WireFault.Memory
        → ReasonForStart (MapAsks accusation_layout) (I.seen inlet.old) }
{
    let values = read_map(Some(alloc), inlet, &ACCUSATION)?;
    packet_of_suspect(alloc, &Accusation::new(&values))
}

fn read_dead<I: Inlet>(alloc: Global, inlet: &mut I) -> Result<Packet, WireFault>
    ensures exact { ReadsAs wire_cause same dead_at (I.seen inlet.old) (I.seen inlet.new) result }
    ensures memory { IsErrOf result WireFault.Memory
        → ReasonForStart (MapAsks accusation_layout) (I.seen inlet.old) }
{
    let values = read_map(Some(alloc), inlet, &ACCUSATION)?;
    packet_of_dead(alloc, &Accusation::new(&values))
}
