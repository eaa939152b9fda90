//! Datagrams: either one packet, or a compound packet of several.

ghost use Rattle.std.specs.Prelude.{◌≡◌, ◌≢◌, ◌↔◌, [], List, Err, IfOk, IfErr, OnErr, IsErrOf};
ghost use Rattle.swim_wire.specs.Asking.{PacketAsks, PartsAsk, CompoundAsks, DatagramAsks};
ghost use Rattle.swim_wire.specs.Checks.{BeginsWith};
ghost use Rattle.swim_wire.specs.Datagrams.{alone, packets_of, parts_at, compound_at, whole_datagram, ReasonForDatagram};
ghost use Rattle.swim_wire.specs.PacketList.{packets_in, claims_in, IsCompound};
ghost use Rattle.swim_wire.specs.Packet.{PacketValue};
ghost use Rattle.swim_wire.specs.Reading.{nothing_after, whole_packet};
ghost use Rattle.swim_wire.specs.Texts.{DatagramText};
ghost use Rattle.swim_wire.specs.Parts.{lengths_in, ListsUnlessMemory, GrowsBy};

use crate::WireFault;
use crate::message::{ALIVE_MESSAGE, COMPOUND_MESSAGE, DEAD_MESSAGE, SUSPECT_MESSAGE};
use crate::packet::{Packet, decode_whole_packet};
use std::alloc::{AllocError, Global};
use swim_claim::Claim;

/// What a datagram carries: a single packet, or the packets of a compound packet.
#[derive(Drop)]
pub enum Datagram {
    /// A single packet.
    Packet(Packet),
    /// The packets of a compound packet, in order. There may be none.
    Compound(Vec<Packet>),
}

impl Datagram {
    /// Reads a datagram as [`decode_datagram`] does, but tells a single packet from a compound
    /// packet. A single packet takes no memory for a list of packets.
    ///
    /// # Errors
    ///
    /// Those of [`decode_datagram`].
    pub fn decode(alloc: Global, bytes: &[u8]) -> Result<Datagram, WireFault>
        // The bytes are a datagram of the packets, and a compound packet starts with its type byte.
        ensures reads { IfOk result (λ datagram. DatagramText bytes.now (packets_in datagram)) }
        ensures compound { IfOk result (λ datagram. IsCompound datagram ↔ BeginsWith 7 bytes.now) }

        // If refused for a reason other than memory, the bytes are not a datagram, and the refusal
        // says why. Memory is requested only after the length of a text or bytes, within its limit,
        // was read.
        ensures refuses { IfErr result (λ fault. fault ≢ WireFault.Memory
            → (packets : List PacketValue) → ¬ DatagramText bytes.now packets) }
        ensures reason { IfErr result (λ fault. ReasonForDatagram fault bytes.now) }

        // The error is the one at which the reading stops. A slice never fails.
        ensures exact { IfErr result (λ fault. fault ≢ WireFault.Memory
            → whole_datagram bytes.now ≡ Err fault) }
        ensures no_fault { ¬ IsErrOf result WireFault.Fault }
    {
        decode_any_datagram(alloc, bytes)
    }

    /// The packets as a list.
    ///
    /// # Errors
    ///
    /// `AllocError` if memory for the list of a single packet ran out.
    pub fn into_packets(self, alloc: Global) -> Result<Vec<Packet>, AllocError>
        ensures ok { IfOk result (λ packets. packets.items ≡ packets_in self) }
        ensures refused { OnErr result (¬ IsCompound self) }
    {
        match self {
            Datagram::Packet(packet) => {
                let mut packets = Vec::new(alloc);
                packets.push(packet)?;
                Ok(packets)
            }
            Datagram::Compound(packets) => Ok(packets),
        }
    }

    /// The claims of the packets, in order.
    ///
    /// # Errors
    ///
    /// `AllocError` if memory for the list ran out.
    pub fn into_claims(self, alloc: Global) -> Result<Vec<Claim>, AllocError>
        ensures { IfOk result (λ claims. claims.items ≡ claims_in self) }
    {
        match self {
            Datagram::Packet(packet) => {
                let mut claims = Vec::new(alloc);
                claims.push(packet.into_claim())?;
                Ok(claims)
            }
            Datagram::Compound(packets) => packets
                .into_iter()
                .map(|packet| packet.into_claim())
                .collect(alloc),
        }
    }
}

/// Reads the packets of a datagram: one packet, or a compound packet. A compound packet has its
/// type byte, the count of its parts in one byte, their lengths in two bytes each, high byte first,
/// and the parts (memberlist's `makeCompoundMessage`). A part that starts with 3, 4 or 5 is a
/// packet, and every other part is skipped (own).
///
/// # Errors
///
/// The first of these that holds: `Ended` if there are no bytes; `WrongType` if the first is not 3,
/// 4, 5 or 7; for one packet the error of `decode_packet`; in a compound packet `Ended` if its
/// count or one of its lengths is cut off; then, part by part, `Ended` if the part is cut off, and
/// the error of `decode_packet` for it; `Trailing` if bytes follow. `Memory` comes if an allocation
/// failed, either of one packet or of at most the limit of a value, and never before the length of
/// a text or bytes is read. After an error, no packet is returned.
pub fn decode_datagram(alloc: Global, bytes: &[u8]) -> Result<Vec<Packet>, WireFault>
    // The bytes are a datagram of the packets.
    ensures reads { IfOk result (λ packets. DatagramText bytes.now packets.items) }

    // If refused for a reason other than memory, the bytes are not a datagram, and the refusal says
    // why. Memory is requested only after the length of a text or bytes, within its limit, was
    // read.
    ensures refuses { IfErr result (λ fault. fault ≢ WireFault.Memory
        → (packets : List PacketValue) → ¬ DatagramText bytes.now packets) }
    ensures reason { IfErr result (λ fault. ReasonForDatagram fault bytes.now) }

    // The error is the one at which the reading stops. A slice never fails.
    ensures exact { IfErr result (λ fault. fault ≢ WireFault.Memory
        → whole_datagram bytes.now ≡ Err fault) }
    ensures no_fault { ¬ IsErrOf result WireFault.Fault }
{
    decode_whole_datagram(alloc, bytes)
}

fn decode_whole_datagram(alloc: Global, bytes: &[u8]) -> Result<Vec<Packet>, WireFault>
    ensures lists { ListsUnlessMemory (λ packets. packets.items) (whole_datagram bytes.now) result }
    ensures no_fault { ¬ IsErrOf result WireFault.Fault }
    ensures memory { IsErrOf result WireFault.Memory → DatagramAsks bytes.now }
{
    let packets = decode_any_datagram(alloc, bytes)?.into_packets(alloc)?;
    Ok(packets)
}

fn decode_any_datagram(alloc: Global, bytes: &[u8]) -> Result<Datagram, WireFault>
    ensures lists { ListsUnlessMemory packets_in (whole_datagram bytes.now) result }
    ensures no_fault { ¬ IsErrOf result WireFault.Fault }
    ensures memory { IsErrOf result WireFault.Memory → DatagramAsks bytes.now }
    ensures compound { IfOk result (λ datagram. IsCompound datagram ↔ BeginsWith 7 bytes.now) }
{
    match bytes.split_first() {
        Some((first, body)) if *first == COMPOUND_MESSAGE => {
            let packets = decode_compound(alloc, body)?;
            Ok(Datagram::Compound(packets))
        }
        _ => decode_alone(alloc, bytes),
    }
}

/// A single packet.
fn decode_alone(alloc: Global, bytes: &[u8]) -> Result<Datagram, WireFault>
    ensures lists { ListsUnlessMemory packets_in (alone (whole_packet bytes.now)) result }
    ensures no_fault { ¬ IsErrOf result WireFault.Fault }
    ensures memory { IsErrOf result WireFault.Memory → PacketAsks bytes.now }
    ensures alone { IfOk result (λ datagram. ¬ IsCompound datagram) }
{
    let packet = decode_whole_packet(alloc, bytes)?;
    Ok(Datagram::Packet(packet))
}

/// What follows the type byte of a compound packet.
fn decode_compound(alloc: Global, body: &[u8]) -> Result<Vec<Packet>, WireFault>
    ensures lists { ListsUnlessMemory (λ packets. packets.items)
        (nothing_after (compound_at body.now)) result }
    ensures no_fault { ¬ IsErrOf result WireFault.Fault }
    ensures memory { IsErrOf result WireFault.Memory → CompoundAsks body.now }
{
    let Some((count, rest)) = body.split_first() else {
        return Err(WireFault::Ended);
    };
    let lengths_len = 2 * usize::from(*count);
    let Some((lengths, parts)) = rest.split_at_checked(lengths_len) else {
        return Err(WireFault::Ended);
    };
    decode_parts(alloc, lengths, parts)
}

/// Decodes the parts of these lengths, each length in two bytes.
fn decode_parts(alloc: Global, lengths: &[u8], parts: &[u8]) -> Result<Vec<Packet>, WireFault>
    ensures lists { ListsUnlessMemory (λ packets. packets.items)
        (nothing_after (parts_at (lengths_in lengths.now) [] parts.now)) result }
    ensures no_fault { ¬ IsErrOf result WireFault.Fault }
    ensures memory { IsErrOf result WireFault.Memory → PartsAsk (lengths_in lengths.now) parts.now }
{
    let mut packets = Vec::new(alloc);
    let mut lengths = lengths;
    let mut rest = parts;
    while let Some((length, more)) = lengths.split_first_chunk::<2>() {
        let len = usize::from(u16::from_be_bytes(*length));
        let Some((part, behind)) = rest.split_at_checked(len) else {
            return Err(WireFault::Ended);
        };
        take_part(alloc, part, &mut packets)?;
        lengths = more;
        rest = behind;
    }
    if rest.is_empty() {
        Ok(packets)
    } else {
        Err(WireFault::Trailing)
    }
}

/// Adds the packet of a part, unless the part is skipped.
fn take_part(alloc: Global, part: &[u8], packets: &mut Vec<Packet>) -> Result<(), WireFault>
    ensures grows { GrowsBy (packets_of part.now) packets.old.items packets.new.items result }
    ensures no_fault { ¬ IsErrOf result WireFault.Fault }
    ensures memory { IsErrOf result WireFault.Memory → PacketAsks part.now }
{
    if let Some(&SUSPECT_MESSAGE | &ALIVE_MESSAGE | &DEAD_MESSAGE) = part.first() {
        let packet = decode_whole_packet(alloc, part)?;
        packets.push(packet).map_err(AllocError::from)?;
    }
    Ok(())
}
