//! Several packets as one compound packet.

ghost use Rattle.std.specs.Prelude.{◌≡◌, ◌≢◌, ◌≤◌, length, IfOk, IfErr, IsErrOf};
ghost use Rattle.swim_c.specs.Compound.{PacketTexts, LacksPackets, PackingAsks, IsPacked, CompoundDone};
ghost use Rattle.swim_wire.specs.declared.fault.WireFault.TheVariants.{Memory};

use crate::copy::{Written, copy_out};
use crate::status::TOO_MANY_PACKETS;
use std::alloc::{AllocError, Global};
use swim_wire::{Packet, WireFault, decode_packet, encode_compound};

/// Writes the compound packet of these packets to the buffer. The bytes hold them one after
/// another, with these lengths.
pub fn compound_out(alloc: Global, bytes: &[u8], lens: &[usize], out: &mut [u8]) -> Written
    ensures { CompoundDone bytes.now lens.now out.old out.new result.status result.len }
{
    if lens.len() > 255 {
        return Written::refused(TOO_MANY_PACKETS);
    }
    match pack(alloc, bytes, lens) {
        Ok(compound) => copy_out(&compound, out),
        Err(fault) => Written::refused(fault.number()),
    }
}

/// The canonical compound packet of packets that follow one another with these lengths.
fn pack(alloc: Global, bytes: &[u8], lens: &[usize]) -> Result<Vec<u8>, WireFault>
    requires { length lens.now ≤ 255 }
    ensures packs { IfOk result (λ compound. IsPacked lens.now bytes.now compound.items) }
    ensures refused { IfErr result (λ fault.
        fault ≢ Memory → LacksPackets lens.now bytes.now fault) }
    ensures memory { IsErrOf result Memory → PackingAsks lens.now bytes.now }
{
    let packets = read_packets(alloc, bytes, lens)?;
    let compound = encode_compound(alloc, &packets)?;
    Ok(compound)
}

/// Reads packets that follow one another with these lengths.
fn read_packets(alloc: Global, bytes: &[u8], lens: &[usize]) -> Result<Vec<Packet>, WireFault>
    ensures reads { IfOk result (λ packets. PacketTexts lens.now bytes.now packets.items) }
    ensures refused { IfErr result (λ fault.
        fault ≢ Memory → LacksPackets lens.now bytes.now fault) }
    ensures memory { IsErrOf result Memory → PackingAsks lens.now bytes.now }
{
    let mut packets = Vec::new(alloc);
    let mut rest = bytes;
    for len in lens {
        let Some((text, behind)) = rest.split_at_checked(*len) else {
            return Err(WireFault::Ended);
        };
        let packet = decode_packet(alloc, text)?;
        packets.push(packet).map_err(AllocError::from)?;
        rest = behind;
    }
    if rest.is_empty() {
        Ok(packets)
    } else {
        Err(WireFault::Trailing)
    }
}
