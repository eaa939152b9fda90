//! Messages in their canonical bytes: all keys of the layout in alphabetical order, each value in
//! its canonical encoding (own).

mod pairs;
mod records;

ghost use Rattle.std.specs.Prelude.{◌≡◌, ◌≤◌, ◌++◌, length, IfOk, OnOk, OnErr};
ghost use Rattle.swim_claim.specs.declared.claim.Claim.{Claim};
ghost use Rattle.swim_claim.specs.Claim.{name_of, HasFacts, IsLegalClaim, IsLegalFacts};
ghost use Rattle.swim_claim.specs.Limits.{max_name_len};
ghost use Rattle.swim_wire.specs.Canonical.{packet_bytes, packets_bytes, header_bytes, state_bytes, alive_bytes, accusation_bytes};
ghost use Rattle.swim_wire.specs.Limits.{max_nodes, max_user_state_len};
ghost use Rattle.swim_wire.specs.Packet.{IsLegalPacket};
ghost use Rattle.swim_wire.specs.Texts.{PacketText, HeaderText, StateText, DatagramText};

use crate::canonical::pairs::{Written, write_message};
pub use crate::canonical::records::{
    header_len, put_header, put_state, put_state_with_details, state_len, state_with_details_len,
};
use crate::layout::Key;
use crate::message::{ALIVE_MESSAGE, COMPOUND_MESSAGE, DEAD_MESSAGE, SUSPECT_MESSAGE};
use crate::packet::Packet;
use crate::stream::Header;
use std::alloc::{AllocError, Global};
use swim_claim::{Claim, Details, Facts, Name};

/// Appends the header of a push/pull stream: its type byte, and its map (memberlist's
/// `pushPullHeader`). A header above the limits of [`Header`] is written too, but no reader accepts
/// it.
///
/// # Errors
///
/// `AllocError` if the vector had to grow and memory ran out. Its contents are then unchanged.
pub fn write_header(out: &mut Vec<u8>, header: &Header) -> Result<(), AllocError>
    ensures ok { OnOk result (out.new.items ≡ out.old.items ++ header_bytes header.now) }
    ensures text { header.now.nodes ≤ max_nodes → header.now.user_len ≤ max_user_state_len
        → HeaderText (header_bytes header.now) header.now }
    ensures refused { OnErr result (out.new.items ≡ out.old.items) }
{
    let start = out.len();
    out.resize(start + header_len(header), 0)?;
    put_header(out, start, header);
    Ok(())
}

/// Appends the state record of the claim that the facts make about a member (memberlist's
/// `pushNodeState`). Only an Alive's record has an address, a port, metadata and versions. The
/// facts must have details exactly if the claim is an Alive.
///
/// # Errors
///
/// `AllocError` if the vector had to grow and memory ran out. Its contents are then unchanged.
pub fn write_state<'a>(
    out: &mut Vec<u8>,
    name: &'a Name,
    facts: Facts<'a>,
) -> Result<(), AllocError>
    requires { IsLegalFacts facts }
    ensures ok { OnOk result ((c : Claim) → name_of c ≡ name.now → HasFacts c facts.entry
        → out.new.items ≡ out.old.items ++ state_bytes c) }
    ensures text { (c : Claim) → name_of c ≡ name.now → HasFacts c facts.entry
        → StateText (state_bytes c) c }
    ensures refused { OnErr result (out.new.items ≡ out.old.items) }
{
    let start = out.len();
    out.resize(start + state_len(name, facts), 0)?;
    put_state(out, start, name, facts);
    Ok(())
}

/// The canonical bytes of a packet: its type byte, and its map.
///
/// # Errors
///
/// `AllocError` if memory ran out.
pub fn encode_packet(alloc: Global, packet: &Packet) -> Result<Vec<u8>, AllocError>
    ensures canonical { IfOk result (λ bytes. bytes.items ≡ packet_bytes packet.now) }
    ensures text { IfOk result (λ bytes. PacketText bytes.items packet.now) }
{
    let mut out = Vec::new(alloc);
    write_packet(&mut out, packet)?;
    Ok(out)
}

/// The canonical bytes of a compound packet: its type byte, the count of the packets, their lengths
/// in two bytes each, high byte first, and the packets (memberlist's `makeCompoundMessage`). There
/// must be at most 255 of them. Each is shorter than 65,536 bytes, so two bytes hold its length.
///
/// # Errors
///
/// `AllocError` if memory ran out.
pub fn encode_compound(alloc: Global, packets: &[Packet]) -> Result<Vec<u8>, AllocError>
    requires { length packets.now ≤ 255 }
    ensures canonical { IfOk result (λ bytes. bytes.items ≡ packets_bytes packets.now) }
    ensures text { IfOk result (λ bytes. DatagramText bytes.items packets.now) }
{
    let mut out = Vec::new(alloc);
    out.extend_from_slice(&[COMPOUND_MESSAGE, packets.len() as u8])?;
    let mut parts = Vec::new(alloc);
    for packet in packets {
        let start = parts.len();
        write_packet(&mut parts, packet)?;
        let len = (parts.len() - start) as u16;
        out.extend_from_slice(&len.to_be_bytes())?;
    }
    out.extend_from_slice(&parts)?;
    Ok(out)
}

/// Appends a packet.
fn write_packet(out: &mut Vec<u8>, packet: &Packet) -> Result<(), AllocError>
    ensures ok { OnOk result (out.new.items ≡ out.old.items ++ packet_bytes packet.now) }
    ensures legal { IsLegalClaim packet.now.claim }
    ensures made_by { IsLegalPacket packet.now.claim packet.now.from }
{
    let claim = packet.claim();
    let name = claim.name();
    let inc = claim.inc();
    let from = packet.from_name();
    match claim {
        Claim::Alive { details, .. } => write_alive(out, name, inc, details),
        Claim::Suspect { .. } => write_accusation(out, SUSPECT_MESSAGE, name, inc, from),
        Claim::Confirm { .. } | Claim::Leave { .. } => {
            write_accusation(out, DEAD_MESSAGE, name, inc, from)
        }
    }
}

/// Appends memberlist's `alive`.
fn write_alive<'a>(
    out: &mut Vec<u8>,
    name: &'a Name,
    inc: u32,
    details: &'a Details,
) -> Result<(), AllocError>
    ensures { OnOk result (out.new.items ≡ out.old.items ++ alive_bytes name.now inc details.now) }
{
    write_message(
        out,
        ALIVE_MESSAGE,
        &[
            (Key::Addr, Written::Raw(details.addr())),
            (Key::Incarnation, Written::Number(u64::from(inc))),
            (Key::Meta, Written::Raw(details.meta())),
            (Key::Node, Written::Raw(name.bytes())),
            (Key::Port, Written::Number(u64::from(details.port()))),
            (Key::Vsn, Written::Raw(details.vsn())),
        ],
    )
}

/// Appends memberlist's `suspect` or `dead`, made by the member `from`.
fn write_accusation<'a>(
    out: &mut Vec<u8>,
    message: u8,
    name: &'a Name,
    inc: u32,
    from: &'a [u8],
) -> Result<(), AllocError>
    requires { length from.now ≤ max_name_len }
    ensures { OnOk result
        (out.new.items ≡ out.old.items ++ accusation_bytes message name.now inc from.now) }
{
    write_message(
        out,
        message,
        &[
            (Key::From, Written::Raw(from)),
            (Key::Incarnation, Written::Number(u64::from(inc))),
            (Key::Node, Written::Raw(name.bytes())),
        ],
    )
}
