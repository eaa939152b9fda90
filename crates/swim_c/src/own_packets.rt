//! What a member says, as packets: its own Alive and Leave, that others are suspected or dead, and
//! another member's Alive.

ghost use Rattle.std.specs.Prelude.{◌≡◌, ◌≢◌, ◌≤◌, [], length, IfOk, IfErr};
ghost use Rattle.swim_claim.specs.declared.claim.Claim.TheVariants.{Alive, Suspect, Confirm, Leave};
ghost use Rattle.swim_c.specs.Buffers.{IsNoMemory};
ghost use Rattle.swim_c.specs.Opening.{IsUnmade, told};
ghost use Rattle.swim_c.specs.OwnPackets.{SaidOr, IsNoName, IsUnsaid, IsUnsaidBy};
ghost use Rattle.swim_claim.specs.Limits.{max_name_len};

use crate::claims::alive_of;
use crate::copy::{Written, copy_out};
use crate::opening::{Parts, copied};
use crate::status::{MEMORY, NAME_TOO_LONG, OWN_NAME};
use std::alloc::{AllocError, Global};
use swim_claim::{Claim, Name};
use swim_table::Node;
use swim_wire::{Packet, encode_packet};

/// Writes the packet of the member's own Alive at the incarnation to the buffer.
pub fn say_alive(alloc: Global, node: &Node, inc: u32, out: &mut [u8]) -> Written
    ensures { SaidOr (record { claim = Alive node.now.name inc node.now.details; from = [] })
        out.old out.new result.status result.len IsNoMemory }
{
    match own_alive(alloc, node, inc) {
        Ok(packet) => packet_out(alloc, &packet, out),
        Err(_) => Written::refused(MEMORY),
    }
}

fn own_alive(alloc: Global, node: &Node, inc: u32) -> Result<Packet, AllocError>
    ensures { IfOk result (λ packet.
        packet ≡ record { claim = Alive node.now.name inc node.now.details; from = [] }) }
{
    let alive = alive_of(alloc, node.name(), inc, node.details())?;
    Ok(Packet::new(alive, Vec::new(alloc)))
}

/// Writes the packet of the Alive of a member with these parts, at the incarnation, to the buffer.
pub fn say_alive_of(alloc: Global, parts: Parts, inc: u32, out: &mut [u8]) -> Written
    ensures { SaidOr (record {
      claim = Alive parts.entry.name.now inc
          (told parts.entry.addr.now parts.entry.port parts.entry.meta.now parts.entry.vsn.now);
      from = [];
    }) out.old out.new result.status result.len (IsUnmade parts.entry.name.now
        (told parts.entry.addr.now parts.entry.port parts.entry.meta.now parts.entry.vsn.now)) }
{
    match copied(alloc, parts) {
        Ok((name, details)) => {
            let packet = Packet::new(Claim::Alive { name, inc, details }, Vec::new(alloc));
            packet_out(alloc, &packet, out)
        }
        Err(fault) => Written::refused(fault.number()),
    }
}

/// Writes the packet of the member's own Leave at the incarnation to the buffer.
pub fn say_leave(alloc: Global, node: &Node, inc: u32, out: &mut [u8]) -> Written
    ensures { SaidOr (record { claim = Leave node.now.name inc; from = node.now.name })
        out.old out.new result.status result.len IsNoMemory }
{
    match own_leave(alloc, node, inc) {
        Ok(packet) => packet_out(alloc, &packet, out),
        Err(_) => Written::refused(MEMORY),
    }
}

fn own_leave(alloc: Global, node: &Node, inc: u32) -> Result<Packet, AllocError>
    ensures { IfOk result (λ packet.
        packet ≡ record { claim = Leave node.now.name inc; from = node.now.name }) }
{
    let name = node.name().try_clone(alloc)?;
    let from = node.name().bytes().to_vec(alloc)?;
    Ok(Packet::new(Claim::Leave { name, inc }, from))
}

/// Writes the packet by which the member suspects the member of this name, at the incarnation, to
/// the buffer.
pub fn say_suspect(alloc: Global, node: &Node, name: &[u8], inc: u32, out: &mut [u8]) -> Written
    ensures { SaidOr (record { claim = Suspect name.now inc; from = node.now.name })
        out.old out.new result.status result.len (IsNoName name.now) }
{
    match accusation(alloc, node, name) {
        Ok((name, from)) => {
            let packet = Packet::new(Claim::Suspect { name, inc }, from);
            packet_out(alloc, &packet, out)
        }
        Err(status) => Written::refused(status),
    }
}

/// Writes the packet by which the member declares the member of this name dead, at the incarnation,
/// to the buffer.
pub fn say_confirm(alloc: Global, node: &Node, name: &[u8], inc: u32, out: &mut [u8]) -> Written
    ensures { SaidOr (record { claim = Confirm name.now inc; from = node.now.name })
        out.old out.new result.status result.len (IsUnsaid node.now.name name.now) }
{
    if name == node.name().bytes() {
        return Written::refused(OWN_NAME);
    }
    match accusation(alloc, node, name) {
        Ok((name, from)) => {
            let packet = Packet::new(Claim::Confirm { name, inc }, from);
            packet_out(alloc, &packet, out)
        }
        Err(status) => Written::refused(status),
    }
}

/// The name of the accused, and of the member, who accuses; or a status.
fn accusation(alloc: Global, node: &Node, name: &[u8]) -> Result<(Name, Vec<u8>), u32>
    ensures names { IfOk result (λ names.
        (names.0 ≡ name.now) × (names.1.items ≡ node.now.name)) }
    ensures short { IfOk result (λ names. length names.1.items ≤ max_name_len) }
    ensures refused { IfErr result (IsNoName name.now) }
{
    let Ok(made) = Name::copied(alloc, name) else {
        return Err(MEMORY);
    };
    let name = made.map_err(|fault| fault.number())?;
    let Ok(from) = node.name().bytes().to_vec(alloc) else {
        return Err(MEMORY);
    };
    Ok((name, from))
}

/// Writes the packet by which the member of one name suspects that of another, at the incarnation,
/// to the buffer.
pub fn say_suspect_of(alloc: Global, from: &[u8], name: &[u8], inc: u32, out: &mut [u8]) -> Written
    ensures { SaidOr (record { claim = Suspect name.now inc; from = from.now })
        out.old out.new result.status result.len (IsUnsaidBy from.now name.now) }
{
    match accusation_by(alloc, from, name) {
        Ok((name, from)) => {
            let packet = Packet::new(Claim::Suspect { name, inc }, from);
            packet_out(alloc, &packet, out)
        }
        Err(status) => Written::refused(status),
    }
}

/// Writes the packet by which the member of one name declares that of another dead, at the
/// incarnation, to the buffer; or its own leave.
pub fn say_dead_of(alloc: Global, from: &[u8], name: &[u8], inc: u32, out: &mut [u8]) -> Written
    ensures leave { from.now ≡ name.now
        → SaidOr (record { claim = Leave name.now inc; from = name.now })
        out.old out.new result.status result.len (IsUnsaidBy name.now name.now) }
    ensures dead { from.now ≢ name.now
        → SaidOr (record { claim = Confirm name.now inc; from = from.now })
        out.old out.new result.status result.len (IsUnsaidBy from.now name.now) }
{
    if from == name {
        say_leave_of(alloc, name, inc, out)
    } else {
        say_confirm_of(alloc, from, name, inc, out)
    }
}

fn say_leave_of(alloc: Global, name: &[u8], inc: u32, out: &mut [u8]) -> Written
    ensures { SaidOr (record { claim = Leave name.now inc; from = name.now })
        out.old out.new result.status result.len (IsUnsaidBy name.now name.now) }
{
    match accusation_by(alloc, name, name) {
        Ok((name, from)) => {
            let packet = Packet::new(Claim::Leave { name, inc }, from);
            packet_out(alloc, &packet, out)
        }
        Err(status) => Written::refused(status),
    }
}

fn say_confirm_of(alloc: Global, from: &[u8], name: &[u8], inc: u32, out: &mut [u8]) -> Written
    requires { from.now ≢ name.now }
    ensures { SaidOr (record { claim = Confirm name.now inc; from = from.now })
        out.old out.new result.status result.len (IsUnsaidBy from.now name.now) }
{
    match accusation_by(alloc, from, name) {
        Ok((name, from)) => {
            let packet = Packet::new(Claim::Confirm { name, inc }, from);
            packet_out(alloc, &packet, out)
        }
        Err(status) => Written::refused(status),
    }
}

/// The name of the accused, and of who accuses; or a status.
fn accusation_by(alloc: Global, from: &[u8], name: &[u8]) -> Result<(Name, Vec<u8>), u32>
    ensures names { IfOk result (λ names. (names.0 ≡ name.now) × (names.1.items ≡ from.now)) }
    ensures short { IfOk result (λ names. length names.1.items ≤ max_name_len) }
    ensures refused { IfErr result (IsUnsaidBy from.now name.now) }
{
    if from.len() > 1024 {
        return Err(NAME_TOO_LONG);
    }
    let Ok(made) = Name::copied(alloc, name) else {
        return Err(MEMORY);
    };
    let name = made.map_err(|fault| fault.number())?;
    let Ok(from) = from.to_vec(alloc) else {
        return Err(MEMORY);
    };
    Ok((name, from))
}

/// Writes the canonical bytes of a packet to the buffer.
fn packet_out(alloc: Global, packet: &Packet, out: &mut [u8]) -> Written
    ensures { SaidOr packet.now out.old out.new result.status result.len IsNoMemory }
{
    match encode_packet(alloc, packet) {
        Ok(bytes) => copy_out(&bytes, out),
        Err(_) => Written::refused(MEMORY),
    }
}
