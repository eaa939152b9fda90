//! Messages that make no claims: written to a buffer, and read.

ghost use Rattle.std.specs.Prelude.{◌≡◌, ◌<◌, ◌^◌, [], length, IfOk, MatchBool, MatchOption};
ghost use Rattle.memberlist_message.specs.Messages.{message_value, ping_value, indirect_ping_value};
ghost use Rattle.memberlist_message.specs.Writing.{ping_bytes, indirect_ping_bytes, ack_bytes, nack_bytes, user_bytes};
ghost use Rattle.swim_c.specs.Buffers.{WrittenOr, IsNoMemory};
ghost use Rattle.swim_c.specs.Messages.{CopyDone, HasNames, IndirectRead, IsPlace, IsTooLong, IsUnfit, IsUnsent, PingRead, ReadDone};

use crate::copy::{Written, copy_out};
use crate::probe::Probe;
use crate::status::{BAD_ADDRESS, DONE, MEMORY, NAME_TOO_LONG, TOO_LONG, WRONG_TYPE};
use memberlist_message::{
    Ack, IndirectPing, Message, Nack, Ping, decode_message, encode_ack, encode_indirect_ping,
    encode_nack, encode_ping, encode_user,
};
use std::alloc::{AllocError, Global};

/// A member that is named in a ping: its name, its address and its port, each of which may be empty
/// or 0.
#[derive(Clone, Copy)]
pub struct Peer<'a> {
    pub name: &'a [u8],
    pub addr: &'a [u8],
    pub port: u16,
}

/// Writes a ping with this number, to the member of this name, from this one.
pub fn ping_out(alloc: Global, seq: u32, node: &[u8], source: Peer, out: &mut [u8]) -> Written
    ensures { WrittenOr (ping_bytes (record {
      seq_no = seq;
      node = node.now;
      source_addr = source.entry.addr.now;
      source_port = source.entry.port;
      source_node = source.entry.name.now;
    })) out.old out.new result.status result.len
        (IsUnsent node.now [] source.entry.name.now source.entry.addr.now) }
{
    if let Some(status) = unfit(node, &[], source.name, source.addr) {
        return Written::refused(status);
    }
    match ping(alloc, seq, node, source) {
        Ok(bytes) => copy_out(&bytes, out),
        Err(_) => Written::refused(MEMORY),
    }
}

fn ping(alloc: Global, seq: u32, node: &[u8], source: Peer) -> Result<Vec<u8>, AllocError>
    requires node { length node.now < 2 ^ 16 }
    requires addr { length source.addr.now < 2 ^ 16 }
    requires source { length source.name.now < 2 ^ 16 }
    ensures { IfOk result (λ bytes. bytes.items ≡ ping_bytes (record {
      seq_no = seq;
      node = node.now;
      source_addr = source.entry.addr.now;
      source_port = source.entry.port;
      source_node = source.entry.name.now;
    })) }
{
    let ping = Ping {
        seq_no: seq,
        node: node.to_vec(alloc)?,
        source_addr: source.addr.to_vec(alloc)?,
        source_port: source.port,
        source_node: source.name.to_vec(alloc)?,
    };
    encode_ping(alloc, &ping)
}

/// Writes an indirect ping with this number, for this member, from that one.
pub fn indirect_out(
    alloc: Global,
    seq: u32,
    target: Peer,
    nack: bool,
    source: Peer,
    out: &mut [u8],
) -> Written
    ensures { WrittenOr (indirect_ping_bytes (record {
      seq_no = seq;
      target = target.entry.addr.now;
      port = target.entry.port;
      node = target.entry.name.now;
      nack = nack;
      source_addr = source.entry.addr.now;
      source_port = source.entry.port;
      source_node = source.entry.name.now;
    })) out.old out.new result.status result.len
        (IsUnsent target.entry.name.now target.entry.addr.now
        source.entry.name.now source.entry.addr.now) }
{
    if let Some(status) = unfit(target.name, target.addr, source.name, source.addr) {
        return Written::refused(status);
    }
    match indirect(alloc, seq, target, nack, source) {
        Ok(bytes) => copy_out(&bytes, out),
        Err(_) => Written::refused(MEMORY),
    }
}

fn indirect(
    alloc: Global,
    seq: u32,
    target: Peer,
    nack: bool,
    source: Peer,
) -> Result<Vec<u8>, AllocError>
    requires target { length target.addr.now < 2 ^ 16 }
    requires node { length target.name.now < 2 ^ 16 }
    requires addr { length source.addr.now < 2 ^ 16 }
    requires source { length source.name.now < 2 ^ 16 }
    ensures { IfOk result (λ bytes. bytes.items ≡ indirect_ping_bytes (record {
      seq_no = seq;
      target = target.entry.addr.now;
      port = target.entry.port;
      node = target.entry.name.now;
      nack = nack;
      source_addr = source.entry.addr.now;
      source_port = source.entry.port;
      source_node = source.entry.name.now;
    })) }
{
    let ping = IndirectPing {
        seq_no: seq,
        target: target.addr.to_vec(alloc)?,
        port: target.port,
        node: target.name.to_vec(alloc)?,
        nack,
        source_addr: source.addr.to_vec(alloc)?,
        source_port: source.port,
        source_node: source.name.to_vec(alloc)?,
    };
    encode_indirect_ping(alloc, &ping)
}

/// Writes the ack to the ping with this number.
pub fn ack_out(alloc: Global, seq: u32, payload: &[u8], out: &mut [u8]) -> Written
    ensures { WrittenOr (ack_bytes (record { seq_no = seq; payload = payload.now }))
        out.old out.new result.status result.len (IsTooLong payload.now) }
{
    if payload.len() > 65_535 {
        return Written::refused(TOO_LONG);
    }
    match ack(alloc, seq, payload) {
        Ok(bytes) => copy_out(&bytes, out),
        Err(_) => Written::refused(MEMORY),
    }
}

fn ack(alloc: Global, seq: u32, payload: &[u8]) -> Result<Vec<u8>, AllocError>
    requires { length payload.now < 2 ^ 16 }
    ensures { IfOk result (λ bytes.
        bytes.items ≡ ack_bytes (record { seq_no = seq; payload = payload.now })) }
{
    let ack = Ack {
        seq_no: seq,
        payload: payload.to_vec(alloc)?,
    };
    encode_ack(alloc, &ack)
}

/// Writes the nack to the indirect ping with this number.
pub fn nack_out(alloc: Global, seq: u32, out: &mut [u8]) -> Written
    ensures { WrittenOr (nack_bytes seq) out.old out.new result.status result.len IsNoMemory }
{
    match encode_nack(alloc, &Nack { seq_no: seq }) {
        Ok(bytes) => copy_out(&bytes, out),
        Err(_) => Written::refused(MEMORY),
    }
}

/// Writes a user message with these bytes.
pub fn user_out(alloc: Global, bytes: &[u8], out: &mut [u8]) -> Written
    ensures { WrittenOr (user_bytes bytes.now)
        out.old out.new result.status result.len IsNoMemory }
{
    match encode_user(alloc, bytes) {
        Ok(bytes) => copy_out(&bytes, out),
        Err(_) => Written::refused(MEMORY),
    }
}

/// Reads a ping, an indirect ping, an ack or a nack. Returns a status.
pub fn read(alloc: Global, message: &[u8], probe: &mut Probe) -> u32
    ensures { ReadDone message.now result probe.old probe.new }
{
    match decode_message(alloc, message) {
        Ok(message) => copy_in(&message, probe),
        Err(fault) => fault.number(),
    }
}

/// Copies what one of these messages says. Returns a status.
fn copy_in(message: &Message, probe: &mut Probe) -> u32
    ensures { CopyDone (message_value message.now) result probe.old probe.new }
{
    match message {
        Message::Ping(ping) => read_ping(ping, probe),
        Message::IndirectPing(ping) => read_indirect(ping, probe),
        Message::Ack(ack) => {
            *probe = Probe::of_ack(ack);
            DONE
        }
        Message::Nack(nack) => {
            *probe = Probe::blank(11, nack.seq_no);
            DONE
        }
        Message::User(_) | Message::Error(_) | Message::Claim(_) => WRONG_TYPE,
    }
}

fn read_ping(ping: &Ping, probe: &mut Probe) -> u32
    ensures { PingRead (ping_value ping.now) result probe.old probe.new }
{
    match unfit(&ping.node, &[], &ping.source_node, &ping.source_addr) {
        Some(status) => status,
        None => {
            *probe = Probe::of_ping(ping);
            DONE
        }
    }
}

fn read_indirect(ping: &IndirectPing, probe: &mut Probe) -> u32
    ensures { IndirectRead (indirect_ping_value ping.now) result probe.old probe.new }
{
    match unfit(
        &ping.node,
        &ping.target,
        &ping.source_node,
        &ping.source_addr,
    ) {
        Some(status) => status,
        None => {
            *probe = Probe::of_indirect_ping(ping);
            DONE
        }
    }
}

/// Why a message with these names and addresses is not written or read: a status, or none.
fn unfit(node: &[u8], addr: &[u8], source: &[u8], source_addr: &[u8]) -> Option<u32>
    ensures { MatchOption result
        (HasNames node.now source.now × IsPlace addr.now × IsPlace source_addr.now)
        (IsUnfit node.now addr.now source.now source_addr.now) }
{
    if node.len() > 1024 || source.len() > 1024 {
        return Some(NAME_TOO_LONG);
    }
    if is_place(addr) && is_place(source_addr) {
        None
    } else {
        Some(BAD_ADDRESS)
    }
}

/// Whether an address has 4 or 16 bytes, or is not given.
fn is_place(addr: &[u8]) -> bool
    ensures { MatchBool result (IsPlace addr.now) (¬ IsPlace addr.now) }
{
    let len = addr.len();
    len == 0 || len == 4 || len == 16
}
