//! Messages that make no claims: written, and read.

ghost use Rattle.std.specs.Prelude.{[]};
ghost use Rattle.memberlist_message.specs.Writing.{ping_bytes, indirect_ping_bytes, ack_bytes, nack_bytes, user_bytes};
ghost use Rattle.swim_c.specs.Buffers.{WrittenOr, IsNoMemory};
ghost use Rattle.swim_c.specs.Messages.{IsTooLong, IsUnsent, ReadDone};
ghost use Rattle.swim_c.specs.Parts.{PartDone};

use crate::copy::Written;
use crate::messages::{Peer, ack_out, indirect_out, nack_out, ping_out, read, user_out};
use crate::parts::{Part, part_at};
use crate::probe::Probe;
use std::alloc::Global;

/// Writes a ping with this number to the buffer, to the member of this name, from a member of this
/// name at this address and port (memberlist's `ping`, net.go). A name has at most 1,024 bytes, and
/// may be empty; an address has 4 or 16, or none.
///
/// # Statuses
///
/// If the status is not 0, the buffer is unchanged.
///
/// - 12 if a name is too long, else 13 if the address has another length.
/// - 66 if the buffer is too small. The length is then that of the ping.
/// - 10 if out of memory.
#[unsafe(no_mangle)]
pub extern "C" fn swimtab_raw_ping_of(
    alloc: Global,
    seq: u32,
    node: &[u8],
    source: &[u8],
    source_addr: &[u8],
    source_port: u16,
    out: &mut [u8],
) -> Written
    ensures { WrittenOr (ping_bytes (record {
      seq_no = seq;
      node = node.now;
      source_addr = source_addr.now;
      source_port = source_port;
      source_node = source.now;
    })) out.old out.new result.status result.len
        (IsUnsent node.now [] source.now source_addr.now) }
{
    let source = Peer {
        name: source,
        addr: source_addr,
        port: source_port,
    };
    ping_out(alloc, seq, node, source, out)
}

/// Writes an indirect ping with this number to the buffer: it asks a member to ping the one of this
/// name at this address and port, and to send a nack if that does not answer in time, if one is
/// wanted (memberlist's `indirectPingReq`, net.go). Names and addresses are as in
/// [`swimtab_raw_ping_of`].
///
/// # Statuses
///
/// Those of [`swimtab_raw_ping_of`].
#[unsafe(no_mangle)]
pub extern "C" fn swimtab_raw_indirect_of(
    alloc: Global,
    seq: u32,
    node: &[u8],
    addr: &[u8],
    port: u16,
    nack: bool,
    source: &[u8],
    source_addr: &[u8],
    source_port: u16,
    out: &mut [u8],
) -> Written
    ensures { WrittenOr (indirect_ping_bytes (record {
      seq_no = seq;
      target = addr.now;
      port = port;
      node = node.now;
      nack = nack;
      source_addr = source_addr.now;
      source_port = source_port;
      source_node = source.now;
    })) out.old out.new result.status result.len
        (IsUnsent node.now addr.now source.now source_addr.now) }
{
    let target = Peer {
        name: node,
        addr,
        port,
    };
    let source = Peer {
        name: source,
        addr: source_addr,
        port: source_port,
    };
    indirect_out(alloc, seq, target, nack, source, out)
}

/// Writes the ack to the ping or indirect ping with this number to the buffer, with a payload of at
/// most 65,535 bytes (memberlist's `ackResp`, net.go).
///
/// # Statuses
///
/// If the status is not 0, the buffer is unchanged.
///
/// - 6 if the payload is too long.
/// - 66 if the buffer is too small. The length is then that of the ack.
/// - 10 if out of memory.
#[unsafe(no_mangle)]
pub extern "C" fn swimtab_raw_ack_of(
    alloc: Global,
    seq: u32,
    payload: &[u8],
    out: &mut [u8],
) -> Written
    ensures { WrittenOr (ack_bytes (record { seq_no = seq; payload = payload.now }))
        out.old out.new result.status result.len (IsTooLong payload.now) }
{
    ack_out(alloc, seq, payload, out)
}

/// Writes the nack to the indirect ping with this number to the buffer (memberlist's `nackResp`,
/// net.go).
///
/// # Statuses
///
/// If the status is not 0, the buffer is unchanged.
///
/// - 66 if the buffer is too small. The length is then that of the nack.
/// - 10 if out of memory.
#[unsafe(no_mangle)]
pub extern "C" fn swimtab_raw_nack_of(alloc: Global, seq: u32, out: &mut [u8]) -> Written
    ensures { WrittenOr (nack_bytes seq) out.old out.new result.status result.len IsNoMemory }
{
    nack_out(alloc, seq, out)
}

/// Writes a user message with these bytes to the buffer (memberlist's `userMsg`, net.go).
///
/// # Statuses
///
/// Those of [`swimtab_raw_nack_of`].
#[unsafe(no_mangle)]
pub extern "C" fn swimtab_raw_user_of(alloc: Global, bytes: &[u8], out: &mut [u8]) -> Written
    ensures { WrittenOr (user_bytes bytes.now)
        out.old out.new result.status result.len IsNoMemory }
{
    user_out(alloc, bytes, out)
}

/// Reads a ping, an indirect ping, an ack or a nack, as memberlist's handlers do.
///
/// # Statuses
///
/// If the status is not 0, `probe` is unchanged.
///
/// - 16 if it is another message.
/// - 12 if a name has more than 1,024 bytes, else 13 if an address has not 4 or 16 bytes, or none.
/// - 1 to 17 if it is none: the fault at which reading stops.
/// - 10 if out of memory.
#[unsafe(no_mangle)]
pub extern "C" fn swimtab_raw_read(alloc: Global, message: &[u8], probe: &mut Probe) -> u32
    ensures { ReadDone message.now result probe.old probe.new }
{
    read(alloc, message, probe)
}

/// Where the part of a message at this index is, from 0, and with which byte it begins. A compound
/// message has up to 255 parts, and none after the first that is cut off; any other message is its
/// own part (memberlist's `handleCompound`, net.go). A part may be any bytes.
///
/// # Statuses
///
/// 71 if there is no such part.
#[unsafe(no_mangle)]
pub extern "C" fn swimtab_raw_part(message: &[u8], i: usize) -> Part
    ensures { PartDone message.now i result }
{
    part_at(message, i)
}
