//! Packets that a node takes in, and packets that a member sends.

ghost use Rattle.std.specs.Prelude.{◌≡◌, ◌≢◌, [], false};
ghost use Rattle.swim_claim.specs.declared.claim.Claim.TheVariants.{Alive, Suspect, Confirm, Leave};
ghost use Rattle.swim_c.specs.Buffers.{IsNoMemory};
ghost use Rattle.swim_c.specs.Called.{TakeCalled, RefuteCalled};
ghost use Rattle.swim_c.specs.OnNode.{OnNode, OnSame};
ghost use Rattle.swim_c.specs.Opening.{IsUnmade, told};
ghost use Rattle.swim_c.specs.Compound.{CompoundDone};
ghost use Rattle.swim_c.specs.OwnPackets.{SaidOr, IsNoName, IsUnsaid, IsUnsaidBy};
ghost use Rattle.swim_c.specs.Watching.{Noted, TellsNews};
ghost use Rattle.swim_c.specs.Statuses as statuses;

use crate::compound::compound_out;
use crate::copy::Written;
use crate::handle::Handle;
use crate::opening::Parts;
use crate::own_packets::{
    say_alive, say_alive_of, say_confirm, say_dead_of, say_leave, say_suspect, say_suspect_of,
};
use crate::refuting::{Refuted, refute};
use crate::status::NO_NODE;
use crate::take::{Taken, hear};
use std::alloc::Global;

/// Takes in all claims of a packet or compound packet, or none. Reading texts and bytes of a packet
/// may take memory. If a single packet is about a known name, only newer metadata is kept. Also
/// returns whether the table changed.
///
/// # Statuses
///
/// If the status is not 0, the node is unchanged.
///
/// - 64 if the handle has no node.
/// - 1 to 22 if the bytes are neither: the fault at which reading stops (docs/faults.md).
/// - 10 if out of memory, never before the length of a text or bytes is read.
#[unsafe(no_mangle)]
pub extern "C" fn swimtab_raw_take(alloc: Global, node: &mut Handle, bytes: &[u8]) -> Taken
    ensures takes { TakeCalled bytes.now result node.old.node node.new.node }
    ensures news { OnNode node.old.node node.new.node
        (result.news ≡ false) (TellsNews result.status result.news) }
    ensures noted { OnNode node.old.node node.new.node
        (node.new.changes ≡ node.old.changes)
        (Noted node.old.changes node.new.changes result.status) }
{
    let Some(mut held) = node.take(alloc) else {
        return Taken::refused(NO_NODE);
    };
    let heard = hear(alloc, &mut held, bytes);
    node.put(held);
    heard
}

/// Refutes what others say about the member, if that is due: its table takes in its Alive at the
/// incarnation that follows the current one (SWIM paper, section 4.2; the rest is own).
///
/// # Statuses
///
/// If the status is not 0, the node is unchanged.
///
/// - 64 if the handle has no node.
/// - 24 if one is due and there is no greater incarnation.
/// - 25 if the member was declared dead, or has left.
/// - 10 if one is due and memory runs out.
#[unsafe(no_mangle)]
pub extern "C" fn swimtab_raw_refute(alloc: Global, node: &mut Handle) -> Refuted
    ensures refutes { RefuteCalled result node.old.node node.new.node }
    ensures noted { OnNode node.old.node node.new.node
        (node.new.changes ≡ node.old.changes)
        (Noted node.old.changes node.new.changes result.status) }
{
    let Some(mut held) = node.take(alloc) else {
        return Refuted::unmade(NO_NODE);
    };
    let refuted = refute(alloc, &mut held);
    node.put(held);
    refuted
}

/// Writes the packet of the member's own Alive at the incarnation to the buffer. The node does not
/// change.
///
/// # Statuses
///
/// If the status is not 0, the buffer is unchanged.
///
/// - 64 if the handle has no node.
/// - 66 if the buffer is too small. The length is then that of the packet.
/// - 10 if out of memory.
#[unsafe(no_mangle)]
pub extern "C" fn swimtab_raw_alive(
    alloc: Global,
    node: &mut Handle,
    inc: u32,
    out: &mut [u8],
) -> Written
    ensures tells { OnSame node.old.node node.new.node
        ((result ≡ record { status = statuses.no_node; len = 0 }) × (out.new ≡ out.old))
        (λ held. SaidOr (record { claim = Alive held.name inc held.details; from = [] })
        out.old out.new result.status result.len IsNoMemory) }
    ensures noted { node.new.changes ≡ node.old.changes }
{
    let Some(held) = node.take(alloc) else {
        return Written::refused(NO_NODE);
    };
    let written = say_alive(alloc, &held.node, inc, out);
    node.put(held);
    written
}

/// Writes the packet of a member's Alive at the incarnation to the buffer, as another member passes
/// it on. The member has a name of 1 to 1,024 bytes, an address of 4 or 16 bytes, a port, metadata
/// of at most 512 bytes, and versions of 0 or 6 bytes. No node is needed.
///
/// # Statuses
///
/// If the status is not 0, the buffer is unchanged.
///
/// - 11 or 12 for the name, else 13 for the address, else 14 for the metadata, else 15 for the
///   versions: the first part that is invalid.
/// - 66 if the buffer is too small. The length is then that of the packet.
/// - 10 if out of memory.
#[unsafe(no_mangle)]
pub extern "C" fn swimtab_raw_alive_of(
    alloc: Global,
    name: &[u8],
    addr: &[u8],
    port: u16,
    meta: &[u8],
    vsn: &[u8],
    inc: u32,
    out: &mut [u8],
) -> Written
    ensures { SaidOr (record {
      claim = Alive name.now inc (told addr.now port meta.now vsn.now);
      from = [];
    }) out.old out.new result.status result.len
        (IsUnmade name.now (told addr.now port meta.now vsn.now)) }
{
    let parts = Parts {
        name,
        addr,
        port,
        meta,
        vsn,
    };
    say_alive_of(alloc, parts, inc, out)
}

/// Writes the packet by which the member suspects the member of this name, of 1 to 1,024 bytes, at
/// the incarnation to the buffer. The node does not change, and need not know the name.
///
/// # Statuses
///
/// If the status is not 0, the buffer is unchanged.
///
/// - 64 if the handle has no node.
/// - 11 if the name is empty, 12 if it is too long.
/// - 66 if the buffer is too small. The length is then that of the packet.
/// - 10 if out of memory.
#[unsafe(no_mangle)]
pub extern "C" fn swimtab_raw_suspect(
    alloc: Global,
    node: &mut Handle,
    name: &[u8],
    inc: u32,
    out: &mut [u8],
) -> Written
    ensures tells { OnSame node.old.node node.new.node
        ((result ≡ record { status = statuses.no_node; len = 0 }) × (out.new ≡ out.old))
        (λ held. SaidOr (record { claim = Suspect name.now inc; from = held.name })
        out.old out.new result.status result.len (IsNoName name.now)) }
    ensures noted { node.new.changes ≡ node.old.changes }
{
    let Some(held) = node.take(alloc) else {
        return Written::refused(NO_NODE);
    };
    let written = say_suspect(alloc, &held.node, name, inc, out);
    node.put(held);
    written
}

/// Writes the packet by which the member declares the member of this name, of 1 to 1,024 bytes,
/// dead at the incarnation to the buffer. The node does not change, and need not know the name.
///
/// # Statuses
///
/// If the status is not 0, the buffer is unchanged.
///
/// - 64 if the handle has no node.
/// - 68 if the name is the member's own: a member that declares itself dead has left.
/// - 11 if the name is empty, 12 if it is too long.
/// - 66 if the buffer is too small. The length is then that of the packet.
/// - 10 if out of memory.
#[unsafe(no_mangle)]
pub extern "C" fn swimtab_raw_confirm(
    alloc: Global,
    node: &mut Handle,
    name: &[u8],
    inc: u32,
    out: &mut [u8],
) -> Written
    ensures tells { OnSame node.old.node node.new.node
        ((result ≡ record { status = statuses.no_node; len = 0 }) × (out.new ≡ out.old))
        (λ held. SaidOr (record { claim = Confirm name.now inc; from = held.name })
        out.old out.new result.status result.len (IsUnsaid held.name name.now)) }
    ensures noted { node.new.changes ≡ node.old.changes }
{
    let Some(held) = node.take(alloc) else {
        return Written::refused(NO_NODE);
    };
    let written = say_confirm(alloc, &held.node, name, inc, out);
    node.put(held);
    written
}

/// Writes the packet of the member's own Leave at the incarnation to the buffer. The node does not
/// change: it has left once it takes that packet in.
///
/// # Statuses
///
/// If the status is not 0, the buffer is unchanged.
///
/// - 64 if the handle has no node.
/// - 66 if the buffer is too small. The length is then that of the packet.
/// - 10 if out of memory.
#[unsafe(no_mangle)]
pub extern "C" fn swimtab_raw_leave(
    alloc: Global,
    node: &mut Handle,
    inc: u32,
    out: &mut [u8],
) -> Written
    ensures tells { OnSame node.old.node node.new.node
        ((result ≡ record { status = statuses.no_node; len = 0 }) × (out.new ≡ out.old))
        (λ held. SaidOr (record { claim = Leave held.name inc; from = held.name })
        out.old out.new result.status result.len IsNoMemory) }
    ensures noted { node.new.changes ≡ node.old.changes }
{
    let Some(held) = node.take(alloc) else {
        return Written::refused(NO_NODE);
    };
    let written = say_leave(alloc, &held.node, inc, out);
    node.put(held);
    written
}

/// Writes the packet by which the member of the name `from` suspects the member of this name, at the
/// incarnation, to the buffer. A name has 1 to 1,024 bytes; that of who says so may be empty. No node
/// is needed.
///
/// # Statuses
///
/// If the status is not 0, the buffer is unchanged.
///
/// - 12 if a name is too long, 11 if the name is empty.
/// - 66 if the buffer is too small. The length is then that of the packet.
/// - 10 if out of memory.
#[unsafe(no_mangle)]
pub extern "C" fn swimtab_raw_suspect_of(
    alloc: Global,
    from: &[u8],
    name: &[u8],
    inc: u32,
    out: &mut [u8],
) -> Written
    ensures { SaidOr (record { claim = Suspect name.now inc; from = from.now })
        out.old out.new result.status result.len (IsUnsaidBy from.now name.now) }
{
    say_suspect_of(alloc, from, name, inc, out)
}

/// Writes the packet by which the member of the name `from` declares the member of this name dead,
/// at the incarnation, to the buffer; a member that declares itself dead leaves. Otherwise as
/// [`swimtab_raw_suspect_of`].
///
/// # Statuses
///
/// Those of [`swimtab_raw_suspect_of`].
#[unsafe(no_mangle)]
pub extern "C" fn swimtab_raw_dead_of(
    alloc: Global,
    from: &[u8],
    name: &[u8],
    inc: u32,
    out: &mut [u8],
) -> Written
    ensures leave { from.now ≡ name.now
        → SaidOr (record { claim = Leave name.now inc; from = name.now })
        out.old out.new result.status result.len (IsUnsaidBy name.now name.now) }
    ensures dead { from.now ≢ name.now
        → SaidOr (record { claim = Confirm name.now inc; from = from.now })
        out.old out.new result.status result.len (IsUnsaidBy from.now name.now) }
{
    say_dead_of(alloc, from, name, inc, out)
}

/// Writes packets to the buffer as one compound packet, each in its canonical bytes. The bytes hold
/// the packets one after another, with these lengths.
///
/// # Statuses
///
/// If the status is not 0, the buffer is unchanged.
///
/// - 69 if there are more than 255 lengths, the most parts that a compound packet has.
/// - 1 to 22 if they are not packets: the fault of the first one that is refused. Also 1 if the
///   bytes end before its length does, and 22 if bytes follow the last.
/// - 66 if the buffer is too small. The length is then that of the compound packet.
/// - 10 if out of memory.
#[unsafe(no_mangle)]
pub extern "C" fn swimtab_raw_compound(
    alloc: Global,
    packets: &[u8],
    lens: &[usize],
    out: &mut [u8],
) -> Written
    ensures { CompoundDone packets.now lens.now
        out.old out.new result.status result.len }
{
    compound_out(alloc, packets, lens, out)
}
