//! Bytes in memory of the library: dumps, replies and listings of any length in one call.

ghost use Rattle.std.specs.Prelude.{◌≡◌, false, None};
ghost use Rattle.swim_table.specs.Listing.{listing};
ghost use Rattle.swim_c.specs.Buffers.{IsNoMemory};
ghost use Rattle.swim_c.specs.Called.{AnswerNewCalled};
ghost use Rattle.swim_c.specs.NewBytes.{FilledOr, OfferedNew};
ghost use Rattle.swim_c.specs.OnNode.{OnNode, OnSame};
ghost use Rattle.swim_c.specs.Watching.{Noted, TellsNews};
ghost use Rattle.swim_c.specs.Statuses as statuses;

use crate::buffer::Buffer;
use crate::exchanging::Exchanged;
use crate::filling::{answer_new, list_new, offer_new};
use crate::handle::Handle;
use crate::status::NO_NODE;
use std::alloc::Global;

/// Makes the buffer keep the dump of the node's table, with this join flag and this user
/// state, as `swimtab_raw_offer` writes it. Frees what the buffer kept before. The node does not change.
///
/// # Statuses
///
/// If the status is not 0, the buffer is unchanged.
///
/// - 64 if the handle has no node.
/// - 70 if the form is neither 0 nor 1, or 0 with user state; 21 if there is too much of that.
/// - 23 if the dump has more than 131,072 records.
/// - 10 if out of memory.
#[unsafe(no_mangle)]
pub extern "C" fn swimtab_raw_offer_new(
    alloc: Global,
    node: &mut Handle,
    join: bool,
    form: u32,
    user: &[u8],
    buffer: &mut Buffer,
) -> u32
    ensures tells { OnSame node.old.node node.new.node
        ((result ≡ statuses.no_node) × (buffer.new ≡ buffer.old))
        (λ held. OfferedNew form user.now held.table join buffer.old buffer.new result) }
    ensures noted { node.new.changes ≡ node.old.changes }
{
    let Some(held) = node.take(alloc) else {
        return NO_NODE;
    };
    let status = offer_new(alloc, held.node.table(), join, form, user, buffer);
    node.put(held);
    status
}

/// Answers an offer as `swimtab_raw_answer` does, and makes the buffer keep the reply. Frees what
/// the buffer kept before.
///
/// # Statuses
///
/// If the status is not 0, the node and the buffer are unchanged.
///
/// - 64 if the handle has no node.
/// - 70 if the form is neither 0 nor 1, or 0 with user state; 21 if there is too much of that.
/// - 1 to 21 if the bytes do not begin with a stream: the fault at which reading stops.
/// - 23 if the reply has more than 131,072 records.
/// - 10 if out of memory, for the stream's claims, the reply, the names that change or the join.
#[unsafe(no_mangle)]
pub extern "C" fn swimtab_raw_answer_new(
    alloc: Global,
    node: &mut Handle,
    stream: &[u8],
    form: u32,
    user: &[u8],
    buffer: &mut Buffer,
) -> Exchanged
    ensures answers { AnswerNewCalled form user.now stream.now buffer.old buffer.new result
        node.old.node node.new.node }
    ensures news { OnNode node.old.node node.new.node
        (result.news ≡ false) (TellsNews result.status result.news) }
    ensures noted { OnNode node.old.node node.new.node
        (node.new.changes ≡ node.old.changes)
        (Noted node.old.changes node.new.changes result.status) }
{
    let Some(mut held) = node.take(alloc) else {
        return Exchanged::refused(NO_NODE);
    };
    let exchanged = answer_new(alloc, &mut held, stream, form, user, buffer);
    node.put(held);
    exchanged
}

/// Makes the buffer keep the listing of the node's table (docs/messages.md). Frees what the buffer
/// kept before. The node does not change.
///
/// # Statuses
///
/// If the status is not 0, the buffer is unchanged.
///
/// - 64 if the handle has no node.
/// - 10 if out of memory.
#[unsafe(no_mangle)]
pub extern "C" fn swimtab_raw_list_new(alloc: Global, node: &mut Handle, buffer: &mut Buffer) -> u32
    ensures tells { OnSame node.old.node node.new.node
        ((result ≡ statuses.no_node) × (buffer.new ≡ buffer.old))
        (λ held. FilledOr (listing held.table) buffer.old buffer.new result IsNoMemory) }
    ensures noted { node.new.changes ≡ node.old.changes }
{
    let Some(held) = node.take(alloc) else {
        return NO_NODE;
    };
    let status = list_new(alloc, &held.node, buffer);
    node.put(held);
    status
}

/// Frees the bytes of a buffer, which is then empty. An empty buffer stays empty.
#[unsafe(no_mangle)]
pub extern "C" fn swimtab_raw_free(alloc: Global, buffer: &mut Buffer)
    ensures kept { buffer.new.kept.kept ≡ None }
    ensures len { buffer.new.len ≡ 0 }
{
    buffer.free(alloc);
}
