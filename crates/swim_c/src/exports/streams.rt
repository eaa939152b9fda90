//! The two halves of an exchange.

ghost use Rattle.std.specs.Prelude.{◌≡◌, false};
ghost use Rattle.swim_c.specs.Called.{AnswerCalled, FinishCalled};
ghost use Rattle.swim_c.specs.Exchanges.{OfferedInForm};
ghost use Rattle.swim_c.specs.OnNode.{OnNode, OnSame};
ghost use Rattle.swim_c.specs.Progressing.{IsProgressIn, WholeDone};
ghost use Rattle.swim_c.specs.Watching.{Noted, TellsNews};
ghost use Rattle.swim_c.specs.Statuses as statuses;

use crate::copy::Written;
use crate::exchanging::{Exchanged, answer_in_form, finish_stream, offer_in_form};
use crate::handle::Handle;
use crate::progress::Progress;
use crate::status::NO_NODE;
use std::alloc::Global;

/// Writes the dump of the node's table, with this join flag, to the buffer: the offer that begins
/// an exchange (memberlist's `net.go`). Form 0 is the canonical dump of all that the table keeps,
/// without user state, and form 1 the dump that memberlist merges, with this user state of at most
/// 20,971,520 bytes. The node does not change.
///
/// # Statuses
///
/// If the status is not 0, the buffer is unchanged.
///
/// - 64 if the handle has no node.
/// - 70 if the form is neither, or 0 with user state; 21 if there is too much of that.
/// - 23 if the dump has more than 131,072 records.
/// - 66 if the buffer is too small. The length is then that of the dump.
///
/// It takes no memory.
#[unsafe(no_mangle)]
pub extern "C" fn swimtab_raw_offer(
    alloc: Global,
    node: &mut Handle,
    join: bool,
    form: u32,
    user: &[u8],
    out: &mut [u8],
) -> Written
    ensures tells { OnSame node.old.node node.new.node
        ((result ≡ record { status = statuses.no_node; len = 0 }) × (out.new ≡ out.old))
        (λ held. OfferedInForm form user.now held.table join
        out.old out.new result.status result.len) }
    ensures noted { node.new.changes ≡ node.old.changes }
{
    let Some(held) = node.take(alloc) else {
        return Written::refused(NO_NODE);
    };
    let written = offer_in_form(&held.node, join, form, user, out);
    node.put(held);
    written
}

/// Answers an offer: reads one stream from the start of the bytes, writes the dump of the node's
/// table as it was before, with the stream's join flag, to the buffer, and takes the stream's
/// claims in (memberlist's `net.go`). Form 0 is the canonical dump, and form 1 the dump that
/// memberlist merges, with this user state.
///
/// # Statuses
///
/// If the status is not 0, the node and the buffer are unchanged.
///
/// - 64 if the handle has no node.
/// - 70 if the form is neither, or 0 with user state; 21 if there is too much of that.
/// - 1 to 21 if the bytes do not begin with a stream: the fault at which reading stops.
/// - 23 if the dump has more than 131,072 records.
/// - 66 if the buffer is too small. The length is then that of the reply.
/// - 10 if out of memory, for the stream's claims, the names that change or the join. The reply
///   takes none.
#[unsafe(no_mangle)]
pub extern "C" fn swimtab_raw_answer(
    alloc: Global,
    node: &mut Handle,
    stream: &[u8],
    form: u32,
    user: &[u8],
    out: &mut [u8],
) -> Exchanged
    ensures answers { AnswerCalled form user.now stream.now out.old out.new result
        node.old.node node.new.node }
    ensures news { OnNode node.old.node node.new.node
        (result.news ≡ false) (TellsNews result.status result.news) }
    ensures noted { OnNode node.old.node node.new.node
        (node.new.changes ≡ node.old.changes)
        (Noted node.old.changes node.new.changes result.status) }
{
    let Some(mut held) = node.take(alloc) else {
        return Exchanged::refused(NO_NODE);
    };
    let exchanged = answer_in_form(alloc, &mut held, stream, form, user, out);
    node.put(held);
    exchanged
}

/// Finishes an exchange: reads one stream, the reply, from the start of the bytes, and takes its
/// claims in (memberlist's `net.go`). Any dump can be taken in this way.
///
/// # Statuses
///
/// If the status is not 0, the node is unchanged.
///
/// - 64 if the handle has no node.
/// - 1 to 21 if the bytes do not begin with a stream: the fault at which reading stops.
/// - 10 if out of memory.
#[unsafe(no_mangle)]
pub extern "C" fn swimtab_raw_finish(alloc: Global, node: &mut Handle, stream: &[u8]) -> Exchanged
    ensures finishes { FinishCalled stream.now result node.old.node node.new.node }
    ensures news { OnNode node.old.node node.new.node
        (result.news ≡ false) (TellsNews result.status result.news) }
    ensures noted { OnNode node.old.node node.new.node
        (node.new.changes ≡ node.old.changes)
        (Noted node.old.changes node.new.changes result.status) }
{
    let Some(mut held) = node.take(alloc) else {
        return Exchanged::refused(NO_NODE);
    };
    let exchanged = finish_stream(alloc, &mut held, stream);
    node.put(held);
    exchanged
}

/// Returns whether the bytes begin with a whole stream, if they come in pieces. For the first call
/// the progress is all zero. Each later call gets it as the last call left it, and bytes that begin
/// with those of the last call. It resumes after the last whole record, so that each record is read
/// once. It needs no node and keeps no memory.
///
/// If the status is 0, the length of the stream is the place in the progress plus the length of the
/// user state. Nothing is taken into a node: the answer and the finish read the stream once more.
///
/// # Statuses
///
/// - 1 if the bytes end before the stream does: with more bytes there may be one.
/// - 2 to 21 if the bytes do not begin with a stream: the fault at which reading stops.
/// - 10 if out of memory for a record. The same call may be made again.
#[unsafe(no_mangle)]
pub extern "C" fn swimtab_raw_whole(alloc: Global, progress: &mut Progress, bytes: &[u8]) -> u32
    ensures progress { IsProgressIn bytes.now progress.old
        → IsProgressIn bytes.now progress.new }
    ensures done { IsProgressIn bytes.now progress.old
        → WholeDone bytes.now progress.new result }
{
    progress.read_on(alloc, bytes)
}
