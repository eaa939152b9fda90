//! Views: the members as memberlist shows them, with times, events and accusers.

ghost use Rattle.std.specs.Prelude.{◌≡◌, ◌+◌, length, None, Some, MatchOption};
ghost use Rattle.memberlist_view.specs.Member.{view_without_dropped};
ghost use Rattle.swim_c.specs.declared.view.held.HeldView.{HeldView};
ghost use Rattle.swim_c.specs.Views.{MessageTold, OnSameView, OnView, RecordTold, ViewOpened};
ghost use Rattle.swim_c.specs.ViewMembers.{AccuserDone, AfterDone, FindDone, ViewOffered};
ghost use Rattle.swim_c.specs.Statuses as statuses;

use crate::buffer::Buffer;
use crate::copy::Written;
use crate::progress::Progress;
use crate::status::{DONE, MEMORY, NO_NODE, NODE_THERE};
use crate::view::handle::ViewHandle;
use crate::view::hearing::{Told, take_message, take_record};
use crate::view::held::HeldView;
use crate::view::offering::offer;
use crate::view::query::{accuser_out, after, find};
use crate::view::shown::Shown;
use std::alloc::Global;

/// Puts the view of a member that heard nothing into a handle without one. It forgets a member that
/// is gone after this wait in microseconds.
///
/// # Statuses
///
/// If the status is not 0, the handle is unchanged.
///
/// - 65 if the handle has a view.
/// - 10 if out of memory.
#[unsafe(no_mangle)]
pub extern "C" fn swimtab_raw_view_open(alloc: Global, view: &mut ViewHandle, wait: u64) -> u32
    ensures { ViewOpened wait view.old.view view.new.view result }
{
    if let Some(held) = view.take(alloc) {
        view.put(held);
        return NODE_THERE;
    }
    match HeldView::boxed(alloc, wait) {
        Ok(made) => {
            view.put(made);
            DONE
        }
        Err(_) => MEMORY,
    }
}

/// Frees the view of a handle, which is then empty.
///
/// # Statuses
///
/// 64 if the handle has no view.
#[unsafe(no_mangle)]
pub extern "C" fn swimtab_raw_view_close(alloc: Global, view: &mut ViewHandle) -> u32
    ensures none { view.new.view ≡ None }
    ensures status { MatchOption view.old.view (result ≡ statuses.no_node) (λ _. result ≡ 0) }
{
    match view.take(alloc) {
        Some(_) => DONE,
        None => NO_NODE,
    }
}

/// Tells the view the claim of a message that came at this time, and copies what it then shows of
/// the member if there is an event.
///
/// # Statuses
///
/// If the status is not 0, nothing changes.
///
/// - 64 if the handle has no view.
/// - 16 if the message makes no claim; 1 to 18 if it is none: the fault at which reading stops.
/// - 10 if out of memory.
#[unsafe(no_mangle)]
pub extern "C" fn swimtab_raw_view_take(
    alloc: Global,
    view: &mut ViewHandle,
    time: u64,
    message: &[u8],
    member: &mut Shown,
) -> Told
    ensures { OnView view.old.view view.new.view
        ((result ≡ record { status = statuses.no_node; event = 0 }) × (member.new ≡ member.old))
        (λ before after. MessageTold time message.now result.status result.event
        before after member.old member.new) }
{
    let Some(mut held) = view.take(alloc) else {
        return Told::refused(NO_NODE);
    };
    let told = take_message(alloc, &mut held.view, time, message, member);
    view.put(held);
    told
}

/// Tells the view the next record of a stream that came at this time, and copies what it then shows
/// of the member if there is an event. For the first call the progress is all zero.
///
/// # Statuses
///
/// If the status is not 0, the view is unchanged.
///
/// - 64 if the handle has no view.
/// - 71 if no record is left.
/// - 1 to 20 if there is no record: the fault at which reading stops.
/// - 10 if out of memory. The same call may be made again.
#[unsafe(no_mangle)]
pub extern "C" fn swimtab_raw_view_merge(
    alloc: Global,
    view: &mut ViewHandle,
    time: u64,
    progress: &mut Progress,
    stream: &[u8],
    member: &mut Shown,
) -> Told
    ensures { OnView view.old.view view.new.view
        ((result ≡ record { status = statuses.no_node; event = 0 })
        × (progress.new ≡ progress.old) × (member.new ≡ member.old))
        (λ before after. RecordTold time stream.now progress.old progress.new
        result.status result.event before after member.old member.new) }
{
    let Some(mut held) = view.take(alloc) else {
        return Told::refused(NO_NODE);
    };
    let told = take_record(alloc, &mut held.view, time, progress, stream, member);
    view.put(held);
    told
}

/// Forgets the members that at this time have been dead, or have left, for longer than the wait,
/// and those that are only noted, and returns how many these are; 0 if the handle has no view.
#[unsafe(no_mangle)]
pub extern "C" fn swimtab_raw_view_forget(alloc: Global, view: &mut ViewHandle, time: u64) -> usize
    ensures { OnView view.old.view view.new.view (result ≡ 0)
        (λ before after. (after ≡ view_without_dropped before time)
        × (result + length after.entries ≡ length before.entries)) }
{
    match view.take(alloc) {
        Some(mut held) => {
            let count = held.view.forget(time);
            view.put(held);
            count
        }
        None => 0,
    }
}

/// How many members the view shows, or 0 if the handle has no view.
#[unsafe(no_mangle)]
pub extern "C" fn swimtab_raw_view_count(alloc: Global, view: &mut ViewHandle) -> usize
    ensures { OnSameView view.old.view view.new.view (result ≡ 0)
        (λ held. result ≡ length held.entries) }
{
    match view.take(alloc) {
        Some(held) => {
            let count = held.view.len();
            view.put(held);
            count
        }
        None => 0,
    }
}

/// Copies what the view shows of the member of this name.
///
/// # Statuses
///
/// If the status is not 0, `member` is unchanged.
///
/// - 64 if the handle has no view.
/// - 67 if the view shows no such member.
/// - 10 if out of memory for a copy of the name.
#[unsafe(no_mangle)]
pub extern "C" fn swimtab_raw_view_find(
    alloc: Global,
    view: &mut ViewHandle,
    name: &[u8],
    member: &mut Shown,
) -> u32
    ensures { OnSameView view.old.view view.new.view
        ((result ≡ statuses.no_node) × (member.new ≡ member.old))
        (λ held. FindDone held name.now result member.old member.new) }
{
    let Some(held) = view.take(alloc) else {
        return NO_NODE;
    };
    let status = find(alloc, &held.view, name, member);
    view.put(held);
    status
}

/// Copies what the view shows of the member of the first name above this one, in byte order,
/// whether or not it shows this one. A walk begins with an empty name.
///
/// # Statuses
///
/// If the status is not 0, `member` is unchanged.
///
/// - 64 if the handle has no view.
/// - 67 if no name is above this one.
/// - 12 if the name has more than 1,024 bytes.
/// - 10 if out of memory for a copy of the name.
#[unsafe(no_mangle)]
pub extern "C" fn swimtab_raw_view_after(
    alloc: Global,
    view: &mut ViewHandle,
    name: &[u8],
    member: &mut Shown,
) -> u32
    ensures { OnSameView view.old.view view.new.view
        ((result ≡ statuses.no_node) × (member.new ≡ member.old))
        (λ held. AfterDone held name.now result member.old member.new) }
{
    let Some(held) = view.take(alloc) else {
        return NO_NODE;
    };
    let status = after(alloc, &held.view, name, member);
    view.put(held);
    status
}

/// Writes the name of the i-th of those that suspect the member of this name, from 0.
///
/// # Statuses
///
/// If the status is not 0, the buffer is unchanged.
///
/// - 64 if the handle has no view.
/// - 67 if the view shows no such member.
/// - 71 if i or fewer suspect it.
/// - 66 if the buffer is too small. The length is then that of the name.
/// - 10 if out of memory for a copy of the member's name.
#[unsafe(no_mangle)]
pub extern "C" fn swimtab_raw_view_accuser(
    alloc: Global,
    view: &mut ViewHandle,
    name: &[u8],
    i: usize,
    out: &mut [u8],
) -> Written
    ensures { OnSameView view.old.view view.new.view
        ((result ≡ record { status = statuses.no_node; len = 0 }) × (out.new ≡ out.old))
        (λ held. AccuserDone held name.now i out.old out.new result.status result.len) }
{
    let Some(held) = view.take(alloc) else {
        return Written::refused(NO_NODE);
    };
    let written = accuser_out(alloc, &held.view, name, i, out);
    view.put(held);
    written
}

/// Makes the buffer keep the stream of what the view shows, with this join flag and this user
/// state, as memberlist merges it. Frees what the buffer kept before.
///
/// # Statuses
///
/// If the status is not 0, the buffer is unchanged.
///
/// - 64 if the handle has no view.
/// - 21 if there is too much user state.
/// - 23 if the stream has more than 131,072 records.
/// - 10 if out of memory.
#[unsafe(no_mangle)]
pub extern "C" fn swimtab_raw_view_offer(
    alloc: Global,
    view: &mut ViewHandle,
    join: bool,
    user: &[u8],
    buffer: &mut Buffer,
) -> u32
    ensures { OnSameView view.old.view view.new.view
        ((result ≡ statuses.no_node) × (buffer.new ≡ buffer.old))
        (λ held. ViewOffered held user.now join buffer.old buffer.new result) }
{
    let Some(held) = view.take(alloc) else {
        return NO_NODE;
    };
    let status = offer(alloc, &held.view, join, user, buffer);
    view.put(held);
    status
}
