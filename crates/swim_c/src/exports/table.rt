//! What a node knows.

ghost use Rattle.std.specs.Prelude.{◌≡◌, ◌⊎◌, ◌+◌, length, slice_get, Some, None, MatchOption};
ghost use Rattle.swim_table.specs.Listing.{listing};
ghost use Rattle.swim_table.specs.MemberlistDump.{told_of};
ghost use Rattle.swim_table.specs.Node.{NodeValue};
ghost use Rattle.swim_table.specs.Table.{after, get};
ghost use Rattle.swim_c.specs.Buffers.{WrittenOr, IsNoMemory};
ghost use Rattle.swim_c.specs.Members.{MemberDone};
ghost use Rattle.swim_c.specs.OnNode.{OnSame};
ghost use Rattle.swim_c.specs.Relating.{IsRelationNumber};
ghost use Rattle.swim_c.specs.Statuses as statuses;

use crate::copy::Written;
use crate::handle::Handle;
use crate::member::Member;
use crate::query::{left_out, list_out, member_after, member_at, member_named, relation_of};
use crate::status::{DONE, NO_NODE};
use std::alloc::Global;

/// The number of members that the node knows, itself included, or 0 if the handle has no node.
#[unsafe(no_mangle)]
pub extern "C" fn swimtab_raw_count(alloc: Global, node: &mut Handle) -> usize
    ensures same { node.new.node ≡ node.old.node }
    ensures noted { node.new.changes ≡ node.old.changes }
    ensures count { MatchOption node.old.node (result ≡ 0) (λ held. result ≡ length held.table) }
{
    match node.take(alloc) {
        Some(held) => {
            let count = held.node.table().len();
            node.put(held);
            count
        }
        None => 0,
    }
}

/// Copies what the node knows about its i-th member, from 0, in ascending byte order of the names.
///
/// # Statuses
///
/// If the status is not 0, `member` is unchanged.
///
/// - 64 if the handle has no node.
/// - 67 if the node knows i members or fewer.
#[unsafe(no_mangle)]
pub extern "C" fn swimtab_raw_member(
    alloc: Global,
    node: &mut Handle,
    i: usize,
    member: &mut Member,
) -> u32
    ensures tells { OnSame node.old.node node.new.node
        ((result ≡ statuses.no_node) × (member.new ≡ member.old))
        (λ held. MemberDone (slice_get held.table i) member.old member.new result) }
    ensures noted { node.new.changes ≡ node.old.changes }
{
    let Some(held) = node.take(alloc) else {
        return NO_NODE;
    };
    let status = member_at(&held.node, i, member);
    node.put(held);
    status
}

/// Copies what the node knows about the member of this name.
///
/// # Statuses
///
/// If the status is not 0, `member` is unchanged.
///
/// - 64 if the handle has no node.
/// - 67 if the node knows no such member.
#[unsafe(no_mangle)]
pub extern "C" fn swimtab_raw_find(
    alloc: Global,
    node: &mut Handle,
    name: &[u8],
    member: &mut Member,
) -> u32
    ensures tells { OnSame node.old.node node.new.node
        ((result ≡ statuses.no_node) × (member.new ≡ member.old))
        (λ held. MemberDone (get held.table name.now) member.old member.new result) }
    ensures noted { node.new.changes ≡ node.old.changes }
{
    let Some(held) = node.take(alloc) else {
        return NO_NODE;
    };
    let status = member_named(&held.node, name, member);
    node.put(held);
    status
}

/// Copies what the node knows about the member of the first name above this one, in byte order,
/// whether or not the node knows this one. So a walk goes on from the name where it was, whatever
/// changed in between; it begins with an empty name.
///
/// # Statuses
///
/// If the status is not 0, `member` is unchanged.
///
/// - 64 if the handle has no node.
/// - 67 if no name is above this one.
#[unsafe(no_mangle)]
pub extern "C" fn swimtab_raw_after(
    alloc: Global,
    node: &mut Handle,
    name: &[u8],
    member: &mut Member,
) -> u32
    ensures tells { OnSame node.old.node node.new.node
        ((result ≡ statuses.no_node) × (member.new ≡ member.old))
        (λ held. MemberDone (after held.table name.now) member.old member.new result) }
    ensures noted { node.new.changes ≡ node.old.changes }
{
    let Some(held) = node.take(alloc) else {
        return NO_NODE;
    };
    let status = member_after(&held.node, name, member);
    node.put(held);
    status
}

/// How many members a dump of form 1 leaves out, because no Alive of them with sound versions is
/// known; 0 if the handle has no node.
#[unsafe(no_mangle)]
pub extern "C" fn swimtab_raw_left_out(alloc: Global, node: &mut Handle) -> usize
    ensures same { node.new.node ≡ node.old.node }
    ensures noted { node.new.changes ≡ node.old.changes }
    ensures count { MatchOption node.old.node (result ≡ 0)
        (λ held. result + length (told_of held.table) ≡ length held.table) }
{
    match node.take(alloc) {
        Some(held) => {
            let count = left_out(&held.node);
            node.put(held);
            count
        }
        None => 0,
    }
}

/// Writes the listing of the node's table to the buffer (docs/messages.md).
///
/// # Statuses
///
/// If the status is not 0, the buffer is unchanged.
///
/// - 64 if the handle has no node.
/// - 66 if the buffer is too small. The length is then that of the listing.
/// - 10 if out of memory.
#[unsafe(no_mangle)]
pub extern "C" fn swimtab_raw_list(alloc: Global, node: &mut Handle, out: &mut [u8]) -> Written
    ensures tells { OnSame node.old.node node.new.node
        ((result ≡ record { status = statuses.no_node; len = 0 }) × (out.new ≡ out.old))
        (λ held. WrittenOr (listing held.table)
        out.old out.new result.status result.len IsNoMemory) }
    ensures noted { node.new.changes ≡ node.old.changes }
{
    let Some(held) = node.take(alloc) else {
        return Written::refused(NO_NODE);
    };
    let written = list_out(alloc, &held.node, out);
    node.put(held);
    written
}

/// The result of a comparison.
#[repr(C)]
#[derive(Clone, Copy)]
pub struct Related {
    pub status: u32,
    /// 0 equal, 1 behind, 2 ahead, 3 apart.
    pub relation: u32,
}

/// How the first node's table relates to the second's. Neither changes.
///
/// # Statuses
///
/// 64 if one of the handles has no node.
#[unsafe(no_mangle)]
pub extern "C" fn swimtab_raw_relate(
    alloc: Global,
    first: &mut Handle,
    second: &mut Handle,
) -> Related
    ensures first { first.new.node ≡ first.old.node }
    ensures second { second.new.node ≡ second.old.node }
    ensures first_noted { first.new.changes ≡ first.old.changes }
    ensures second_noted { second.new.changes ≡ second.old.changes }
    ensures none { (first.old.node ≡ None) ⊎ (second.old.node ≡ None)
        → result ≡ record { status = statuses.no_node; relation = 0 } }
    ensures relation { (left right : NodeValue)
        → first.old.node ≡ Some left → second.old.node ≡ Some right
        → (result.status ≡ 0) × IsRelationNumber left.table right.table result.relation }
{
    let Some(left) = first.take(alloc) else {
        return Related::refused();
    };
    let related = match second.take(alloc) {
        Some(right) => {
            let relation = relation_of(&left.node, &right.node);
            second.put(right);
            Related {
                status: DONE,
                relation,
            }
        }
        None => Related::refused(),
    };
    first.put(left);
    related
}

impl Related {
    fn refused() -> Related
        ensures { result ≡ record { status = statuses.no_node; relation = 0 } }
    {
        Related {
            status: NO_NODE,
            relation: 0,
        }
    }
}
