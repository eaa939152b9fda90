//! What a node reports: its listing, its members, and how it relates to another.

ghost use Rattle.std.specs.Prelude.{◌≡◌, ◌+◌, length, slice_get};
ghost use Rattle.swim_table.specs.MemberlistDump.{told_of};
ghost use Rattle.std.specs.Option.{option_copied};
ghost use Rattle.swim_table.specs.Listing.{listing};
ghost use Rattle.swim_table.specs.Table.{after, get};
ghost use Rattle.swim_c.specs.Buffers.{WrittenOr, IsNoMemory};
ghost use Rattle.swim_c.specs.Members.{MemberDone};
ghost use Rattle.swim_c.specs.Relating.{IsRelationNumber};

use crate::copy::{Written, copy_out};
use crate::member::Member;
use crate::status::{DONE, MEMORY, NO_MEMBER};
use std::alloc::Global;
use swim_table::{Entry, Node, Relation, list, memberlist_records, relation};

/// Writes the listing of the node's table to the buffer.
pub fn list_out(alloc: Global, node: &Node, out: &mut [u8]) -> Written
    ensures { WrittenOr (listing node.now.table)
        out.old out.new result.status result.len IsNoMemory }
{
    match list(alloc, node.table()) {
        Ok(text) => copy_out(&text, out),
        Err(_) => Written::refused(MEMORY),
    }
}

/// Copies what the node knows about the i-th member.
pub fn member_at(node: &Node, i: usize, member: &mut Member) -> u32
    ensures { MemberDone (slice_get node.now.table i) member.old member.new result }
{
    copy_entry(node.table().at(i), member)
}

/// Copies what the node knows about the member of this name.
pub fn member_named(node: &Node, name: &[u8], member: &mut Member) -> u32
    ensures { MemberDone (get node.now.table name.now) member.old member.new result }
{
    copy_entry(node.table().get(name), member)
}

/// Copies what the node knows about the member of the first name above this one.
pub fn member_after(node: &Node, name: &[u8], member: &mut Member) -> u32
    ensures { MemberDone (after node.now.table name.now) member.old member.new result }
{
    copy_entry(node.table().after(name), member)
}

/// Copies an entry, if there is one.
fn copy_entry(entry: Option<&Entry>, member: &mut Member) -> u32
    ensures { MemberDone (option_copied entry.entry) member.old member.new result }
{
    match entry {
        Some(entry) => {
            member.fill(entry);
            DONE
        }
        None => NO_MEMBER,
    }
}

/// How many members the dump that memberlist merges leaves out.
pub fn left_out(node: &Node) -> usize
    ensures { result + length (told_of node.now.table) ≡ length node.now.table }
{
    let table = node.table();
    table.len() - memberlist_records(table)
}

/// How the first node's table relates to the second's, as a number.
pub fn relation_of(first: &Node, second: &Node) -> u32
    ensures { IsRelationNumber first.now.table second.now.table result }
{
    match relation(first.table(), second.table()) {
        Relation::Equal => 0,
        Relation::Behind => 1,
        Relation::Ahead => 2,
        Relation::Apart => 3,
    }
}
