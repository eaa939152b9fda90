//! The names that change, noted and read.

ghost use Rattle.std.specs.Prelude.{◌≡◌, MatchOption};
ghost use Rattle.swim_c.specs.Members.{MemberDone};
ghost use Rattle.swim_c.specs.OnNode.{OnSame};
ghost use Rattle.swim_c.specs.Watching.{LetsGo, next_entry, start};
ghost use Rattle.swim_c.specs.Statuses as statuses;

use crate::handle::Handle;
use crate::member::Member;
use crate::next_change::next_change;
use crate::status::{DONE, NO_NODE};
use std::alloc::Global;

/// Starts to note the names whose entries change, with none noted yet, or stops and drops the noted
/// names. The node does not change. It takes no memory.
///
/// # Statuses
///
/// 64 if the handle has no node.
#[unsafe(no_mangle)]
pub extern "C" fn swimtab_raw_watch(alloc: Global, node: &mut Handle, on: bool) -> u32
    ensures status { OnSame node.old.node node.new.node (result ≡ statuses.no_node)
        (λ _. result ≡ 0) }
    ensures changes { MatchOption node.old.node (node.new.changes ≡ node.old.changes)
        (λ _. node.new.changes ≡ start on) }
{
    let Some(mut held) = node.take(alloc) else {
        return NO_NODE;
    };
    held.watch(alloc, on);
    node.put(held);
    DONE
}

/// Copies what the node knows about the first noted name, in byte order, and no longer notes that
/// name. It takes no memory.
///
/// # Statuses
///
/// If the status is not 0, `member` and the noted names are unchanged.
///
/// - 64 if the handle has no node.
/// - 67 if no name is noted.
#[unsafe(no_mangle)]
pub extern "C" fn swimtab_raw_next_change(
    alloc: Global,
    node: &mut Handle,
    member: &mut Member,
) -> u32
    ensures tells { OnSame node.old.node node.new.node
        ((result ≡ statuses.no_node) × (member.new ≡ member.old))
        (λ held. MemberDone (next_entry held.table node.old.changes)
        member.old member.new result) }
    ensures changes { LetsGo node.old.changes node.new.changes result }
{
    let Some(mut held) = node.take(alloc) else {
        return NO_NODE;
    };
    let status = next_change(&mut held, member);
    node.put(held);
    status
}
