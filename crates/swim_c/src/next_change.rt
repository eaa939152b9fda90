//! The names that a node noted, read one by one.

ghost use Rattle.std.specs.Prelude.{◌≡◌, Some};
ghost use Rattle.swim_c.specs.Members.{MemberDone};
ghost use Rattle.swim_c.specs.Watching.{LetsGo, next_entry};

use crate::member::Member;
use crate::status::{DONE, NO_MEMBER};
use crate::watching::Watched;
use swim_table::{Node, Table};

/// Copies what the node knows about the first noted name, and no longer notes that name.
pub fn next_change(held: &mut Watched, member: &mut Member) -> u32
    ensures node { held.new.node ≡ held.old.node }
    ensures member { MemberDone (next_entry held.old.node.table held.old.changes)
        member.old member.new result }
    ensures changes { LetsGo held.old.changes held.new.changes result }
{
    match &mut held.changes {
        Some(noted) => next_noted(&held.node, noted, member),
        None => NO_MEMBER,
    }
}

/// Copies what the node knows about the first of the names, and removes that name.
fn next_noted(node: &Node, noted: &mut Table, member: &mut Member) -> u32
    ensures member { MemberDone (next_entry node.now.table (Some noted.old))
        member.old member.new result }
    ensures changes { LetsGo (Some noted.old) (Some noted.new) result }
{
    // opens the invariant: the names are a table
    let _ = noted.len();
    let Some(first) = noted.at(0) else {
        return NO_MEMBER;
    };
    let Some(entry) = node.table().get(first.name().bytes()) else {
        return NO_MEMBER;
    };
    member.fill(entry);
    noted.forget(entry.name().bytes());
    DONE
}
