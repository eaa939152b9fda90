//! Forgetting a name.

ghost use Rattle.swim_c.specs.Forgetting.{ForgetDone, LeavesOut, LetsNameGo};

use crate::status::{DONE, NO_MEMBER};
use crate::watching::Watched;
use swim_table::Table;

/// Forgets a name if the node's table has it, and no longer notes it. Returns a status.
pub fn forget(held: &mut Watched, name: &[u8]) -> u32
    ensures forgets { ForgetDone name.now result held.old.node held.new.node }
    ensures noted { LetsNameGo name.now held.old.changes held.new.changes result }
{
    if !held.node.forget(name) {
        return NO_MEMBER;
    }
    held.changes = left_out(held.changes.take(), name);
    DONE
}

/// The noted names without this one, if names are noted.
fn left_out(changes: Option<Table>, name: &[u8]) -> Option<Table>
    ensures { LeavesOut name.now changes result }
{
    match changes {
        Some(mut noted) => {
            // opens the invariant: the names are a table
            let _ = noted.len();
            noted.forget(name);
            Some(noted)
        }
        None => None,
    }
}
