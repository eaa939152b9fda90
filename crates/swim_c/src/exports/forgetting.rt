//! Forgetting a name, and believing a member that came back.

ghost use Rattle.std.specs.Prelude.{◌≡◌};
ghost use Rattle.swim_c.specs.Called.{ForgetCalled, ReadmitCalled};
ghost use Rattle.swim_c.specs.Forgetting.{LetsNameGo};

use crate::forgetting::forget;
use crate::handle::Handle;
use crate::readmitting::readmit;
use crate::status::NO_NODE;
use std::alloc::Global;

/// Forgets a name: the table is then that of the claims taken in about other names. If the name was
/// noted as changed, it is no longer noted. It takes no memory.
///
/// If the name is the member's own, its own claims go too. Then no refutation is due until the
/// table takes in a claim about the member again. What a packet or stream says about the name later
/// is taken in as about a new one.
///
/// # Statuses
///
/// If the status is not 0, the node and the noted names are unchanged.
///
/// - 64 if the handle has no node.
/// - 67 if the table has no such name.
#[unsafe(no_mangle)]
pub extern "C" fn swimtab_raw_forget(alloc: Global, node: &mut Handle, name: &[u8]) -> u32
    ensures forgets { ForgetCalled name.now result node.old.node node.new.node }
    ensures noted { LetsNameGo name.now node.old.changes node.new.changes result }
{
    let Some(mut held) = node.take(alloc) else {
        return NO_NODE;
    };
    let status = forget(&mut held, name);
    node.put(held);
    status
}

/// Believes a member that came back, whose newest Alive is newer than its death or its leave, as
/// memberlist does: of all claims about it only that Alive is left. A noted name stays noted. It
/// takes memory for a table of this size.
///
/// # Statuses
///
/// If the status is not 0, the node is unchanged.
///
/// - 64 if the handle has no node.
/// - 67 if the table has no such name.
/// - 73 if the member has not come back.
/// - 10 if out of memory.
#[unsafe(no_mangle)]
pub extern "C" fn swimtab_raw_readmit(alloc: Global, node: &mut Handle, name: &[u8]) -> u32
    ensures readmits { ReadmitCalled name.now result node.old.node node.new.node }
    ensures noted { node.new.changes ≡ node.old.changes }
{
    let Some(mut held) = node.take(alloc) else {
        return NO_NODE;
    };
    let status = readmit(alloc, &mut held, name);
    node.put(held);
    status
}
