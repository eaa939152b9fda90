//! Opening and closing a node, and giving its member other details.

ghost use Rattle.std.specs.Prelude.{◌≡◌, ◌≢◌, None, MatchOption};
ghost use Rattle.swim_c.specs.Called.{UpdateCalled};
ghost use Rattle.swim_c.specs.OnNode.{OnNode};
ghost use Rattle.swim_c.specs.Watching.{Noted};
ghost use Rattle.swim_c.specs.Opening.{OpenDone, told};
ghost use Rattle.swim_c.specs.Statuses as statuses;

use crate::handle::Handle;
use crate::opening::{Parts, open};
use crate::refuting::Refuted;
use crate::status::{DONE, NO_NODE, NODE_THERE};
use crate::updating::update;
use std::alloc::Global;

/// Puts a new member's node into a handle without one. The member has a name of 1 to 1,024 bytes,
/// an address of 4 or 16 bytes, a port, metadata of at most 512 bytes, and versions of 0 or 6
/// bytes. The table holds its Alive at the incarnation, 0 to 4,294,967,295 (own). The node does not
/// note names.
///
/// # Statuses
///
/// If the status is not 0, the handle is unchanged.
///
/// - 65 if the handle has a node.
/// - 11 or 12 for the name, else 13 for the address, else 14 for the metadata, else 15 for the
///   versions: the first part that is invalid.
/// - 10 if out of memory.
#[unsafe(no_mangle)]
pub extern "C" fn swimtab_raw_open(
    alloc: Global,
    node: &mut Handle,
    name: &[u8],
    addr: &[u8],
    port: u16,
    meta: &[u8],
    vsn: &[u8],
    inc: u32,
) -> u32
    ensures opens { OpenDone name.now (told addr.now port meta.now vsn.now) inc
        node.old.node node.new.node result }
    ensures unnoted { result ≡ 0 → node.new.changes ≡ None }
    ensures noted { result ≢ 0 → node.new.changes ≡ node.old.changes }
{
    if let Some(held) = node.take(alloc) {
        node.put(held);
        return NODE_THERE;
    }
    let parts = Parts {
        name,
        addr,
        port,
        meta,
        vsn,
    };
    match open(alloc, parts, inc) {
        Ok(made) => {
            node.put(made);
            DONE
        }
        Err(fault) => fault.number(),
    }
}

/// Gives the member other details: an address of 4 or 16 bytes, a port, metadata of at most 512
/// bytes, and versions of 0 or 6 bytes. If its table says otherwise, the member is then alive with
/// them at the next incarnation, as after a refutation, and that incarnation is returned.
///
/// # Statuses
///
/// If the status is not 0, the node and the noted names are unchanged.
///
/// - 64 if the handle has no node.
/// - 13 for the address, else 14 for the metadata, else 15 for the versions: the first part that is
///   invalid.
/// - 25 if the member was declared dead, or left, and 24 if there is no greater incarnation.
/// - 10 if out of memory.
#[unsafe(no_mangle)]
pub extern "C" fn swimtab_raw_update(
    alloc: Global,
    node: &mut Handle,
    addr: &[u8],
    port: u16,
    meta: &[u8],
    vsn: &[u8],
) -> Refuted
    ensures updates { UpdateCalled (told addr.now port meta.now vsn.now) result
        node.old.node node.new.node }
    ensures noted { OnNode node.old.node node.new.node (node.new.changes ≡ node.old.changes)
        (Noted node.old.changes node.new.changes result.status) }
{
    let Some(mut held) = node.take(alloc) else {
        return Refuted::unmade(NO_NODE);
    };
    let parts = Parts {
        name: &[],
        addr,
        port,
        meta,
        vsn,
    };
    let updated = update(alloc, &mut held, parts);
    node.put(held);
    updated
}

/// Frees the node of a handle, which is then empty.
///
/// # Statuses
///
/// 64 if the handle has no node.
#[unsafe(no_mangle)]
pub extern "C" fn swimtab_raw_close(alloc: Global, node: &mut Handle) -> u32
    ensures none { node.new.node ≡ None }
    ensures unnoted { node.new.changes ≡ None }
    ensures status { MatchOption node.old.node (result ≡ statuses.no_node) (λ _. result ≡ 0) }
{
    match node.take(alloc) {
        Some(_) => DONE,
        None => NO_NODE,
    }
}
