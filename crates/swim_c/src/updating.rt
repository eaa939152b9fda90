//! A member's own details, replaced.

ghost use Rattle.std.specs.Prelude.{◌≡◌, ◌≢◌};
ghost use Rattle.swim_c.specs.Opening.{told};
ghost use Rattle.swim_c.specs.Updating.{UpdateDone};
ghost use Rattle.swim_c.specs.Watching.{Noted};

use crate::opening::{Parts, copied};
use crate::refuting::{Refuted, refute};
use crate::status::DONE;
use crate::watching::Watched;
use std::alloc::Global;

/// Gives the member these details, and refutes what its table says about it. The name in the parts
/// is not used.
pub fn update(alloc: Global, held: &mut Watched, parts: Parts) -> Refuted
    ensures updates { UpdateDone
        (told parts.entry.addr.now parts.entry.port parts.entry.meta.now parts.entry.vsn.now)
        result.status result.due result.inc held.old.node held.new.node }
    ensures noted { Noted held.old.changes held.new.changes
        result.status held.old.node held.new.node }
{
    let name = held.node.name().bytes();
    let details = match copied(alloc, Parts { name, ..parts }) {
        Ok((_, details)) => details,
        Err(fault) => return Refuted::unmade(fault.number()),
    };
    let old = held.node.replace_details(details);
    let refuted = refute(alloc, held);
    if refuted.status != DONE {
        held.node.replace_details(old);
    }
    refuted
}
