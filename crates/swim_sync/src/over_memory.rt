//! Exchanges over memory, where no inlet or outlet fails.

ghost use Rattle.std.specs.Prelude.{◌≡◌, ◌⊎◌, ◌++◌, List, IsTrue, IfOk, IfErr, OnOk, OnErr};
ghost use Rattle.swim_claim.specs.declared.claim.Claim.{Claim};
ghost use Rattle.swim_table.specs.Table.{Entries, TableOf};
ghost use Rattle.swim_sync.specs.Exchanging.{HasTooMany};
ghost use Rattle.swim_sync.specs.OverMemory.{IsOffer, TakesTable, Hinders};

use crate::fault::SyncFault;
use crate::push_pull::{answer, exchange_few, has_too_many, offer};
use crate::stop::Why;
use std::alloc::Global;
use swim_pack::{SliceInlet, VecOutlet};
use swim_table::{Relation, Table, relation};

/// The offer of a table.
pub(crate) fn offered(alloc: Global, table: &Table) -> Result<VecOutlet, Why>
    ensures offers { IfOk result (IsOffer table.now) }
    ensures refused { IfErr result (Hinders (HasTooMany table.now)) }
{
    // opens the invariant: the table is legal
    let _ = table.len();
    let mut outlet = VecOutlet::new(alloc);
    match offer(alloc, &mut outlet, table, false) {
        Ok(()) => Ok(outlet),
        Err(SyncFault::TooManyRecords) => Err(Why::TooManyRecords),
        Err(SyncFault::Memory) => Err(Why::Memory),
        Err(SyncFault::Wire(_) | SyncFault::Push) => unreachable!(),
    }
}

/// Answers the offer of a table, and drops the reply. If refused, the table is unchanged.
pub(crate) fn answered(alloc: Global, offer: &[u8], table: &mut Table) -> Result<(), Why>
    requires { (other : Entries) × IsOffer other offer.now }
    ensures takes { OnOk result ((other : Entries) → IsOffer other offer.now
        → TakesTable table.old table.new other) }
    ensures few { OnOk result (¬ HasTooMany table.old) }
    ensures unchanged { OnErr result (table.new ≡ table.old) }
    ensures refused { IfErr result (Hinders (HasTooMany table.old)) }
{
    let mut lost = VecOutlet::new(alloc);
    match answer(alloc, &mut SliceInlet::new(offer), &mut lost, table) {
        Ok(_) => Ok(()),
        Err(SyncFault::TooManyRecords) => Err(Why::TooManyRecords),
        Err(SyncFault::Memory) => Err(Why::Memory),
        Err(SyncFault::Wire(_)) => unreachable!(),
        Err(SyncFault::Push) => unreachable!(),
    }
}

/// Exchanges two tables. If they are already equal, this costs one comparison, and nothing if they
/// are known to be alike. If refused, both are unchanged.
pub(crate) fn exchanged(
    alloc: Global,
    first: &mut Table,
    second: &mut Table,
    alike: bool,
) -> Result<(), Why>
    requires { IsTrue alike → first.old ≡ second.old }
    ensures all { OnOk result ((claims others : List Claim) → TableOf first.old claims
        → TableOf second.old others
        → TableOf first.new (claims ++ others) × TableOf second.new (claims ++ others)) }
    ensures same { OnOk result (first.new ≡ second.new) }
    ensures few { OnOk result (¬ (HasTooMany first.old ⊎ HasTooMany second.old)) }
    ensures unchanged { OnErr result ((first.new ≡ first.old) × (second.new ≡ second.old)) }
    ensures refused { IfErr result (Hinders (HasTooMany first.old ⊎ HasTooMany second.old)) }
{
    if has_too_many(first) || has_too_many(second) {
        return Err(Why::TooManyRecords);
    }
    if alike {
        return Ok(());
    }
    match relation(first, second) {
        Relation::Equal => Ok(()),
        Relation::Behind | Relation::Ahead | Relation::Apart => {
            match exchange_few(alloc, first, second) {
                Ok(()) => Ok(()),
                Err(_) => Err(Why::Memory),
            }
        }
    }
}
