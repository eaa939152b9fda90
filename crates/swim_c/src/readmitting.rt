//! Members that came back, believed.

ghost use Rattle.std.specs.Prelude.{◌≡◌, ◌+◌, ◌≤◌, ◌∷◌, [], length, IfOk, OnErr, MatchOption};
ghost use Rattle.swim_table.specs.Table.{TableOf};
ghost use Rattle.swim_c.specs.Updating.{IsBack, IsItsAlive, ReadmitDone};

use crate::claims::{alive_of, table_of_one};
use crate::status::{DONE, MEMORY, NO_MEMBER, NOT_BACK};
use crate::watching::Watched;
use std::alloc::{AllocError, Global};
use swim_claim::Claim;
use swim_table::{Entry, Room, Table};

/// Forgets all that was said about a member that came back, but its newest Alive. Returns a status.
pub fn readmit(alloc: Global, held: &mut Watched, name: &[u8]) -> u32
    ensures readmits { ReadmitDone name.now result held.old.node held.new.node }
    ensures noted { held.new.changes ≡ held.old.changes }
{
    let Some(entry) = held.node.table().get(name) else {
        return NO_MEMBER;
    };
    let alive = match newest(alloc, entry) {
        Ok(Some(alive)) => alive,
        Ok(None) => return NOT_BACK,
        Err(_) => return MEMORY,
    };
    let Ok((alive, room)) = prepared(alloc, held.node.table(), alive) else {
        return MEMORY;
    };
    held.node.forget(name);
    held.node.join_in(room, alive);
    DONE
}

/// The newest Alive of a member that came back, or none if it has not.
fn newest(alloc: Global, entry: &Entry) -> Result<Option<Claim>, AllocError>
    ensures alive { IfOk result (λ alive. MatchOption alive (¬ IsBack entry.now)
        (IsItsAlive entry.now)) }
    ensures asks { OnErr result (IsBack entry.now) }
{
    let (Some(inc), Some(details)) = (entry.home_inc(), entry.home_details()) else {
        return Ok(None);
    };
    if inc <= entry.inc() {
        return Ok(None);
    }
    let alive = alive_of(alloc, entry.name(), inc, details)?;
    Ok(Some(alive))
}

/// The table of this claim alone, and room for the entries of both tables.
fn prepared(alloc: Global, table: &Table, claim: Claim) -> Result<(Table, Room), AllocError>
    ensures alive { IfOk result (λ made. TableOf made.0 (claim ∷ [])) }
    ensures room { IfOk result (λ made. length table.now + length made.0 ≤ made.1) }
{
    let alone = table_of_one(alloc, claim)?;
    let room = Room::new(alloc, table.len() + alone.len())?;
    Ok((alone, room))
}
