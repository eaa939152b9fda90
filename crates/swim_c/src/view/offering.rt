//! A view as a stream for memberlist.

ghost use Rattle.std.specs.Prelude.{◌≡◌, ◌++◌, ◌∷◌, [], List, IfOk, OnOk, OnErr};
ghost use Rattle.swim_claim.specs.declared.claim.Claim.{Claim};
ghost use Rattle.swim_table.specs.Table.{TableOf};
ghost use Rattle.swim_claim.specs.declared.claim.Claim.TheVariants as alive;
ghost use Rattle.swim_c.specs.ViewMembers.{ViewOffered, claims_in_state, claims_of, claims_shown};

use crate::buffer::Buffer;
use crate::claims::alive_of;
use crate::filling::offer_new;
use crate::status::MEMORY;
use memberlist_view::{Entry, MemberName, State, View};
use std::alloc::{AllocError, Global};
use swim_claim::{Claim, Details, Name};
use swim_table::Table;

/// The number of the form that memberlist merges.
const MEMBERLIST: u32 = 1;

/// Fills the buffer with the stream of what the view shows, with this user state. Returns a status.
pub fn offer(alloc: Global, view: &View, join: bool, user: &[u8], buffer: &mut Buffer) -> u32
    ensures { ViewOffered view.now user.now join buffer.old buffer.new result }
{
    match table_of(alloc, view) {
        Ok(table) => offer_new(alloc, &table, join, MEMBERLIST, user, buffer),
        Err(_) => MEMORY,
    }
}

/// The table of what the view says of its members.
fn table_of(alloc: Global, view: &View) -> Result<Table, AllocError>
    ensures { IfOk result (λ table. TableOf table (claims_shown view.now.entries)) }
{
    let mut table = Table::new(alloc);
    for each in view.iter() {
        take_entry(alloc, &mut table, each.0.name(), each.1)?;
    }
    Ok(table)
}

/// Takes in what the view says of one member.
fn take_entry(
    alloc: Global,
    table: &mut Table,
    name: &Name,
    entry: &Entry,
) -> Result<(), AllocError>
    ensures { OnOk result ((claims : List Claim) → TableOf table.old claims → TableOf table.new
        (claims ++ claims_of name.now entry.now.inc entry.now.details entry.now.state)) }
{
    match &entry.details {
        Some(details) => take_state(alloc, table, name, entry.inc, details, &entry.state),
        None => Ok(()),
    }
}

fn take_state(
    alloc: Global,
    table: &mut Table,
    name: &Name,
    inc: u32,
    details: &Details,
    state: &State,
) -> Result<(), AllocError>
    ensures { OnOk result ((claims : List Claim) → TableOf table.old claims → TableOf table.new
        (claims ++ claims_in_state name.now inc details.now state.now)) }
{
    match state {
        State::Noted | State::Seen => Ok(()),
        State::Alive => take_alive(alloc, table, name, inc, details),
        State::Suspect { .. } => {
            let said = Claim::Suspect {
                name: name.try_clone(alloc)?,
                inc,
            };
            take_both(alloc, table, name, inc, details, said)
        }
        State::Dead { .. } => {
            let said = Claim::Confirm {
                name: name.try_clone(alloc)?,
                inc,
            };
            take_both(alloc, table, name, inc, details, said)
        }
        State::Left => {
            let said = Claim::Leave {
                name: name.try_clone(alloc)?,
                inc,
            };
            take_both(alloc, table, name, inc, details, said)
        }
    }
}

/// Takes in an Alive, and what was said after it.
fn take_both(
    alloc: Global,
    table: &mut Table,
    name: &Name,
    inc: u32,
    details: &Details,
    said: Claim,
) -> Result<(), AllocError>
    ensures { OnOk result ((claims : List Claim) → TableOf table.old claims
        → TableOf table.new (claims ++ alive.Alive name.now inc details.now ∷ said ∷ [])) }
{
    take_alive(alloc, table, name, inc, details)?;
    take(table, said)
}

fn take_alive(
    alloc: Global,
    table: &mut Table,
    name: &Name,
    inc: u32,
    details: &Details,
) -> Result<(), AllocError>
    ensures { OnOk result ((claims : List Claim) → TableOf table.old claims
        → TableOf table.new (claims ++ alive.Alive name.now inc details.now ∷ [])) }
{
    let alive = alive_of(alloc, name, inc, details)?;
    take(table, alive)
}

fn take(table: &mut Table, claim: Claim) -> Result<(), AllocError>
    ensures { OnOk result ((claims : List Claim) → TableOf table.old claims
        → TableOf table.new (claims ++ claim ∷ [])) }
{
    match table.take(claim) {
        Ok(_) => Ok(()),
        Err((_, error)) => Err(error),
    }
}
