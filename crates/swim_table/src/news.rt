//! What a join would add or change.

ghost use Rattle.std.specs.Prelude.{◌≡◌, ◌≢◌, Some, IfOk, OnOk, MatchBool};
ghost use Rattle.swim_claim.specs.Claim.{name_of};
ghost use Rattle.swim_table.specs.Table.{get, Reduced, TableOf};
ghost use Rattle.swim_table.specs.Join.{joined, Join};
ghost use Rattle.swim_table.specs.News.{AreChanges, HasAlso};

use crate::comparing::is_covered;
use crate::entry::Entry;
use crate::table::Table;
use std::alloc::{AllocError, Global};
use swim_claim::Claim;

/// A search for a name costs about as much as a walk over this many entries.
const ENTRIES_PER_SEARCH: usize = 8;

/// The names whose entries a join of the other table would add or change, as a table. What it keeps
/// for each name is not promised. This searches the table for each name of the other one.
///
/// # Errors
///
/// If out of memory for the names.
pub fn news_of(alloc: Global, table: &Table, other: &Table) -> Result<Table, AllocError>
    ensures { IfOk result (λ news. AreChanges table.now (Join table.now other.now) news) }
{
    // opens the invariant: the table is legal
    let _ = table.len();
    let mut news = Table::new(alloc);
    for entry in other.entries() {
        if is_news(table, entry) {
            note(alloc, &mut news, entry)?;
        }
    }
    Ok(news)
}

/// Whether a join of the other table would change the table. It takes no memory. This walks over
/// both tables side by side, up to the first name that the join would add or change. If the other
/// table is far smaller, it searches the table for each of its names instead.
pub fn has_news(table: &Table, other: &Table) -> bool
    ensures { MatchBool result
        (Join table.now other.now ≢ table.now) (Join table.now other.now ≡ table.now) }
{
    if other.len() < table.len() / ENTRIES_PER_SEARCH {
        finds_news(table, other)
    } else {
        !is_covered(other.tiers(), table.tiers())
    }
}

/// The same as [`has_news`], by a search for each name of the other table.
fn finds_news(table: &Table, other: &Table) -> bool
    ensures { MatchBool result
        (Join table.now other.now ≢ table.now) (Join table.now other.now ≡ table.now) }
{
    // opens the invariant: the table is legal
    let _ = table.len();
    for entry in other.entries() {
        if is_news(table, entry) {
            return true;
        }
    }
    false
}

/// Whether the entry would add to the table or change it.
fn is_news(table: &Table, entry: &Entry) -> bool
    ensures { MatchBool result
        (joined (get table.now (name_of entry.now.top)) (Some entry.now)
        ≢ get table.now (name_of entry.now.top))
        (joined (get table.now (name_of entry.now.top)) (Some entry.now)
        ≡ get table.now (name_of entry.now.top)) }
{
    match table.get(entry.name().bytes()) {
        Some(own) => !own.covers(entry),
        None => true,
    }
}

/// Adds the entry's name to the names.
fn note(alloc: Global, names: &mut Table, entry: &Entry) -> Result<(), AllocError>
    ensures { OnOk result (TableOf names.old (Reduced names.old)
        → HasAlso (name_of entry.now.top) names.old names.new) }
{
    let name = entry.name().try_clone(alloc)?;
    match names.take(Claim::Suspect { name, inc: 0 }) {
        Ok(_) => Ok(()),
        Err((_, error)) => Err(error),
    }
}
