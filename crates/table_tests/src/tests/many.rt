//! Tables of many names, with enough memory.

use super::dumps::dump;
use super::{assert_count, assert_that, suspicion};
use std::alloc::{AllocError, Global};
use std::process::Abort;
use swim_claim::Claim;
use swim_table::{Room, Table, list, read_dump};

/// Suspicions of three hundred names, starting at this number.
fn suspicions(rt: &impl Abort, alloc: Global, first: u32) -> Result<Vec<Claim>, AllocError> {
    let mut claims = Vec::new(alloc);
    for number in 0..300 {
        claims.push(suspicion(rt, alloc, first.saturating_add(number))?)?;
    }
    Ok(claims)
}

/// Takes the claims in at once. If memory is refused, the table does not change, and the second try
/// takes them in.
fn take(rt: &impl Abort, alloc: Global, table: &mut Table, first: u32) -> Result<(), AllocError> {
    let before = table.len();
    if table.take_all(suspicions(rt, alloc, first)?).is_err() {
        assert_count(rt, table.len(), before, "names");
        table.take_all(suspicions(rt, alloc, first)?)?;
    }
    Ok(())
}

/// The table of three hundred names, starting at this number.
fn table(rt: &impl Abort, alloc: Global, first: u32) -> Result<Table, AllocError> {
    let mut table = Table::new(alloc);
    take(rt, alloc, &mut table, first)?;
    Ok(table)
}

/// The number of lines in the table's listing.
fn lines(alloc: Global, table: &Table) -> Result<usize, AllocError> {
    let listing = list(alloc, table)?;
    Ok(listing.iter().filter(|byte| **byte == b'\n').count())
}

/// The number of names in the table that is read from the table's dump.
fn names_dumped(rt: &impl Abort, alloc: Global, table: &Table) -> Result<usize, AllocError> {
    match read_dump(alloc, &dump(rt, alloc, table, false)) {
        Ok((back, _)) => Ok(back.len()),
        Err(_) => Err(AllocError),
    }
}

/// Asserts that the table has three hundred names, in its listing and its dump.
fn assert_shown(rt: &impl Abort, alloc: Global, table: &Table) -> Result<(), AllocError> {
    assert_count(rt, table.len(), 300, "names");
    assert_count(rt, lines(alloc, table)?, 300, "lines");
    assert_count(rt, names_dumped(rt, alloc, table)?, 300, "names read back");
    Ok(())
}

#[test]
fn three_hundred_claims_are_taken_in_at_once_listed_and_dumped(
    rt: HostRuntime,
) -> Result<(), AllocError> {
    let table = table(&rt, rt.alloc(), 0)?;
    assert_shown(&rt, rt.alloc(), &table)
}

#[test]
fn of_claims_taken_in_at_once_half_may_be_known(rt: HostRuntime) -> Result<(), AllocError> {
    let mut table = table(&rt, rt.alloc(), 0)?;
    take(&rt, rt.alloc(), &mut table, 150)?;
    assert_count(&rt, table.len(), 450, "names");
    Ok(())
}

/// Joins the other table in, with room for both.
fn join_in(alloc: Global, table: &mut Table, other: Table) -> Result<(), AllocError> {
    let room = Room::new(alloc, table.len() + other.len())?;
    table.join_in(room, other);
    Ok(())
}

#[test]
fn tables_of_three_hundred_names_are_joined_in_room(rt: HostRuntime) -> Result<(), AllocError> {
    let mut first = table(&rt, rt.alloc(), 0)?;
    join_in(rt.alloc(), &mut first, table(&rt, rt.alloc(), 200)?)?;
    assert_count(&rt, first.len(), 500, "names");
    Ok(())
}

/// The table of one name, that of the number.
fn table_of_one(rt: &impl Abort, alloc: Global, number: u32) -> Result<Table, AllocError> {
    let mut table = Table::new(alloc);
    match table.take(suspicion(rt, alloc, number)?) {
        Ok(_) => Ok(table),
        Err((_, error)) => Err(error),
    }
}

/// Joins the other table in. If memory is refused, neither changes, and the second try joins it in.
fn join(rt: &impl Abort, table: &mut Table, other: Table) -> Result<(), AllocError> {
    let before = table.len();
    let Err((other, _)) = table.join(other) else {
        return Ok(());
    };
    assert_count(rt, table.len(), before, "names");
    match table.join(other) {
        Ok(()) => Ok(()),
        Err((_, error)) => Err(error),
    }
}

#[test]
fn a_table_of_one_name_is_joined_into_one_of_many(rt: HostRuntime) -> Result<(), AllocError> {
    let mut table = table(&rt, rt.alloc(), 0)?;
    for number in [300, 7] {
        let other = table_of_one(&rt, rt.alloc(), number)?;
        join(&rt, &mut table, other)?;
    }
    assert_count(&rt, table.len(), 301, "names");
    Ok(())
}

/// Forgets the names that were taken in, starting at the number 0.
fn forget(rt: &impl Abort, table: &mut Table) {
    for number in 0u32..300 {
        assert_that(rt, table.forget(&number.to_be_bytes()), "an entry");
    }
}

#[test]
fn three_hundred_names_are_forgotten_and_taken_in_again(rt: HostRuntime) -> Result<(), AllocError> {
    let mut table = table(&rt, rt.alloc(), 0)?;
    forget(&rt, &mut table);
    assert_that(&rt, table.is_empty(), "no names");
    take(&rt, rt.alloc(), &mut table, 0)?;
    assert_shown(&rt, rt.alloc(), &table)
}

/// The claims determine the size of the table, and of the room that is requested for them.
#[test]
fn a_table_of_three_hundred_claims_taken_at_once_holds_at_most_256_kib(
    rt: HostRuntime,
) -> Result<(), AllocError> {
    let mut table = Table::new(rt.alloc());
    table.take_all(suspicions(&rt, rt.alloc(), 0)?)?;
    assert_count(&rt, table.len(), 300, "names");
    Ok(())
}
