//! What a table takes in, its entries, and joins.

use super::{
    LOOPBACK, Saying, assert_bytes, assert_count, assert_lists, assert_that, claims_of, details_of,
    name_of, table_of, take,
};
use std::alloc::{AllocError, Global};
use std::process::Abort;
use swim_claim::{Claim, Kind};
use swim_table::{Entry, Relation, Room, Table, Taken, list, relation};

/// Claims of one table, taken in one by one, and what each changes.
const TAKES: &[(Saying, Taken, &str)] = &[
    (confirm!(b"a", 2), Taken::New, "a confirm 2 -\n"),
    (confirm!(b"a", 7), Taken::Raised, "a confirm 7 -\n"),
    (confirm!(b"a", 2), Taken::Stood, "a confirm 7 -\n"),
    (
        alive!(b"b", 3, LOOPBACK, 7946),
        Taken::New,
        "a confirm 7 -\nb alive 3 3/7f000001/7946//\n",
    ),
    (
        suspect!(b"b", 5),
        Taken::Raised,
        "a confirm 7 -\nb suspect 5 3/7f000001/7946//\n",
    ),
    (
        alive!(b"b", 4, LOOPBACK, 7947),
        Taken::Raised,
        "a confirm 7 -\nb suspect 5 4/7f000001/7947//\n",
    ),
];

/// Asserts what each claim changes, and the number of records at the end.
fn assert_takes(rt: &impl Abort, alloc: Global, table: &mut Table) -> Result<(), AllocError> {
    for (saying, wanted, listing) in TAKES {
        let taken = take(rt, alloc, table, *saying)?;
        assert_that(rt, taken == *wanted, listing);
        assert_lists(rt, alloc, table, listing)?;
    }
    assert_that(rt, table.records() == 3, "the records");
    Ok(())
}

#[test]
fn take_tells_what_changed(rt: HostRuntime) -> Result<(), AllocError> {
    let mut table = Table::new(rt.alloc());
    assert_takes(&rt, rt.alloc(), &mut table)
}

/// The incarnation and the port of the entry's home, if it has one.
fn home_of(entry: &Entry) -> Option<(u32, u16)> {
    match (entry.home_inc(), entry.home_details()) {
        (Some(inc), Some(details)) => Some((inc, details.port())),
        _ => None,
    }
}

/// Asserts that this is an Alive of `a` at incarnation 0, which is its own home.
fn assert_a(rt: &impl Abort, found: Option<&Entry>) {
    let entry = found.expect(rt, "an entry");
    assert_bytes(rt, entry.name().bytes(), b"a", "the name");
    let same = entry.kind() == Kind::Alive && entry.inc() == 0 && home_of(entry) == Some((0, 7946));
    assert_that(rt, same, "the claim");
}

/// Asserts that this is a Suspect of `b` at incarnation 1, without a home.
fn assert_b(rt: &impl Abort, found: Option<&Entry>) {
    let entry = found.expect(rt, "an entry");
    assert_bytes(rt, entry.name().bytes(), b"b", "the name");
    let same = entry.kind() == Kind::Suspect
        && entry.inc() == 1
        && entry.home_inc().is_none()
        && entry.home_details().is_none();
    assert_that(rt, same, "the claim");
}

/// Asserts that the table has the Alive of `a` and the Suspect of `b`, and nothing else.
fn assert_both(rt: &impl Abort, table: &Table) {
    let none = table.at(2).is_none() && table.get(b"c").is_none();
    assert_that(rt, none && !table.is_empty(), "two entries");
    assert_count(rt, table.len(), 2, "entries");
    assert_a(rt, table.at(0));
    assert_b(rt, table.at(1));
    assert_b(rt, table.get(b"b"));
}

/// Asserts that a table of no claims has no entry.
fn assert_empty(rt: &impl Abort, table: &Table) {
    let none = table.is_empty() && table.at(0).is_none();
    assert_that(rt, none, "no entries");
}

const OF_A: &[Saying] = &[alive!(b"a", 0, LOOPBACK, 7946)];

const OF_B: &[Saying] = &[suspect!(b"b", 1)];

const OF_BOTH: &[Saying] = &[suspect!(b"b", 1), alive!(b"a", 0, LOOPBACK, 7946)];

const SEVERAL: &[Saying] = &[alive!(b"a", 0, LOOPBACK, 7946), suspect!(b"b", 1)];

const ALIVE_A: &str = "a alive 0 0/7f000001/7946//\n";

const SUSPECT_B: &str = "b suspect 1 -\n";

const BOTH: &str = "a alive 0 0/7f000001/7946//\nb suspect 1 -\n";

#[test]
fn entries_are_read_by_name_and_by_place(rt: HostRuntime) -> Result<(), AllocError> {
    assert_empty(&rt, &Table::new(rt.alloc()));
    let table = table_of(&rt, rt.alloc(), OF_BOTH)?;
    assert_both(&rt, &table);
    Ok(())
}

/// Takes both claims in at once. If memory is refused, the table must stay empty, and the second
/// try must take them in.
fn take_both(rt: &impl Abort, alloc: Global, table: &mut Table) -> Result<(), AllocError> {
    if table.take_all(claims_of(rt, alloc, SEVERAL)?).is_err() {
        assert_empty(rt, table);
        let repeated = table.take_all(claims_of(rt, alloc, SEVERAL)?).is_ok();
        assert_that(rt, repeated, "the second try");
    }
    assert_count(rt, table.len(), 2, "entries");
    assert_lists(rt, alloc, table, BOTH)
}

#[test]
fn several_claims_are_taken_in_or_none(rt: HostRuntime) -> Result<(), AllocError> {
    let mut table = Table::new(rt.alloc());
    take_both(&rt, rt.alloc(), &mut table)
}

/// An Alive at incarnation 2 with all details and the longest name, which consists of `n`s.
fn full_claim(rt: &impl Abort, alloc: Global) -> Result<Claim, AllocError> {
    let meta = b"\xab\xcd".to_vec(alloc)?;
    let details = details_of(rt, LOOPBACK, 65_535, meta, b"\x01\x02\x03\x04\x05\xff");
    Ok(Claim::Alive {
        name: name_of(rt, alloc, &[b'n'; 1024])?,
        inc: 2,
        details,
    })
}

/// The listing of that Alive, which is taken in as the only one of several.
fn full_listing(rt: &impl Abort, alloc: Global, table: &mut Table) -> Result<Vec<u8>, AllocError> {
    let mut claims = Vec::new(alloc);
    claims.push(full_claim(rt, alloc)?)?;
    table.take_all(claims)?;
    list(alloc, table)
}

fn assert_full_line(rt: &impl Abort, listing: &[u8]) {
    let (name, rest) = listing.split_at(listing.len().min(1024));
    assert_bytes(rt, name, &[b'n'; 1024], "the name");
    let line = b" alive 2 2/7f000001/65535/abcd/0102030405ff\n";
    assert_bytes(rt, rest, line, "what is behind the name");
}

#[test]
fn details_are_listed_in_hexadecimal(rt: HostRuntime) -> Result<(), AllocError> {
    let mut table = Table::new(rt.alloc());
    assert_full_line(&rt, &full_listing(&rt, rt.alloc(), &mut table)?);
    Ok(())
}

/// Asserts that a refused join changed neither table.
fn assert_stayed(
    rt: &impl Abort,
    alloc: Global,
    table: &Table,
    other: &Table,
) -> Result<(), AllocError> {
    assert_lists(rt, alloc, table, ALIVE_A)?;
    assert_lists(rt, alloc, other, SUSPECT_B)
}

/// Joins the table of `b` in, at the second try, after it was returned. Neither must have changed.
fn join_back(
    rt: &impl Abort,
    alloc: Global,
    table: &mut Table,
    other: Table,
) -> Result<(), AllocError> {
    assert_stayed(rt, alloc, table, &other)?;
    assert_that(rt, table.join(other).is_ok(), "the second try");
    Ok(())
}

/// Joins the table of `b` in.
fn join(rt: &impl Abort, alloc: Global, table: &mut Table) -> Result<(), AllocError> {
    match table.join(table_of(rt, alloc, OF_B)?) {
        Ok(()) => Ok(()),
        Err((other, _)) => join_back(rt, alloc, table, other),
    }
}

/// Joins the table of `b` in, with room for both.
fn join_in(rt: &impl Abort, alloc: Global, table: &mut Table) -> Result<(), AllocError> {
    let other = table_of(rt, alloc, OF_B)?;
    let room = Room::new(alloc, 2)?;
    assert_count(rt, room.size(), 2, "the room");
    if table.len() + other.len() <= room.size() {
        table.join_in(room, other);
    }
    Ok(())
}

#[test]
fn a_join_has_the_claims_of_both_tables(rt: HostRuntime) -> Result<(), AllocError> {
    let mut table = table_of(&rt, rt.alloc(), OF_A)?;
    join(&rt, rt.alloc(), &mut table)?;
    assert_lists(&rt, rt.alloc(), &table, BOTH)
}

#[test]
fn a_join_in_room_takes_no_memory(rt: HostRuntime) -> Result<(), AllocError> {
    let mut table = table_of(&rt, rt.alloc(), OF_A)?;
    join_in(&rt, rt.alloc(), &mut table)?;
    assert_lists(&rt, rt.alloc(), &table, BOTH)
}

/// How the tables of these claims relate.
fn related(
    rt: &impl Abort,
    alloc: Global,
    first: &[Saying],
    second: &[Saying],
) -> Result<Relation, AllocError> {
    let first = table_of(rt, alloc, first)?;
    let second = table_of(rt, alloc, second)?;
    Ok(relation(&first, &second))
}

/// The claims of two tables, and how these relate.
const RELATED: &[(&[Saying], &[Saying], Relation)] = &[
    (OF_A, OF_A, Relation::Equal),
    (OF_A, OF_BOTH, Relation::Behind),
    (OF_BOTH, OF_A, Relation::Ahead),
    (OF_A, OF_B, Relation::Apart),
    (OF_A, &[suspect!(b"a", 0)], Relation::Apart),
];

#[test]
fn tables_are_related_by_their_join(rt: HostRuntime) -> Result<(), AllocError> {
    for (first, second, wanted) in RELATED {
        let found = related(&rt, rt.alloc(), first, second)?;
        assert_eq!(rt; found, *wanted);
    }
    Ok(())
}
