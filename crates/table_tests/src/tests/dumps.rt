//! Canonical dumps, written and read back.

use super::streams::{ALIVE, SUSPECT, SUSPECTED, reads_back};
use super::{LOOPBACK, Saying, assert_bytes, assert_that, suspicion, table_of};
use std::alloc::{AllocError, Global};
use std::process::Abort;
use swim_claim::Kind;
use swim_table::{
    EncodeFault, Relation, Table, dump_len, encode, encode_into, list, memberlist_dump_len,
};
use swim_wire::WireFault;

/// A dump of no records.
const NO_RECORDS: &[u8] = b"\x06\x83\xa4Join\xc2\xa5Nodes\0\xacUserStateLen\0";

/// A dump of an Alive of `a` at incarnation 0, at 127.0.0.1 and port 7946, with the join flag.
const ALIVE_JOINING: &[u8] =
    b"\x06\x83\xa4Join\xc3\xa5Nodes\x01\xacUserStateLen\0\x87\xa4Addr\xa4\x7f\0\0\x01\xabIncarnation\0\xa4Meta\xa0\xa4Name\xa1a\xa4Port\xcd\x1f\x0a\xa5State\0\xa3Vsn\xa0";

/// A dump of a Leave of `c` at incarnation 3.
const LEAVE: &[u8] =
    b"\x06\x83\xa4Join\xc2\xa5Nodes\x01\xacUserStateLen\0\x87\xa4Addr\xa0\xabIncarnation\x03\xa4Meta\xa0\xa4Name\xa1c\xa4Port\0\xa5State\x03\xa3Vsn\xa0";

/// The header of a dump of 131,072 records.
const MOST_RECORDS: &[u8] = b"\x06\x83\xa4Join\xc2\xa5Nodes\xce\0\x02\0\0\xacUserStateLen\0";

/// Claims, the flag, and the dump of their table.
const DUMPS: &[(&[Saying], bool, &[u8])] = &[
    (&[], false, NO_RECORDS),
    (&[alive!(b"a", 0, LOOPBACK, 7946)], false, ALIVE),
    (&[alive!(b"a", 0, LOOPBACK, 7946)], true, ALIVE_JOINING),
    (&[suspect!(b"b", 1)], false, SUSPECT),
    (&[leave!(b"c", 3)], false, LEAVE),
    // of these a table keeps the second and, as its home, the third, which comes first in the dump
    (
        &[
            alive!(b"a", 3, LOOPBACK, 7946),
            suspect!(b"a", 5),
            alive!(b"a", 4, LOOPBACK, 7947),
        ],
        false,
        SUSPECTED,
    ),
];

pub(super) fn assert_memory(rt: &impl Abort, fault: EncodeFault) {
    let memory = fault == EncodeFault::Memory && fault.number() == 10;
    assert_that(rt, memory, "want of memory is told");
}

/// The dump of the table, at the second try if memory is refused and reported at the first.
pub(super) fn dump(rt: &impl Abort, alloc: Global, table: &Table, join: bool) -> Vec<u8> {
    match encode(alloc, table, join) {
        Ok(bytes) => bytes,
        Err(fault) => {
            assert_memory(rt, fault);
            encode(alloc, table, join).ok().expect(rt, "a dump")
        }
    }
}

/// Asserts that the bytes are read back as the table and the flag.
fn assert_read_back(
    rt: &impl Abort,
    alloc: Global,
    bytes: &[u8],
    table: &Table,
    join: bool,
) -> Result<(), WireFault> {
    let (relation, flag) = reads_back(alloc, bytes, table)?;
    let same = relation == Relation::Equal && flag == join;
    assert_that(rt, same, "read back");
    Ok(())
}

/// Asserts that the table of the claims has this dump, which is read back as the table and the
/// flag.
fn assert_dumped(
    rt: &impl Abort,
    alloc: Global,
    sayings: &[Saying],
    join: bool,
    wanted: &[u8],
) -> Result<(), WireFault> {
    let table = table_of(rt, alloc, sayings)?;
    assert_bytes(rt, &dump(rt, alloc, &table, join), wanted, "the dump");
    let len = dump_len(&table, join).ok();
    assert_that(rt, len == Some(wanted.len()), "its length");
    assert_read_back(rt, alloc, wanted, &table, join)
}

#[test]
fn a_table_has_its_dump_or_wants_memory_and_is_read_back(rt: HostRuntime) -> Result<(), WireFault> {
    for (sayings, join, bytes) in DUMPS {
        assert_dumped(&rt, rt.alloc(), sayings, *join, bytes)?;
    }
    Ok(())
}

/// Writes the dump to the start of the buffer if it fits. Returns its length.
fn put_in_front(table: &Table, out: &mut [u8]) -> usize {
    match dump_len(table, true) {
        Ok(len) if len <= out.len() => {
            let (front, _) = out.split_at_mut(len);
            encode_into(table, true, front);
            len
        }
        _ => 0,
    }
}

#[test]
fn a_dump_goes_into_a_buffer_and_leaves_what_is_behind_it(
    rt: HostRuntime,
) -> Result<(), WireFault> {
    let table = table_of(&rt, rt.alloc(), &[alive!(b"a", 0, LOOPBACK, 7946)])?;
    let mut out = [9; 128];
    let len = put_in_front(&table, &mut out);
    let (front, back) = out.split_at(len.min(out.len()));
    assert_bytes(&rt, front, ALIVE_JOINING, "the dump");
    assert_that(&rt, back.iter().all(|byte| *byte == 9), "what is behind it");
    Ok(())
}

/// Takes in a Suspect whose name is the number.
fn take_suspicion(
    rt: &impl Abort,
    alloc: Global,
    table: &mut Table,
    number: u32,
) -> Result<(), AllocError> {
    match table.take(suspicion(rt, alloc, number)?) {
        Ok(_) => Ok(()),
        Err((_, error)) => Err(error),
    }
}

/// Takes in Suspects of this many names.
fn take_suspicions(
    rt: &impl Abort,
    alloc: Global,
    table: &mut Table,
    count: u32,
) -> Result<(), AllocError> {
    for number in 0..count {
        take_suspicion(rt, alloc, table, number)?;
    }
    Ok(())
}

/// Asserts that the table has too many records for a dump, but is listed.
fn assert_too_many(rt: &impl Abort, alloc: Global, table: &Table) {
    let refused = encode(alloc, table, false).err();
    assert_that(rt, refused == Some(EncodeFault::TooManyRecords), "too many");
    let unmeasured = dump_len(table, false).err();
    assert_that(
        rt,
        unmeasured == Some(EncodeFault::TooManyRecords),
        "no length",
    );
    // none of its names has a home
    let without_homes = memberlist_dump_len(table, false, b"").ok();
    assert_that(rt, without_homes == Some(NO_RECORDS.len()), "no homes");
    assert_that(rt, list(alloc, table).is_ok(), "a listing");
}

/// Asserts that the table has a dump, and none after one more record.
fn assert_most(rt: &impl Abort, alloc: Global, table: &mut Table) -> Result<(), AllocError> {
    let starts = dump(rt, alloc, table, false).starts_with(MOST_RECORDS);
    assert_that(rt, starts, "the header");
    take_suspicion(rt, alloc, table, 131_072)?;
    assert_too_many(rt, alloc, table);
    Ok(())
}

#[test]
fn a_dump_has_at_most_131072_records(rt: HostRuntime) -> Result<(), AllocError> {
    let mut table = Table::new(rt.alloc());
    take_suspicions(&rt, rt.alloc(), &mut table, 131_072)?;
    assert_most(&rt, rt.alloc(), &mut table)
}
