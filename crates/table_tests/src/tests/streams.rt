//! Push/pull streams as bytes, read step by step, as a whole, and as dumps.

use super::dumps::dump;
use super::{assert_count, assert_lists, assert_that};
use std::alloc::{AllocError, Global};
use std::process::Abort;
use swim_pack::SliceInlet;
use swim_table::{Relation, Step, StreamReader, Table, read_dump, read_stream, relation};
use swim_wire::WireFault;

/// An Alive of `a` at incarnation 4, at 127.0.0.1 and port 7947, and then a Suspect of it at
/// incarnation 5.
pub(super) const SUSPECTED: &[u8] =
    b"\x06\x83\xa4Join\xc2\xa5Nodes\x02\xacUserStateLen\0\x87\xa4Addr\xa4\x7f\0\0\x01\xabIncarnation\x04\xa4Meta\xa0\xa4Name\xa1a\xa4Port\xcd\x1f\x0b\xa5State\0\xa3Vsn\xa0\x87\xa4Addr\xa0\xabIncarnation\x05\xa4Meta\xa0\xa4Name\xa1a\xa4Port\0\xa5State\x01\xa3Vsn\xa0";

pub(super) const SUSPECTED_LISTING: &str = "a suspect 5 4/7f000001/7947//\n";

pub(super) const ALIVE_LISTING: &str = "a alive 0 0/7f000001/7946//\n";

/// An Alive of `a` at incarnation 0, at 127.0.0.1 and port 7946.
pub(super) const ALIVE: &[u8] =
    b"\x06\x83\xa4Join\xc2\xa5Nodes\x01\xacUserStateLen\0\x87\xa4Addr\xa4\x7f\0\0\x01\xabIncarnation\0\xa4Meta\xa0\xa4Name\xa1a\xa4Port\xcd\x1f\x0a\xa5State\0\xa3Vsn\xa0";

/// A Suspect of `b` at incarnation 1.
pub(super) const SUSPECT: &[u8] =
    b"\x06\x83\xa4Join\xc2\xa5Nodes\x01\xacUserStateLen\0\x87\xa4Addr\xa0\xabIncarnation\x01\xa4Meta\xa0\xa4Name\xa1b\xa4Port\0\xa5State\x01\xa3Vsn\xa0";

/// A Confirm of `b` at incarnation 2, with an address and metadata, and a Leave of `c` at
/// incarnation 3.
const DEAD_AND_LEFT: &[u8] =
    b"\x06\x81\xa5Nodes\x02\x85\xa4Name\xa1b\xa4Addr\xa4\x7f\0\0\x01\xa4Meta\xa2\xab\xcd\xabIncarnation\x02\xa5State\x02\x83\xa4Name\xa1c\xabIncarnation\x03\xa5State\x03";

/// No records, and five bytes of user state.
const USER_STATE: &[u8] = b"\x06\x82\xa5Nodes\0\xacUserStateLen\x05\x01\x02\x03\x04\x05";

/// No records, and the join flag.
const JOIN: &[u8] = b"\x06\x81\xa4Join\xc3";

/// One record with the state 4.
const STATE_4: &[u8] = b"\x06\x81\xa5Nodes\x01\x82\xa4Name\xa1d\xa5State\x04";

/// Reads the dump, at the second try if memory is refused.
pub(super) fn read(alloc: Global, bytes: &[u8]) -> Result<(Table, bool), WireFault> {
    match read_dump(alloc, bytes) {
        Err(WireFault::Memory) => read_dump(alloc, bytes),
        answer => answer,
    }
}

/// How the table that is read from the bytes relates to this one, and its flag.
pub(super) fn reads_back(
    alloc: Global,
    bytes: &[u8],
    table: &Table,
) -> Result<(Relation, bool), WireFault> {
    let (other, join) = read(alloc, bytes)?;
    Ok((relation(&other, table), join))
}

/// Reads a stream at the start of the bytes, and also returns how many bytes are left after it. If
/// memory is refused, the second try reads it.
fn read_front(alloc: Global, bytes: &[u8]) -> Result<(Table, usize), WireFault> {
    let mut inlet = SliceInlet::new(bytes);
    let answer = match read_stream(alloc, &mut inlet) {
        Err(WireFault::Memory) => {
            inlet = SliceInlet::new(bytes);
            read_stream(alloc, &mut inlet)
        }
        answer => answer,
    };
    let (table, _) = answer?;
    Ok((table, inlet.rest().len()))
}

/// Reads a stream from the start of the bytes step by step, at the second try if memory is refused.
fn read_steps(alloc: Global, bytes: &[u8]) -> Result<Table, WireFault> {
    match read_steps_once(alloc, bytes) {
        Err(WireFault::Memory) => read_steps_once(alloc, bytes),
        answer => answer,
    }
}

fn read_steps_once(alloc: Global, bytes: &[u8]) -> Result<Table, WireFault> {
    let mut inlet = SliceInlet::new(bytes);
    let mut reader = StreamReader::begin(alloc, &mut inlet)?;
    for _ in 0..=reader.left() {
        match reader.step(&mut inlet)? {
            Step::More(next) => reader = next,
            Step::End(table, _) => return Ok(table),
        }
    }
    // more steps than records and an end, which is not an expected cause
    Err(WireFault::Fault)
}

/// Asserts that the bytes were refused for this cause.
fn assert_cause(rt: &impl Abort, found: Option<WireFault>, cause: WireFault, bytes: &[u8]) {
    assert_eq!(rt; found, Some(cause), "{bytes:?}");
}

/// Asserts that the bytes were refused for this cause, or because memory was.
fn assert_cause_or_memory(
    rt: &impl Abort,
    found: Option<WireFault>,
    cause: WireFault,
    bytes: &[u8],
) {
    if found != Some(WireFault::Memory) {
        assert_cause(rt, found, cause, bytes);
    }
}

/// Asserts that the bytes are not a dump, for this cause, and do not begin with a stream, for the
/// same cause, read as a whole or step by step.
fn assert_refused(rt: &impl Abort, alloc: Global, bytes: &[u8], cause: WireFault) {
    assert_cause(rt, read(alloc, bytes).err(), cause, bytes);
    assert_cause(rt, read_front(alloc, bytes).err(), cause, bytes);
    assert_cause(rt, read_steps(alloc, bytes).err(), cause, bytes);
}

/// Asserts that the bytes are a dump of this table with this flag.
pub(super) fn assert_dump(
    rt: &impl Abort,
    alloc: Global,
    bytes: &[u8],
    listing: &str,
    joins: bool,
) -> Result<(), WireFault> {
    let (table, join) = read(alloc, bytes)?;
    assert_that(rt, join == joins, "the flag");
    assert_lists(rt, alloc, &table, listing)?;
    Ok(())
}

/// Asserts that the bytes begin with a stream of this table, with this many bytes after it.
fn assert_front(
    rt: &impl Abort,
    alloc: Global,
    bytes: &[u8],
    listing: &str,
    behind: usize,
) -> Result<(), WireFault> {
    let (table, left) = read_front(alloc, bytes)?;
    assert_count(rt, left, behind, "bytes behind the stream");
    assert_lists(rt, alloc, &table, listing)?;
    Ok(())
}

/// Dumps, the listings of their tables, and their flags.
const DUMPS: &[(&[u8], &str, bool)] = &[
    (SUSPECTED, SUSPECTED_LISTING, false),
    (ALIVE, ALIVE_LISTING, false),
    (SUSPECT, "b suspect 1 -\n", false),
    (DEAD_AND_LEFT, "b confirm 2 -\nc leave 3 -\n", false),
    (USER_STATE, "", false),
    (JOIN, "", true),
];

#[test]
fn a_dump_is_read_as_the_table_of_its_records(rt: HostRuntime) -> Result<(), WireFault> {
    for (bytes, listing, joins) in DUMPS {
        assert_dump(&rt, rt.alloc(), bytes, listing, *joins)?;
        assert_front(&rt, rt.alloc(), bytes, listing, 0)?;
    }
    Ok(())
}

#[test]
fn want_of_memory_is_answered_as_such_and_the_repeat_reads(
    rt: HostRuntime,
) -> Result<(), WireFault> {
    if let Some(fault) = read_dump(rt.alloc(), SUSPECTED).err() {
        assert_cause(&rt, Some(fault), WireFault::Memory, SUSPECTED);
        assert_dump(&rt, rt.alloc(), SUSPECTED, SUSPECTED_LISTING, false)?;
    }
    Ok(())
}

#[test]
fn a_stream_that_is_cut_anywhere_ends_too_soon(rt: HostRuntime) {
    for bytes in [SUSPECTED, ALIVE, SUSPECT] {
        for len in 0..bytes.len() {
            assert_refused(&rt, rt.alloc(), &bytes[..len], WireFault::Ended);
        }
    }
}

/// The bytes, and one more.
fn followed_by(alloc: Global, bytes: &[u8], byte: u8) -> Result<Vec<u8>, AllocError> {
    let mut all = bytes.to_vec(alloc)?;
    all.push(byte)?;
    Ok(all)
}

/// Asserts that the stream, followed by the byte, is not a dump, but is read from the start.
fn assert_followed(
    rt: &impl Abort,
    alloc: Global,
    stream: &[u8],
    byte: u8,
    listing: &str,
) -> Result<(), WireFault> {
    let bytes = followed_by(alloc, stream, byte)?;
    assert_cause(rt, read(alloc, &bytes).err(), WireFault::Trailing, &bytes);
    assert_front(rt, alloc, &bytes, listing, 1)
}

#[test]
fn bytes_after_a_stream_are_no_part_of_it(rt: HostRuntime) -> Result<(), WireFault> {
    for (stream, byte, listing) in [(ALIVE, 0, ALIVE_LISTING), (USER_STATE, 0xff, "")] {
        assert_followed(&rt, rt.alloc(), stream, byte, listing)?;
    }
    Ok(())
}

/// Streams, and why they are refused.
const REFUSED: &[(&[u8], WireFault)] = &[
    (b"\x09", WireFault::WrongType { found: 9 }),
    (b"\x06\x81\xa5Nodes\xa0", WireFault::NotUnsigned),
    (
        b"\x06\x81\xa5Nodes\x01\x81\xa4Port\xce\0\x01\0\0",
        WireFault::OutOfRange,
    ),
    (b"\x06\x81\xa4Join\0", WireFault::NotBool),
    (b"\x06\x81\xa5Nodes\x01\x81\xa4Name\x01", WireFault::NotRaw),
    (b"\x06\x81\xa5Nodes\x01\x81\xa4Addr\xb1", WireFault::TooLong),
    (b"\x06\x90", WireFault::NotMap),
    (b"\x06\x81\xa5Nodes\x01\x01", WireFault::NotMap),
    (b"\x06\x81\xa5Nodes\x01\x80", WireFault::NameEmpty),
    (
        b"\x06\x81\xa5Nodes\x01\x81\xa4Name\xa1a",
        WireFault::BadAddress,
    ),
    (
        b"\x06\x81\xa5Nodes\x01\x83\xa4Addr\xa4\x7f\0\0\x01\xa4Name\xa1a\xa3Vsn\xa1\x01",
        WireFault::BadVersions,
    ),
    (b"\x06\x81\xa1A\0", WireFault::UnknownKey),
    (b"\x06\x81\xa5Nodes\x01\x81\xa1A\0", WireFault::UnknownKey),
    (b"\x06\x82\xa4Join\xc2\xa4Join", WireFault::DuplicateKey),
    (
        b"\x06\x81\xa5Nodes\x01\x82\xa4Name\xa1a\xa4Name",
        WireFault::DuplicateKey,
    ),
    (
        b"\x06\x81\xa5Nodes\x02\x82\xa4Name\xa1a\xa5State\x01\x80",
        WireFault::NameEmpty,
    ),
    (b"\x06\x84", WireFault::MapCount),
    (b"\x06\x81\xa5Nodes\x01\x88", WireFault::MapCount),
    (STATE_4, WireFault::BadState { found: 4 }),
    (
        b"\x06\x83\xa4Join\xc2\xa5Nodes\xce\0\x02\0\x01\xacUserStateLen\0",
        WireFault::TooManyNodes,
    ),
    (
        b"\x06\x83\xa4Join\xc2\xa5Nodes\0\xacUserStateLen\xce\x01\x40\0\x01",
        WireFault::UserTooLong,
    ),
];

#[test]
fn a_stream_is_refused_for_its_first_fault(rt: HostRuntime) {
    for (bytes, cause) in REFUSED {
        assert_refused(&rt, rt.alloc(), bytes, *cause);
    }
}

/// Why the header at the start of the bytes is refused.
fn header_cause(alloc: Global, bytes: &[u8]) -> Option<WireFault> {
    StreamReader::begin(alloc, &mut SliceInlet::new(bytes)).err()
}

/// Why the step after the header is refused.
fn step_cause(alloc: Global, bytes: &[u8]) -> Option<WireFault> {
    let mut inlet = SliceInlet::new(bytes);
    match StreamReader::begin(alloc, &mut inlet) {
        Ok(reader) => reader.step(&mut inlet).err(),
        Err(_) => None,
    }
}

const TOO_MANY_NODES: &[u8] = b"\x06\x81\xa5Nodes\xce\0\x02\0\x01";

const USER_TOO_LONG: &[u8] = b"\x06\x81\xacUserStateLen\xce\x01\x40\0\x01";

#[test]
fn a_header_or_a_record_is_refused_for_its_first_fault(rt: HostRuntime) {
    for (bytes, cause) in [
        (TOO_MANY_NODES, WireFault::TooManyNodes),
        (USER_TOO_LONG, WireFault::UserTooLong),
    ] {
        assert_cause(&rt, header_cause(rt.alloc(), bytes), cause, bytes);
    }
    let found = step_cause(rt.alloc(), STATE_4);
    assert_cause_or_memory(&rt, found, WireFault::BadState { found: 4 }, STATE_4);
}

/// Why the stream at the start of the bytes is refused.
fn stream_cause(alloc: Global, bytes: &[u8]) -> Option<WireFault> {
    read_stream(alloc, &mut SliceInlet::new(bytes)).err()
}

/// The announced records and user state take no memory before they arrive.
#[test]
fn a_header_that_promises_much_asks_for_little(rt: HostRuntime) {
    for bytes in [
        b"\x06\x83\xa4Join\xc2\xa5Nodes\xce\0\x02\0\0\xacUserStateLen\0".as_slice(),
        b"\x06\x81\xa5Nodes\xce\0\x02\0\0\x83\xa4Name\xa1c\xabIncarnation\x03\xa5State\x01",
        b"\x06\x83\xa4Join\xc2\xa5Nodes\0\xacUserStateLen\xce\x01\x40\0\0",
    ] {
        let found = stream_cause(rt.alloc(), bytes);
        assert_cause_or_memory(&rt, found, WireFault::Ended, bytes);
    }
}

/// Asserts that the canonical dump of the table is read as an equal one.
fn assert_dumped(rt: &impl Abort, alloc: Global, table: &Table) -> Result<(), WireFault> {
    let (relation, _) = reads_back(alloc, &dump(rt, alloc, table, false), table)?;
    assert_that(rt, relation == Relation::Equal, "another table");
    Ok(())
}

/// Asserts that if the bytes are read at all, the canonical dump of the table is read as an equal
/// table.
fn assert_dumped_alike(rt: &impl Abort, alloc: Global, bytes: &[u8]) -> Result<(), WireFault> {
    match read(alloc, bytes) {
        Ok((table, _)) => assert_dumped(rt, alloc, &table),
        Err(_) => Ok(()),
    }
}

/// Asserts the same for the bytes with any other byte at this place.
fn assert_others(
    rt: &impl Abort,
    alloc: Global,
    bytes: &mut [u8],
    place: usize,
) -> Result<(), WireFault> {
    assert!(rt; place < bytes.len());
    let byte = bytes[place];
    for change in 1..=255 {
        bytes[place] = byte ^ change;
        assert_dumped_alike(rt, alloc, bytes)?;
    }
    bytes[place] = byte;
    Ok(())
}

#[test]
fn a_dump_with_any_other_byte_is_refused_or_read_as_a_table(
    rt: HostRuntime,
) -> Result<(), WireFault> {
    let mut bytes = ALIVE.to_vec(rt.alloc())?;
    for place in 0..ALIVE.len() {
        assert_others(&rt, rt.alloc(), &mut bytes, place)?;
    }
    Ok(())
}

/// A header that announces 131,072 records.
const MOST_RECORDS: &[u8] = b"\x06\x83\xa4Join\xc2\xa5Nodes\xce\0\x02\0\0\xacUserStateLen\0";

/// A header that announces no records, and 20,971,520 bytes of user state.
const MOST_USER_STATE: &[u8] = b"\x06\x83\xa4Join\xc2\xa5Nodes\0\xacUserStateLen\xce\x01\x40\0\0";

/// Neither announcement requests memory, so no refused growth shows.
#[test]
fn a_header_with_nothing_behind_it_ends_too_early_and_asks_for_little(rt: HostRuntime) {
    for bytes in [MOST_RECORDS, MOST_USER_STATE] {
        let found = read_stream(rt.alloc(), &mut SliceInlet::new(bytes)).err();
        assert_cause(&rt, found, WireFault::Ended, bytes);
        assert_cause(
            &rt,
            read_dump(rt.alloc(), bytes).err(),
            WireFault::Ended,
            bytes,
        );
    }
}
