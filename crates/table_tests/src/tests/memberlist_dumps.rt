//! The dumps that memberlist merges, written and read back. Each is encoded as memberlist encodes
//! its own push/pull streams.

ghost use Rattle.std.specs.Prelude.{◌≤◌, length};
ghost use Rattle.swim_wire.specs.Limits.{max_user_state_len};

use super::dumps::assert_memory;
use super::streams::{assert_dump, read};
use super::{assert_bytes, assert_that};
use std::alloc::{AllocError, Global};
use std::process::Abort;
use swim_table::{Table, encode_memberlist, encode_memberlist_into, memberlist_dump_len};
use swim_wire::WireFault;

const NO_RECORDS: &[u8] = b"\x06\x83\xa4Join\xc2\xa5Nodes\0\xacUserStateLen\0";

const ONE_RECORD_JOINING: &[u8] = b"\x06\x83\xa4Join\xc3\xa5Nodes\x01\xacUserStateLen\0";

const ONE_RECORD: &[u8] = b"\x06\x83\xa4Join\xc2\xa5Nodes\x01\xacUserStateLen\0";

const FIVE_RECORDS: &[u8] = b"\x06\x83\xa4Join\xc3\xa5Nodes\x05\xacUserStateLen\x03";

const TWELVE_RECORDS: &[u8] = b"\x06\x83\xa4Join\xc3\xa5Nodes\x0c\xacUserStateLen\0";

/// `a` is alive since incarnation 3, at 127.0.0.1 and port 7946, with the metadata `m`.
const ALIVE_A: &[u8] =
    b"\x87\xa4Addr\xa4\x7f\0\0\x01\xabIncarnation\x03\xa4Meta\xa1m\xa4Name\xa1a\xa4Port\xcd\x1f\x0a\xa5State\0\xa3Vsn\xa6\x01\x05\x02\0\0\0";

/// `a` is suspected at incarnation 3.
const SUSPECT_A: &[u8] =
    b"\x87\xa4Addr\xa0\xabIncarnation\x03\xa4Meta\xa0\xa4Name\xa1a\xa4Port\0\xa5State\x01\xa3Vsn\xa0";

const SUSPECT_A_WITH_HOME: &[u8] =
    b"\x87\xa4Addr\xa4\x7f\0\0\x01\xabIncarnation\x03\xa4Meta\xa1m\xa4Name\xa1a\xa4Port\xcd\x1f\x0a\xa5State\x01\xa3Vsn\xa6\x01\x05\x02\0\0\0";

/// `b` was alive at incarnation 1, at 127.0.0.2 and port 80, and is dead since incarnation 5.
const ALIVE_B: &[u8] =
    b"\x87\xa4Addr\xa4\x7f\0\0\x02\xabIncarnation\x01\xa4Meta\xa0\xa4Name\xa1b\xa4Port\x50\xa5State\0\xa3Vsn\xa6\x01\x05\x02\0\0\0";

const CONFIRM_B: &[u8] =
    b"\x87\xa4Addr\xa0\xabIncarnation\x05\xa4Meta\xa0\xa4Name\xa1b\xa4Port\0\xa5State\x02\xa3Vsn\xa0";

const CONFIRM_B_WITH_HOME: &[u8] =
    b"\x87\xa4Addr\xa4\x7f\0\0\x02\xabIncarnation\x05\xa4Meta\xa0\xa4Name\xa1b\xa4Port\x50\xa5State\x02\xa3Vsn\xa6\x01\x05\x02\0\0\0";

/// Only a suspicion is known about `c`.
const SUSPECT_C: &[u8] =
    b"\x87\xa4Addr\xa0\xabIncarnation\x01\xa4Meta\xa0\xa4Name\xa1c\xa4Port\0\xa5State\x01\xa3Vsn\xa0";

/// `d` was alive at incarnation 2, at ::1 and port 7946, and left.
const ALIVE_D: &[u8] =
    b"\x87\xa4Addr\xb0\0\0\0\0\0\0\0\0\0\0\0\0\0\0\0\x01\xabIncarnation\x02\xa4Meta\xa0\xa4Name\xa1d\xa4Port\xcd\x1f\x0a\xa5State\0\xa3Vsn\xa6\x01\x05\x05\0\0\0";

const LEAVE_D: &[u8] =
    b"\x87\xa4Addr\xa0\xabIncarnation\x02\xa4Meta\xa0\xa4Name\xa1d\xa4Port\0\xa5State\x03\xa3Vsn\xa0";

const LEAVE_D_WITH_HOME: &[u8] =
    b"\x87\xa4Addr\xb0\0\0\0\0\0\0\0\0\0\0\0\0\0\0\0\x01\xabIncarnation\x02\xa4Meta\xa0\xa4Name\xa1d\xa4Port\xcd\x1f\x0a\xa5State\x03\xa3Vsn\xa6\x01\x05\x05\0\0\0";

/// `e` is alive.
const ALIVE_E: &[u8] =
    b"\x87\xa4Addr\xa4\x7f\0\0\x05\xabIncarnation\0\xa4Meta\xa0\xa4Name\xa1e\xa4Port\xcd\x1f\x0a\xa5State\0\xa3Vsn\xa6\x01\x05\x02\0\0\0";

/// `f` left at incarnation 1, and is alive again since incarnation 4.
const ALIVE_F: &[u8] =
    b"\x87\xa4Addr\xa4\x7f\0\0\x06\xabIncarnation\x04\xa4Meta\xa0\xa4Name\xa1f\xa4Port\xcd\x1f\x0a\xa5State\0\xa3Vsn\xa6\x01\x05\x02\0\0\0";

const LEAVE_F: &[u8] =
    b"\x87\xa4Addr\xa0\xabIncarnation\x01\xa4Meta\xa0\xa4Name\xa1f\xa4Port\0\xa5State\x03\xa3Vsn\xa0";

/// `g` is alive, and its versions are not known; those of `h` contradict themselves.
const ALIVE_G: &[u8] =
    b"\x87\xa4Addr\xa4\x7f\0\0\x07\xabIncarnation\0\xa4Meta\xa0\xa4Name\xa1g\xa4Port\xcd\x1f\x0a\xa5State\0\xa3Vsn\xa0";

const ALIVE_H: &[u8] =
    b"\x87\xa4Addr\xa4\x7f\0\0\x08\xabIncarnation\0\xa4Meta\xa0\xa4Name\xa1h\xa4Port\xcd\x1f\x0a\xa5State\0\xa3Vsn\xa6\x01\x05\x06\0\0\0";

/// A stream that is read, the dump of it that memberlist merges, its flag, whether it has user
/// state, and the listing after reading that back.
struct Row {
    read: &'static [&'static [u8]],
    dump: &'static [&'static [u8]],
    join: bool,
    has_user: bool,
    listing: &'static str,
}

const ROWS: &[Row] = &[
    Row {
        read: &[NO_RECORDS],
        dump: &[NO_RECORDS],
        join: false,
        has_user: false,
        listing: "",
    },
    Row {
        read: &[ONE_RECORD, ALIVE_A],
        dump: &[ONE_RECORD_JOINING, ALIVE_A],
        join: true,
        has_user: false,
        listing: "a alive 3 3/7f000001/7946/6d/010502000000\n",
    },
    // a name without a home is left out
    Row {
        read: &[ONE_RECORD, SUSPECT_C],
        dump: &[NO_RECORDS],
        join: false,
        has_user: false,
        listing: "",
    },
    // a suspicion, a death and a leave have the details of the home, and one that came back its
    // Alive alone; without sound versions a name is left out
    Row {
        read: &[
            TWELVE_RECORDS,
            SUSPECT_A,
            ALIVE_A,
            ALIVE_D,
            LEAVE_D,
            ALIVE_E,
            SUSPECT_C,
            CONFIRM_B,
            ALIVE_B,
            LEAVE_F,
            ALIVE_F,
            ALIVE_G,
            ALIVE_H,
        ],
        dump: &[
            FIVE_RECORDS,
            SUSPECT_A_WITH_HOME,
            CONFIRM_B_WITH_HOME,
            LEAVE_D_WITH_HOME,
            ALIVE_E,
            ALIVE_F,
            b"xyz",
        ],
        join: true,
        has_user: true,
        listing: "a suspect 3 -\nb confirm 5 -\nd leave 2 -\ne alive 0 0/7f000005/7946//010502000000\nf alive 4 4/7f000006/7946//010502000000\n",
    },
];

impl Row {
    /// The user state of the dump.
    fn user(&self) -> &'static [u8]
        ensures { length result.now ≤ max_user_state_len }
    {
        if self.has_user { b"xyz" } else { b"" }
    }
}

/// The parts, one after another.
fn joined(alloc: Global, parts: &[&[u8]]) -> Result<Vec<u8>, AllocError> {
    let mut bytes = Vec::new(alloc);
    for part in parts {
        bytes.extend_from_slice(part)?;
    }
    Ok(bytes)
}

/// The dump of the table, at the second try if memory is refused and reported at the first.
fn dump(rt: &impl Abort, alloc: Global, table: &Table, row: &Row) -> Vec<u8> {
    match encode_memberlist(alloc, table, row.join, row.user()) {
        Ok(bytes) => bytes,
        Err(fault) => {
            assert_memory(rt, fault);
            encode_memberlist(alloc, table, row.join, row.user())
                .ok()
                .expect(rt, "a dump")
        }
    }
}

/// Asserts that the table that is read from a row's stream has the row's dump.
fn assert_row(rt: &impl Abort, alloc: Global, row: &Row) -> Result<(), WireFault> {
    let (table, _) = read(alloc, &joined(alloc, row.read)?)?;
    let wanted = joined(alloc, row.dump)?;
    assert_bytes(rt, &dump(rt, alloc, &table, row), &wanted, "the dump");
    let len = memberlist_dump_len(&table, row.join, row.user()).ok();
    assert_that(rt, len == Some(wanted.len()), "its length");
    assert_dump(rt, alloc, &wanted, row.listing, row.join)
}

#[test]
fn a_table_has_a_dump_that_memberlist_merges_or_wants_memory_and_is_read_back(
    rt: HostRuntime,
) -> Result<(), WireFault> {
    for row in ROWS {
        assert_row(&rt, rt.alloc(), row)?;
    }
    Ok(())
}

/// Writes the dump to the start of the buffer if it fits. Returns its length.
fn put_in_front(table: &Table, out: &mut [u8]) -> usize {
    match memberlist_dump_len(table, true, b"") {
        Ok(len) if len <= out.len() => {
            let (front, _) = out.split_at_mut(len);
            encode_memberlist_into(table, true, b"", front);
            len
        }
        _ => 0,
    }
}

#[test]
fn a_dump_that_memberlist_merges_goes_into_a_buffer_and_leaves_what_is_behind_it(
    rt: HostRuntime,
) -> Result<(), WireFault> {
    let (table, _) = read(rt.alloc(), &joined(rt.alloc(), &[ONE_RECORD, ALIVE_A])?)?;
    let mut out = [9; 128];
    let len = put_in_front(&table, &mut out);
    let (front, back) = out.split_at(len.min(out.len()));
    let wanted = joined(rt.alloc(), &[ONE_RECORD_JOINING, ALIVE_A])?;
    assert_bytes(&rt, front, &wanted, "the dump");
    assert_that(&rt, back.iter().all(|byte| *byte == 9), "what is behind it");
    Ok(())
}
