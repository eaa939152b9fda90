//! Files with dumps: their listing, their join, and how they relate.

use crate::dumps::{listed, merged, related, relation_line};
use crate::tests::{assert_bytes, assert_memory, assert_said, assert_text};
use std::alloc::{AllocError, Global};
use std::process::Abort;
use std::test::Fail;
use swim_claim::{Claim, Name};
use swim_program::{MAX_INPUT_LEN, Report};
use swim_table::{Relation, Table, encode};

/// An Alive of `a`.
pub(crate) const P: &str =
    "0683a44a6f696ec2a54e6f64657301ac5573657253746174654c656e0087a441646472a47f000001ab496e6361726e6174696f6e00a44d657461a0a44e616d65a161a4506f7274cd1f0aa5537461746500a356736ea0";

/// A Suspect of `b`.
pub(crate) const Q: &str =
    "0683a44a6f696ec2a54e6f64657301ac5573657253746174654c656e0087a441646472a0ab496e6361726e6174696f6e01a44d657461a0a44e616d65a162a4506f727400a5537461746501a356736ea0";

/// Both.
const R: &str =
    "0683a44a6f696ec2a54e6f64657302ac5573657253746174654c656e0087a441646472a47f000001ab496e6361726e6174696f6e00a44d657461a0a44e616d65a161a4506f7274cd1f0aa5537461746500a356736ea087a441646472a0ab496e6361726e6174696f6e01a44d657461a0a44e616d65a162a4506f727400a5537461746501a356736ea0";

/// The bytes of a file from its digits.
pub(crate) fn dump(alloc: Global, digits: &str) -> Result<Vec<u8>, Fail> {
    Ok(hex::decode(alloc, digits)?)
}

/// The contents of two files.
fn pair(alloc: Global, first: &str, second: &str) -> Result<[Vec<u8>; 2], Fail> {
    let first = dump(alloc, first)?;
    let second = dump(alloc, second)?;
    Ok([first, second])
}

/// The listing of files; if memory is refused, that of the second try.
fn listing(rt: &impl Abort, alloc: Global, files: &[Vec<u8>]) -> Result<Vec<u8>, Report> {
    match listed(alloc, files) {
        Ok(text) => Ok(text),
        Err(report) => {
            assert_memory(rt, report);
            listed(alloc, files)
        }
    }
}

/// The join of files; if memory is refused, that of the second try.
fn join(rt: &impl Abort, alloc: Global, files: &[Vec<u8>]) -> Result<Vec<u8>, Report> {
    match merged(alloc, files) {
        Ok(dump) => Ok(dump),
        Err(report) => {
            assert_memory(rt, report);
            merged(alloc, files)
        }
    }
}

/// How two files relate; if memory is refused, at the second try.
fn comparison(
    rt: &impl Abort,
    alloc: Global,
    first: &[u8],
    second: &[u8],
) -> Result<Relation, Report> {
    match related(alloc, first, second) {
        Ok(relation) => Ok(relation),
        Err(report) => {
            assert_memory(rt, report);
            related(alloc, first, second)
        }
    }
}

/// Asserts that the bytes are those of these digits.
fn assert_dump(rt: &impl Abort, alloc: Global, found: &[u8], wanted: &str) -> Result<(), Fail> {
    assert_bytes(rt, found, &dump(alloc, wanted)?, wanted);
    Ok(())
}

/// Why two files are refused: by list, by merge, and by relate.
fn refusals(alloc: Global, files: &[Vec<u8>; 2]) -> [Option<Report>; 3] {
    [
        listed(alloc, files).err(),
        merged(alloc, files).err(),
        related(alloc, &files[0], &files[1]).err(),
    ]
}

/// Asserts that there is a report of a run over the files `a dump` and `no dump`, with this text
/// and the status of a bad input.
fn assert_refused(
    rt: &impl Abort,
    alloc: Global,
    report: Option<Report>,
    wanted: &str,
) -> Result<(), Fail> {
    let words = [
        String::from_str(alloc, "a dump")?,
        String::from_str(alloc, "no dump")?,
    ];
    assert_said(rt, alloc, report.expect(rt, "a refusal"), &words, wanted)
}

fn assert_all_refused(
    rt: &impl Abort,
    alloc: Global,
    files: &[Vec<u8>; 2],
    wanted: &str,
) -> Result<(), Fail> {
    for report in refusals(alloc, files) {
        assert_refused(rt, alloc, report, wanted)?;
    }
    Ok(())
}

/// Takes in a Suspect of this name.
pub(crate) fn suspect(rt: &impl Abort, table: &mut Table, name: Vec<u8>) -> Result<(), Fail> {
    let name = Name::new(name).expect(rt, "a legal name");
    match table.take(Claim::Suspect { name, inc: 0 }) {
        Ok(_) => Ok(()),
        Err(_) => Err(Fail::from(AllocError)),
    }
}

/// The dump of this many suspected members, starting at a number.
fn suspects(rt: &impl Abort, alloc: Global, from: u32, count: u32) -> Result<Vec<u8>, Fail> {
    let mut table = Table::new(alloc);
    for i in from..from.saturating_add(count) {
        suspect(rt, &mut table, i.to_be_bytes().to_vec(alloc)?)?;
    }
    Ok(encode(alloc, &table, false)?)
}

#[test]
fn dumps_are_listed_also_after_want_of_memory(rt: HostRuntime) -> Result<(), Fail> {
    let files = pair(rt.alloc(), Q, P)?;
    let text = listing(&rt, rt.alloc(), &files)?;
    let wanted = b"a alive 0 0/7f000001/7946//\nb suspect 1 -\n";
    assert_bytes(&rt, &text, wanted, "both dumps");
    Ok(())
}

#[test]
fn dumps_are_merged_also_after_want_of_memory(rt: HostRuntime) -> Result<(), Fail> {
    let files = pair(rt.alloc(), Q, P)?;
    assert_dump(&rt, rt.alloc(), &join(&rt, rt.alloc(), &files)?, R)
}

#[test]
fn dumps_are_related_also_after_want_of_memory(rt: HostRuntime) -> Result<(), Fail> {
    let [first, second] = &pair(rt.alloc(), P, R)?;
    let relation = comparison(&rt, rt.alloc(), first, second)?;
    assert_text(
        &rt,
        relation_line(relation),
        "behind\n",
        "one dump and both",
    );
    Ok(())
}

#[test]
fn a_file_that_is_no_dump_is_named(rt: HostRuntime) -> Result<(), Fail> {
    let files = pair(rt.alloc(), P, "0684")?;
    assert_all_refused(
        &rt,
        rt.alloc(),
        &files,
        "swimtab: no dump: fault 8 MapCount",
    )
}

/// Zeros, 65,536 more than an input may have.
pub(crate) fn too_long(alloc: Global) -> Result<Vec<u8>, AllocError> {
    let piece = [0; 65536];
    let mut long = Vec::with_capacity(alloc, MAX_INPUT_LEN + piece.len())?;
    for _ in 0..=MAX_INPUT_LEN / 65536 {
        long.extend_from_slice(&piece)?;
    }
    Ok(long)
}

#[test]
fn lengths_are_checked_before_the_first_file_is_read(rt: HostRuntime) -> Result<(), Fail> {
    let alloc = rt.alloc();
    let files = [Vec::new(alloc), too_long(alloc)?];
    assert_all_refused(
        &rt,
        alloc,
        &files,
        "swimtab: no dump: fault 32 InputTooLong",
    )
}

#[test]
fn a_join_of_too_many_records_is_listed_and_not_dumped(rt: HostRuntime) -> Result<(), Fail> {
    let alloc = rt.alloc();
    let most = 131_072;
    let files = [
        suspects(&rt, alloc, 0, most)?,
        suspects(&rt, alloc, most, 1)?,
    ];
    let [_, refused, _] = refusals(alloc, &files);
    assert_refused(
        &rt,
        alloc,
        refused,
        "swimtab: output: fault 23 TooManyRecords",
    )?;
    let text = listing(&rt, alloc, &files)?;
    assert!(rt; !text.is_empty());
    Ok(())
}
