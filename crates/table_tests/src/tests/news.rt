//! Streams read for what a table lacks, and streams read into a table.

use super::streams::{ALIVE, ALIVE_LISTING, SUSPECT, SUSPECTED, SUSPECTED_LISTING, read};
use super::{assert_count, assert_lists};
use std::alloc::Global;
use std::process::Abort;
use swim_pack::SliceInlet;
use swim_table::{StreamReader, Table, read_dump_into, read_news, read_stream_into};
use swim_wire::WireFault;

/// A stream of an Alive of `a` at incarnation 4, and of a Suspect of it at incarnation 1.
const RETURNED: &[u8] =
    b"\x06\x81\xa5Nodes\x02\x84\xa4Name\xa1a\xa4Addr\xa4\x7f\0\0\x01\xabIncarnation\x04\xa4Port\xcd\x1f\x0a\x83\xa4Name\xa1a\xabIncarnation\x01\xa5State\x01";

/// The dump of a table, a stream, the news of the stream, and the table with the stream taken in.
const ROWS: &[(&[u8], &[u8], &str, &str)] = &[
    (ALIVE, ALIVE, "", ALIVE_LISTING),
    (SUSPECTED, ALIVE, "", SUSPECTED_LISTING),
    (ALIVE, SUSPECTED, SUSPECTED_LISTING, SUSPECTED_LISTING),
    (
        ALIVE,
        SUSPECT,
        "b suspect 1 -\n",
        "a alive 0 0/7f000001/7946//\nb suspect 1 -\n",
    ),
    // the Alive is a newer home below the same top, and the Suspect says nothing new
    (
        b"\x06\x81\xa5Nodes\x01\x83\xa4Name\xa1a\xabIncarnation\x05\xa5State\x01",
        RETURNED,
        "a alive 4 4/7f000001/7946//\n",
        "a suspect 5 4/7f000001/7946//\n",
    ),
];

/// The news of a stream, at the second try if memory is refused, and how many bytes are behind it.
fn news(alloc: Global, table: &Table, stream: &[u8]) -> Result<(Table, usize), WireFault> {
    let mut inlet = SliceInlet::new(stream);
    let answer = match read_news(alloc, &mut inlet, table) {
        Err(WireFault::Memory) => {
            inlet = SliceInlet::new(stream);
            read_news(alloc, &mut inlet, table)
        }
        answer => answer,
    };
    let (news, _) = answer?;
    Ok((news, inlet.rest().len()))
}

fn assert_news(
    rt: &impl Abort,
    alloc: Global,
    row: &(&[u8], &[u8], &str, &str),
) -> Result<(), WireFault> {
    let (own, stream, wanted, _) = row;
    let (own, _) = read(alloc, own)?;
    let (found, behind) = news(alloc, &own, stream)?;
    assert_count(rt, behind, 0, "bytes behind the stream");
    assert_lists(rt, alloc, &found, wanted)?;
    Ok(())
}

#[test]
fn the_news_of_a_stream_are_what_the_table_lacks(rt: HostRuntime) -> Result<(), WireFault> {
    for row in ROWS {
        assert_news(&rt, rt.alloc(), row)?;
    }
    Ok(())
}

#[test]
fn a_stream_is_taken_into_a_table(rt: HostRuntime) -> Result<(), WireFault> {
    for (own, stream, _, wanted) in ROWS {
        let (table, _) = read_dump_into(rt.alloc(), stream, read(rt.alloc(), own)?.0)?;
        assert_lists(&rt, rt.alloc(), &table, wanted)?;
        let mut inlet = SliceInlet::new(stream);
        let (table, _) = read_stream_into(rt.alloc(), &mut inlet, read(rt.alloc(), own)?.0)?;
        assert_lists(&rt, rt.alloc(), &table, wanted)?;
        let mut inlet = SliceInlet::new(stream);
        let reader = StreamReader::begin_into(rt.alloc(), &mut inlet, table)?;
        assert_lists(&rt, rt.alloc(), reader.table(), wanted)?;
    }
    Ok(())
}
