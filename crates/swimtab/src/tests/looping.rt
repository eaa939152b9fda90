//! Exchanging tables over a connection of this process to itself.

use crate::looped::{local_listener, loop_table, looped, looped_within};
use crate::tests::dumps::{P, Q, dump, suspect};
use crate::tests::{assert_bytes, assert_memory, assert_report};
use std::alloc::Global;
use std::cell::Cell;
use std::io;
use std::io::Write;
use std::net::{IpAddr, Ipv4Addr, TcpListener, TcpStream};
use std::process::Abort;
use std::test::Fail;
use std::time::{Clock, Duration};
use swim_pack::FromRead;
use swim_program::{Place, Report, What};
use swim_table::{Table, encode, list, read_stream};

/// What is wrong with a file, the file, and the number of its fault.
const REFUSED: [(&str, &str, u32); 3] = [
    ("an empty file", "", 1),
    (
        "a byte after the stream",
        "0683a44a6f696ec2a54e6f64657301ac5573657253746174654c656e0087a441646472a47f000001ab496e6361726e6174696f6e00a44d657461a0a44e616d65a161a4506f7274cd1f0aa5537461746500a356736ea000",
        22,
    ),
    (
        "a record too few",
        "0683a44a6f696ec2a54e6f64657301ac5573657253746174654c656e00",
        1,
    ),
];

/// The dump of this many suspected members, starting at a number, with their numbers in three
/// digits as names.
fn numbered(rt: &impl Abort, alloc: Global, from: u32, count: u32) -> Result<Vec<u8>, Fail> {
    let mut table = Table::new(alloc);
    for i in from..from.saturating_add(count) {
        let name = format!(in alloc; "{i:03}")?;
        suspect(rt, &mut table, name.as_bytes().to_vec(alloc)?)?;
    }
    Ok(encode(alloc, &table, false)?)
}

/// Reads a table for a loop, and drops it.
fn read(alloc: Global, dump: &[u8]) -> Result<(), Report> {
    loop_table(alloc, dump, 0)?;
    Ok(())
}

/// The report of a dump that is refused for a loop.
fn refusal(rt: &impl Abort, alloc: Global, dump: &[u8], file: usize) -> Report {
    loop_table(alloc, dump, file).err().expect(rt, "a refusal")
}

/// Asserts that the report is the expected one, or one of memory.
fn assert_reported(
    rt: &impl Abort,
    found: Report,
    wanted: Report,
    about: &str,
) -> Result<(), Fail> {
    if found.what == What::Memory {
        return Err(Fail::from(found));
    }
    assert_report(rt, found, wanted, about);
    Ok(())
}

/// Asserts that a loop refuses the dump with the fault of this number, whichever file it is.
fn assert_refused(
    rt: &impl Abort,
    alloc: Global,
    dump: &[u8],
    number: u32,
    about: &str,
) -> Result<(), Fail> {
    let what = What::Refused {
        number,
        found: None,
    };
    for file in [0, 1, 7] {
        let found = refusal(rt, alloc, dump, file);
        assert_reported(rt, found, what.at(Place::File(file)), about)?;
    }
    Ok(())
}

/// The listing after the loop of two dumps, and whether both tables end equal.
fn ended(rt: &HostRuntime, first: &[u8], second: &[u8]) -> Result<(Vec<u8>, bool), Report> {
    let first = loop_table(rt.alloc(), first, 0)?;
    let second = loop_table(rt.alloc(), second, 1)?;
    looped(rt, local_listener(rt)?, first, second)
}

/// Why the loop of two tables over the listener stops, if it does. It waits until then, but no
/// longer than this by the clock.
fn stopped<C: Clock>(
    rt: &HostRuntime,
    listener: TcpListener,
    patience: Option<(&C, Duration)>,
) -> Result<Option<Report>, Fail> {
    let first = loop_table(rt.alloc(), &dump(rt.alloc(), P)?, 0)?;
    let second = loop_table(rt.alloc(), &dump(rt.alloc(), Q)?, 1)?;
    Ok(match patience {
        Some((clock, patience)) => {
            looped_within(rt, clock, listener, first, second, patience).err()
        }
        None => looped(rt, listener, first, second).err(),
    })
}

/// A clock that advances one second each time it is read.
#[derive(Drop)]
struct Hasty {
    looks: Cell<u64>,
}

impl Clock for Hasty {
    fn monotonic(&self) -> io::Result<Duration> {
        let looks = self.looks.get();
        self.looks.set(looks.saturating_add(1));
        Ok(Duration::from_secs(looks))
    }

    fn since_1970(&self) -> io::Result<Duration> {
        self.monotonic()
    }
}

/// Why a loop of two tables stops that may take this many seconds, if each look at the clock takes
/// one.
fn stopped_in_haste(rt: &HostRuntime, seconds: u64) -> Result<Option<Report>, Fail> {
    let clock = Hasty {
        looks: Cell::new(0),
    };
    let patience = Duration::from_secs(seconds);
    stopped(rt, local_listener(rt)?, Some((&clock, patience)))
}

#[test]
fn an_exchange_is_given_up_after_one_time_for_all_its_parts(rt: HostRuntime) -> Result<(), Fail> {
    // the clock is read at the start, and before each of two writes and two reads
    for seconds in 0..5 {
        assert_device(&rt, stopped_in_haste(&rt, seconds)?)?;
    }
    match stopped_in_haste(&rt, 5)? {
        None => Ok(()),
        Some(report) => Err(Fail::from(report)),
    }
}

#[test]
fn two_tables_end_equal(rt: HostRuntime) -> Result<(), Fail> {
    let first = dump(rt.alloc(), P)?;
    let second = dump(rt.alloc(), Q)?;
    let (text, equal) = ended(&rt, &first, &second)?;
    let wanted = b"a alive 0 0/7f000001/7946//\nb suspect 1 -\n";
    assert_bytes(&rt, &text, wanted, "the first table");
    assert!(rt; equal);
    Ok(())
}

/// Why a loop stops if another connection came before its own, and was closed.
fn stopped_by_a_closed_one(rt: &HostRuntime) -> Result<Option<Report>, Fail> {
    let listener = local_listener(rt)?;
    let stranger = TcpStream::connect(rt, listener.local_addr()?)?;
    drop(stranger);
    stopped::<HostRuntime>(rt, listener, None)
}

#[test]
fn the_second_table_answers_who_connected_before(rt: HostRuntime) -> Result<(), Fail> {
    let report = stopped_by_a_closed_one(&rt)?.expect(&rt, "a refusal");
    let ended = What::Refused {
        number: 1,
        found: None,
    };
    assert_reported(&rt, report, ended.at(Place::Loop), "the stranger ended")
}

/// A connection to the listener that comes before that of the loop and writes these bytes, with the
/// report of the loop.
fn stranger(rt: &HostRuntime, bytes: &[u8]) -> Result<(Option<Report>, TcpStream), Fail> {
    let listener = local_listener(rt)?;
    let mut stranger = TcpStream::connect(rt, listener.local_addr()?)?;
    stranger.write_all(bytes)?;
    let report = stopped(rt, listener, Some((rt, Duration::from_millis(100))))?;
    Ok((report, stranger))
}

/// Asserts that the loop stopped because of its connection.
fn assert_device(rt: &impl Abort, report: Option<Report>) -> Result<(), Fail> {
    let report = report.expect(rt, "the stranger takes part");
    assert_reported(rt, report, What::Device.at(Place::Loop), "the connection")
}

#[test]
fn a_connection_that_keeps_silent_is_given_up(rt: HostRuntime) -> Result<(), Fail> {
    let (report, _) = stranger(&rt, b"")?;
    assert_device(&rt, report)
}

/// The listing of the table that comes over a connection.
fn received(alloc: Global, connection: &TcpStream) -> Result<Vec<u8>, Fail> {
    connection.set_read_timeout(Some(Duration::from_secs(10)))?;
    let (table, _) = read_stream(alloc, &mut FromRead::new(connection))?;
    Ok(list(alloc, &table)?)
}

#[test]
fn the_first_table_offers_and_the_second_answers(rt: HostRuntime) -> Result<(), Fail> {
    let no_records = b"\x06\x83\xa4Join\xc2\xa5Nodes\0\xacUserStateLen\0";
    let (report, stranger) = stranger(&rt, no_records)?;
    assert_device(&rt, report)?;
    let text = received(rt.alloc(), &stranger)?;
    assert_bytes(&rt, &text, b"b suspect 1 -\n", "the answer");
    Ok(())
}

#[test]
fn the_listener_is_of_this_machine_alone(rt: HostRuntime) -> Result<(), Fail> {
    let listener = local_listener(&rt)?;
    assert_eq!(rt;
        listener.local_addr()?.ip(),
        IpAddr::V4(Ipv4Addr::LOCALHOST)
    );
    Ok(())
}

/// The listing of this many suspected members, with their numbers in three digits as names.
fn numbered_lines(alloc: Global, count: u32) -> Result<String, Fail> {
    let mut lines = String::new(alloc);
    for i in 0..count {
        lines.push_str(format!(in alloc; "{i:03} suspect 0 -\n")?.as_str())?;
    }
    Ok(lines)
}

#[test]
fn the_greatest_tables_of_a_loop_do_not_wait_for_each_other(rt: HostRuntime) -> Result<(), Fail> {
    let first = numbered(&rt, rt.alloc(), 0, 308)?;
    let second = numbered(&rt, rt.alloc(), 308, 308)?;
    let (text, equal) = ended(&rt, &first, &second)?;
    let lines = numbered_lines(rt.alloc(), 616)?;
    assert_bytes(&rt, &text, lines.as_bytes(), "616 members");
    assert!(rt; equal);
    Ok(())
}

/// Asserts that the dump of this many members has this length, and fits a loop or is too large for
/// one.
fn assert_size(
    rt: &impl Abort,
    alloc: Global,
    count: u32,
    length: usize,
    fits: bool,
) -> Result<(), Fail> {
    let dump = numbered(rt, alloc, 0, count)?;
    assert_eq!(rt; dump.len(), length, "{count} members");
    if fits {
        read(alloc, &dump)?;
        return Ok(());
    }
    assert_refused(rt, alloc, &dump, 28, "too many members")
}

#[test]
fn a_dump_of_more_than_16384_bytes_is_too_large(rt: HostRuntime) -> Result<(), Fail> {
    for (count, length, fits) in [
        (308, 16_355, true),
        (309, 16_408, false),
        (400, 21_231, false),
    ] {
        assert_size(&rt, rt.alloc(), count, length, fits)?;
    }
    Ok(())
}

#[test]
fn a_long_file_of_a_small_table_is_not_too_large(rt: HostRuntime) -> Result<(), Fail> {
    let head = "0682a54e6f64657300ac5573657253746174654c656ecd4000";
    let mut long = dump(rt.alloc(), head)?;
    long.extend_from_slice(&[0; 16_384])?;
    Ok(read(rt.alloc(), &long)?)
}

/// Asserts that a loop refuses the file with the fault of this number.
fn assert_no_dump(
    rt: &impl Abort,
    alloc: Global,
    digits: &str,
    number: u32,
    about: &str,
) -> Result<(), Fail> {
    assert_refused(rt, alloc, &dump(alloc, digits)?, number, about)
}

#[test]
fn a_file_that_is_no_dump_is_named_in_a_loop(rt: HostRuntime) -> Result<(), Fail> {
    for (about, file, number) in REFUSED {
        assert_no_dump(&rt, rt.alloc(), file, number, about)?;
    }
    Ok(())
}

#[test]
fn want_of_memory_for_a_loop_is_answered_as_such(rt: HostRuntime) -> Result<(), Fail> {
    let dump = dump(rt.alloc(), P)?;
    if let Err(report) = read(rt.alloc(), &dump) {
        assert_report(&rt, report, What::Memory.at(Place::File(0)), "a table");
        read(rt.alloc(), &dump)?;
    }
    match ended(&rt, &dump, &dump) {
        Ok((text, equal)) => {
            assert_bytes(&rt, &text, b"a alive 0 0/7f000001/7946//\n", "the table");
            assert!(rt; equal);
        }
        Err(report) => assert_memory(&rt, report),
    }
    Ok(())
}
