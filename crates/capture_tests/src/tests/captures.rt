//! Handmade captures, with the bytes that the formats' drafts show.

use capture::{CaptureFault, CaptureReader, Record};
use std::alloc::{AllocError, Global};
use std::process::Abort;
use std::test::Fail;
use swim_pack::SliceInlet;

/// A section header block, the lowest byte first.
const SECTION: &[u8] =
    b"\x0a\x0d\x0d\x0a\x1c\0\0\0\x4d\x3c\x2b\x1a\x01\0\0\0\xff\xff\xff\xff\xff\xff\xff\xff\x1c\0\0\0";

/// An interface of Ethernet with the default clock and no snap length.
const INTERFACE: &[u8] = b"\x01\0\0\0\x14\0\0\0\x01\0\0\0\0\0\0\0\x14\0\0\0";

/// A record, and its captured bytes.
#[derive(Clone, Copy)]
struct Wanted {
    time: Option<u64>,
    link: u32,
    interface: Option<u32>,
    original: u32,
    bytes: &'static [u8],
}

/// Asserts that the parts, one after the other, are a capture of these records, and then end as
/// expected.
fn assert_capture(
    rt: &impl Abort,
    alloc: Global,
    parts: &[&[u8]],
    records: &[Wanted],
    end: Option<CaptureFault>,
) -> Result<(), Fail> {
    let mut capture = Vec::new(alloc);
    for part in parts {
        capture.extend_from_slice(part)?;
    }
    let mut inlet = SliceInlet::new(&capture);
    let mut reader = CaptureReader::begin(alloc, &mut inlet)?;
    let mut bytes = Vec::new(alloc);
    for wanted in records {
        let head = Record {
            time: wanted.time,
            link: wanted.link,
            interface: wanted.interface,
            original: wanted.original,
        };
        let found = next(&mut reader, &mut inlet, &mut bytes)?;
        assert!(rt; found == Ok(Some(head)), "{capture:?}");
        assert!(rt; bytes.as_slice() == wanted.bytes, "{capture:?}");
    }
    let last = next(&mut reader, &mut inlet, &mut bytes)?;
    assert!(rt; last.err() == end, "{capture:?}");
    Ok(())
}

/// The next record, or the fault, unless memory was refused.
fn next(
    reader: &mut CaptureReader,
    inlet: &mut SliceInlet,
    bytes: &mut Vec<u8>,
) -> Result<Result<Option<Record>, CaptureFault>, AllocError> {
    match reader.next(inlet, bytes) {
        Err(CaptureFault::Memory) => Err(AllocError),
        found => Ok(found),
    }
}

#[test]
fn pcap_is_read_in_each_order_and_precision(rt: HostRuntime) -> Result<(), Fail> {
    for (header, record, time) in [
        (
            b"\xa1\xb2\xc3\xd4\0\x02\0\x04\0\0\0\0\0\0\0\0\0\x04\0\0\0\0\0\x01".as_slice(),
            b"\0\0\0\x01\0\0\0\x05\0\0\0\x03\0\0\0\x3cabc".as_slice(),
            1_000_005_000,
        ),
        (
            b"\xa1\xb2\x3c\x4d\0\x02\0\x04\0\0\0\0\0\0\0\0\0\x04\0\0\x14\0\0\x01",
            b"\0\0\0\x01\0\0\0\x05\0\0\0\x03\0\0\0\x3cabc",
            1_000_000_005,
        ),
        (
            b"\xd4\xc3\xb2\xa1\x02\0\x04\0\0\0\0\0\0\0\0\0\0\0\x04\0\x01\0\0\0",
            b"\x01\0\0\0\x05\0\0\0\x03\0\0\0\x3c\0\0\0abc",
            1_000_005_000,
        ),
        (
            b"\x4d\x3c\xb2\xa1\x02\0\x04\0\0\0\0\0\0\0\0\0\0\0\x04\0\x01\0\0\0",
            b"\x01\0\0\0\x05\0\0\0\x03\0\0\0\x3c\0\0\0abc",
            1_000_000_005,
        ),
    ] {
        let wanted = [Wanted {
            time: Some(time),
            link: 1,
            interface: None,
            original: 60,
            bytes: b"abc",
        }];
        assert_capture(&rt, rt.alloc(), &[header, record], &wanted, None)?;
    }
    Ok(())
}

#[test]
fn packets_of_pcapng_are_read_as_their_blocks_say(rt: HostRuntime) -> Result<(), Fail> {
    for (block, time, interface, original) in [
        (
            b"\x06\0\0\0\x24\0\0\0\x01\0\0\0\x01\0\0\0\x05\0\0\0\x03\0\0\0\x3c\0\0\0abc\0\x24\0\0\0".as_slice(),
            Some(4_294_967_301_000),
            Some(1),
            60,
        ),
        (
            b"\x02\0\0\0\x24\0\0\0\x01\0\x07\0\x01\0\0\0\x05\0\0\0\x03\0\0\0\x3c\0\0\0abc\0\x24\0\0\0",
            Some(4_294_967_301_000),
            Some(1),
            60,
        ),
        (
            b"\x03\0\0\0\x14\0\0\0\x03\0\0\0abc\0\x14\0\0\0",
            None,
            Some(0),
            3,
        ),
    ] {
        let wanted = [Wanted {
            time,
            link: 1,
            interface,
            original,
            bytes: b"abc",
        }];
        let other = b"\x05\0\0\0\x10\0\0\0\0\0\0\0\x10\0\0\0";
        assert_capture(
            &rt,
            rt.alloc(),
            &[SECTION, INTERFACE, INTERFACE, other, block],
            &wanted,
            None,
        )?;
    }
    Ok(())
}

#[test]
fn a_section_of_the_other_order_begins_anew(rt: HostRuntime) -> Result<(), Fail> {
    let wanted = [Wanted {
        time: Some(7_000_000_005),
        link: 101,
        interface: Some(0),
        original: 2,
        bytes: b"hi",
    }];
    let section =
        b"\x0a\x0d\x0d\x0a\0\0\0\x1c\x1a\x2b\x3c\x4d\0\x01\0\0\xff\xff\xff\xff\xff\xff\xff\xff\0\0\0\x1c";
    // Nanoseconds, and 7 seconds to be added.
    let interface =
        b"\0\0\0\x01\0\0\0\x28\0\x65\0\0\0\0\0\0\0\x09\0\x01\x09\0\0\0\0\x0e\0\x08\0\0\0\0\0\0\0\x07\0\0\0\x28";
    let packet =
        b"\0\0\0\x06\0\0\0\x24\0\0\0\0\0\0\0\0\0\0\0\x05\0\0\0\x02\0\0\0\x02hi\0\0\0\0\0\x24";
    assert_capture(
        &rt,
        rt.alloc(),
        &[SECTION, INTERFACE, section, interface, packet],
        &wanted,
        None,
    )
}

#[test]
fn what_is_no_record_is_refused_by_its_fault(rt: HostRuntime) -> Result<(), Fail> {
    for (block, fault) in [
        (
            b"\x05\0\0\0\x10\0\0\0\0\0\0\0\x14\0\0\0".as_slice(),
            CaptureFault::BadBlock,
        ),
        (
            b"\x05\0\0\0\x0f\0\0\0\0\0\0\0\x0f\0\0\0",
            CaptureFault::BadBlock,
        ),
        (b"\x05\0\0\0\x08\0\0\0\x08\0\0\0", CaptureFault::BadBlock),
        (
            b"\x06\0\0\0\x20\0\0\0\x01\0\0\0\0\0\0\0\0\0\0\0\0\0\0\0\0\0\0\0\x20\0\0\0",
            CaptureFault::UnknownInterface { interface: 1 },
        ),
        (b"\x05\0\0\0\x10\0\0\0\0\0", CaptureFault::Cut),
        (
            b"\x03\0\0\0\xff\xff\xff\xf0\x01\0\x04\0",
            CaptureFault::BadBlock,
        ),
        (
            b"\x03\0\0\0\xfc\xff\xff\xff\x01\0\x04\0",
            CaptureFault::TooLong { length: 262_145 },
        ),
    ] {
        assert_capture(
            &rt,
            rt.alloc(),
            &[SECTION, INTERFACE, block],
            &[],
            Some(fault),
        )?;
    }
    Ok(())
}

/// Why these bytes do not start a capture.
fn begin_fault(alloc: Global, bytes: &[u8]) -> Option<CaptureFault> {
    CaptureReader::begin(alloc, &mut SliceInlet::new(bytes)).err()
}

#[test]
fn what_begins_no_capture_is_refused(rt: HostRuntime) -> Result<(), Fail> {
    for (bytes, fault) in [
        (b"".as_slice(), CaptureFault::Cut),
        (b"\xa1\xb2\xc3", CaptureFault::Cut),
        (b"GIF8", CaptureFault::NotCapture),
        (
            b"\xa1\xb2\xc3\xd4\0\x03\0\x04\0\0\0\0\0\0\0\0\0\x04\0\0\0\0\0\x01",
            CaptureFault::Version { major: 3 },
        ),
        (
            b"\x0a\x0d\x0d\x0a\0\0\0\x1c\x1a\x2b\x3c\x4e",
            CaptureFault::NotCapture,
        ),
    ] {
        assert!(rt; begin_fault(rt.alloc(), bytes) == Some(fault), "{bytes:?}");
    }
    Ok(())
}
