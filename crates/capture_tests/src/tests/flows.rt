//! Segments in every order.

use capture::{Ends, Fate, Flow, Flows, Heard, Segment};
use std::alloc::Global;
use std::process::Abort;
use std::test::Fail;

/// Asserts that a flow from this sequence number on that is given these segments has these bytes.
fn assert_bytes(
    rt: &impl Abort,
    alloc: Global,
    start: u32,
    segments: &[(u32, &[u8])],
    bytes: &[u8],
) -> Result<(), Fail> {
    let mut flow = Flow::new(alloc, start);
    for (seq, payload) in segments {
        let _taken = flow.take(alloc, *seq, payload)?;
    }
    assert_eq!(rt; flow.bytes(), bytes);
    Ok(())
}

#[test]
fn segments_come_in_any_order(rt: HostRuntime) -> Result<(), Fail> {
    let alloc = rt.alloc();
    // out of order, and twice
    assert_bytes(
        &rt,
        alloc,
        9,
        &[(13, b"ef"), (11, b"cd"), (11, b"cd"), (9, b"ab")],
        b"abcdef",
    )?;
    // the first of two that cover a byte counts
    assert_bytes(
        &rt,
        alloc,
        9,
        &[(11, b"CDE"), (9, b"abcdefg"), (9, b"xyz")],
        b"abCDEfg",
    )?;
    assert_bytes(
        &rt,
        alloc,
        9,
        &[(12, b"DE"), (11, b"cdef"), (9, b"ab")],
        b"abcDEf",
    )?;
    // after a gap, and before the first byte
    assert_bytes(&rt, alloc, 9, &[(7, b"yzab"), (12, b"d")], b"ab")?;
    // sequence numbers continue at 0
    assert_bytes(
        &rt,
        alloc,
        0xffff_fffe,
        &[(1, b"d"), (0xffff_fffe, b"abc")],
        b"abcd",
    )?;
    Ok(())
}

#[test]
fn what_became_of_a_segment_is_told(rt: HostRuntime) -> Result<(), Fail> {
    let alloc = rt.alloc();
    let mut flow = Flow::new(alloc, 0);
    assert_eq!(rt; flow.take(alloc, 2, b"cd")?, Fate::Waits);
    assert_eq!(rt; flow.take(alloc, 3, b"d")?, Fate::Known);
    assert_eq!(rt; flow.take(alloc, 16_777_216, b"x")?, Fate::Beyond);
    assert_eq!(rt; flow.take(alloc, 0, b"ab")?, Fate::Joined);
    assert_eq!(rt; flow.take(alloc, 0, b"abcd")?, Fate::Known);
    Ok(())
}

/// A segment with these flags.
fn segment<'a>(seq: u32, flags: &str, payload: &'a [u8]) -> Segment<'a> {
    Segment {
        source: 1,
        destination: 2,
        seq,
        syn: flags == "SYN",
        fin: flags == "FIN",
        psh: false,
        rst: flags == "RST",
        payload,
    }
}

/// Asserts that the last of these segments, and no other, completes or replaces a flow with these
/// bytes.
fn assert_completes(
    rt: &impl Abort,
    alloc: Global,
    segments: &[Segment],
    bytes: &[u8],
) -> Result<(), Fail> {
    let mut flows = Flows::new(alloc);
    let mut complete = None;
    for segment in segments {
        assert!(rt; complete.is_none(), "before {}", segment.seq);
        let ends = Ends::of(&[10, 0, 0, 1], &[10, 0, 0, 2], segment).ok_or("no addresses")?;
        let Heard {
            taken: _taken,
            replaced,
            complete: ended,
        } = flows.take(alloc, ends, segment)?;
        complete = replaced.or(ended);
    }
    assert_eq!(rt; complete.ok_or("no flow")?.bytes(), bytes);
    Ok(())
}

#[test]
fn flows_begin_and_end(rt: HostRuntime) -> Result<(), Fail> {
    let alloc = rt.alloc();
    let syn = segment(99, "SYN", b"");
    // the FIN comes before the bytes that precede it
    let early = segment(102, "FIN", b"cd");
    assert_completes(&rt, alloc, &[syn, early, segment(100, "", b"ab")], b"abcd")?;
    // the same SYN again changes nothing, another one starts another flow with its next segment
    let other = segment(7, "SYN", b"");
    let ab = segment(100, "", b"ab");
    assert_completes(
        &rt,
        alloc,
        &[syn, ab, syn, other, segment(8, "", b"")],
        b"ab",
    )?;
    // if the open flow goes on, another SYN does not end it
    assert_completes(
        &rt,
        alloc,
        &[syn, ab, other, segment(102, "FIN", b"cd")],
        b"abcd",
    )?;
    // without a SYN, and reset at the next byte
    let wrong = segment(6, "RST", b"");
    assert_completes(
        &rt,
        alloc,
        &[segment(5, "", b"xy"), wrong, segment(7, "RST", b"")],
        b"xy",
    )?;
    Ok(())
}

#[test]
fn what_is_left_is_given_at_the_end(rt: HostRuntime) -> Result<(), Fail> {
    let alloc = rt.alloc();
    let mut flows = Flows::new(alloc);
    let data = segment(5, "", b"xy");
    for source in [2, 1] {
        let ends = Ends::of(&[10, 0, 0, source], &[10, 0, 0, 3], &data).ok_or("no addresses")?;
        let _first = flows.take(alloc, ends, &data)?;
        let _gap = flows.take(alloc, ends, &segment(8, "", &[source]))?;
        let _closed = flows.take(alloc, ends, &segment(7, "", &[source]))?;
    }
    let mut left = Vec::new(alloc);
    while let Some((_, flow, _)) = flows.finish() {
        left.extend_from_slice(flow.bytes())?;
    }
    assert_eq!(rt; left.as_slice(), b"xy\x01\x01xy\x02\x02".as_slice());
    Ok(())
}
