//! Each function once, and refused memory. What the program prints for many inputs is in
//! `tests/rows` at the root of the repository, which the built program is run on.

mod dumps;
mod looping;
mod replays;
mod words;

use crate::NAME;
use crate::packets::packets;
use dumps::too_long;
use std::alloc::Global;
use std::process::Abort;
use std::test::Fail;
use swim_program::{MAX_INPUT_LEN, Place, Report, What, report_text, status};

/// An Alive of `a`, an empty line, and a Suspect of `b` in upper case.
const PACKETS: &str =
    "0486a441646472a47f000001ab496e6361726e6174696f6e00a44d657461a0a44e6f6465a161a4506f7274cd1f0aa356736ea0\n\r\n0383A446726F6DA178AB496E6361726E6174696F6E01A44E6F6465A162\r\n";

/// Asserts that the bytes are the expected ones.
pub(crate) fn assert_bytes(rt: &impl Abort, found: &[u8], wanted: &[u8], about: &str) {
    assert_eq!(rt; found, wanted, "{about}");
}

/// Asserts that the text is the expected one.
pub(crate) fn assert_text(rt: &impl Abort, found: &str, wanted: &str, about: &str) {
    assert_eq!(rt; found, wanted, "{about}");
}

/// Asserts that the report is the expected one.
pub(crate) fn assert_report(rt: &impl Abort, found: Report, wanted: Report, about: &str) {
    assert_eq!(rt; found, wanted, "{about}");
}

/// Asserts that memory was refused.
pub(crate) fn assert_memory(rt: &impl Abort, report: Report) {
    assert_eq!(rt; report.what, What::Memory);
    assert_eq!(rt; status(&report), 5);
}

/// Asserts that the report of a run over these files has this text, and the status of a bad input.
pub(crate) fn assert_said(
    rt: &impl Abort,
    alloc: Global,
    report: Report,
    files: &[String],
    wanted: &str,
) -> Result<(), Fail> {
    if report.what == What::Memory {
        return Err(Fail::from(report));
    }
    match report.place {
        Place::File(file) => assert!(rt; file < files.len(), "a file that there is"),
        _ => {}
    }
    let text = report_text(alloc, NAME, &report, files)?;
    assert_text(rt, text.as_str(), wanted, "the text of the report");
    assert_eq!(rt; status(&report), 3, "{wanted}");
    Ok(())
}

/// The listing of packets; if memory is refused, that of the second try.
fn listing(rt: &impl Abort, alloc: Global, input: &[u8]) -> Result<Vec<u8>, Report> {
    match packets(alloc, input) {
        Ok(listing) => Ok(listing),
        Err(report) => {
            assert_memory(rt, report);
            packets(alloc, input)
        }
    }
}

#[test]
fn packets_are_listed_also_after_want_of_memory(rt: HostRuntime) -> Result<(), Fail> {
    let text = listing(&rt, rt.alloc(), PACKETS.as_bytes())?;
    let wanted = b"a alive 0 0/7f000001/7946//\nb suspect 1 -\n";
    assert_bytes(&rt, &text, wanted, "two packets");
    Ok(())
}

/// The report of an input that is refused.
fn refusal(rt: &impl Abort, alloc: Global, input: &[u8]) -> Report {
    packets(alloc, input).err().expect(rt, "a refusal")
}

#[test]
fn a_refused_line_is_reported(rt: HostRuntime) -> Result<(), Fail> {
    let report = refusal(&rt, rt.alloc(), b"\n\r\n0381a44e6f6465a162\r\n\n0380\n0g\n");
    assert_said(
        &rt,
        rt.alloc(),
        report,
        &[],
        "swimtab: line 5: fault 11 NameEmpty",
    )
}

#[test]
fn an_input_past_its_bound_is_refused_as_a_whole(rt: HostRuntime) -> Result<(), Fail> {
    let mut input = too_long(rt.alloc())?;
    input.truncate(MAX_INPUT_LEN + 1);
    let wanted = What::input_too_long().at(Place::Input);
    assert_report(
        &rt,
        refusal(&rt, rt.alloc(), &input),
        wanted,
        "a byte too many",
    );
    Ok(())
}
