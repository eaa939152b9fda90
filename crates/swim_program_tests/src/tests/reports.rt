//! How each fault is reported.

ghost use Rattle.swim_program.specs.Report.{IsAmong};

use std::alloc::Global;
use std::test::Fail;
use swim_program::{Place, What, report_text, status};
use swim_wire::WireFault;

#[test]
fn each_fault_is_reported_by_its_number_and_its_name(rt: HostRuntime) -> Result<(), Fail> {
    for (number, name) in [
        (1, "Ended"),
        (2, "NotUnsigned"),
        (3, "OutOfRange"),
        (4, "NotBool"),
        (5, "NotRaw"),
        (6, "TooLong"),
        (7, "NotMap"),
        (8, "MapCount"),
        (9, "Fault"),
        (10, "Memory"),
        (11, "NameEmpty"),
        (12, "NameTooLong"),
        (13, "BadAddress"),
        (14, "MetaTooLong"),
        (15, "BadVersions"),
        (16, "WrongType"),
        (17, "UnknownKey"),
        (18, "DuplicateKey"),
        (19, "BadState"),
        (20, "TooManyNodes"),
        (21, "UserTooLong"),
        (22, "Trailing"),
        (23, "TooManyRecords"),
        (24, "Exhausted"),
        (25, "Gone"),
        (26, "NoSuchNode"),
        (27, "SameNode"),
        (28, "TooLargeForLoop"),
        (29, "Push"),
        (30, "BadHex"),
        (31, "BadScript"),
        (32, "InputTooLong"),
        (33, "Unknown"),
        (40, "Ended"),
        (41, "Trailing"),
        (42, "BadCode"),
        (43, "BadChecksum"),
        (44, "BadMap"),
        (45, "BadAlgo"),
        (46, "BadLabel"),
        (47, "TooLarge"),
        (48, "TooDeep"),
        (49, "Memory"),
        (50, "BadKey"),
        (51, "TooLong"),
        (52, "TooShort"),
        (53, "WrongVersion"),
        (54, "WrongTag"),
        (55, "BadPadding"),
        (56, "NotEncrypted"),
        (57, "Trailing"),
        (58, "Memory"),
        (59, "Unencrypted"),
        (60, "Unknown"),
    ] {
        let found = None;
        let report = What::Refused { number, found }.at(Place::Input);
        let text = report_text(rt.alloc(), "swimtab", &report, &[])?;
        let wanted = format!(in rt.alloc(); "swimtab: input: fault {number} {name}")?;
        assert_eq!(rt; text.as_str(), wanted.as_str());
    }
    Ok(())
}

/// The message about a run over the file `x y`, and its status.
fn said(alloc: Global, place: Place, what: What) -> Result<(String, u8), Fail>
    requires { IsAmong place 1 }
{
    let files = [String::from_str(alloc, "x y")?];
    let report = what.at(place);
    Ok((
        report_text(alloc, "swimtab", &report, &files)?,
        status(&report),
    ))
}

#[test]
fn a_fault_of_a_file_names_it_by_its_word(rt: HostRuntime) -> Result<(), Fail> {
    let what = What::from(WireFault::BadState { found: 4 });
    let (text, status) = said(rt.alloc(), Place::File(0), what)?;
    assert_eq!(rt; text.as_str(), "swimtab: x y: fault 19 BadState 4");
    assert_eq!(rt; status, 3);
    Ok(())
}

#[test]
fn each_report_has_its_text_and_status(rt: HostRuntime) -> Result<(), Fail> {
    let too_long = What::input_too_long();
    let unknown = What::Refused {
        number: 33,
        found: None,
    };
    for (what, wanted, number) in [
        (What::Device, "swimtab: input: device fault", 4),
        (What::Memory, "swimtab: out of memory", 5),
        (too_long, "swimtab: input: fault 32 InputTooLong", 3),
        (
            What::from(WireFault::Ended),
            "swimtab: input: fault 1 Ended",
            3,
        ),
        (unknown, "swimtab: input: fault 33 Unknown", 3),
    ] {
        let (text, status) = said(rt.alloc(), Place::Input, what)?;
        assert_eq!(rt; text.as_str(), wanted);
        assert_eq!(rt; status, number, "{wanted}");
    }
    let (text, _) = said(rt.alloc(), Place::Output, What::Device)?;
    assert_eq!(rt; text.as_str(), "swimtab: output: device fault");
    let (text, _) = said(rt.alloc(), Place::Loop, What::Device)?;
    assert_eq!(rt; text.as_str(), "swimtab: loop: device fault");
    Ok(())
}
