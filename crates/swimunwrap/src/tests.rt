//! What clauses do not cover: real messages, texts, and each public call on its happy path.

mod keys;
mod streams;
mod texts;
mod words;

use crate::cause::Cause;
use crate::lines::{Unwrapped, unwrap_lines};
use memberlist_keyring::Keyring;
use memberlist_transport::InTheClear;
use memberlist_wrap::WrapFault;
use std::alloc::Global;
use std::process::Abort;
use std::test::Fail;
use swim_program::{Report, What, status};

/// An alive packet of `a`, and what Go's hash/crc32 and compress/lzw make of it as memberlist does:
/// a checksum, a compression, and a checksum around a compression.
const ALIVE: &str =
    "0486a441646472a47f000001ab496e6361726e6174696f6e00a44d657461a0a44e6f6465a161a4506f7274cd1f0aa356736ea0";

const CHECKED: &str =
    "0ca2d8bb8e0486a441646472a47f000001ab496e6361726e6174696f6e00a44d657461a0a44e6f6465a161a4506f7274cd1f0aa356736ea0";

const COMPRESSED: &str =
    "0982a4416c676f00a3427566da003c0009182215840c1939a4fe0000106055123763c2c87113864e9a376e00906a52864e1850a49cbc21532654185250dec8a1d3ec83825156e6b8011510";

const BOTH: &str =
    "0caa798b020982a4416c676f00a3427566da003c0009182215840c1939a4fe0000106055123763c2c87113864e9a376e00906a52864e1850a49cbc21532654185250dec8a1d3ec83825156e6b8011510";

/// A ping, an ack, an indirect ping and a nack, as members of a cluster sent them.
const CLAIMLESS: [&str; 4] = [
    "0085a44e6f6465a26433a55365714e6f01aa536f7572636541646472a47f000502aa536f757263654e6f6465a26432aa536f75726365506f7274cd1f0a",
    "0282a75061796c6f6164c0a55365714e6f01",
    "0188a44e61636bc3a44e6f6465a26434a4506f7274cd1f0aa55365714e6f07aa536f7572636541646472a47f000501aa536f757263654e6f6465a26431aa536f75726365506f7274cd1f0aa6546172676574a47f000504",
    "0b81a55365714e6f0a",
];

/// Asserts that the bytes are the expected ones.
fn assert_bytes(rt: &impl Abort, found: &[u8], wanted: &[u8], about: &str) {
    assert_eq!(rt; found, wanted, "{about}");
}

/// Asserts that lines were left out for these causes.
fn assert_causes(rt: &impl Abort, found: &[Cause], wanted: &[Cause], about: &str) {
    assert_eq!(rt; found, wanted, "{about}");
}

/// The keys in a file of these lines.
fn keyring(alloc: Global, text: &str) -> Result<Keyring, Fail> {
    let mut keys = Keyring::new(alloc);
    keys.add_file(alloc, text.as_bytes())?;
    Ok(keys)
}

/// The outcome of an input under these keys.
fn unwrapped(alloc: Global, keys: &str, input: &str, skip: bool) -> Result<Unwrapped, Fail> {
    let keys = keyring(alloc, keys)?;
    let clear = InTheClear::Refused;
    Ok(unwrap_lines(alloc, &keys, clear, input.as_bytes(), skip)?)
}

/// Asserts that the input becomes this text under these keys, and nothing is left out of it.
fn assert_becomes(
    rt: &impl Abort,
    alloc: Global,
    keys: &str,
    input: &str,
    wanted: &str,
) -> Result<(), Fail> {
    let unwrapped = unwrapped(alloc, keys, input, true)?;
    assert_bytes(rt, unwrapped.text(), wanted.as_bytes(), input);
    assert_causes(rt, unwrapped.left_out(), &[], input);
    Ok(())
}

#[test]
fn what_makes_claims_is_unwrapped(rt: HostRuntime) -> Result<(), Fail> {
    for line in [ALIVE, CHECKED, COMPRESSED, BOTH] {
        assert_becomes(&rt, rt.alloc(), "", line, ALIVE)?;
    }
    Ok(())
}

#[test]
fn what_makes_none_is_an_empty_line(rt: HostRuntime) -> Result<(), Fail> {
    for line in CLAIMLESS {
        assert_becomes(&rt, rt.alloc(), "", line, "")?;
    }
    Ok(())
}

/// Asserts that the input becomes this text without keys.
fn assert_text(
    rt: &impl Abort,
    alloc: Global,
    input: &str,
    skip: bool,
    wanted: &str,
) -> Result<(), Fail> {
    let unwrapped = unwrapped(alloc, "", input, skip)?;
    assert_bytes(rt, unwrapped.text(), wanted.as_bytes(), input);
    Ok(())
}

#[test]
fn each_line_becomes_a_line(rt: HostRuntime) -> Result<(), Fail> {
    for (input, kept, skipped) in [
        ("", "", ""),
        ("\n\n", "\n\n", "\n\n"),
        ("08\r\n\r\n0400", "\n\n0400", "\n\n0400"),
        ("03FF\n0x\n08\n", "03ff\n0x\n\n", "03ff\n\n\n"),
        ("0x\r", "0x\r", ""),
        ("0c00000000\n0c00000001\n", "\n0c00000001\n", "\n\n"),
    ] {
        assert_text(&rt, rt.alloc(), input, false, kept)?;
        assert_text(&rt, rt.alloc(), input, true, skipped)?;
    }
    Ok(())
}

/// Asserts that the line is left out under these keys, for this cause.
fn assert_left_out(
    rt: &impl Abort,
    alloc: Global,
    keys: &str,
    line: &str,
    cause: Cause,
) -> Result<(), Fail> {
    let unwrapped = unwrapped(alloc, keys, line, true)?;
    assert_causes(rt, unwrapped.left_out(), &[cause], line);
    assert_bytes(rt, unwrapped.text(), b"", line);
    Ok(())
}

#[test]
fn what_cannot_be_read_is_left_out_with_its_cause(rt: HostRuntime) -> Result<(), Fail> {
    for (line, cause) in [
        ("0", Cause::NotHex),
        (" ", Cause::NotHex),
        ("0c00", Cause::Wrapped(WrapFault::Ended)),
        ("0c00000001", Cause::Wrapped(WrapFault::BadChecksum)),
        ("0990", Cause::Wrapped(WrapFault::BadMap)),
        ("f400", Cause::Wrapped(WrapFault::BadLabel)),
        (
            "f40178f40178f40178f4017809",
            Cause::Wrapped(WrapFault::TooDeep),
        ),
        ("00", Cause::NoMessage(0)),
        ("0180ff", Cause::NoMessage(1)),
        ("0a", Cause::NoMessage(10)),
        ("06", Cause::NoMessage(6)),
    ] {
        assert_left_out(&rt, rt.alloc(), "", line, cause)?;
        assert_text(&rt, rt.alloc(), line, false, line)?;
    }
    Ok(())
}

/// Why the lines are refused, if they are.
fn refusal(alloc: Global, input: &str) -> Option<Report> {
    let keys = Keyring::new(alloc);
    unwrap_lines(alloc, &keys, InTheClear::Refused, input.as_bytes(), false).err()
}

#[test]
fn want_of_memory_is_answered_as_such_and_then_repeated(rt: HostRuntime) -> Result<(), Fail> {
    if let Some(report) = refusal(rt.alloc(), BOTH) {
        assert_eq!(rt; report.what, What::Memory);
        assert_eq!(rt; status(&report), 5);
        assert_text(&rt, rt.alloc(), BOTH, false, ALIVE)?;
    }
    Ok(())
}
