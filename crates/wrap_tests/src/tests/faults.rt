//! Faults by their numbers and texts.

use super::{BANANA, refusal};
use memberlist_wrap::WrapFault;
use std::test::Fail;

#[test]
fn each_fault_has_its_number_and_its_text(rt: HostRuntime) -> Result<(), Fail> {
    for (bytes, number, text) in [
        (b"\x0c\0\0\0".as_slice(), 40, "the bytes end too early"),
        (b"\x09", 40, "the bytes end too early"),
        (b"\x09\x80", 40, "the bytes end too early"),
        (
            b"\x09\x82\xa4Algo\0\xa3Buf\xa4\0\x03\x02\0",
            41,
            "there are bytes after the end",
        ),
        (
            b"\x09\x82\xa4Algo\0\xa3Buf\xa3\0\x03\x02\0",
            41,
            "there are bytes after the end",
        ),
        (
            b"\x09\x82\xa4Algo\0\xa3Buf\xa3\xff\xff\xff",
            42,
            "a compression has a code that is not in the dictionary",
        ),
        (b"\x0c\0\0\0\x01", 43, "the checksum is wrong"),
        (
            b"\x09\x82\xa4Algo\0\xa4Algo\0",
            44,
            "the map of a compression is invalid",
        ),
        (
            b"\x09\x82\xa4Alga\0\xa3Buf\xa3\0\x03\x02",
            44,
            "the map of a compression is invalid",
        ),
        (b"\x09\x90", 44, "the map of a compression is invalid"),
        (
            b"\x09\x82\xa4Algo\x01\xa3Buf\xa3\0\x03\x02",
            45,
            "the compression is not LZW",
        ),
        (b"\xf4\0\x04", 46, "the label is empty"),
        (BANANA, 47, "the wrapped bytes exceed the limit"),
        (
            b"\xf4\x01x\xf4\x01x\xf4\x01x\xf4\x01x\x0c",
            48,
            "more than 4 wrappers are nested",
        ),
    ] {
        let fault = refusal(&rt, rt.alloc(), bytes, 9)?;
        assert_eq!(rt; fault.number(), number, "at {bytes:?}");
        assert_eq!(rt; format!(in rt.alloc(); "{fault}")?.as_str(), text);
    }
    assert_eq!(rt; WrapFault::Memory.number(), 49);
    Ok(())
}
