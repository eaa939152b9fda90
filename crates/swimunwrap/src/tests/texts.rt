//! The message about lines that were left out.

use crate::cause::Cause;
use crate::left_out::left_out_text;
use memberlist_wrap::WrapFault;
use std::test::Fail;

#[test]
fn causes_are_counted_in_the_order_in_which_they_came(rt: HostRuntime) -> Result<(), Fail> {
    let wrong = Cause::Wrapped(WrapFault::BadChecksum);
    let causes = [Cause::NotHex, wrong, Cause::NotHex];
    let text = left_out_text(rt.alloc(), &causes, b"\n\n\n\n")?;
    assert_eq!(rt;
        text.as_str(),
        "swimunwrap: 3 of 4 lines left out: 2 not hexadecimal, 1 wrong checksum"
    );
    let text = left_out_text(rt.alloc(), &causes[1..2], b"\nx")?;
    assert_eq!(rt;
        text.as_str(),
        "swimunwrap: 1 of 2 lines left out: 1 wrong checksum"
    );
    Ok(())
}

#[test]
fn each_cause_has_its_text(rt: HostRuntime) -> Result<(), Fail> {
    for (cause, wanted) in [
        (Cause::NotHex, "not hexadecimal"),
        (Cause::Wrapped(WrapFault::Ended), "wrapper cut short"),
        (
            Cause::Wrapped(WrapFault::Trailing),
            "bytes after a compression",
        ),
        (
            Cause::Wrapped(WrapFault::BadCode),
            "invalid compressed bytes",
        ),
        (Cause::Wrapped(WrapFault::BadChecksum), "wrong checksum"),
        (
            Cause::Wrapped(WrapFault::BadMap),
            "invalid map of a compression",
        ),
        (Cause::Wrapped(WrapFault::BadAlgo), "unknown compression"),
        (Cause::Wrapped(WrapFault::BadLabel), "empty label"),
        (Cause::Wrapped(WrapFault::TooLarge), "message too large"),
        (Cause::Wrapped(WrapFault::TooDeep), "too many wrappers"),
        (Cause::Wrapped(WrapFault::Memory), "out of memory"),
        (
            Cause::NoMessage(0),
            "encrypted or not a message (first byte 00)",
        ),
        (
            Cause::NoMessage(1),
            "encrypted or not a message (first byte 01)",
        ),
        (Cause::NoMessage(255), "not a message (first byte ff)"),
        (Cause::NoKeyFits, "that no key decrypts"),
        (Cause::Unencrypted, "not encrypted"),
    ] {
        assert_eq!(rt; format!(in rt.alloc(); "{cause}")?.as_str(), wanted);
    }
    Ok(())
}
