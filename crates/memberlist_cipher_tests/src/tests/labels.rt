//! Labels, with the layout in memberlist's label.go.

use memberlist_cipher::{LabelFault, labelled, split_label};
use std::process::Abort;
use std::test::Fail;

#[test]
fn labels_are_split_off(rt: HostRuntime) {
    for (bytes, expected) in [
        (b"".as_slice(), Ok((b"".as_slice(), b"".as_slice()))),
        (b"x", Ok((b"", b"x"))),
        (b"blargh", Ok((b"", b"blargh"))),
        (b"\xf4\x03fooblargh", Ok((b"foo", b"blargh"))),
        (b"\xf4", Err(LabelFault::Ended)),
        (b"\xf4\x05x", Err(LabelFault::Ended)),
        (b"\xf4\x00x", Err(LabelFault::Empty)),
    ] {
        assert_eq!(rt; split_label(bytes), expected, "{bytes:?}");
    }
}

#[test]
fn a_label_is_written(rt: HostRuntime) -> Result<(), Fail> {
    let text = match labelled(rt.alloc(), b"foo", b"blargh") {
        Err(_) => labelled(rt.alloc(), b"foo", b"blargh")?,
        Ok(text) => text,
    };
    assert_eq!(rt; text.as_slice(), b"\xf4\x03fooblargh".as_slice());
    Ok(())
}
