//! Streams, unwrapped.

use crate::stream::unwrap_stream;
use memberlist_keyring::Keyring;
use memberlist_transport::InTheClear;
use std::alloc::Global;
use std::process::Abort;
use std::test::Fail;
use swim_program::What;

/// A stream of no members.
const STREAM: &[u8] = b"\x06\x83\xa4Join\xc2\xa5Nodes\0\xacUserStateLen\0";

/// What memberlist, with Go's compress/lzw, makes of a stream of one member, `a`.
const COMPRESSED: &str =
    "0982a4416c676f00a3427566da005e000d0c22a5e44d1a37c24a397943a6cc9c00acaacc2923670a9d3074ca3029e306c0215241c8909143ea0f00000156257133268c1c3718d3bce948aa49998ba0483909d3a64ca830a4a0bc9143a7d90705a52c622c03609495396e400504";

#[test]
fn a_stream_is_unwrapped(rt: HostRuntime) -> Result<(), Fail> {
    let alloc = rt.alloc();
    assert_eq!(rt;
        unwrap_stream(alloc, &Keyring::new(alloc), InTheClear::Refused, STREAM)?.as_slice(),
        STREAM
    );
    let stream = unwrap_stream(
        alloc,
        &Keyring::new(alloc),
        InTheClear::Refused,
        &hex::decode(alloc, COMPRESSED)?,
    )?;
    let wanted =
        "0683a44a6f696ec2a54e6f64657301ac5573657253746174654c656e0087a441646472a47f000001ab496e6361726e6174696f6e00a44d657461a0a44e616d65a161a4506f7274cd1f0aa5537461746500a356736ea0";
    assert_eq!(rt; hex::encode(alloc, &stream)?.as_str(), wanted);
    Ok(())
}

/// Why the bytes are refused.
fn refusal(rt: &impl Abort, alloc: Global, bytes: &[u8]) -> Result<What, Fail> {
    match unwrap_stream(alloc, &Keyring::new(alloc), InTheClear::Refused, bytes) {
        Ok(stream) => panic!(rt; "{bytes:?} is {stream:?}"),
        Err(What::Memory) => Err(Fail::from(What::Memory)),
        Err(what) => Ok(what),
    }
}

#[test]
fn what_is_no_stream_is_refused_by_its_cause(rt: HostRuntime) -> Result<(), Fail> {
    for (bytes, number, found) in [
        (b"".as_slice(), 1, None),
        (b"\0\x81\xa5SeqNo\x01", 16, Some(0)),
        (b"\x08abc", 16, Some(8)),
        (b"\x0a\0\0\0\x30", 16, Some(10)),
        (b"\x0c\0\0\0\0", 1, None),
        (b"\x0c\0\0\0\x01", 43, None),
        (b"\x09\x81\xa3Buf\xa2\0\x03", 40, None),
    ] {
        let what = refusal(&rt, rt.alloc(), bytes)?;
        assert_eq!(rt; what, What::Refused { number, found }, "{bytes:?}");
    }
    Ok(())
}
