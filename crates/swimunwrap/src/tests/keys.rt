//! Lines and streams that are encrypted with Go's crypto/aes and crypto/cipher.

use super::{ALIVE, assert_becomes, assert_bytes, assert_causes, assert_left_out, keyring};
use crate::cause::Cause;
use crate::lines::unwrap_lines;
use crate::stream::unwrap_stream;
use memberlist_transport::InTheClear;
use std::alloc::Global;
use std::process::Abort;
use std::test::Fail;
use swim_program::What;

/// A key of 32 bytes, one of 24 that encrypted nothing here, and that one, one of 16 bytes and the
/// first.
const KEY: &str = "AAECAwQFBgcICQoLDA0ODxAREhMUFRYXGBkaGxwdHh8=";

const OTHER_KEY: &str = "AAAAAAAAAAAAAAAAAAAAAAAAAAAAAAAA";

const THREE_KEYS: &str =
    "AAAAAAAAAAAAAAAAAAAAAAAAAAAAAAAA\nAAECAwQFBgcICQoLDA0ODw==\nAAECAwQFBgcICQoLDA0ODxAREhMUFRYXGBkaGxwdHh8=\n";

/// The alive packet of `a`, of version 1, and of version 0 with a checksum.
const SEALED: &str =
    "016e6f6e63652d6e756d6265723920ab3d76e6704b1981b2c4e261f17ba5fc3f130ff8cd1d66bc9156e844b4b8bc30546c509b67376ac0f3e39120cd22726524f5faf2fb12e1daac6fa1317d508d4045";

const CHECKED: &str =
    "006e6f6e63652d6e756d6265723104d7c79c86844b27e5d6b7ed579f18c525181c18f0d01d076cb55cf225b051972b51a955b4ac036013e68ade451c00cc148e03034937c255037e855d315851108c572b333ab9d627cd40d7d76be2b0";

/// It under the shorter key, and after the label `dc`.
const UNDER_SHORT: &str =
    "016e6f6e63652d6e756d626572d62f586cb009446992e8786c1632c2c323a22cf64ea01a22bee3d4e8e3717010a1b0fda184e7438d8f944447f16368d6ebe476091f0b427f97a3afc347b9d49f162ddd";

const LABELLED: &str =
    "f4026463016e6f6e63652d6e756d6265723920ab3d76e6704b1981b2c4e261f17ba5fc3f130ff8cd1d66bc9156e844b4b8bc30546c509b67376ac0f3e39120cd2272652423e554e1f10971feecd5feda8d3d8cea";

/// An ack, and a byte that is not a message.
const ACK: &str =
    "016e6f6e63652d6e756d6265723f24a82c73fb6e8007e572601a4dee56ab8fa711b76e5035cde6a87f9b0ce9d72705";

const NOTHING: &str = "016e6f6e63652d6e756d6265723b0b56637d80325b1ad4163cc9c2cbef66";

/// A stream of one member, compressed, of version 1, of version 0 after the label `dc`, and an ack
/// as a stream.
const STREAM: &str =
    "0a0000008a016e6f6e63652d6e756d6265723424ab3d7ee56defc5c3c7a39328c118c98273d79fdcb844a452e54adf83d880f2f39ac5d8d9a46d9882f3e4be038d72c12ad6e19daac821b704768d546f7528744183bc06243ddbc40f0850f3d22ed0ccbc18544e0bf4f3d866e25a87d491ec3e0f6ad1a8bdb2950829fc54ff7494c7c8bc2500a0d7a1ab4fc76b5a98";

const LABELLED_STREAM: &str =
    "f40264630a0000008d006e6f6e63652d6e756d6265723424ab3d7ee56defc5c3c7a39328c118c98273d79fdcb844a452e54adf83d880f2f39ac5d8d9a46d9882f3e4be038d72c12ad6e19daac821b704768d546f7528744183bc06243ddbc40f0850f3d22ed0ccbc18544e0bf4f3d866e25a87d491ec3e0f6ad1a8bdb2950829fc54ff7279587b06cbcd7b5e5c17e150c6feb935b8d1";

const ACK_STREAM: &str =
    "0a0000002f016e6f6e63652d6e756d6265723f24a82c73fb6e8007e572601a4dee56ab8f2b2c23af1a5a34fd34c8c1ce29aa11ed";

/// A stream of no members, in the clear.
const CLEAR_STREAM: &str = "0683a44a6f696ec2a54e6f64657300ac5573657253746174654c656e00";

/// A stream of version 0 whose plaintext, 16 zeros, does not end in padding.
const UNPADDED_STREAM: &str =
    "0a0000002d006e6f6e63652d6e756d6265723da60f7c128202ef6681b2c549289f18599d13c1b4a6f475711651e8bfee697f";

/// The key that the stream is encrypted under and another one, in both orders.
const LAST_OTHER: &str =
    "AAECAwQFBgcICQoLDA0ODxAREhMUFRYXGBkaGxwdHh8=\nAAAAAAAAAAAAAAAAAAAAAAAAAAAAAAAA";

const LAST_OWN: &str =
    "AAAAAAAAAAAAAAAAAAAAAAAAAAAAAAAA\nAAECAwQFBgcICQoLDA0ODxAREhMUFRYXGBkaGxwdHh8=";

#[test]
fn what_a_key_opens_is_unwrapped(rt: HostRuntime) -> Result<(), Fail> {
    for line in [SEALED, CHECKED, LABELLED] {
        assert_becomes(&rt, rt.alloc(), KEY, line, ALIVE)?;
    }
    Ok(())
}

#[test]
fn keys_are_tried_in_order(rt: HostRuntime) -> Result<(), Fail> {
    for line in [SEALED, UNDER_SHORT] {
        assert_becomes(&rt, rt.alloc(), THREE_KEYS, line, ALIVE)?;
    }
    Ok(())
}

#[test]
fn a_message_without_claims_is_an_empty_line_behind_its_key_too(
    rt: HostRuntime,
) -> Result<(), Fail> {
    assert_becomes(&rt, rt.alloc(), KEY, ACK, "")
}

#[test]
fn what_no_key_opens_is_left_out_by_its_cause(rt: HostRuntime) -> Result<(), Fail> {
    for (keys, line, cause) in [
        (OTHER_KEY, SEALED, Cause::NoKeyFits),
        (KEY, UNDER_SHORT, Cause::NoKeyFits),
        (KEY, "01ff", Cause::NoKeyFits),
        (KEY, NOTHING, Cause::NoMessage(6)),
        (KEY, "06", Cause::NoMessage(6)),
        ("", SEALED, Cause::NoMessage(1)),
        ("", CHECKED, Cause::NoMessage(0)),
    ] {
        assert_left_out(&rt, rt.alloc(), keys, line, cause)?;
    }
    Ok(())
}

// With keys memberlist drops what is in the clear (net.go, GossipVerifyIncoming in config.go). A line
// of it would be believed if it stayed; an empty one has no packet.
#[test]
fn what_is_in_the_clear_is_left_out_if_there_are_keys(rt: HostRuntime) -> Result<(), Fail> {
    let keys = keyring(rt.alloc(), KEY)?;
    let input = format!(in rt.alloc(); "{ALIVE}\n\n{SEALED}\n08\n06")?;
    let refused = format!(in rt.alloc(); "\n\n{ALIVE}\n\n06")?;
    let accepted = format!(in rt.alloc(); "{ALIVE}\n\n{ALIVE}\n\n06")?;
    for (clear, wanted, causes) in [
        (
            InTheClear::Refused,
            refused,
            &[Cause::Unencrypted, Cause::Unencrypted] as &[Cause],
        ),
        (InTheClear::Accepted, accepted, &[]),
    ] {
        let shown = unwrap_lines(rt.alloc(), &keys, clear, input.as_bytes(), false)?;
        assert_bytes(&rt, shown.text(), wanted.as_bytes(), "the lines");
        assert_causes(&rt, shown.left_out(), causes, "the lines");
    }
    Ok(())
}

/// The stream in the bytes under these keys.
fn stream_in(alloc: Global, keys: &str, bytes: &[u8]) -> Result<Result<Vec<u8>, What>, Fail> {
    let keys = keyring(alloc, keys)?;
    Ok(unwrap_stream(alloc, &keys, InTheClear::Refused, bytes))
}

/// The stream in this text under these keys.
fn stream(alloc: Global, keys: &str, text: &str) -> Result<Result<Vec<u8>, What>, Fail> {
    let bytes = hex::decode(alloc, text)?;
    stream_in(alloc, keys, &bytes)
}

/// Asserts that it is this stream under the key.
fn assert_stream(rt: &impl Abort, alloc: Global, text: &str, wanted: &str) -> Result<(), Fail> {
    let stream = stream(alloc, KEY, text)??;
    let digits = hex::encode(alloc, &stream)?;
    assert_bytes(rt, digits.as_bytes(), wanted.as_bytes(), text);
    Ok(())
}

/// Why it is not a stream under these keys.
fn refusal(rt: &impl Abort, alloc: Global, keys: &str, text: &str) -> Result<What, Fail> {
    match stream(alloc, keys, text)?.err().expect(rt, "a refusal") {
        What::Memory => Err(Fail::from(What::Memory)),
        what => Ok(what),
    }
}

#[test]
fn a_stream_that_a_key_opens_is_unwrapped(rt: HostRuntime) -> Result<(), Fail> {
    let wanted =
        "0683a44a6f696ec2a54e6f64657301ac5573657253746174654c656e0087a441646472a47f000001ab496e6361726e6174696f6e00a44d657461a0a44e616d65a161a4506f7274cd1f0aa5537461746500a356736ea0";
    for text in [STREAM, LABELLED_STREAM] {
        assert_stream(&rt, rt.alloc(), text, wanted)?;
    }
    Ok(())
}

#[test]
fn a_stream_that_no_key_opens_is_refused(rt: HostRuntime) -> Result<(), Fail> {
    for (keys, text, number, found) in [
        (OTHER_KEY, STREAM, 54, None),
        ("", STREAM, 16, Some(10)),
        (KEY, CLEAR_STREAM, 59, None),
        // a checksum around the first bytes of an encrypted stream, to which no key applies
        (KEY, "0c32d706930a", 56, None),
        (KEY, "0a000000", 52, None),
        (KEY, "0a0000000000", 57, None),
        (KEY, ACK_STREAM, 16, Some(2)),
        // the last key's fault
        (LAST_OTHER, UNPADDED_STREAM, 54, None),
        (LAST_OWN, UNPADDED_STREAM, 55, None),
    ] {
        let what = refusal(&rt, rt.alloc(), keys, text)?;
        assert_eq!(rt; what, What::Refused { number, found }, "{text}");
    }
    Ok(())
}
