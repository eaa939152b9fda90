//! Packets and streams as memberlist sends them, made with Go's hash/crc32, compress/lzw,
//! crypto/aes and crypto/cipher.

use memberlist_cipher::CipherFault;
use memberlist_keyring::Keyring;
use memberlist_transport::*;
use memberlist_wrap::WrapFault;
use std::alloc::Global;
use std::process::Abort;
use std::test::Fail;
use swim_wire::Claimless;

/// A key of 32 bytes, and one of 24 that encrypted nothing here.
const KEY: &str = "AAECAwQFBgcICQoLDA0ODxAREhMUFRYXGBkaGxwdHh8=";

const OTHER_KEY: &str = "AAAAAAAAAAAAAAAAAAAAAAAAAAAAAAAA";

/// An alive packet of `a`, with a checksum, and with a checksum around a compression.
const ALIVE: &[u8] =
    b"\x04\x86\xa4Addr\xa4\x7f\x00\x00\x01\xabIncarnation\x00\xa4Meta\xa0\xa4Node\xa1a\xa4Port\
      \xcd\x1f\x0a\xa3Vsn\xa0";

const CHECKED: &[u8] =
    b"\x0c\xa2\xd8\xbb\x8e\x04\x86\xa4Addr\xa4\x7f\x00\x00\x01\xabIncarnation\x00\xa4Meta\xa0\
      \xa4Node\xa1a\xa4Port\xcd\x1f\x0a\xa3Vsn\xa0";

const PACKED: &[u8] =
    b"\x0c\xaay\x8b\x02\x09\x82\xa4Algo\x00\xa3Buf\xda\x00<\x00\x09\x18\"\x15\x84\x0c\x199\xa4\
      \xfe\x00\x00\x10`U\x127c\xc2\xc8q\x13\x86N\x9a7n\x00\x90jR\x86N\x18P\xa4\x9c\xbc!S&T\x18\
      RP\xde\xc8\xa1\xd3\xec\x83\x82QV\xe6\xb8\x01\x15\x10";

/// A ping, as a member of a cluster sent it.
const PING: &[u8] =
    b"\x00\x85\xa4Node\xa2d3\xa5SeqNo\x01\xaaSourceAddr\xa4\x7f\x00\x05\x02\xaaSourceNode\xa2d\
      2\xaaSourcePort\xcd\x1f\x0a";

/// The alive packet under the key, and after the label `dc`.
const SEALED: &[u8] =
    b"\x01nonce-number9 \xab=v\xe6pK\x19\x81\xb2\xc4\xe2a\xf1{\xa5\xfc?\x13\x0f\xf8\xcd\x1df\
      \xbc\x91V\xe8D\xb4\xb8\xbc0TlP\x9bg7j\xc0\xf3\xe3\x91 \xcd\"re$\xf5\xfa\xf2\xfb\x12\xe1\
      \xda\xaco\xa11}P\x8d@E";

const LABELLED: &[u8] =
    b"\xf4\x02dc\x01nonce-number9 \xab=v\xe6pK\x19\x81\xb2\xc4\xe2a\xf1{\xa5\xfc?\x13\x0f\xf8\
      \xcd\x1df\xbc\x91V\xe8D\xb4\xb8\xbc0TlP\x9bg7j\xc0\xf3\xe3\x91 \xcd\"re$#\xe5T\xe1\xf1\
      \x09q\xfe\xec\xd5\xfe\xda\x8d=\x8c\xea";

/// An ack, and a byte that is not a message, under the key.
const SEALED_ACK: &[u8] =
    b"\x01nonce-number?$\xa8,s\xfbn\x80\x07\xe5r`\x1aM\xeeV\xab\x8f\xa7\x11\xb7nP5\xcd\xe6\xa8\
      \x7f\x9b\x0c\xe9\xd7'\x05";

const SEALED_BYTE: &[u8] = b"\x01nonce-number;\x0bVc}\x802[\x1a\xd4\x16<\xc9\xc2\xcb\xeff";

/// A stream of one member, under the key, after the label `dc` too, and an ack as a stream.
const STREAM: &[u8] =
    b"\x06\x83\xa4Join\xc2\xa5Nodes\x01\xacUserStateLen\x00\x87\xa4Addr\xa4\x7f\x00\x00\x01\
      \xabIncarnation\x00\xa4Meta\xa0\xa4Name\xa1a\xa4Port\xcd\x1f\x0a\xa5State\x00\xa3Vsn\xa0";

const SEALED_STREAM: &[u8] =
    b"\x0a\x00\x00\x00\x8a\x01nonce-number4$\xab=~\xe5m\xef\xc5\xc3\xc7\xa3\x93(\xc1\x18\xc9\
      \x82s\xd7\x9f\xdc\xb8D\xa4R\xe5J\xdf\x83\xd8\x80\xf2\xf3\x9a\xc5\xd8\xd9\xa4m\x98\x82\
      \xf3\xe4\xbe\x03\x8dr\xc1*\xd6\xe1\x9d\xaa\xc8!\xb7\x04v\x8dTou(tA\x83\xbc\x06$=\xdb\xc4\
      \x0f\x08P\xf3\xd2.\xd0\xcc\xbc\x18TN\x0b\xf4\xf3\xd8f\xe2Z\x87\xd4\x91\xec>\x0fj\xd1\xa8\
      \xbd\xb2\x95\x08)\xfcT\xfft\x94\xc7\xc8\xbc%\x00\xa0\xd7\xa1\xabO\xc7kZ\x98";

const LABELLED_STREAM: &[u8] =
    b"\xf4\x02dc\x0a\x00\x00\x00\x8d\x00nonce-number4$\xab=~\xe5m\xef\xc5\xc3\xc7\xa3\x93(\xc1\
      \x18\xc9\x82s\xd7\x9f\xdc\xb8D\xa4R\xe5J\xdf\x83\xd8\x80\xf2\xf3\x9a\xc5\xd8\xd9\xa4m\
      \x98\x82\xf3\xe4\xbe\x03\x8dr\xc1*\xd6\xe1\x9d\xaa\xc8!\xb7\x04v\x8dTou(tA\x83\xbc\x06$=\
      \xdb\xc4\x0f\x08P\xf3\xd2.\xd0\xcc\xbc\x18TN\x0b\xf4\xf3\xd8f\xe2Z\x87\xd4\x91\xec>\x0fj\
      \xd1\xa8\xbd\xb2\x95\x08)\xfcT\xffryX{\x06\xcb\xcd{^\\\x17\xe1P\xc6\xfe\xb95\xb8\xd1";

/// The stream as the reply to one in a cluster with the label `dc`, under the key, made with
/// python's cryptography.
const SEALED_REPLY: &[u8] =
    b"\x0a\x00\x00\x00s\x01nonce-number;%\xab6}\xebl-\xc3\xcf\xdd\xa1,[\x9e\xb4\x91\xfd4\
      \x00(\xe5\xc3\x07\x03T\xb9]\x9c\xa2\xb0]\x96;B\xad\x8e\xfa\xc3f\xae\xfb\xe9M\xefX\
      \x00\x15ub\xeb\xceU\x9e\x14\x07)j\xd6)\x1bX=<\xe6\x06\xab\xf0^N\x9a\xaa2M\x07J\x1e8\
      \xfa\xfd\xf5\x16\x9d\x81l\x03{q{=\x88P\x90Q\x80\x11\xfb\x9d$\xa0E\xe3";

const ACK_STREAM: &[u8] =
    b"\x0a\x00\x00\x00/\x01nonce-number?$\xa8,s\xfbn\x80\x07\xe5r`\x1aM\xeeV\xab\x8f+,#\xaf\
      \x1aZ4\xfd4\xc8\xc1\xce)\xaa\x11\xed";

/// The keys in a file of these lines.
fn keyring(alloc: Global, text: &str) -> Result<Keyring, Fail> {
    let mut keys = Keyring::new(alloc);
    keys.add_file(alloc, text.as_bytes())?;
    Ok(keys)
}

/// The message of the packet under these keys. If a growth is refused, the next call finds memory.
fn opened(alloc: Global, keys: &str, bytes: &[u8]) -> Result<Result<Message, PacketFault>, Fail> {
    let keys = keyring(alloc, keys)?;
    match open_packet(alloc, &keys, InTheClear::Accepted, bytes) {
        Err(PacketFault::Memory) => Ok(open_packet(alloc, &keys, InTheClear::Accepted, bytes)),
        result => Ok(result),
    }
}

/// Asserts that the packet has a message of this kind that makes claims, in these bytes.
fn assert_claims(
    rt: &impl Abort,
    alloc: Global,
    keys: &str,
    packet: &[u8],
    kind: Claiming,
    bytes: &[u8],
) -> Result<(), Fail> {
    match opened(alloc, keys, packet)? {
        Ok(Message::Claims(found, copy)) => {
            assert_eq!(rt; found, kind, "{packet:?}");
            assert_eq!(rt; copy.as_slice(), bytes, "{packet:?}");
        }
        other => panic!(rt; "{packet:?} is {other:?}"),
    }
    Ok(())
}

#[test]
fn what_makes_claims_is_opened(rt: HostRuntime) -> Result<(), Fail> {
    for (keys, packet) in [
        ("", ALIVE),
        ("", CHECKED),
        ("", PACKED),
        (KEY, ALIVE),
        (KEY, SEALED),
        (KEY, LABELLED),
    ] {
        assert_claims(&rt, rt.alloc(), keys, packet, Claiming::Alive, ALIVE)?;
    }
    for (packet, kind) in [
        (b"\x03", Claiming::Suspect),
        (b"\x04", Claiming::Alive),
        (b"\x05", Claiming::Dead),
        (b"\x07", Claiming::Compound),
    ] {
        assert_claims(&rt, rt.alloc(), "", packet, kind, packet)?;
    }
    Ok(())
}

/// Asserts that the packet has a message of this kind that makes none, or none at all.
fn assert_none(
    rt: &impl Abort,
    alloc: Global,
    keys: &str,
    packet: &[u8],
    kind: Option<Claimless>,
) -> Result<(), Fail> {
    match opened(alloc, keys, packet)? {
        Ok(Message::Claimless(found)) => assert_eq!(rt; Some(found), kind, "{packet:?}"),
        Ok(Message::Empty) => assert_eq!(rt; None, kind, "{packet:?}"),
        other => panic!(rt; "{packet:?} is {other:?}"),
    }
    Ok(())
}

#[test]
fn what_makes_none_is_told_by_its_kind(rt: HostRuntime) -> Result<(), Fail> {
    for (keys, packet, kind) in [
        ("", PING, Some(Claimless::Ping)),
        (KEY, PING, Some(Claimless::Ping)),
        (KEY, SEALED_ACK, Some(Claimless::Ack)),
        ("", b"\x08any", Some(Claimless::User)),
        ("", b"\x0b\x80", Some(Claimless::Nack)),
        ("", b"", None),
        ("", b"\x0c\0\0\0\0", None),
    ] {
        assert_none(&rt, rt.alloc(), keys, packet, kind)?;
    }
    Ok(())
}

#[test]
fn what_has_no_message_is_refused_by_its_cause(rt: HostRuntime) -> Result<(), Fail> {
    for (keys, packet, fault) in [
        (
            "",
            b"\x0c\0".as_slice(),
            PacketFault::Wrapped(WrapFault::Ended),
        ),
        (
            KEY,
            b"\x0c\0\0\0\x01",
            PacketFault::Wrapped(WrapFault::BadChecksum),
        ),
        ("", b"\x06", PacketFault::NoMessage(6)),
        ("", SEALED, PacketFault::NoMessage(1)),
        (OTHER_KEY, SEALED, PacketFault::NoKeyFits),
        (KEY, b"\x01\xff", PacketFault::NoKeyFits),
        (KEY, SEALED_BYTE, PacketFault::NoMessage(6)),
    ] {
        let found = opened(rt.alloc(), keys, packet)?.err();
        assert_eq!(rt; found, Some(fault), "{packet:?}");
    }
    Ok(())
}

/// The stream in the bytes under these keys, of at most `limit` bytes. If a growth is refused, the
/// next call finds memory.
fn stream_in(
    alloc: Global,
    keys: &str,
    bytes: &[u8],
    limit: usize,
) -> Result<Result<Vec<u8>, StreamFault>, Fail> {
    let keys = keyring(alloc, keys)?;
    match open_stream(alloc, &keys, InTheClear::Accepted, bytes, limit) {
        Err(StreamFault::Memory) => Ok(open_stream(
            alloc,
            &keys,
            InTheClear::Accepted,
            bytes,
            limit,
        )),
        result => Ok(result),
    }
}

/// Asserts that the bytes hold the stream of one member.
fn assert_stream(rt: &impl Abort, alloc: Global, keys: &str, bytes: &[u8]) -> Result<(), Fail> {
    match stream_in(alloc, keys, bytes, 999)? {
        Ok(stream) => assert_eq!(rt; stream.as_slice(), STREAM, "{bytes:?}"),
        Err(fault) => panic!(rt; "{bytes:?} is refused: {fault}"),
    }
    Ok(())
}

#[test]
fn a_stream_is_opened(rt: HostRuntime) -> Result<(), Fail> {
    for (keys, bytes) in [
        ("", STREAM),
        (KEY, STREAM),
        (KEY, SEALED_STREAM),
        (KEY, LABELLED_STREAM),
    ] {
        assert_stream(&rt, rt.alloc(), keys, bytes)?;
    }
    Ok(())
}

#[test]
fn what_holds_no_stream_is_refused_by_its_cause(rt: HostRuntime) -> Result<(), Fail> {
    for (keys, bytes, limit, fault) in [
        ("", b"".as_slice(), 9, StreamFault::Empty),
        ("", b"\x08abc", 9, StreamFault::NoStream(8)),
        ("", SEALED_STREAM, 999, StreamFault::NoStream(10)),
        ("", STREAM, 9, StreamFault::Wrapped(WrapFault::TooLarge)),
        (
            "",
            b"\x0c\0\0\0\x01",
            9,
            StreamFault::Wrapped(WrapFault::BadChecksum),
        ),
        (
            OTHER_KEY,
            SEALED_STREAM,
            999,
            StreamFault::Closed(CipherFault::WrongTag),
        ),
        (
            KEY,
            b"\x0a\0\0\0",
            9,
            StreamFault::Closed(CipherFault::TooShort),
        ),
        (KEY, ACK_STREAM, 999, StreamFault::NoStream(2)),
    ] {
        let found = stream_in(rt.alloc(), keys, bytes, limit)?.err();
        assert_eq!(rt; found, Some(fault), "{bytes:?}");
    }
    Ok(())
}

/// The stream in the bytes as a reply in a cluster with this label. If a growth is refused, the
/// next call finds memory.
fn reply_in(
    alloc: Global,
    keys: &str,
    label: &[u8; 2],
    bytes: &[u8],
) -> Result<Result<Vec<u8>, StreamFault>, Fail> {
    let keys = keyring(alloc, keys)?;
    match open_reply(alloc, &keys, InTheClear::Accepted, label, bytes, 999) {
        Err(StreamFault::Memory) => Ok(open_reply(
            alloc,
            &keys,
            InTheClear::Accepted,
            label,
            bytes,
            999,
        )),
        result => Ok(result),
    }
}

#[test]
fn a_reply_is_opened_with_the_label_of_the_cluster(rt: HostRuntime) -> Result<(), Fail> {
    for (keys, label, bytes, wanted) in [
        (KEY, b"dc", SEALED_REPLY, Some(STREAM)),
        (KEY, b"dc", STREAM, Some(STREAM)),
        ("", b"dc", STREAM, Some(STREAM)),
        (KEY, b"dx", LABELLED_STREAM, Some(STREAM)),
        (KEY, b"dx", SEALED_REPLY, None),
        (KEY, b"dc", SEALED_STREAM, None),
        ("", b"dc", SEALED_REPLY, None),
    ] {
        let found = reply_in(rt.alloc(), keys, label, bytes)?.ok();
        assert_eq!(rt; found.as_deref(), wanted, "{bytes:?}");
    }
    Ok(())
}

#[test]
fn a_reply_of_any_kind_is_unwrapped(rt: HostRuntime) -> Result<(), Fail> {
    let keys = keyring(rt.alloc(), KEY)?;
    let clear = InTheClear::Refused;
    let mut found = unwrap_reply(rt.alloc(), &keys, clear, b"dc", SEALED_REPLY, 999);
    if let Err(StreamFault::Memory) = found {
        found = unwrap_reply(rt.alloc(), &keys, clear, b"dc", SEALED_REPLY, 999);
    }
    assert_eq!(rt; found.ok().as_deref(), Some(STREAM));
    let label_alone = unwrap_reply(rt.alloc(), &keys, clear, b"dc", b"\xf4\x02dc", 999).err();
    assert!(rt;
        label_alone == Some(StreamFault::Empty) || label_alone == Some(StreamFault::Memory)
    );
    let read = unwrap_reply(rt.alloc(), &keys, InTheClear::Accepted, b"dc", PING, 999);
    assert!(rt; read.as_deref() == Ok(PING) || read == Err(StreamFault::Memory));
    Ok(())
}

/// The texts of two faults.
fn texts(
    alloc: Global,
    packet: PacketFault,
    stream: StreamFault,
) -> Result<(String, String), Fail> {
    Ok((
        format!(in alloc; "{packet}")?,
        format!(in alloc; "{stream}")?,
    ))
}

#[test]
fn a_fault_has_its_text(rt: HostRuntime) -> Result<(), Fail> {
    for (packet, stream, wanted) in [
        (
            PacketFault::Memory,
            StreamFault::Memory,
            ["out of memory", "out of memory"],
        ),
        (
            PacketFault::NoMessage(6),
            StreamFault::NoStream(2),
            [
                "not a message (first byte 06)",
                "not a push/pull stream (first byte 02)",
            ],
        ),
        (
            PacketFault::NoKeyFits,
            StreamFault::Empty,
            ["no key decrypts the packet", "the stream is empty"],
        ),
        (
            PacketFault::Wrapped(WrapFault::BadLabel),
            StreamFault::Wrapped(WrapFault::BadLabel),
            ["the label is empty", "the label is empty"],
        ),
    ] {
        let found = texts(rt.alloc(), packet, stream)?;
        assert_eq!(rt; found.0.as_str(), wanted[0]);
        assert_eq!(rt; found.1.as_str(), wanted[1]);
    }
    Ok(())
}

// With keys memberlist reads only what is encrypted (GossipVerifyIncoming in its config.go).
#[test]
fn what_is_in_the_clear_is_refused_with_keys(rt: HostRuntime) -> Result<(), Fail> {
    let alloc = rt.alloc();
    for (keys, packet, fault) in [
        ("", ALIVE, None),
        (KEY, SEALED, None),
        (KEY, LABELLED, None),
        (KEY, ALIVE, Some(PacketFault::Unencrypted)),
        (KEY, CHECKED, Some(PacketFault::Unencrypted)),
        (OTHER_KEY, SEALED, Some(PacketFault::NoKeyFits)),
    ] {
        let keys = keyring(alloc, keys)?;
        let found = match open_packet(alloc, &keys, InTheClear::Refused, packet) {
            Err(PacketFault::Memory) => open_packet(alloc, &keys, InTheClear::Refused, packet),
            result => result,
        };
        assert_eq!(rt; found.err(), fault, "{packet:?}");
        let inner = match unwrap_packet(alloc, &keys, InTheClear::Refused, packet) {
            Err(PacketFault::Memory) => unwrap_packet(alloc, &keys, InTheClear::Refused, packet),
            result => result,
        };
        assert_eq!(rt; inner.err(), fault, "{packet:?}");
    }
    Ok(())
}

#[test]
fn a_stream_in_the_clear_is_refused_with_keys(rt: HostRuntime) -> Result<(), Fail> {
    let alloc = rt.alloc();
    for (keys, bytes, fault) in [
        ("", STREAM, None),
        (KEY, SEALED_STREAM, None),
        (KEY, STREAM, Some(StreamFault::Unencrypted)),
    ] {
        let keys = keyring(alloc, keys)?;
        let found = match open_stream(alloc, &keys, InTheClear::Refused, bytes, 999) {
            Err(StreamFault::Memory) => open_stream(alloc, &keys, InTheClear::Refused, bytes, 999),
            result => result,
        };
        assert_eq!(rt; found.err(), fault, "{bytes:?}");
    }
    Ok(())
}
