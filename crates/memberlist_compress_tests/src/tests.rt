//! What no clause says: that the bytes are those of Go and of memberlist, and how short they are.

use memberlist_compress::{COMPRESSIBLE, compressed, compressed_if_shorter, lzw_encode};
use memberlist_wrap::{crc32, lzw_decode};
use std::alloc::{AllocError, Global};
use std::test::Fail;

/// A gossip of a running memberlist, without its checksum.
const GOSSIP: &[u8] =
    b"\x09\x82\xa4Algo\x00\xa3Buf\xda\x00i\x00\x0f\x08\x00\xa0\x83 \x01C\xa4\x82\x90!#\x87\xd4\x1f\x00\x05\x04\xacJ\xe2fL\x189n\xc2\xd0I\xf3\xc6M\x00RM\xca\xd0\x09\x03\x8c\x94\x937d\xca\x88\"#\x83\x14\x947r\xe84\xfb\xa0`\x94\x959nL\x05\x88\x08\xa0\xe7\xc1\x84\x0b\x1b>,\x10`b\xc5\x8b\x197v\xfc\x18rd\xc9\x93)W\xc6p\x09S&M\x9b8u\xf2\xec\x19\x10";

/// What it compressed, a compound message.
const COMPOUND: &[u8] =
    b"\x07\x02\x00:\x00:\x04\x86\xa4Addr\xa4\x7f\x00\x05\x02\xabIncarnation\x01\xa4Meta\xc0\xa4Node\xa2d2\xa4Port\xcd\x1f\x0a\xa3Vsn\xa6\x01\x05\x02\x00\x00\x00\x04\x86\xa4Addr\xa4\x7f\x00\x05\x01\xabIncarnation\x01\xa4Meta\xc0\xa4Node\xa2d1\xa4Port\xcd\x1f\x0a\xa3Vsn\xa6\x01\x05\x02\x00\x00\x00";

/// Pseudo-random bytes: the bits of a linear congruential generator from this one on.
fn noise(alloc: Global, len: u32, first_bit: u32) -> Result<Vec<u8>, AllocError> {
    let mut bytes = Vec::new(alloc);
    let mut state = 1u32;
    for _ in 0..len {
        state = state.wrapping_mul(1_664_525).wrapping_add(1_013_904_223);
        bytes.push((state.wrapping_shr(first_bit) & 0xff) as u8)?;
    }
    Ok(bytes)
}

#[test]
fn bytes_are_compressed_as_by_go(rt: HostRuntime) -> Result<(), Fail> {
    for (bytes, packed) in [
        (b"".as_slice(), b"\0\x03\x02".as_slice()),
        (b"a", b"\0\xc3\x04\x04"),
        (
            b"banana bandana",
            b"\0\xc5\x84q30\x0c\x08\x81n\xc8\x14\x0c\x08",
        ),
        (
            b"TOBEORNOTTOBEORTOBEORNOT",
            b"\0\xa9<\x11R\xe4\x89\x14'O\xa8\x08$hpa\xc1\x83\x09\x03\x02",
        ),
        (
            b"aaaaaaaaaaaaaaaaaaaaaaaaaaaaaaa",
            b"\0\xc3\x08\x1cH\xb0\xa0\xc1\x83\x03\x03\x02",
        ),
    ] {
        assert_eq!(rt; lzw_encode(rt.alloc(), bytes)?.as_slice(), packed);
    }
    Ok(())
}

/// Bytes that no dictionary shortens; runs; and each width of codes. From 3,838 words on the
/// dictionary is reset.
#[test]
fn long_bytes_are_compressed_as_by_go(rt: HostRuntime) -> Result<(), Fail> {
    for (len, first_bit, packed_len, crc) in [
        (254, 24, 287, 3_747_224_201),
        (255, 24, 288, 3_729_960_220),
        (256, 24, 290, 1_442_096_169),
        (3837, 24, 5240, 824_459_973),
        (3838, 24, 5242, 2_954_471_459),
        (3839, 24, 5243, 700_534_894),
        (10_000, 24, 13_525, 626_068_346),
        (20_000, 31, 3181, 2_805_107_692),
    ] {
        let bytes = noise(rt.alloc(), len, first_bit)?;
        let packed = lzw_encode(rt.alloc(), &bytes)?;
        assert_eq!(rt;
            (packed.len(), crc32(&packed)),
            (packed_len, crc),
            "of {len} bytes"
        );
        let back = lzw_decode(rt.alloc(), &packed, bytes.len())?;
        assert_eq!(rt; back.as_slice(), bytes.as_slice());
    }
    Ok(())
}

#[test]
fn a_gossip_is_that_of_memberlist_and_holds_at_most_80_kib(rt: HostRuntime) -> Result<(), Fail> {
    assert!(rt; COMPOUND.len() < COMPRESSIBLE);
    assert_eq!(rt; compressed(rt.alloc(), COMPOUND)?.as_slice(), GOSSIP);
    Ok(())
}

#[test]
fn more_than_65535_bytes_have_a_length_of_four(rt: HostRuntime) -> Result<(), Fail> {
    let bytes = noise(rt.alloc(), 60_000, 24)?;
    assert!(rt; bytes.len() < COMPRESSIBLE);
    let message = compressed(rt.alloc(), &bytes)?;
    assert_eq!(rt; (message.len(), crc32(&message)), (82_083, 542_008_249));
    Ok(())
}

#[test]
fn only_a_shorter_message_is_sent_compressed(rt: HostRuntime) -> Result<(), Fail> {
    for (bytes, sent) in [
        (b"".as_slice(), b"".as_slice()),
        (b"aaaaaaaaaaaaaaaaaaaaaaaa", b"aaaaaaaaaaaaaaaaaaaaaaaa"),
        (
            b"aaaaaaaaaaaaaaaaaaaaaaaaa",
            b"\x09\x82\xa4Algo\0\xa3Buf\xab\0\xc3\x08\x1cH\xb0\xa0A\x82\x01\x01",
        ),
        (COMPOUND, GOSSIP),
    ] {
        let message = bytes.to_vec(rt.alloc())?;
        assert_eq!(rt;
            compressed_if_shorter(rt.alloc(), message)?.as_slice(),
            sent
        );
    }
    Ok(())
}

#[test]
fn want_of_memory_is_answered_once(rt: HostRuntime) -> Result<(), Fail> {
    if lzw_encode(rt.alloc(), b"a").is_err() {
        let packed = lzw_encode(rt.alloc(), b"a")?;
        assert_eq!(rt; packed.as_slice(), b"\0\xc3\x04\x04".as_slice());
    }
    Ok(())
}
