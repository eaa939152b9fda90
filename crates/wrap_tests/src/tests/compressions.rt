//! Checksums and compressed bytes, as in Go's hash/crc32 and compress/lzw.

use super::BANANA;
use memberlist_wrap::{WrapFault, crc32, lzw_decode, unwrap};
use std::alloc::{AllocError, Global};
use std::test::Fail;

#[test]
fn checksums_are_those_of_go(rt: HostRuntime) {
    for (bytes, crc) in [
        (b"".as_slice(), 0),
        (b"a", 0xe8b7_be43),
        (b"123456789", 0xcbf4_3926),
        (b"banana bandana", 0x870d_9abf),
    ] {
        assert_eq!(rt; crc32(bytes), crc);
    }
}

#[test]
fn what_go_compressed_is_decompressed(rt: HostRuntime) -> Result<(), Fail> {
    for (bytes, out) in [
        (b"\0\x03\x02".as_slice(), b"".as_slice()),
        (b"\0\xc3\x04\x04", b"a"),
        (
            b"\0\xc5\x84q30\x0c\x08\x81n\xc8\x14\x0c\x08",
            b"banana bandana",
        ),
        (
            b"\0\xc3\x08\x1cH\xb0\xa0\xc1\x83\x03\x03\x02",
            b"aaaaaaaaaaaaaaaaaaaaaaaaaaaaaaa",
        ),
    ] {
        assert_eq!(rt; lzw_decode(rt.alloc(), bytes, out.len())?.as_slice(), out);
    }
    Ok(())
}

/// Codes of 9 to 12 bits, depending on how many came since the last clear code.
#[derive(Drop)]
struct Codes {
    bytes: Vec<u8>,
    held: u64,
    count: u32,
    codes: u32,
}

impl Codes {
    fn new(alloc: Global) -> Codes {
        Codes {
            bytes: Vec::new(alloc),
            held: 0,
            count: 0,
            codes: 0,
        }
    }

    fn put(&mut self, code: u64) -> Result<(), AllocError> {
        let width = match self.codes {
            0..=254 => 9,
            255..=766 => 10,
            767..=1790 => 11,
            _ => 12,
        };
        self.held |= code.wrapping_shl(self.count);
        self.count = self.count.wrapping_add(width);
        self.codes = if code == 256 {
            0
        } else {
            self.codes.wrapping_add(1)
        };
        for _ in 0..self.count / 8 {
            self.bytes.push((self.held & 0xff) as u8)?;
            self.held >>= 8;
        }
        self.count %= 8;
        Ok(())
    }
}

#[test]
fn codes_behind_the_greatest_stand_for_no_more_words(rt: HostRuntime) -> Result<(), Fail> {
    let mut codes = Codes::new(rt.alloc());
    for i in 0..5000u64 {
        codes.put(i.wrapping_mul(7) % 256)?;
    }
    for code in [4095, 4094, 258, 257] {
        codes.put(code)?;
    }
    codes.bytes.push((codes.held & 0xff) as u8)?;
    let out = lzw_decode(rt.alloc(), &codes.bytes, 5006)?;
    assert_eq!(rt; out.len(), 5006);
    assert_eq!(rt; crc32(&out), 40_880_988);
    Ok(())
}

/// Words that each have a byte more than the one before, and then the longest again and again: 100
/// KB that decompress to more than 100 MB.
#[test]
fn a_bomb_is_refused_at_the_limit(rt: HostRuntime) -> Result<(), Fail> {
    let mut codes = Codes::new(rt.alloc());
    codes.put(0)?;
    for code in 258..4096 {
        codes.put(code)?;
    }
    codes.bytes.resize(102_400, 0xff)?;
    for limit in [0, 1000, 1_000_000] {
        match lzw_decode(rt.alloc(), &codes.bytes, limit) {
            Ok(out) => panic!(rt; "{} bytes come out", out.len()),
            Err(WrapFault::Memory) => return Err(Fail::from(WrapFault::Memory)),
            Err(fault) => assert_eq!(rt; fault, WrapFault::TooLarge, "at {limit}"),
        }
    }
    Ok(())
}

#[test]
fn a_great_limit_asks_for_little(rt: HostRuntime) -> Result<(), Fail> {
    let message = unwrap(rt.alloc(), BANANA, 268_435_456)?;
    assert_eq!(rt; message.as_slice(), b"banana bandana".as_slice());
    Ok(())
}

/// Codes that start with 52,000 clear codes: 58,500 bytes that decompress to nothing.
fn clear_codes(alloc: Global) -> Result<Codes, AllocError> {
    let mut codes = Codes::new(alloc);
    for _ in 0..52_000u32 {
        codes.put(256)?;
    }
    Ok(codes)
}

/// A compression of these codes, the last of which is 257.
fn compression(alloc: Global, codes: Codes) -> Result<Vec<u8>, AllocError> {
    let mut codes = codes;
    codes.put(257)?;
    codes.bytes.push((codes.held & 0xff) as u8)?;
    let front = b"\x09\x82\xa4Algo\0\xa3Buf\xdb";
    let mut bytes = Vec::with_capacity(alloc, codes.bytes.len().saturating_add(17))?;
    bytes.extend_from_slice(front)?;
    bytes.extend_from_slice(&codes.bytes.len().to_be_bytes()[4..])?;
    bytes.extend_from_slice(&codes.bytes)?;
    Ok(bytes)
}

/// The letter `a` 131,328 times, as the words of 1 to 512 letters.
fn letters(alloc: Global) -> Result<Vec<u8>, AllocError> {
    let mut codes = clear_codes(alloc)?;
    codes.put(97)?;
    for code in 258..769 {
        codes.put(code)?;
    }
    compression(alloc, codes)
}

/// `letters` compressed once more, byte by byte.
fn nested(alloc: Global) -> Result<Vec<u8>, AllocError> {
    let inner = letters(alloc)?;
    let mut codes = clear_codes(alloc)?;
    for byte in &inner {
        codes.put(*byte as u64)?;
    }
    compression(alloc, codes)
}

/// While the letters are decompressed, at most 262,144 bytes are used for them, 30,720 for the
/// places of words, the second compression's 59,300 and the input's 147,000, and nothing else of
/// the first.
#[test]
fn a_compression_in_a_compression_holds_at_most_490_kib(rt: HostRuntime) -> Result<(), Fail> {
    let bytes = nested(rt.alloc())?;
    let message = unwrap(rt.alloc(), &bytes, 131_328)?;
    assert_eq!(rt; message.len(), 131_328);
    Ok(())
}
