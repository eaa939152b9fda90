//! What a file is by its first bytes.

ghost use Rattle.std.specs.Prelude.{MatchBool};
ghost use Rattle.swim_program.specs.Magic.{IsCaptureMagic, BeginsAsCapture};

/// Whether these are the first bytes of a pcap file, in either byte order and with either unit of
/// time, or of a pcapng file. No packet in hexadecimal begins so.
///
/// Source: pcap-savefile(5), and draft-ietf-opsawg-pcapng, section 4.1.
pub fn begins_as_capture(bytes: &[u8]) -> bool
    ensures { MatchBool result (BeginsAsCapture bytes.now) (¬ BeginsAsCapture bytes.now) }
{
    bytes.len() >= 4 && is_capture_magic(bytes[0], bytes[1], bytes[2], bytes[3])
}

fn is_capture_magic(a: u8, b: u8, c: u8, d: u8) -> bool
    ensures { MatchBool result (IsCaptureMagic a b c d) (¬ IsCaptureMagic a b c d) }
{
    matches!(
        (a, b, c, d),
        (0xa1, 0xb2, 0xc3, 0xd4)
            | (0xd4, 0xc3, 0xb2, 0xa1)
            | (0xa1, 0xb2, 0x3c, 0x4d)
            | (0x4d, 0x3c, 0xb2, 0xa1)
            | (0x0a, 0x0d, 0x0d, 0x0a)
    )
}
