//! Values into a buffer that has room, each in its one canonical spelling, and how long they are.
//!
//! A call writes before the place that it returns. The bytes from there on are left as they are,
//! and the next call may overwrite them.

ghost use Rattle.std.specs.Prelude.{◌≡◌, ◌+◌, ◌^◌, ◌<◌, ◌≤◌, ◌++◌, ◌∷◌, take, length};
ghost use Rattle.swim_pack.specs.Spelling.{number_text, raw_text, flag_text, count_text};

/// How many bytes [`put_uint`] writes.
#[inline(always)]
#[tactic(auto, unfolding(crate::specs::Spelling::number_text))]
pub fn uint_len(value: u64) -> usize
    ensures len { result ≡ length (number_text value) }
    ensures small { result ≤ 9 }
{
    match value {
        0..0x80 => 1,
        0x80..0x100 => 2,
        0x100..0x1_0000 => 3,
        0x1_0000..0x1_0000_0000 => 5,
        _ => 9,
    }
}

/// How many bytes [`put_raw`] writes.
#[inline(always)]
#[tactic(auto, unfolding(crate::specs::Spelling::raw_text))]
pub fn raw_len(bytes: &[u8]) -> usize
    requires { length bytes.now < 2 ^ 16 }
    ensures len { result ≡ length (raw_text bytes.now) }
    ensures small { result ≤ length bytes.now + 3 }
{
    if bytes.len() < 32 {
        1 + bytes.len()
    } else {
        3 + bytes.len()
    }
}

/// Writes bytes as they are. Returns the place after them.
#[inline(always)]
pub fn put_bytes(out: &mut [u8], at: usize, bytes: &[u8]) -> usize
    requires { at + length bytes.now ≤ length out.old }
    ensures end { result ≡ at + length bytes.now }
    ensures put { take result out.new ≡ take at out.old ++ bytes.now }
{
    let end = at + bytes.len();
    out[at..end].copy_from_slice(bytes);
    end
}

/// Writes a first byte, and bytes after it.
#[inline(always)]
fn put_behind(out: &mut [u8], at: usize, first: u8, bytes: &[u8]) -> usize
    requires { at + (1 + length bytes.now) ≤ length out.old }
    ensures end { result ≡ at + (1 + length bytes.now) }
    ensures put { take result out.new ≡ take at out.old ++ first ∷ bytes.now }
{
    let next = put_bytes(out, at, &[first]);
    put_bytes(out, next, bytes)
}

/// Writes a number in the fewest bytes: a fixint below 128, else an unsigned number of 1, 2, 4 or 8
/// bytes. Returns the place after it.
#[inline(always)]
#[tactic(auto, unfolding(crate::specs::Spelling::number_text))]
pub fn put_uint(out: &mut [u8], at: usize, value: u64) -> usize
    requires { at + length (number_text value) ≤ length out.old }
    ensures end { result ≡ at + length (number_text value) }
    ensures put { take result out.new ≡ take at out.old ++ number_text value }
{
    match value {
        0..0x80 => put_bytes(out, at, &[value as u8]),
        0x80..0x100 => put_behind(out, at, 0xcc, &[value as u8]),
        0x100..0x1_0000 => put_behind(out, at, 0xcd, &(value as u16).to_be_bytes()),
        0x1_0000..0x1_0000_0000 => put_behind(out, at, 0xce, &(value as u32).to_be_bytes()),
        _ => put_behind(out, at, 0xcf, &value.to_be_bytes()),
    }
}

/// Writes a truth value, in one byte. Returns the place after it.
#[inline(always)]
pub fn put_bool(out: &mut [u8], at: usize, value: bool) -> usize
    requires { at + length (flag_text value) ≤ length out.old }
    ensures end { result ≡ at + length (flag_text value) }
    ensures put { take result out.new ≡ take at out.old ++ flag_text value }
{
    put_bytes(out, at, &[if value { 0xc3 } else { 0xc2 }])
}

/// Writes bytes or text, at most 65,535 bytes, both as text: a fixstr below 32 bytes, else a str
/// with 2 bytes of length. Returns the place after them.
#[inline(always)]
#[tactic(auto, unfolding(crate::specs::Spelling::raw_text))]
pub fn put_raw(out: &mut [u8], at: usize, bytes: &[u8]) -> usize
    requires short { length bytes.now < 2 ^ 16 }
    requires room { at + length (raw_text bytes.now) ≤ length out.old }
    ensures end { result ≡ at + length (raw_text bytes.now) }
    ensures put { take result out.new ≡ take at out.old ++ raw_text bytes.now }
{
    let next = if bytes.len() < 32 {
        put_bytes(out, at, &[0xa0 + bytes.len() as u8])
    } else {
        put_behind(out, at, 0xda, &(bytes.len() as u16).to_be_bytes())
    };
    put_bytes(out, next, bytes)
}

/// Writes the count of pairs of a map, at most 15, as a fixmap. Returns the place after it.
#[inline(always)]
pub fn put_map_len(out: &mut [u8], at: usize, count: u32) -> usize
    requires few { count < 16 }
    requires room { at + length (count_text count) ≤ length out.old }
    ensures end { result ≡ at + length (count_text count) }
    ensures put { take result out.new ≡ take at out.old ++ count_text count }
{
    put_bytes(out, at, &[0x80 + count as u8])
}
