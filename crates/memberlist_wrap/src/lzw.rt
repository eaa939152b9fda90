//! Decompresses what Go's compress/lzw writes, the lowest bit first and literals of 8 bits.

ghost use Rattle.std.specs.Prelude.{◌≡◌, ◌≢◌, ◌<◌, ◌≤◌, List, ℕ, length, IfOk, IfErr};
ghost use Rattle.memberlist_wrap.specs.Fault.{ReasonForLzw};
ghost use Rattle.memberlist_wrap.specs.Lzw.{Lzw};

use crate::WrapFault;
use crate::bit_buffer::BitBuffer;
use crate::dictionary::Dictionary;
use std::alloc::Global;

/// The code that resets the dictionary.
const CLEAR: u32 = 256;

/// The last code.
const END: u32 = 257;

/// Decompresses the bytes, if the result has at most `limit` bytes. Besides the result the decoder
/// takes 30,720 bytes of memory, for the places of 3,840 words of the dictionary.
///
/// Source: Go's compress/lzw, order LSB and literals of 8 bits; that nothing may follow is this
/// project's rule.
///
/// # Errors
///
/// The first of these as the codes are read: `Ended` if the bits end before the last code,
/// `Trailing` if a byte follows it, `BadCode` if a code is not in the dictionary, `TooLarge` if its
/// word does not fit within the limit. `Memory` if out of memory.
pub fn lzw_decode(alloc: Global, bytes: &[u8], limit: usize) -> Result<Vec<u8>, WrapFault>
    ensures decodes { IfOk result (λ out. Lzw bytes.now out.items) }
    ensures within { IfOk result (λ out. length out.items ≤ limit) }

    // If they are refused, and not because memory ran out, they are not a compression within the
    // limit, and the refusal says why.
    ensures limits { IfErr result (λ fault. fault ≢ WrapFault.Memory
        → (out : List ℕ) → Lzw bytes.now out → limit < length out) }
    ensures reason { IfErr result (λ fault. fault ≢ WrapFault.Memory
        → ReasonForLzw limit fault bytes.now) }
    // If they are refused, and not because of memory or the limit, they are not a compression at
    // all.
    ensures refuses { IfErr result (λ fault. fault ≢ WrapFault.Memory → fault ≢ WrapFault.TooLarge
        → (out : List ℕ) → ¬ Lzw bytes.now out) }
{
    read_codes(alloc, bytes, limit)
}

fn read_codes(alloc: Global, bytes: &[u8], limit: usize) -> Result<Vec<u8>, WrapFault>
    ensures ok { IfOk result (λ out. Lzw bytes.now out.items) }
    ensures within { IfOk result (λ out. length out.items ≤ limit) }
    ensures err { IfErr result (λ fault. fault ≢ WrapFault.Memory
        → ReasonForLzw limit fault bytes.now) }
{
    let mut held = BitBuffer::new();
    let mut words = Dictionary::new(alloc);
    for (i, byte) in bytes.iter().enumerate() {
        held.add(*byte);
        match held.take(words.width()) {
            None => {}
            Some(CLEAR) => words.clear(),
            Some(END) => {
                if i + 1 < bytes.len() {
                    return Err(WrapFault::Trailing);
                }
                return Ok(words.into_output());
            }
            Some(code) => words.append(code, limit)?,
        }
    }
    Err(WrapFault::Ended)
}
