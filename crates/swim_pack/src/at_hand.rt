//! Values at the start of bytes that are at hand.
//!
//! If a value is found, it is what a read of the same bytes returns. If none is found, a read may
//! still return one, or it says why there is none.

ghost use Rattle.std.specs.Prelude.{◌≡◌, ◌≤◌, length, IfSome, Ok};
ghost use Rattle.swim_pack.specs.Reading.{FormFits, big_at, after_form, uint_at, raw_len_at, raw_at, flag_at};

use crate::form::{Form, number_form, raw_form};
use crate::read::flag_of;
use byteorder::{BigEndian, ByteOrder};

#[tactic(auto, unfolding(crate::specs::Reading::big_at))]
#[inline(always)]
fn big_at_hand(bytes: &[u8], size: usize) -> Option<(u64, &[u8])>
    requires low { 1 ≤ size }
    requires high { size ≤ 8 }
    ensures { IfSome result (λ found. big_at size bytes.now ≡ Ok (found.0, found.1.now)) }
{
    let (digits, rest) = bytes.split_at_checked(size)?;
    Some((BigEndian::read_uint(digits, size), rest))
}

#[tactic(auto, unfolding(crate::specs::Reading::after_form))]
#[inline(always)]
fn number_behind_form(bytes: &[u8], form: Form) -> Option<(u64, &[u8])>
    requires { FormFits form }
    ensures { IfSome result (λ found. after_form form bytes.now ≡ Ok (found.0, found.1.now)) }
{
    match form {
        Form::Fixed(value) => Some((u64::from(value), bytes)),
        Form::Unsigned(size) => big_at_hand(bytes, size),
        Form::Signed(_) => None,
    }
}

/// The number of at most `max` at the start of the bytes, and the bytes after it, as `read_uint`
/// reads them from bytes in memory. A number that is spelled as a signed one is not looked for.
#[tactic(auto, unfolding(crate::specs::Reading::uint_at))]
#[inline(always)]
pub fn uint_at_hand(bytes: &[u8], max: u64) -> Option<(u64, &[u8])>
    ensures reads { IfSome result (λ found. uint_at max bytes.now ≡ Ok (found.0, found.1.now)) }
    ensures within { IfSome result (λ found. found.0 ≤ max) }
{
    let (first, rest) = bytes.split_first()?;
    let (number, rest) = number_behind_form(rest, number_form(*first)?)?;
    if number > max {
        return None;
    }
    Some((number, rest))
}

#[tactic(auto, unfolding(crate::specs::Reading::raw_len_at))]
#[inline(always)]
fn len_at_hand(bytes: &[u8], limit: usize) -> Option<(usize, &[u8])>
    ensures reads { IfSome result (λ found.
        raw_len_at limit bytes.now ≡ Ok (found.0, found.1.now)) }
    ensures within { IfSome result (λ found. found.0 ≤ limit) }
{
    let (first, rest) = bytes.split_first()?;
    let (len, rest) = number_behind_form(rest, raw_form(*first)?)?;
    if len > limit as u64 {
        return None;
    }
    Some((len as usize, rest))
}

/// The bytes or text of at most `limit` bytes at the start of the bytes, and the bytes after them,
/// as `read_raw` reads them from bytes in memory.
#[tactic(auto, unfolding(crate::specs::Reading::raw_at))]
#[inline(always)]
pub fn raw_at_hand(bytes: &[u8], limit: usize) -> Option<(&[u8], &[u8])>
    ensures reads { IfSome result (λ found.
        raw_at limit bytes.now ≡ Ok (found.0.now, found.1.now)) }
    ensures within { IfSome result (λ found. length found.0.now ≤ limit) }
{
    let (len, rest) = len_at_hand(bytes, limit)?;
    rest.split_at_checked(len)
}

/// The truth value at the start of the bytes, and the bytes after it, as `read_bool` reads them
/// from bytes in memory.
#[tactic(auto, unfolding(crate::specs::Reading::flag_at))]
pub fn bool_at_hand(bytes: &[u8]) -> Option<(bool, &[u8])>
    ensures { IfSome result (λ found. flag_at bytes.now ≡ Ok (found.0, found.1.now)) }
{
    let (first, rest) = bytes.split_first()?;
    Some((flag_of(*first)?, rest))
}
