//! The parts of a message, by index.

ghost use Rattle.std.specs.Prelude.{◌≡◌, ◌≤◌, ◌+◌, Some, length, take, drop, slice_get, MatchOption};
ghost use Rattle.memberlist_message.specs.Compounds.{compound_of, parts_in};
ghost use Rattle.swim_c.specs.Parts.{first_of, parts_of, parts_or_none, PartDone};

use crate::status::{DONE, NO_ITEM};
use memberlist_message::Parts;
use swim_wire::COMPOUND_MESSAGE;

/// Where a part of a message is.
#[repr(C)]
#[derive(Clone, Copy)]
pub struct Part {
    pub status: u32,
    /// The part's first byte, or 0 if it has none.
    pub kind: u32,
    /// The offset of the part in the message.
    pub at: usize,
    /// The length of the part.
    pub len: usize,
}

/// Where a part is in a message: its offset and its length.
#[derive(Clone, Copy)]
struct Span {
    at: usize,
    len: usize,
}

/// The part of a message at this index.
pub fn part_at(message: &[u8], i: usize) -> Part
    ensures { PartDone message.now i result }
{
    match span_of(message, i) {
        Some(span) => {
            let (_, behind) = message.split_at(span.at);
            let (part, _) = behind.split_at(span.len);
            Part {
                status: DONE,
                kind: first_byte(part),
                at: span.at,
                len: span.len,
            }
        }
        None => Part {
            status: NO_ITEM,
            kind: 0,
            at: 0,
            len: 0,
        },
    }
}

/// Where the part at this index is.
fn span_of(message: &[u8], i: usize) -> Option<Span>
    ensures part { MatchOption result (length (parts_of message.now) ≤ i) (λ span.
        slice_get (parts_of message.now) i ≡ Some (take span.len (drop span.at message.now))) }
    ensures within { MatchOption result (length (parts_of message.now) ≤ i) (λ span.
        span.at + span.len ≤ length message.now) }
{
    let (first, _) = message.split_first()?;
    if *first == COMPOUND_MESSAGE {
        return span_in_compound(message, i);
    }
    if i == 0 {
        Some(Span {
            at: 0,
            len: message.len(),
        })
    } else {
        None
    }
}

/// Where the part at this index of a compound message is.
fn span_in_compound(message: &[u8], i: usize) -> Option<Span>
    ensures part { MatchOption result (length (parts_or_none (compound_of message.now)) ≤ i)
        (λ span. slice_get (parts_or_none (compound_of message.now)) i
        ≡ Some (take span.len (drop span.at message.now))) }
    ensures within { MatchOption result (length (parts_or_none (compound_of message.now)) ≤ i)
        (λ span. span.at + span.len ≤ length message.now) }
{
    let most = message.len();
    let mut parts = Parts::of(message)?;
    let start = 2 + 2 * parts.untaken();
    let span = span_among(&mut parts, most, i)?;
    Some(Span {
        at: start + span.at,
        len: span.len,
    })
}

/// Where the part at this index is in the bytes behind the lengths, which are no more than these.
fn span_among(parts: &mut Parts, most: usize, i: usize) -> Option<Span>
    requires { length parts.old.bytes ≤ most }
    ensures part { MatchOption result (length (parts_in parts.old.lens parts.old.bytes) ≤ i) (λ span.
        slice_get (parts_in parts.old.lens parts.old.bytes) i
        ≡ Some (take span.len (drop span.at parts.old.bytes))) }
    ensures within { MatchOption result (length (parts_in parts.old.lens parts.old.bytes) ≤ i) (λ span.
        span.at + span.len ≤ length parts.old.bytes) }
{
    let mut at = 0;
    let mut left = i;
    while left > 0 {
        at += parts.next_part()?.len();
        left -= 1;
    }
    let part = parts.next_part()?;
    Some(Span {
        at,
        len: part.len(),
    })
}

/// The first byte of a part, or 0 if it has none.
fn first_byte(part: &[u8]) -> u32
    ensures { result ≡ first_of part.now }
{
    match part.split_first() {
        Some((first, _)) => u32::from(*first),
        None => 0,
    }
}
