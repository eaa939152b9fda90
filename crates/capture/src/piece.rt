//! Segments at their places in a flow.

ghost use Rattle.std.specs.Prelude.{◌≡◌, ◌+◌, ◌-◌, ◌<◌, ◌≤◌, ◌^◌, ◌++◌, ◌∷◌, [], length, take, drop, find, fold, None};
ghost use Rattle.std.specs.Prelude.{IfOk, is_ok, if◌then◌else◌, IfSome, IfNone};
ghost use Rattle.std.specs.List.{AllWithin, sum_by};
ghost use Rattle.std.specs.Option.{option_copied};
ghost use Rattle.capture.specs.Flows.{Placed, placed, placed_at, end_of, covers, byte_at, closer, InOrder, IsClean};
ghost use Rattle.capture.specs.Flows.{AreCovered, IsNext, SaysFrom};

use std::alloc::{AllocError, Global};
use std::marker::Model;

/// How many sequence numbers there are (RFC 9293, 3.4).
const NUMBERS: u64 = 0x1_0000_0000;

/// The bytes of a segment, and the place of the first of them in the flow.
#[derive(Drop)]
pub(crate) struct Piece {
    at: usize,
    bytes: Vec<u8>,
}

impl Model for Piece {
    ghost Value = { Placed };

    ghost view = { λ p. record { at = p.at; bytes = p.bytes.items } };

    ghost invariant = { λ p. p.at + length p.bytes.items ≤ 2 ^ 25 };
}

impl Piece {
    /// These bytes at this place.
    pub(crate) fn of(at: usize, bytes: Vec<u8>) -> Piece
        requires { at + length bytes.items ≤ 2 ^ 25 }
        ensures { result ≡ placed at bytes.items }
    {
        Piece { at, bytes }
    }

    /// The place of the first byte.
    pub(crate) fn at(&self) -> usize
        ensures { result ≡ self.now.at }
    {
        self.at
    }

    /// The bytes.
    pub(crate) fn bytes(&self) -> &[u8]
        ensures is { result.now ≡ self.now.bytes }
        ensures small { end_of self.now ≤ 2 ^ 25 }
    {
        &self.bytes
    }

    /// The place after the last byte.
    pub(crate) fn end(&self) -> usize
        ensures is { result ≡ end_of self.now }
        ensures small { result ≤ 2 ^ 25 }
    {
        self.at + self.bytes.len()
    }

    /// Whether it covers the place.
    pub(crate) fn covers(&self, place: usize) -> bool
        ensures { result ≡ covers place self.now }
    {
        if place < self.at() {
            false
        } else {
            place < self.end()
        }
    }
}

/// The place of a segment in the flow whose first byte has the sequence number `start`, and the
/// part of its payload that is not before that.
pub(crate) fn place(start: u32, seq: u32, payload: &[u8]) -> (usize, &[u8])
    ensures is { placed result.0 result.1.now ≡ placed_at start seq payload.now }
    ensures small { result.0 < 2 ^ 31 }
{
    let ahead = (u64::from(seq) + NUMBERS - u64::from(start)) % NUMBERS;
    if ahead < NUMBERS / 2 {
        return (ahead as usize, payload);
    }
    let before = (NUMBERS - ahead) as usize;
    if before < payload.len() {
        (0, &payload[before..])
    } else {
        (0, &[])
    }
}

/// How many of the pieces start before the place.
pub(crate) fn before(pieces: &[Piece], place: usize) -> usize
    requires { InOrder pieces.now }
    ensures bound { result ≤ length pieces.now }
    ensures low { AllWithin (λ s. s.at < place) pieces.now 0 result }
    ensures high { AllWithin (λ s. place ≤ s.at) pieces.now result (length pieces.now) }
{
    pieces.partition_point(|piece| piece.at() < place)
}

/// The piece that covers the place.
pub(crate) fn covering(pieces: &[Piece], place: usize) -> Option<&Piece>
    requires in_order { InOrder pieces.now }
    requires small { place ≤ 2 ^ 31 }
    ensures { option_copied result ≡ find (covers place) pieces.now }
{
    let count = before(pieces, place + 1);
    if count == 0 {
        return None;
    }
    let last = &pieces[count - 1];
    if last.covers(place) { Some(last) } else { None }
}

/// The first place above `place` at which a piece starts, at most `end`.
fn nearest(pieces: &[Piece], place: usize, end: usize) -> usize
    requires in_order { InOrder pieces.now }
    requires small { place ≤ 2 ^ 31 }
    ensures { result ≡ fold (closer place) end pieces.now }
{
    let count = before(pieces, place + 1);
    if count < pieces.len() {
        pieces[count].at().min(end)
    } else {
        end
    }
}

/// The same, and that it is above the place.
fn next_start(pieces: &[Piece], place: usize, end: usize) -> usize
    requires in_order { InOrder pieces.now }
    requires small { place ≤ 2 ^ 31 }
    requires below { place < end }
    ensures is { result ≡ fold (closer place) end pieces.now }
    ensures above { place < result }
    ensures within { result ≤ end }
{
    nearest(pieces, place, end)
}

/// The end of the piece that covers the place, else the place.
pub(crate) fn front(pieces: &[Piece], place: usize) -> usize
    requires in_order { InOrder pieces.now }
    requires small { place ≤ 2 ^ 31 }
    ensures from { place ≤ result }
    ensures covered { AreCovered place result pieces.now }
    ensures clean { IsClean result pieces.now }
{
    match covering(pieces, place) {
        Some(piece) => piece.end(),
        None => place,
    }
}

/// The start of the piece that lies on both sides of the place, else the place.
pub(crate) fn back(pieces: &[Piece], place: usize) -> usize
    requires { InOrder pieces.now }
    ensures until { result ≤ place }
    ensures covered { AreCovered result place pieces.now }
    ensures clean { IsClean result pieces.now }
{
    let count = before(pieces, place);
    if count == 0 {
        return place;
    }
    let last = &pieces[count - 1];
    if place < last.end() { last.at() } else { place }
}

/// Those of the bytes at `at` that are from `here` on, up to where a piece starts.
fn until_next<'a>(pieces: &[Piece], at: usize, bytes: &'a [u8], here: usize) -> &'a [u8]
    requires in_order { InOrder pieces.now }
    requires begun { at ≤ here }
    requires inside { here < at + length bytes.now }
    requires small { at + length bytes.now ≤ 2 ^ 25 }
    ensures { let stop = fold (closer here) (at + length bytes.now) pieces.now in
        result.now ≡ take ((stop - at) - (here - at)) (drop (here - at) bytes.now) }
{
    let stop = next_start(pieces, here, at + bytes.len());
    &bytes[here - at..stop - at]
}

/// Some bytes from `here` on, with the bytes at `at` after the pieces.
fn stretch<'a>(pieces: &'a [Piece], at: usize, bytes: &'a [u8], here: usize) -> Option<&'a [u8]>
    requires in_order { InOrder pieces.now }
    requires near { here ≤ 2 ^ 31 }
    requires small { at + length bytes.now ≤ 2 ^ 25 }
    ensures some { IfSome result (λ part.
        IsNext (pieces.now ++ placed at bytes.now ∷ []) here part.now) }
    ensures none { IfNone result
        (find (covers here) (pieces.now ++ placed at bytes.now ∷ []) ≡ None) }
{
    if let Some(piece) = covering(pieces, here) {
        return Some(until_next(pieces, piece.at(), piece.bytes(), here));
    }
    if here < at {
        return None;
    }
    if at + bytes.len() <= here {
        return None;
    }
    Some(until_next(pieces, at, bytes, here))
}

/// All bytes from `here` on up to the first gap, with the bytes at `at` after the pieces.
pub(crate) fn gathered(
    alloc: Global,
    pieces: &[Piece],
    at: usize,
    bytes: &[u8],
    here: usize,
) -> Result<Vec<u8>, AllocError>
    requires in_order { InOrder pieces.now }
    requires end { at + length bytes.now ≤ 2 ^ 25 }
    requires small { here ≤ 2 ^ 25 }
    ensures says { IfOk result (λ found.
        SaysFrom (pieces.now ++ placed at bytes.now ∷ []) here found.items) }
    ensures gap { IfOk result (λ found. find (covers (here + length found.items))
        (pieces.now ++ placed at bytes.now ∷ []) ≡ None) }
    ensures most { IfOk result (λ found. here + length found.items ≤ 2 ^ 25) }
{
    let mut found = Vec::new(alloc);
    while let Some(part) = stretch(pieces, at, bytes, here + found.len()) {
        found.extend_from_slice(part)?;
    }
    Ok(found)
}

/// How many bytes the pieces have.
pub(crate) fn total_len(pieces: &[Piece]) -> usize
    requires { length pieces.now ≤ 4096 }
    ensures { result ≡ sum_by (λ s. length s.bytes) pieces.now }
{
    let mut total = 0;
    for piece in pieces {
        total += piece.bytes().len();
    }
    total
}

/// Puts a piece in the place of those from one index up to another.
pub(crate) fn put(
    pieces: &mut Vec<Piece>,
    from: usize,
    to: usize,
    piece: Piece,
) -> Result<(), AllocError>
    requires order { from ≤ to }
    requires inside { to ≤ length pieces.old.items }
    ensures { pieces.new.items ≡ (if is_ok result
        then take from pieces.old.items ++ piece ∷ drop to pieces.old.items
        else pieces.old.items) }
{
    pieces.insert(from, piece)?;
    let _ = pieces.drain(from + 1..to + 1);
    Ok(())
}

/// The bytes from `here` up to `stop`: those of the pieces, and the bytes at `at` between them.
pub(crate) fn patched(
    alloc: Global,
    pieces: &[Piece],
    at: usize,
    bytes: &[u8],
    here: usize,
    stop: usize,
) -> Result<Vec<u8>, AllocError>
    requires in_order { InOrder pieces.now }
    requires end { at + length bytes.now ≤ 2 ^ 25 }
    requires begun { at ≤ here }
    requires some { here ≤ stop }
    requires inside { stop ≤ at + length bytes.now }
    ensures says { IfOk result (λ found.
        SaysFrom (pieces.now ++ placed at bytes.now ∷ []) here found.items) }
    ensures len { IfOk result (λ found. length found.items ≡ stop - here) }
{
    let mut found = Vec::new(alloc);
    while here + found.len() < stop {
        match stretch(pieces, at, bytes, here + found.len()) {
            Some(part) => found.extend_from_slice(part)?,
            None => unreachable!(),
        }
    }
    found.truncate(stop - here);
    Ok(found)
}
