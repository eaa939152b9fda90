//! One direction of a TCP connection, reassembled.

ghost use Rattle.std.specs.Prelude.{◌≡◌, ◌+◌, ◌-◌, ◌<◌, ◌≤◌, ◌^◌, ◌⊎◌, ◌++◌, ◌∷◌, [], List, length, true, false, None};
ghost use Rattle.std.specs.Prelude.{Ok, OnOk, OnErr, IfOk, MatchBool};
ghost use Rattle.capture.specs.Flows.{Placed, placed, placed_at, byte_at, InOrder, Assembled, Says};
ghost use Rattle.std.specs.List.{sum_by};

use crate::Fate;
use crate::piece::{Piece, back, before, front, gathered, patched, place, put, total_len};
use std::alloc::{AllocError, Global};

/// How far after the first gap a segment may end, in bytes.
const WINDOW: usize = 16_777_216;

/// The most bytes of a flow.
const MAX_FLOW_LEN: usize = 33_554_432;

/// The most segments that wait.
const MAX_WAITING: usize = 4096;

/// Whether a segment that ends at `end` ends too far after the first `len` bytes.
fn is_beyond(len: usize, end: usize) -> bool
    requires { len < end }
    ensures { MatchBool result ((2 ^ 24 < end - len) ⊎ (2 ^ 25 < end))
        ((end - len ≤ 2 ^ 24) × (end ≤ 2 ^ 25)) }
{
    WINDOW < end - len || MAX_FLOW_LEN < end
}

/// One direction of a TCP connection: the bytes from a sequence number on.
///
/// A byte is at its sequence number, modulo 2^32 (RFC 9293, 3.4). Of two segments that cover one
/// byte the first that was added counts. Bytes after a gap are not part of the flow until it
/// closes. Memory is used for the bytes and for the segments that wait after the gap, at most
/// 4,096.
#[derive(Drop)]
pub struct Flow {
    start: u32,
    text: Vec<u8>,
    waiting: Vec<Piece>,
    ghost tight: { byte_at (length text.items) waiting.items ≡ None },
    ghost short: { length text.items ≤ 2 ^ 25 },
    ghost in_order: { InOrder waiting.items },
    ghost few: { length waiting.items ≤ 4096 },
}

impl Flow {
    ghost use Rattle.capture.specs.FlowTexts.{flow_text, next_of, counts, IsBeyond};

    /// A flow whose first byte has this sequence number.
    pub fn new(alloc: Global, start: u32) -> Flow
        ensures starts { (flow_text result).start ≡ start }
        ensures empty { Says [] (flow_text result) }
        ensures is { flow_text result ≡ record { start = start; text = []; waiting = [] } }
    {
        Flow {
            start,
            text: Vec::new(alloc),
            waiting: Vec::new(alloc),
        }
    }

    /// The sequence number of the first byte.
    pub fn start(&self) -> u32
        ensures { result ≡ (flow_text self.now).start }
    {
        self.start
    }

    /// The sequence number of the first byte that it lacks.
    pub fn next_seq(&self) -> u32
        ensures { result ≡ next_of (flow_text self.now) }
    {
        self.start.wrapping_add(self.text.len() as u32)
    }

    /// The bytes up to the first gap.
    pub fn bytes(&self) -> &[u8]
        ensures is { result.now ≡ (flow_text self.now).text }
        ensures assembled { (segments : List Placed) → Says segments (flow_text self.now)
            → Assembled segments result.now }
        ensures most { length result.now ≤ 2 ^ 25 }
    {
        &self.text
    }

    /// How many bytes wait after the first gap.
    pub fn waiting_len(&self) -> usize
        ensures { result ≡ sum_by (λ s. length s.bytes) (flow_text self.now).waiting }
    {
        total_len(&self.waiting)
    }

    /// Adds a segment, or leaves it out and says why.
    ///
    /// `seq` is the sequence number of the first byte of the payload. A segment with no new bytes
    /// takes no memory, but one whose bytes wait already, and came last to first, may wait again.
    ///
    /// # Errors
    ///
    /// `AllocError` if out of memory: the flow is as it was.
    pub fn take(&mut self, alloc: Global, seq: u32, payload: &[u8]) -> Result<Fate, AllocError>
        ensures counts { IfOk result (λ taken. counts taken ≡ true
            → (segments : List Placed) → Says segments (flow_text self.old)
            → Says (segments ++ placed_at (flow_text self.old).start seq payload.now ∷ [])
            (flow_text self.new)) }
        ensures starts { (flow_text self.new).start ≡ (flow_text self.old).start }
        ensures left_out { IfOk result (λ taken. counts taken ≡ false
            → flow_text self.new ≡ flow_text self.old) }

        ensures beyond { (result ≡ Ok Fate.Beyond)
            → IsBeyond (flow_text self.old)
            (placed_at (flow_text self.old).start seq payload.now) }
        ensures near { IsBeyond (flow_text self.old)
            (placed_at (flow_text self.old).start seq payload.now)
            → result ≡ Ok Fate.Beyond }
        ensures crowded { (result ≡ Ok Fate.Crowded)
            → 4096 ≤ length (flow_text self.old).waiting }
        ensures few { length (flow_text self.new).waiting ≤ 4096 }
        ensures refused { OnErr result (flow_text self.new ≡ flow_text self.old) }
    {
        let (at, bytes) = place(self.start, seq, payload);
        let end = at + bytes.len();
        if bytes.is_empty() {
            return Ok(Fate::Known);
        }
        if end <= self.text.len() {
            return Ok(Fate::Known);
        }
        if is_beyond(self.text.len(), end) {
            return Ok(Fate::Beyond);
        }
        if at <= self.text.len() {
            self.join(alloc, at, bytes)?;
            return Ok(Fate::Joined);
        }
        self.hold(alloc, at, bytes)
    }

    /// Adds bytes that start at or before the flow's gap.
    fn join(&mut self, alloc: Global, at: usize, bytes: &[u8]) -> Result<(), AllocError>
        requires touches { at ≤ length self.old.text.items }
        requires behind { length self.old.text.items < at + length bytes.now }
        requires small { at + length bytes.now ≤ 2 ^ 25 }
        ensures ok { OnOk result ((segments : List Placed) → Says segments (flow_text self.old)
            → Says (segments ++ placed at bytes.now ∷ []) (flow_text self.new)) }
        ensures starts { self.new.start ≡ self.old.start }
        ensures refused { OnErr result (flow_text self.new ≡ flow_text self.old) }
    {
        let more = gathered(alloc, &self.waiting, at, bytes, self.text.len())?;
        self.text.extend_from_slice(&more)?;
        let gap = self.text.len();
        self.waiting.retain(|piece| gap < piece.at());
        Ok(())
    }

    /// Holds bytes that start after the gap, up to a piece that waits and reaches further. They
    /// take the place of the pieces between.
    fn hold(&mut self, alloc: Global, at: usize, bytes: &[u8]) -> Result<Fate, AllocError>
        requires apart { length self.old.text.items < at }
        requires small { at + length bytes.now ≤ 2 ^ 25 }
        ensures counts { IfOk result (λ taken. counts taken ≡ true
            → (segments : List Placed) → Says segments (flow_text self.old)
            → Says (segments ++ placed at bytes.now ∷ []) (flow_text self.new)) }
        ensures left_out { IfOk result (λ taken. counts taken ≡ false
            → flow_text self.new ≡ flow_text self.old) }
        ensures crowded { (result ≡ Ok Fate.Crowded) → 4096 ≤ length self.old.waiting.items }
        ensures near { (result ≡ Ok Fate.Beyond) → ⊥ }
        ensures starts { self.new.start ≡ self.old.start }
        ensures text { self.new.text ≡ self.old.text }
        ensures refused { OnErr result (flow_text self.new ≡ flow_text self.old) }
    {
        let here = front(&self.waiting, at);
        let stop = back(&self.waiting, at + bytes.len());
        if stop <= here {
            return Ok(Fate::Known);
        }
        let from = before(&self.waiting, here);
        let to = before(&self.waiting, stop);
        if MAX_WAITING <= from + (self.waiting.len() - to) {
            return Ok(Fate::Crowded);
        }
        let piece = Piece::of(here, patched(alloc, &self.waiting, at, bytes, here, stop)?);
        put(&mut self.waiting, from, to, piece)?;
        Ok(Fate::Waits)
    }
}
