//! A flow that is not complete.

ghost use Rattle.std.specs.Prelude.{◌≡◌, ◌≤◌, ◌||◌, ◌++◌, ◌∷◌, [], List, length, true, false, None, Ok, ◌==◌, IfOk, OnOk, OnErr};
ghost use Rattle.capture.specs.Flows.{Placed, placed_at, Says};
ghost use Rattle.capture.specs.FlowTexts.{counts, flow_text, next_of, IsBeyond, end_after, is_reset, is_over};
ghost use Rattle.capture.specs.OpenFlows.{begun, IsAfter};
ghost use Rattle.capture.specs.Packets.{tcp_text};

use crate::piece::place;
use crate::{Fate, Flow, Segment};
use std::alloc::{AllocError, Global};
use std::marker::Model;

/// A flow that is not complete, and where it ends, if that is known.
#[derive(Drop)]
pub(crate) struct Open {
    flow: Flow,
    // how many bytes it has, by its first FIN
    end: Option<usize>,
    reset: bool,
}

impl Model for Open {
    ghost use Rattle.capture.specs.FlowTexts.{OpenText, flow_text as text_of};

    ghost Value = { OpenText };

    ghost view = { λ o. record { flow = text_of o.flow; end = o.end; reset = o.reset } };
}

impl Open {
    /// A flow whose first byte has this sequence number.
    pub(crate) fn new(alloc: Global, first: u32) -> Open
        ensures starts { result.flow.start ≡ first }
        ensures empty { Says [] result.flow }
        ensures endless { result.end ≡ None }
        ensures whole { result.reset ≡ false }
        ensures is { result ≡ begun first }
    {
        Open {
            flow: Flow::new(alloc, first),
            end: None,
            reset: false,
        }
    }

    /// Whether its first byte has this sequence number.
    pub(crate) fn begins_at(&self, first: u32) -> bool
        ensures { result ≡ (self.now.flow.start == first) }
    {
        self.flow.start() == first
    }

    /// The sequence number of the first byte that it lacks.
    pub(crate) fn next_seq(&self) -> u32
        ensures { result ≡ next_of self.now.flow }
    {
        self.flow.next_seq()
    }

    /// Whether a segment is a RST with the sequence number of the next byte.
    fn is_reset(&self, first: u32, segment: &Segment) -> bool
        ensures { result ≡ is_reset self.now.flow segment.now.rst first }
    {
        segment.rst && self.next_seq() == first
    }

    /// Takes a segment whose payload starts at a sequence number.
    pub(crate) fn take(
        &mut self,
        alloc: Global,
        first: u32,
        segment: &Segment,
    ) -> Result<Fate, AllocError>
        ensures counts { IfOk result (λ taken. counts taken ≡ true
            → (segments : List Placed) → Says segments self.old.flow
            → Says (segments
            ++ placed_at self.old.flow.start first segment.now.payload.now ∷ [])
            self.new.flow) }
        ensures left_out { IfOk result (λ taken. counts taken ≡ false
            → self.new.flow ≡ self.old.flow) }
        ensures starts { self.new.flow.start ≡ self.old.flow.start }
        ensures ends { OnOk result (self.new.end ≡ end_after self.old.end
            segment.now.fin
            (placed_at self.old.flow.start first segment.now.payload.now)) }
        ensures resets { OnOk result (self.new.reset
            ≡ (self.old.reset || is_reset self.old.flow segment.now.rst first)) }
        ensures beyond { (result ≡ Ok Fate.Beyond) → IsBeyond self.old.flow
            (placed_at self.old.flow.start first segment.now.payload.now) }
        ensures near { IsBeyond self.old.flow
            (placed_at self.old.flow.start first segment.now.payload.now)
            → result ≡ Ok Fate.Beyond }
        ensures crowded { (result ≡ Ok Fate.Crowded) → 4096 ≤ length self.old.flow.waiting }
        ensures takes { IfOk result (λ taken.
            IsAfter self.old first (tcp_text segment.now) taken self.new) }
        ensures refused { OnErr result (self.new ≡ self.old) }
    {
        let resets = self.is_reset(first, segment);
        let taken = self.flow.take(alloc, first, segment.payload)?;
        if segment.fin && self.end.is_none() {
            let (at, bytes) = place(self.flow.start(), first, segment.payload);
            self.end = Some(at + bytes.len());
        }
        if resets {
            self.reset = true;
        }
        Ok(taken)
    }

    /// Whether all its bytes are there, or it was reset.
    pub(crate) fn is_complete(&self) -> bool
        ensures { result ≡ is_over self.now }
    {
        let there = match self.end {
            Some(end) => end <= self.flow.bytes().len(),
            None => false,
        };
        self.reset || there
    }

    /// The flow as far as it is reassembled.
    pub(crate) fn flow(&self) -> &Flow
        ensures { flow_text result.now ≡ self.now.flow }
    {
        &self.flow
    }

    /// The flow as far as it is reassembled.
    pub(crate) fn into_flow(self) -> Flow
        ensures { flow_text result ≡ self.flow }
    {
        let Open {
            flow,
            end: _,
            reset: _,
        } = self;
        flow
    }
}
