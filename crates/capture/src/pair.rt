//! The flows between two endpoints.

ghost use Rattle.std.specs.Prelude.{◌≡◌, Some, None, IfOk, OnOk, OnErr, IsSome, IfSome};
ghost use Rattle.std.specs.Option.{option_map};
ghost use Rattle.capture.specs.FlowTexts.{flow_text, is_over};
ghost use Rattle.capture.specs.OpenFlows.{alone, first_of, newer_of, is_other, confirms_newer, IsAfter, GoesOn};
ghost use Rattle.capture.specs.Packets.{tcp_text};

use crate::open::Open;
use crate::{Fate, Flow, Segment};
use std::alloc::{AllocError, Global};
use std::marker::Model;
use std::mem;

/// The open flow between two endpoints, and a newer one of which nothing but the SYN came.
///
/// A SYN with another sequence number does not end the open flow. If it is forged or late, its
/// receiver answers it with a challenge and keeps the connection (RFC 5961, 4.2). If the endpoints
/// are used again, the next segment goes on after the SYN.
#[derive(Drop)]
pub(crate) struct Pair {
    older: Open,
    newer: Option<Open>,
}

impl Model for Pair {
    ghost use Rattle.capture.specs.FlowTexts.{PairText};

    ghost Value = { PairText };

    ghost view = { λ p. record { older = p.older; newer = p.newer } };
}

impl Pair {
    /// A flow with no newer one.
    pub(crate) fn new(older: Open) -> Pair
        ensures { result ≡ alone older }
    {
        Pair { older, newer: None }
    }

    /// Takes a segment whose payload starts at a sequence number. Returns how it was taken, and
    /// which flow it replaced.
    pub(crate) fn take(
        &mut self,
        alloc: Global,
        first: u32,
        segment: &Segment,
    ) -> Result<(Fate, Option<Flow>), AllocError>
        requires { first ≡ first_of (tcp_text segment.now) }
        ensures goes { IfOk result (λ done. GoesOn self.old first (tcp_text segment.now)
            done.0 (option_map flow_text done.1) self.new) }
        ensures refused { OnErr result (self.new ≡ self.old) }
    {
        if self.is_aside(first, segment) {
            let taken = self.set_aside(alloc, first, segment)?;
            return Ok((taken, None));
        }
        if self.is_confirmed(first, segment) {
            let (taken, older) = self.replace(alloc, first, segment)?;
            return Ok((taken, Some(older)));
        }
        let taken = self.older.take(alloc, first, segment)?;
        Ok((taken, None))
    }

    /// Whether a segment is a SYN of another flow than the open one.
    fn is_aside(&self, first: u32, segment: &Segment) -> bool
        requires { first ≡ first_of (tcp_text segment.now) }
        ensures { result ≡ is_other self.now.older (tcp_text segment.now) }
    {
        segment.syn && !self.older.begins_at(first)
    }

    /// Whether a segment goes on where the newer flow ends, and not where the open one does.
    fn is_confirmed(&self, first: u32, segment: &Segment) -> bool
        requires { first ≡ first_of (tcp_text segment.now) }
        ensures { result ≡ confirms_newer self.now.older self.now.newer (tcp_text segment.now) }
    {
        match &self.newer {
            Some(newer) => {
                !segment.syn && newer.next_seq() == first && self.older.next_seq() != first
            }
            None => false,
        }
    }

    /// The flow that a SYN begins takes it, and is the newer one.
    fn set_aside(
        &mut self,
        alloc: Global,
        first: u32,
        segment: &Segment,
    ) -> Result<Fate, AllocError>
        ensures aside { IfOk result (λ taken. IfSome self.new.newer (λ after.
            IsAfter (newer_of self.old.newer first) first (tcp_text segment.now) taken after)) }
        ensures there { OnOk result (IsSome self.new.newer) }
        ensures older { self.new.older ≡ self.old.older }
        ensures refused { OnErr result (self.new ≡ self.old) }
    {
        if let Some(newer) = &mut self.newer {
            if newer.begins_at(first) {
                return newer.take(alloc, first, segment);
            }
        }
        let mut newer = Open::new(alloc, first);
        let taken = newer.take(alloc, first, segment)?;
        self.newer = Some(newer);
        Ok(taken)
    }

    /// The newer flow takes the segment, and the place of the open one.
    fn replace(
        &mut self,
        alloc: Global,
        first: u32,
        segment: &Segment,
    ) -> Result<(Fate, Flow), AllocError>
        requires { IsSome self.old.newer }
        ensures takes { IfOk result (λ done. IfSome self.old.newer (λ n.
            IsAfter n first (tcp_text segment.now) done.0 self.new.older)) }
        ensures replaced { IfOk result (λ done. flow_text done.1 ≡ self.old.older.flow) }
        ensures alone { OnOk result (self.new.newer ≡ None) }
        ensures refused { OnErr result (self.new ≡ self.old) }
    {
        let Some(mut newer) = self.newer.take() else {
            unreachable!()
        };
        match newer.take(alloc, first, segment) {
            Ok(taken) => {
                let older = mem::replace(&mut self.older, newer);
                Ok((taken, older.into_flow()))
            }
            Err(error) => {
                self.newer = Some(newer);
                Err(error)
            }
        }
    }

    /// Takes the open flow out if there is a newer one to take its place.
    pub(crate) fn pass_on(&mut self) -> Option<Flow>
        ensures out { option_map flow_text result
            ≡ option_map (λ n. self.old.older.flow) self.old.newer }
        ensures new { IfSome self.old.newer (λ n. self.new ≡ alone n) }
        ensures none { (self.old.newer ≡ None) → self.new ≡ self.old }
    {
        let newer = self.newer.take()?;
        let older = mem::replace(&mut self.older, newer);
        Some(older.into_flow())
    }

    /// Whether the open flow is over.
    pub(crate) fn is_complete(&self) -> bool
        ensures { result ≡ is_over self.now.older }
    {
        self.older.is_complete()
    }

    /// The open flow, as far as it is reassembled.
    pub(crate) fn flow(&self) -> &Flow
        ensures { flow_text result.now ≡ self.now.older.flow }
    {
        self.older.flow()
    }

    /// The open flow, and the newer one.
    pub(crate) fn into_flows(self) -> (Flow, Option<Flow>)
        ensures older { flow_text result.0 ≡ self.older.flow }
        ensures newer { option_map flow_text result.1 ≡ option_map (λ n. n.flow) self.newer }
    {
        let Pair { older, newer } = self;
        let newer = match newer {
            Some(newer) => Some(newer.into_flow()),
            None => None,
        };
        (older.into_flow(), newer)
    }
}
