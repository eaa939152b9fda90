//! The flows of a capture.

ghost use Rattle.std.specs.Prelude.{◌≡◌, ◌↔◌, ◌+◌, ◌≤◌, ◌∷◌, ◌++◌, [], List, true, false, Some, None, IsSome, IsNone, IfSome};
ghost use Rattle.std.specs.Prelude.{IfNone, IfOk, OnErr, MatchBool};
ghost use Rattle.std.specs.List.{All};
ghost use Rattle.std.specs.Map.{keys_of};
ghost use Rattle.std.specs.Option.{option_map};
ghost use Rattle.std.specs.Ordering.{is_eq, is_lt};
ghost use Rattle.capture.specs.Captured.{Captured, captured, IsFlowOf, AreFlowsOf};
ghost use Rattle.capture.specs.declared.ends.Ends.{Ends};
ghost use Rattle.capture.specs.FlowTexts.{PairText, flow_text};
ghost use Rattle.capture.specs.OpenFlows.{ends_cmp, flows_len, flow_at, begun, alone, begins, first_of, settled, IsAfter, GoesOn, Hears};
ghost use Rattle.capture.specs.Packets.{tcp_text};

use crate::open::Open;
use crate::pair::Pair;
use crate::{Ends, Fate, Flow, Segment};
use std::alloc::{AllocError, Global};
use std::collections::BTreeMap;
use std::marker::Model;

/// What a segment did to the flows.
#[derive(Drop)]
pub struct Heard {
    /// What became of it; `None` if it carries no byte of an open flow and starts none.
    pub taken: Option<Fate>,
    /// The flow between its endpoints whose place was taken by the one that the segment is of.
    pub replaced: Option<Flow>,
    /// The flow between its endpoints that it completed.
    pub complete: Option<Flow>,
}

/// The flows of a capture that are not complete.
///
/// A flow starts after its SYN, or with the first segment that has a payload if the capture has no
/// SYN (RFC 9293, 3.5). It is complete when all bytes before its FIN are there, at a RST whose
/// sequence number is that of the next byte (RFC 5961, 3.2), when it is closed, and at the end of
/// the capture. Segments after that start another flow.
///
/// A SYN with another sequence number is set aside (RFC 5961, 4.2). The flow that it begins takes
/// the place of the open one with the first segment that goes on after the SYN and not where the
/// open flow ends, or once the open flow is complete.
#[derive(Drop)]
pub struct Flows {
    open: BTreeMap<Ends, Pair>,
}

impl Model for Flows {
    ghost use Rattle.capture.specs.OpenFlows.{OpenFlows};

    ghost Value = { OpenFlows };

    ghost view = { λ f. f.open.entries };
}

impl Flows {
    /// No flows.
    pub fn new(alloc: Global) -> Flows
        ensures { result ≡ [] }
    {
        Flows {
            open: BTreeMap::new(alloc),
        }
    }

    /// Takes a segment between these endpoints.
    ///
    /// # Errors
    ///
    /// `AllocError` if out of memory: no flow is changed.
    pub fn take(
        &mut self,
        alloc: Global,
        ends: Ends,
        segment: &Segment,
    ) -> Result<Heard, AllocError>
        ensures hears { IfOk result (λ heard. Hears (flow_at self.old ends) (tcp_text segment.now)
            heard.taken (option_map flow_text heard.replaced) (option_map flow_text heard.complete)
            (flow_at self.new ends)) }
        ensures others { (other : Ends) → is_eq (ends_cmp ends other) ≡ false
            → flow_at self.new other ≡ flow_at self.old other }
        ensures grows { flows_len self.new ≤ flows_len self.old + 1 }
        ensures refused { OnErr result (self.new ≡ self.old) }
        // If the open flows have the bytes of segments that were captured between their endpoints,
        // so have those after this one, and those that are handed over.
        ensures of { (all : List Captured) → AreFlowsOf all self.old
            → IfOk result (λ heard. AreFlowsOf (all ++ captured ends (tcp_text segment.now) ∷ [])
            self.new × IfSome (option_map flow_text heard.replaced)
            (IsFlowOf (all ++ captured ends (tcp_text segment.now) ∷ []) ends)
            × IfSome (option_map flow_text heard.complete)
            (IsFlowOf (all ++ captured ends (tcp_text segment.now) ∷ []) ends)) }
    {
        self.hear(alloc, ends, segment)
    }

    fn hear(&mut self, alloc: Global, ends: Ends, segment: &Segment) -> Result<Heard, AllocError>
        ensures hears { IfOk result (λ heard. Hears (flow_at self.old ends) (tcp_text segment.now)
            heard.taken (option_map flow_text heard.replaced) (option_map flow_text heard.complete)
            (flow_at self.new ends)) }
        ensures others { (other : Ends) → is_eq (ends_cmp ends other) ≡ false
            → flow_at self.new other ≡ flow_at self.old other }
        ensures grows { flows_len self.new ≤ flows_len self.old + 1 }
        ensures refused { OnErr result (self.new ≡ self.old) }
    {
        let first = first_byte(segment);
        if self.is_open(&ends) {
            return self.go_on(alloc, &ends, first, segment);
        }
        if starts(segment) {
            return self.begin(alloc, ends, first, segment);
        }
        Ok(Heard {
            taken: None,
            replaced: None,
            complete: None,
        })
    }

    /// Whether a flow between these endpoints is open.
    fn is_open(&self, ends: &Ends) -> bool
        ensures { MatchBool result (IsSome (flow_at self.now ends.now))
            (flow_at self.now ends.now ≡ None) }
    {
        self.open.get(ends).is_some()
    }

    /// The open flow or the newer one takes a segment, and what is then complete is removed.
    fn go_on(
        &mut self,
        alloc: Global,
        ends: &Ends,
        first: u32,
        segment: &Segment,
    ) -> Result<Heard, AllocError>
        requires there { IsSome (flow_at self.old ends.now) }
        requires first { first ≡ first_of (tcp_text segment.now) }
        ensures hears { IfOk result (λ heard. Hears (flow_at self.old ends.now)
            (tcp_text segment.now) heard.taken (option_map flow_text heard.replaced)
            (option_map flow_text heard.complete) (flow_at self.new ends.now)) }
        ensures others { (other : Ends) → is_eq (ends_cmp ends.now other) ≡ false
            → flow_at self.new other ≡ flow_at self.old other }
        ensures grows_not { flows_len self.new ≤ flows_len self.old }
        ensures refused { OnErr result (self.new ≡ self.old) }
    {
        let (taken, replaced) = self.give(alloc, ends, first, segment)?;
        let complete = self.take_out(ends);
        Ok(Heard {
            taken: Some(taken),
            replaced,
            complete,
        })
    }

    /// Gives a segment to the flows between its endpoints.
    fn give(
        &mut self,
        alloc: Global,
        ends: &Ends,
        first: u32,
        segment: &Segment,
    ) -> Result<(Fate, Option<Flow>), AllocError>
        requires there { IsSome (flow_at self.old ends.now) }
        requires first { first ≡ first_of (tcp_text segment.now) }
        ensures goes { IfOk result (λ done. IfSome (flow_at self.old ends.now) (λ p.
            IfSome (flow_at self.new ends.now) (λ after.
            GoesOn p first (tcp_text segment.now) done.0 (option_map flow_text done.1) after))) }
        ensures stays { IsSome (flow_at self.new ends.now) }
        ensures others { (other : Ends) → is_eq (ends_cmp ends.now other) ≡ false
            → flow_at self.new other ≡ flow_at self.old other }
        ensures grows_not { flows_len self.new ≤ flows_len self.old }
        ensures refused { OnErr result (self.new ≡ self.old) }
    {
        match self.open.get_mut(ends) {
            Some(pair) => pair.take(alloc, first, segment),
            None => unreachable!(),
        }
    }

    /// Starts a flow, which may be complete at once.
    fn begin(
        &mut self,
        alloc: Global,
        ends: Ends,
        first: u32,
        segment: &Segment,
    ) -> Result<Heard, AllocError>
        requires none { flow_at self.old ends ≡ None }
        requires starts { begins (tcp_text segment.now) ≡ true }
        requires first { first ≡ first_of (tcp_text segment.now) }
        ensures hears { IfOk result (λ heard. Hears (flow_at self.old ends) (tcp_text segment.now)
            heard.taken (option_map flow_text heard.replaced) (option_map flow_text heard.complete)
            (flow_at self.new ends)) }
        ensures others { (other : Ends) → is_eq (ends_cmp ends other) ≡ false
            → flow_at self.new other ≡ flow_at self.old other }
        ensures grows { flows_len self.new ≤ flows_len self.old + 1 }
        ensures refused { OnErr result (self.new ≡ self.old) }
    {
        let mut open = Open::new(alloc, first);
        let taken = open.take(alloc, first, segment)?;
        let _ = self.open.insert(ends, Pair::new(open))?;
        let complete = self.take_out(&ends);
        Ok(Heard {
            taken: Some(taken),
            replaced: None,
            complete,
        })
    }

    /// Removes the open flow between these endpoints, if it is complete.
    fn take_out(&mut self, ends: &Ends) -> Option<Flow>
        ensures out { IfSome (flow_at self.old ends.now) (λ p.
            (option_map flow_text result, flow_at self.new ends.now) ≡ settled p) }
        ensures others { (other : Ends) → is_eq (ends_cmp ends.now other) ≡ false
            → flow_at self.new other ≡ flow_at self.old other }
        ensures grows_not { flows_len self.new ≤ flows_len self.old }
    {
        if self.open.get(ends)?.is_complete() {
            self.remove(ends)
        } else {
            None
        }
    }

    /// Removes the open flow between these endpoints, complete or not, as after a long silence. A
    /// newer flow takes its place.
    pub fn close(&mut self, ends: &Ends) -> Option<Flow>
        ensures flow { option_map flow_text result
            ≡ option_map (λ p. p.older.flow) (flow_at self.old ends.now) }
        ensures newer { IfSome (flow_at self.old ends.now) (λ p.
            flow_at self.new ends.now ≡ option_map alone p.newer) }
        ensures none { (flow_at self.old ends.now ≡ None) → self.new ≡ self.old }
        ensures others { (other : Ends) → is_eq (ends_cmp ends.now other) ≡ false
            → flow_at self.new other ≡ flow_at self.old other }
        ensures grows_not { flows_len self.new ≤ flows_len self.old }
        ensures of { (all : List Captured) → AreFlowsOf all self.old → AreFlowsOf all self.new
            × IfSome (option_map flow_text result) (IsFlowOf all ends.now) }
    {
        self.remove(ends)
    }

    fn remove(&mut self, ends: &Ends) -> Option<Flow>
        ensures flow { option_map flow_text result
            ≡ option_map (λ p. p.older.flow) (flow_at self.old ends.now) }
        ensures newer { IfSome (flow_at self.old ends.now) (λ p.
            flow_at self.new ends.now ≡ option_map alone p.newer) }
        ensures none { (flow_at self.old ends.now ≡ None) → self.new ≡ self.old }
        ensures others { (other : Ends) → is_eq (ends_cmp ends.now other) ≡ false
            → flow_at self.new other ≡ flow_at self.old other }
        ensures grows_not { flows_len self.new ≤ flows_len self.old }
    {
        match self.pass_on(ends) {
            Some(older) => Some(older),
            None => {
                let (flow, _) = self.open.remove(ends)?.into_flows();
                Some(flow)
            }
        }
    }

    /// Removes the open flow between these endpoints, if there is a newer one to take its place.
    fn pass_on(&mut self, ends: &Ends) -> Option<Flow>
        ensures some { IfSome (flow_at self.old ends.now) (λ p. IfSome p.newer (λ n.
            (option_map flow_text result ≡ Some p.older.flow)
            × (flow_at self.new ends.now ≡ Some (alone n)))) }
        ensures none { IfSome (flow_at self.old ends.now) (λ p. (p.newer ≡ None)
            → (result ≡ None) × (flow_at self.new ends.now ≡ Some p)) }
        ensures absent { (flow_at self.old ends.now ≡ None)
            → (result ≡ None) × (self.new ≡ self.old) }
        ensures others { (other : Ends) → is_eq (ends_cmp ends.now other) ≡ false
            → flow_at self.new other ≡ flow_at self.old other }
        ensures grows_not { flows_len self.new ≤ flows_len self.old }
    {
        self.open.get_mut(ends)?.pass_on()
    }

    /// The open flow between these endpoints, as far as it is reassembled.
    pub fn get(&self, ends: &Ends) -> Option<&Flow>
        ensures { option_map (λ flow. flow_text flow.now) result
            ≡ option_map (λ p. p.older.flow) (flow_at self.now ends.now) }
    {
        Some(self.open.get(ends)?.flow())
    }

    /// At the end of the capture, removes the flows that are left between two endpoints, the least
    /// ones: the open flow and the newer one.
    pub fn finish(&mut self) -> Option<(Ends, Flow, Option<Flow>)>
        ensures none { IsNone result ↔ (self.old ≡ []) }
        ensures takes_out { IfSome result (λ t. (p : PairText)
            × (self.old ≡ (t.0, p) ∷ self.new) × (flow_text t.1 ≡ p.older.flow)
            × (option_map flow_text t.2 ≡ option_map (λ n. n.flow) p.newer)) }
        ensures least { IfSome result (λ t. All (λ ends. is_lt (ends_cmp t.0 ends) ≡ true)
            (keys_of self.new)) }
        ensures gone { IfSome result (λ t. flow_at self.new t.0 ≡ None) }
        ensures others { IfSome result (λ t. (ends : Ends)
            → is_eq (ends_cmp t.0 ends) ≡ false
            → flow_at self.new ends ≡ flow_at self.old ends) }
        ensures len { IfSome result (λ t. flows_len self.new + 1 ≡ flows_len self.old) }
        ensures empty { IfNone result (self.new ≡ []) }
        ensures of { (all : List Captured) → AreFlowsOf all self.old → AreFlowsOf all self.new
            × IfSome result (λ t. IsFlowOf all t.0 (flow_text t.1)
            × IfSome (option_map flow_text t.2) (IsFlowOf all t.0)) }
    {
        self.pop_first()
    }

    fn pop_first(&mut self) -> Option<(Ends, Flow, Option<Flow>)>
        ensures none { IsNone result ↔ (self.old ≡ []) }
        ensures takes_out { IfSome result (λ t. (p : PairText)
            × (self.old ≡ (t.0, p) ∷ self.new) × (flow_text t.1 ≡ p.older.flow)
            × (option_map flow_text t.2 ≡ option_map (λ n. n.flow) p.newer)) }
        ensures least { IfSome result (λ t. All (λ ends. is_lt (ends_cmp t.0 ends) ≡ true)
            (keys_of self.new)) }
        ensures gone { IfSome result (λ t. flow_at self.new t.0 ≡ None) }
        ensures others { IfSome result (λ t. (ends : Ends)
            → is_eq (ends_cmp t.0 ends) ≡ false
            → flow_at self.new ends ≡ flow_at self.old ends) }
        ensures len { IfSome result (λ t. flows_len self.new + 1 ≡ flows_len self.old) }
        ensures empty { IfNone result (self.new ≡ []) }
    {
        let (ends, pair) = self.open.pop_first()?;
        let (flow, newer) = pair.into_flows();
        Some((ends, flow, newer))
    }
}

/// Whether a segment starts a flow where none is open.
fn starts(segment: &Segment) -> bool
    ensures { result ≡ begins (tcp_text segment.now) }
{
    segment.syn || !segment.payload.is_empty()
}

/// The sequence number of the first byte of a segment's payload: a SYN has one of its own (RFC
/// 9293, 3.4).
fn first_byte(segment: &Segment) -> u32
    ensures { result ≡ first_of (tcp_text segment.now) }
{
    if segment.syn {
        segment.seq.wrapping_add(1)
    } else {
        segment.seq
    }
}
