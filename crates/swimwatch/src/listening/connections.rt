//! The open connections.

ghost use Rattle.std.specs.Prelude.{◌≡◌, ◌++◌, ◌∷◌, [], Contains, List, None, Some, false, IfOk, IfSome, OnOk};
ghost use Rattle.std.specs.Option.{option_map};
ghost use Rattle.std.specs.Ordering.{is_eq};
ghost use Rattle.capture.specs.declared.ends.Ends.{Ends};
ghost use Rattle.capture.specs.Captured.{Captured, captured, IsFlowOf, AreFlowsOf};
ghost use Rattle.capture.specs.FlowTexts.{flow_text};
ghost use Rattle.capture.specs.OpenFlows.{OpenFlows, Hears, ends_cmp, flow_at};
ghost use Rattle.capture.specs.Packets.{tcp_text};
ghost use Rattle.memberlist_view.specs.Told.{ViewValue};
ghost use Rattle.swimwatch.specs.Connected.{AreOthers, AreRead, AreReadBut, Direction, Follows, HandsOver};
ghost use Rattle.swimwatch.specs.Connected.{HearsAny, HearsSegment, IsRead, IsReadBy, MovesOn};
ghost use Rattle.swimwatch.specs.Connected.{past_of, progress_at};
ghost use Rattle.swimwatch.specs.Ways.{PacketText};

use crate::heard::carriage::Opening;
use crate::heard::counts::count;
use crate::heard::waiting::{Due, Waiting};
use crate::listening::progress::{Progress, hear_flow, sent_at};
use crate::listening::watch::Watch;
use capture::{Ends, Fate, Flow, Flows, Heard, Segment};
use std::alloc::{AllocError, Global};
use std::collections::BTreeMap;

/// The open connections.
#[derive(Drop)]
pub(crate) struct Connections {
    alloc: Global,
    flows: Flows,
    progress: BTreeMap<Ends, Progress>,
    waiting: Waiting,
}

impl Connections {
    /// No connections.
    pub(crate) fn new(alloc: Global) -> Connections
        ensures flows { result.flows ≡ [] }
        ensures progress { result.progress.entries ≡ [] }
    {
        Connections {
            alloc,
            flows: Flows::new(alloc),
            progress: BTreeMap::new(alloc),
            waiting: Waiting::new(alloc),
        }
    }

    /// Takes in a segment, and what the flow carried if the segment completes it. A stream is taken
    /// in as soon as it is complete, at a segment with the PSH flag, since members take it in then.
    pub(crate) fn segment(
        &mut self,
        watch: &mut Watch,
        opening: Opening,
        time: u64,
        ends: Ends,
        segment: &Segment,
    ) -> Result<(), AllocError>
        ensures { (segments : List Captured) (packets : List PacketText) (read : List Direction)
            → Follows segments read self.old → OnOk result ((more : List Direction)
            × HearsSegment opening.entry.clear opening.entry.keys.now ends (tcp_text segment.now)
            (past_of segments packets read self.old.flows watch.old.listener.view)
            (past_of (segments ++ captured ends (tcp_text segment.now) ∷ []) packets more
            self.new.flows watch.new.listener.view)
            × Follows (segments ++ captured ends (tcp_text segment.now) ∷ []) more self.new) }
    {
        self.close_silent(watch, opening, time)?;
        let heard = self.flows.take(self.alloc, ends, segment)?;
        self.hear(watch, opening, time, ends, segment, heard)
    }

    /// Takes in what a segment did to the flows between its ends.
    fn hear(
        &mut self,
        watch: &mut Watch,
        opening: Opening,
        time: u64,
        ends: Ends,
        segment: &Segment,
        heard: Heard,
    ) -> Result<(), AllocError>
        ensures { (segments : List Captured) (packets : List PacketText) (read : List Direction)
            (before : OpenFlows) → Hears (flow_at before ends) (tcp_text segment.now) heard.taken
            (option_map flow_text heard.replaced) (option_map flow_text heard.complete)
            (flow_at self.old.flows ends) → AreOthers ends before self.old.flows
            → AreFlowsOf segments self.old.flows
            → AreRead read before self.old.progress.entries
            → IfSome (option_map flow_text heard.replaced) (IsFlowOf segments ends)
            → IfSome (option_map flow_text heard.complete) (IsFlowOf segments ends)
            → OnOk result ((mid view : ViewValue) × (more : List Direction)
            × HearsAny opening.entry.clear opening.entry.keys.now segments read ends
            (option_map flow_text heard.replaced) watch.old.listener.view mid
            × HearsAny opening.entry.clear opening.entry.keys.now segments read ends
            (option_map flow_text heard.complete) mid view
            × MovesOn opening.entry.clear opening.entry.keys.now
            (past_of segments packets read self.old.flows view)
            (past_of segments packets more self.new.flows watch.new.listener.view)
            × Follows segments more self.new) }
    {
        let Heard {
            taken: Some(taken),
            replaced,
            complete,
        } = heard
        else {
            return Ok(());
        };
        let mut progress = self.progress_of(&ends, time);
        progress.seen = time;
        if replaced.is_none() && complete.is_none() && self.is_aside(&ends, segment) {
            progress.syn = time;
            return self.keep(watch, opening, ends, progress);
        }
        let mut progress = hear_flow(watch, opening, progress, ends, replaced)?;
        progress.note(time, taken, segment);
        let may_read = taken == Fate::Joined && segment.psh;
        self.go_on(watch, opening, ends, progress, complete, may_read)
    }

    /// Takes in what a flow carried if it is complete, or has a whole stream.
    fn go_on(
        &mut self,
        watch: &mut Watch,
        opening: Opening,
        ends: Ends,
        progress: Progress,
        complete: Option<Flow>,
        may_read: bool,
    ) -> Result<(), AllocError>
        ensures { (segments : List Captured) (packets : List PacketText) (read : List Direction)
            → AreFlowsOf segments self.old.flows
            → AreReadBut ends read self.old.flows self.old.progress.entries
            → IsReadBy read self.old.flows ends (option_map flow_text complete) progress
            → IfSome (option_map flow_text complete) (IsFlowOf segments ends)
            → OnOk result ((view : ViewValue) × (more : List Direction)
            × HearsAny opening.entry.clear opening.entry.keys.now segments read ends
            (option_map flow_text complete) watch.old.listener.view view
            × MovesOn opening.entry.clear opening.entry.keys.now
            (past_of segments packets read self.old.flows view)
            (past_of segments packets more self.new.flows watch.new.listener.view)
            × Follows segments more self.new) }
    {
        if complete.is_none() {
            let progress = self.try_reading(watch, opening, ends, progress, may_read)?;
            return self.keep(watch, opening, ends, progress);
        }
        let newer = hear_flow(watch, opening, progress, ends, complete)?;
        if self.flows.get(&ends).is_none() {
            self.forget(&ends);
            return Ok(());
        }
        self.keep(watch, opening, ends, newer)
    }

    /// Whether a segment is a SYN that was set aside: it begins another flow than the open one.
    fn is_aside(&self, ends: &Ends, segment: &Segment) -> bool {
        match self.flows.get(ends) {
            Some(flow) => segment.syn && flow.start() != segment.seq.wrapping_add(1),
            None => false,
        }
    }

    fn progress_of(&self, ends: &Ends, time: u64) -> Progress
        ensures some { IfSome (progress_at self.now.progress.entries ends.now)
            (λ progress. result ≡ progress) }
        ensures none { (progress_at self.now.progress.entries ends.now ≡ None)
            → result.is_read ≡ false }
    {
        match self.progress.get(ends) {
            Some(progress) => *progress,
            None => Progress::new(time),
        }
    }

    /// Notes the progress of a flow. Returns whether none was noted before.
    fn note(&mut self, ends: Ends, progress: Progress) -> Result<bool, AllocError>
        ensures flows { self.new.flows ≡ self.old.flows }
        ensures there { OnOk result (progress_at self.new.progress.entries ends ≡ Some progress) }
        ensures others { OnOk result ((other : Ends) → is_eq (ends_cmp ends other) ≡ false
            → progress_at self.new.progress.entries other
            ≡ progress_at self.old.progress.entries other) }
    {
        Ok(self.progress.insert(ends, progress)?.is_none())
    }

    /// Keeps the progress of a flow. If there are too many, the one with the oldest last segment is
    /// closed.
    fn keep(
        &mut self,
        watch: &mut Watch,
        opening: Opening,
        ends: Ends,
        progress: Progress,
    ) -> Result<(), AllocError>
        ensures { (segments : List Captured) (packets : List PacketText) (read : List Direction)
            → AreFlowsOf segments self.old.flows
            → AreReadBut ends read self.old.flows self.old.progress.entries
            → IsRead read self.old.flows ends progress
            → OnOk result (MovesOn opening.entry.clear opening.entry.keys.now
            (past_of segments packets read self.old.flows watch.old.listener.view)
            (past_of segments packets read self.new.flows watch.new.listener.view)
            × Follows segments read self.new) }
    {
        if self.note(ends, progress)? {
            self.waiting.add(ends, progress.queued)?;
        }
        for _ in 0..self.waiting.len() {
            if !self.waiting.is_full() {
                break;
            }
            if self.close_first(watch, opening)? {
                count(&mut watch.counts.dropped);
            }
        }
        Ok(())
    }

    /// Closes the flows that have been silent for too long at this time. Each is first in the queue
    /// at most twice.
    fn close_silent(
        &mut self,
        watch: &mut Watch,
        opening: Opening,
        time: u64,
    ) -> Result<(), AllocError>
        ensures { OnOk result (HandsOver opening.entry.clear opening.entry.keys.now self.old
            watch.old.listener.view self.new watch.new.listener.view) }
    {
        for _ in 0..self.waiting.len().saturating_mul(2) {
            if !self.waiting.is_due(time) {
                break;
            }
            if self.close_first(watch, opening)? {
                count(&mut watch.counts.silent);
            }
        }
        Ok(())
    }

    /// Closes the flow that is first in the queue, unless it had a segment since it was put there:
    /// then it is put there again. Returns whether one was closed that had not been read.
    fn close_first(&mut self, watch: &mut Watch, opening: Opening) -> Result<bool, AllocError>
        ensures { OnOk result (HandsOver opening.entry.clear opening.entry.keys.now self.old
            watch.old.listener.view self.new watch.new.listener.view) }
    {
        let Some(Due { since, ends }) = self.waiting.pop() else {
            return Ok(false);
        };
        let mut progress = self.progress_of(&ends, since);
        if since < progress.seen {
            progress.queued = progress.seen;
            let _ = self.note(ends, progress)?;
            self.waiting.add(ends, progress.queued)?;
            return Ok(false);
        }
        let older = self.flows.close(&ends);
        let newer = self.flows.close(&ends);
        self.forget(&ends);
        let left = hear_flow(watch, opening, progress, ends, older)?;
        let _ = hear_flow(watch, opening, left, ends, newer)?;
        Ok(!progress.is_read)
    }

    /// Forgets the progress of a flow.
    fn forget(&mut self, ends: &Ends)
        ensures flows { self.new.flows ≡ self.old.flows }
        ensures gone { progress_at self.new.progress.entries ends.now ≡ None }
        ensures others { (other : Ends) → is_eq (ends_cmp ends.now other) ≡ false
            → progress_at self.new.progress.entries other
            ≡ progress_at self.old.progress.entries other }
    {
        if let Some(progress) = self.progress.remove(ends) {
            self.waiting.remove(*ends, progress.queued);
        }
    }

    /// Takes in a pushed stream, if it is complete and may be read. Returns the flow's progress.
    fn try_reading(
        &self,
        watch: &mut Watch,
        opening: Opening,
        ends: Ends,
        progress: Progress,
        may_read: bool,
    ) -> Result<Progress, AllocError>
        ensures { (segments : List Captured) (packets : List PacketText) (read : List Direction)
            → AreFlowsOf segments self.now.flows → IsRead read self.now.flows ends progress
            → IfOk result (λ left. (more : List Direction)
            × MovesOn opening.entry.clear opening.entry.keys.now
            (past_of segments packets read self.now.flows watch.old.listener.view)
            (past_of segments packets more self.now.flows watch.new.listener.view)
            × IsRead more self.now.flows ends left
            × ((d : Direction) → Contains read d → Contains more d)) }
    {
        let mut progress = progress;
        if !may_read || !progress.may_read() {
            return Ok(progress);
        }
        let Some(flow) = self.flows.get(&ends) else {
            return Ok(progress);
        };
        let sent = sent_at(progress.time, ends);
        progress.is_read = watch.whole_stream(opening, sent, flow.bytes())?;
        Ok(progress)
    }

    /// Takes in the flows that are left at the end of a capture.
    pub(crate) fn finish(&mut self, watch: &mut Watch, opening: Opening) -> Result<(), AllocError>
        ensures hears { OnOk result (HandsOver opening.entry.clear opening.entry.keys.now self.old
            watch.old.listener.view self.new watch.new.listener.view) }
        ensures all { OnOk result (self.new.flows ≡ []) }
    {
        while let Some((ends, flow, newer)) = self.flows.finish() {
            let progress = self.progress_of(&ends, 0);
            self.forget(&ends);
            let left = hear_flow(watch, opening, progress, ends, Some(flow))?;
            let _ = hear_flow(watch, opening, left, ends, newer)?;
        }
        Ok(())
    }
}
