//! How far connections have been read.

ghost use Rattle.std.specs.Prelude.{◌≡◌, Contains, List, None, false, true, IfOk, IfSome, OnOk};
ghost use Rattle.std.specs.Option.{option_map};
ghost use Rattle.capture.specs.Captured.{Captured, IsFlowOf};
ghost use Rattle.capture.specs.FlowTexts.{flow_text};
ghost use Rattle.swimwatch.specs.Connected.{Direction, HearsAny, HearsFlow, direction};

use crate::heard::carriage::Opening;
use crate::heard::sent::{Proto, Sent};
use crate::listening::watch::Watch;
use crate::text::endpoint::plain;
use capture::{Ends, Fate, Flow, Segment};
use std::alloc::AllocError;

/// The most tries to read a stream before its end.
const MAX_TRIES: u8 = 8;

/// How far one direction of a connection has been read.
#[derive(Clone, Copy)]
pub(crate) struct Progress {
    /// When the last of its bytes were captured.
    pub(crate) time: u64,
    /// When its last segment was captured.
    pub(crate) seen: u64,
    /// When it was put in the queue of those that may be silent.
    pub(crate) queued: u64,
    /// When the SYN of a newer flow was captured.
    pub(crate) syn: u64,
    /// Whether it was taken in.
    pub(crate) is_read: bool,
    /// How often reading it was tried before its end.
    tries: u8,
    /// The sequence number after its furthest known byte.
    reach: Option<u32>,
}

impl Progress {
    /// The progress of a flow of which nothing was read, at this time.
    pub(crate) fn new(time: u64) -> Progress
        ensures { result.is_read ≡ false }
    {
        Progress {
            time,
            seen: time,
            queued: time,
            syn: time,
            is_read: false,
            tries: 0,
            reach: None,
        }
    }

    /// The progress of the newer flow that takes this one's place. Its bytes came with its SYN.
    pub(crate) fn of_newer(self) -> Progress
        ensures { result.is_read ≡ false }
    {
        Progress {
            time: self.syn,
            is_read: false,
            tries: 0,
            reach: None,
            ..self
        }
    }

    /// Notes a segment: where it ends (RFC 9293, 3.4: sequence numbers are compared modulo 2^32),
    /// and when it brought bytes.
    pub(crate) fn note(&mut self, time: u64, taken: Fate, segment: &Segment)
        ensures { self.new.is_read ≡ self.old.is_read }
    {
        if taken == Fate::Joined {
            self.time = time;
        }
        if segment.rst {
            return;
        }
        let len = u32::try_from(segment.payload.len()).unwrap_or(u32::MAX);
        let end = segment
            .seq
            .wrapping_add(u32::from(segment.syn))
            .wrapping_add(len);
        match self.reach {
            Some(reach) if 0x8000_0000 <= end.wrapping_sub(reach) => {}
            _ => self.reach = Some(end),
        }
    }

    /// Whether there are known bytes that the flow lacks.
    fn has_gap(&self, flow: &Flow) -> bool {
        match self.reach {
            Some(reach) => flow.bytes().len() < reach.wrapping_sub(flow.start()) as usize,
            None => false,
        }
    }

    /// Whether to try to read a stream before its end. Counts the tries.
    pub(crate) fn may_read(&mut self) -> bool
        ensures { self.new.is_read ≡ self.old.is_read }
    {
        if self.is_read || self.tries == MAX_TRIES {
            return false;
        }
        self.tries = self.tries.saturating_add(1);
        true
    }
}

/// What was sent between these endpoints.
pub(crate) fn sent_at(time: u64, ends: Ends) -> Sent {
    Sent {
        time,
        source: plain(ends.source),
        destination: plain(ends.destination),
        proto: Proto::Tcp,
    }
}

/// Takes in what a flow carried, if there is one, unless it was taken in before. Returns the
/// progress of the newer flow that takes its place.
pub(crate) fn hear_flow(
    watch: &mut Watch,
    opening: Opening,
    progress: Progress,
    ends: Ends,
    flow: Option<Flow>,
) -> Result<Progress, AllocError>
    ensures hears { (segments : List Captured) (read : List Direction)
        → IfSome (option_map flow_text flow) (λ f. IsFlowOf segments ends f
        × (progress.is_read ≡ true → Contains read (direction ends f.start)))
        → OnOk result (HearsAny opening.entry.clear opening.entry.keys.now segments read ends
        (option_map flow_text flow) watch.old.listener.view watch.new.listener.view) }
    ensures none { IfOk result (λ left. option_map flow_text flow ≡ None → left ≡ progress) }
    ensures newer { IfOk result (λ left. IfSome (option_map flow_text flow)
        (λ f. left.is_read ≡ false)) }
{
    match flow {
        Some(flow) => {
            hear_whole(watch, opening, progress, ends, &flow)?;
            Ok(progress.of_newer())
        }
        None => Ok(progress),
    }
}

/// Takes in what a flow carried, unless it was taken in before.
fn hear_whole(
    watch: &mut Watch,
    opening: Opening,
    progress: Progress,
    ends: Ends,
    flow: &Flow,
) -> Result<(), AllocError>
    ensures { (segments : List Captured) (read : List Direction)
        → IsFlowOf segments ends (flow_text flow.now)
        → (progress.is_read ≡ true → Contains read (direction ends flow.now.start))
        → OnOk result (HearsFlow opening.entry.clear opening.entry.keys.now segments read ends
        (flow_text flow.now) watch.old.listener.view watch.new.listener.view) }
{
    let bytes = flow.bytes();
    let behind = flow.waiting_len();
    let sent = sent_at(progress.time, ends);
    if progress.is_read {
        return watch.count_bytes(sent, bytes.len().saturating_add(behind));
    }
    if !bytes.is_empty() {
        return watch.stream(opening, sent, bytes, behind);
    }
    if progress.has_gap(flow) {
        return watch.headless(sent, behind);
    }
    Ok(())
}
