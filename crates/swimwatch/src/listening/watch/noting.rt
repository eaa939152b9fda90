//! Noting what tells of the probes of members.

ghost use Rattle.std.specs.Prelude.{◌≡◌};

use super::Watch;
use crate::heard::counts::count;
use crate::heard::noted::What;
use crate::heard::sent::{Proto, Sent};
use crate::heard::told::Told;
use capture::Segment;
use memberlist_view::Event;
use std::alloc::AllocError;
use std::net::SocketAddr;
use swim_claim::Claim;

impl Watch {
    /// Takes in that a packet was captured.
    pub(crate) fn captured(&mut self, sent: &Sent) -> Result<(), AllocError>
        ensures { self.new.listener ≡ self.old.listener }
    {
        self.spread_packet(sent)?;
        self.notes.add(sent, What::Packet)
    }

    /// Takes in that a host refused a packet from one endpoint to another. It is only of use for
    /// those who follow probes.
    pub(crate) fn refused(
        &mut self,
        sent: &Sent,
        from: SocketAddr,
        to: SocketAddr,
    ) -> Result<(), AllocError>
        ensures { self.new.listener ≡ self.old.listener }
    {
        if !self.notes.is_asked() {
            count(&mut self.counts.others);
        }
        self.notes.add(sent, What::Refusal { from, to })
    }

    /// Takes in that a segment was captured.
    pub(crate) fn captured_segment(
        &mut self,
        sent: &Sent,
        segment: &Segment,
    ) -> Result<(), AllocError>
        ensures { self.new.listener ≡ self.old.listener }
    {
        let segment = memberlist_probes::Segment {
            syn: segment.syn,
            rst: segment.rst,
            has_payload: !segment.payload.is_empty(),
        };
        self.notes.add(sent, What::Segment(segment))
    }

    /// Notes a claim: a push/pull that brings a suspicion or a death may lead to an accusation.
    pub(super) fn note_claim(&mut self, sent: &Sent, told: &Told) -> Result<(), AllocError>
        ensures { self.new.listener ≡ self.old.listener }
    {
        match told.claim {
            Claim::Suspect { name, .. } | Claim::Confirm { name, .. } if sent.proto == Proto::Tcp =>
                self.notes.hearsay(sent, name.bytes()),
            _ => Ok(()),
        }
    }

    /// Notes what a message changed, if it changed something.
    pub(super) fn note_event(
        &mut self,
        sent: &Sent,
        told: &Told,
        event: Option<Event>,
    ) -> Result<(), AllocError>
        ensures { self.new.listener ≡ self.old.listener }
    {
        let (name, inc) = (told.claim.name().bytes(), told.claim.inc());
        match event {
            Some(event) => self.notes.change(sent, name, inc, told.from, event),
            None => Ok(()),
        }
    }
}
