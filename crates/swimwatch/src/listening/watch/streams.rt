//! Hearing what connections carry.

ghost use Rattle.std.specs.Prelude.{◌≡◌, Bool, IfOk, OnOk};
ghost use Rattle.std.specs.Option.{is_none};
ghost use Rattle.swimwatch.specs.Records.{claims_in};
ghost use Rattle.swimwatch.specs.Views.{HearsRecords, HearsStream};

use super::Watch;
use crate::heard::carriage::{NoStream, Opening, stream_records};
use crate::heard::counts::count;
use crate::heard::noted::What;
use crate::heard::records::Records;
use crate::heard::sent::Sent;
use crate::heard::told::Told;
use crate::heard::versions::is_understood;
use crate::shown::talkers::Kind;
use crate::text::endpoint::endpoint;
use std::alloc::AllocError;
use std::net::SocketAddr;
use swim_claim::Claim;

impl Watch {
    /// Takes in one direction of a connection that may still grow, if it is a whole push/pull
    /// stream, and returns whether it is.
    pub(crate) fn whole_stream(
        &mut self,
        opening: Opening,
        sent: Sent,
        bytes: &[u8],
    ) -> Result<bool, AllocError>
        ensures hears { IfOk result (λ whole. HearsStream opening.entry.clear
            opening.entry.keys.now bytes.now sent.time whole self.old.listener.view self.new.listener.view) }
    {
        match self.take_stream(opening, sent, bytes)? {
            None => Ok(true),
            Some(_) => Ok(false),
        }
    }

    /// Takes in all that one direction of a connection carried: its bytes up to the first gap, and how
    /// many are known after it.
    pub(crate) fn stream(
        &mut self,
        opening: Opening,
        sent: Sent,
        bytes: &[u8],
        behind: usize,
    ) -> Result<(), AllocError>
        ensures hears { OnOk result ((whole : Bool) × HearsStream opening.entry.clear
            opening.entry.keys.now bytes.now sent.time whole self.old.listener.view self.new.listener.view) }
    {
        let len = bytes.len().saturating_add(behind);
        let counted = match self.take_stream(opening, sent, bytes)? {
            None => {
                self.count_bytes(sent, len)?;
                return Ok(());
            }
            Some(NoStream::Claimless) => {
                self.notes.add(&sent, What::Stream)?;
                count(&mut self.counts.other_streams);
                Kind::Message
            }
            Some(NoStream::Closed) => {
                count(&mut self.counts.closed);
                Kind::Unread
            }
            Some(NoStream::Unencrypted) => {
                self.counts.refuse(sent.source.ip());
                Kind::Unread
            }
            Some(NoStream::Cut) => {
                count(&mut self.counts.gaps);
                Kind::Unread
            }
            Some(NoStream::Versions) => {
                count(&mut self.counts.misversed);
                Kind::Unread
            }
            Some(NoStream::Invalid(fault)) => {
                self.counts.invalidate(fault);
                Kind::Unread
            }
            Some(NoStream::Foreign | NoStream::Memory) => {
                count(&mut self.counts.foreign);
                return Ok(());
            }
        };
        self.count_bytes(sent, len)?;
        self.said(sent, counted)
    }

    /// Counts one direction of a connection whose first bytes were not captured, and as many after
    /// them as this. It is memberlist's if a member is at one of its ends.
    pub(crate) fn headless(&mut self, sent: Sent, behind: usize) -> Result<(), AllocError>
        ensures { self.new.listener ≡ self.old.listener }
    {
        count(&mut self.counts.gaps);
        let listener = &self.listener;
        if !listener.has_member_at(sent.source) && !listener.has_member_at(sent.destination) {
            return Ok(());
        }
        self.count_bytes(sent, behind)?;
        self.said(sent, Kind::Unread)
    }

    /// Hears the push/pull stream in one direction of a connection, or returns why there is none.
    fn take_stream(
        &mut self,
        opening: Opening,
        sent: Sent,
        bytes: &[u8],
    ) -> Result<Option<NoStream>, AllocError>
        ensures { IfOk result (λ cause. HearsStream opening.entry.clear
            opening.entry.keys.now bytes.now sent.time (is_none cause) self.old.listener.view self.new.listener.view) }
    {
        self.reach(sent.time);
        match stream_records(self.alloc, opening.keys, opening.clear, bytes) {
            Ok(records) if is_understood(&records.records) => {
                self.records(sent, records)?;
                Ok(None)
            }
            Ok(_) => Ok(Some(NoStream::Versions)),
            Err(NoStream::Memory) => Err(AllocError),
            Err(cause) => Ok(Some(cause)),
        }
    }

    /// Hears the records of a push/pull stream.
    fn records(&mut self, sent: Sent, records: Records) -> Result<(), AllocError>
        ensures view { OnOk result (HearsRecords sent.time (claims_in records.records.items)
            self.old.listener.view self.new.listener.view) }
    {
        count(&mut self.counts.streams);
        self.notes.add(&sent, What::PushPull)?;
        self.said(sent, Kind::Stream)?;
        let join = Join {
            join: records.join,
            is_only: records.records.len() == 1,
            source: sent.source,
        };
        for record in records.records {
            let joins = join.has(&record.claim);
            let told = Told::of_record(&record.claim, joins);
            self.hear(sent, &told)?;
        }
        self.user_state(sent, &records.user)
    }
}

/// A stream that joins, as far as it says.
#[derive(Clone, Copy)]
struct Join {
    join: bool,
    /// Whether it has one record.
    is_only: bool,
    source: SocketAddr,
}

impl Join {
    /// Whether a new name joins by this record: it is the one of who opened the connection. The
    /// answer repeats that the stream joins, but comes from the port that its own record has.
    fn has(&self, claim: &Claim) -> bool {
        let (true, Some(details)) = (self.join, claim.details()) else {
            return false;
        };
        match endpoint(details.addr(), details.port()) {
            Some(end) => {
                end.port() != self.source.port() && (self.is_only || end.ip() == self.source.ip())
            }
            None => false,
        }
    }
}
