//! What members sent, from the frames of captures.

ghost use Rattle.std.specs.Prelude.{◌≡◌, [], List, OnOk};
ghost use Rattle.capture.specs.Captured.{Captured};
ghost use Rattle.capture.specs.Packets.{carried_text};
ghost use Rattle.swimwatch.specs.Connected.{Direction, Follows, HandsOver, past_of};
ghost use Rattle.swimwatch.specs.Filtered.{choice_of};
ghost use Rattle.swimwatch.specs.Shown.{HearsFrame, HearsRecord};
ghost use Rattle.swimwatch.specs.Ways.{PacketText, AreKept};

use crate::heard::carriage::Opening;
use crate::heard::counts::{Counts, count};
use crate::heard::recent::{Recent, Way};
use crate::heard::sent::{Proto, Sent};
use crate::listening::connections::Connections;
use crate::listening::filter::Filter;
use crate::listening::parcel::Parcel;
use crate::listening::watch::Watch;
use crate::text::endpoint::endpoint;
use capture::{Carried, Ends, Link, NotCarried, Record, Transport, carried};
use std::alloc::{AllocError, Global};

/// The traffic of the captures that a view hears.
#[derive(Drop)]
pub(crate) struct Traffic {
    connections: Connections,
    recent: Recent,
}

impl Traffic {
    /// No traffic.
    pub(crate) fn new(alloc: Global) -> Traffic
        ensures flows { result.connections.flows ≡ [] }
        ensures progress { result.connections.progress.entries ≡ [] }
        ensures recent { AreKept [] result.recent }
    {
        Traffic {
            connections: Connections::new(alloc),
            recent: Recent::new(alloc),
        }
    }

    /// Takes in a record of a capture and its bytes.
    pub(crate) fn record(
        &mut self,
        watch: &mut Watch,
        filter: Filter,
        record: Record,
        bytes: &[u8],
    ) -> Result<(), AllocError>
        ensures { (segments : List Captured) (packets : List PacketText) (read : List Direction)
            → Follows segments read self.old.connections → AreKept packets self.old.recent
            → OnOk result ((now : List Captured) × (seen : List PacketText)
            × (more : List Direction) × HearsRecord (choice_of filter.entry)
            «record» bytes.now
            (past_of segments packets read self.old.connections.flows watch.old.listener.view)
            (past_of now seen more self.new.connections.flows watch.new.listener.view)
            × Follows now more self.new.connections × AreKept seen self.new.recent) }
    {
        count(&mut watch.counts.records);
        let Some(nanos) = record.time else {
            count(&mut watch.counts.timeless);
            return Ok(());
        };
        let time = nanos / 1000;
        if !filter.is_timely(time) {
            count(&mut watch.counts.later);
            return Ok(());
        }
        let Some(link) = Link::from_number(record.link) else {
            count(&mut watch.counts.unknown_links);
            return Ok(());
        };
        let way = Way::of(record.interface, link, bytes);
        match carried(link, bytes) {
            Ok(content) => self.content(watch, filter, time, way, content),
            Err(cause) => {
                leave_out(&mut watch.counts, cause);
                Ok(())
            }
        }
    }

    /// Takes in what a frame carried, unless it was captured on another interface before.
    fn content(
        &mut self,
        watch: &mut Watch,
        filter: Filter,
        time: u64,
        way: Way,
        content: Carried,
    ) -> Result<(), AllocError>
        ensures { (segments : List Captured) (packets : List PacketText) (read : List Direction)
            → Follows segments read self.old.connections → AreKept packets self.old.recent
            → OnOk result ((now : List Captured) × (seen : List PacketText)
            × (more : List Direction) × HearsFrame (choice_of filter.entry)
            way time (carried_text content.entry)
            (past_of segments packets read self.old.connections.flows watch.old.listener.view)
            (past_of now seen more self.new.connections.flows watch.new.listener.view)
            × Follows now more self.new.connections × AreKept seen self.new.recent) }
    {
        let Some(parcel) = Parcel::of(&content.transport) else {
            return refusal(watch, filter, time, content);
        };
        let from = endpoint(content.source, parcel.source);
        let to = endpoint(content.destination, parcel.destination);
        let (Some(source), Some(destination)) = (from, to) else {
            return Ok(());
        };
        if !filter.takes(parcel.source, parcel.destination) {
            count(&mut watch.counts.other_ports);
            return Ok(());
        }
        let sent = Sent {
            time,
            source,
            destination,
            proto: parcel.proto,
        };
        if self.recent.has(&sent, way, parcel.seq, parcel.payload)? {
            count(&mut watch.counts.twice);
            return Ok(());
        }
        watch.captured(&sent)?;
        match &content.transport {
            Transport::Udp(datagram) => watch.datagram(filter.opening, sent, datagram.payload),
            Transport::Tcp(segment) => {
                watch.captured_segment(&sent, segment)?;
                match Ends::of(content.source, content.destination, segment) {
                    Some(ends) => {
                        let connections = &mut self.connections;
                        connections.segment(watch, filter.opening, time, ends, segment)
                    }
                    None => Ok(()),
                }
            }
            Transport::Unreachable(_) => Ok(()),
        }
    }

    /// Takes in the flows that are left at the end of the captures.
    pub(crate) fn finish(&mut self, watch: &mut Watch, opening: Opening) -> Result<(), AllocError>
        ensures hears { OnOk result (HandsOver opening.entry.clear opening.entry.keys.now
            self.old.connections watch.old.listener.view self.new.connections
            watch.new.listener.view) }
        ensures all { OnOk result (self.new.connections.flows ≡ []) }
    {
        self.connections.finish(watch, opening)
    }
}

/// Takes in that a host refused a packet.
fn refusal(watch: &mut Watch, filter: Filter, time: u64, content: Carried) -> Result<(), AllocError>
    ensures { watch.new.listener ≡ watch.old.listener }
{
    let Transport::Unreachable(refused) = content.transport else {
        return Ok(());
    };
    let ends = (
        endpoint(content.source, 0),
        endpoint(content.destination, 0),
        endpoint(refused.source, refused.source_port),
        endpoint(refused.destination, refused.destination_port),
    );
    let (Some(source), Some(destination), Some(from), Some(to)) = ends else {
        return Ok(());
    };
    if !filter.takes(from.port(), to.port()) {
        count(&mut watch.counts.other_ports);
        return Ok(());
    }
    let sent = Sent {
        time,
        source,
        destination,
        proto: Proto::Udp,
    };
    watch.refused(&sent, from, to)
}

/// Counts a frame with nothing to read.
fn leave_out(counts: &mut Counts, cause: NotCarried) {
    match cause {
        NotCarried::NotIp => count(&mut counts.not_ip),
        NotCarried::Fragment => count(&mut counts.fragments),
        NotCarried::Gre => count(&mut counts.gre),
        NotCarried::IpInIp => count(&mut counts.ip_in_ip),
        NotCarried::Mpls => count(&mut counts.mpls),
        NotCarried::OtherProtocol => count(&mut counts.others),
        NotCarried::Cut => count(&mut counts.cut),
        NotCarried::Malformed => count(&mut counts.malformed),
    }
}
