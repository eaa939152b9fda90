//! Hearing the messages of datagrams.

ghost use Rattle.std.specs.Prelude.{◌≡◌, List, OnOk, MatchBool};
ghost use Rattle.memberlist_view.specs.Told.{view_after};
ghost use Rattle.swimwatch.specs.Told.{packet_told, heard_of};
ghost use Rattle.memberlist_message.specs.declared.message.Message.{Message};
ghost use Rattle.swimwatch.specs.Pinged.{HasPings};
ghost use Rattle.swimwatch.specs.Views.{is_warning, MaySee, HearsMessage, HearsMessages};

use super::Watch;
use crate::heard::counts::count;
use crate::heard::messages::Messages;
use crate::heard::noted::What;
use crate::heard::pings::{place_at, sender_of};
use crate::heard::sent::Sent;
use crate::heard::told::Told;
use crate::heard::warnings::Pinged;
use crate::shown::talkers::Kind;
use crate::view::change::Change;
use memberlist_message::{Ack, Message, Ping};
use memberlist_view::{Heard, MemberName, Said};
use std::alloc::AllocError;
use std::net::SocketAddr;
use swim_claim::Details;
use swim_wire::Packet;

impl Watch {
    /// Hears the messages of a datagram.
    pub(super) fn messages(&mut self, sent: Sent, messages: Messages) -> Result<(), AllocError>
        ensures hears { OnOk result (HearsMessages sent.time messages.read.items
            messages.read.items self.old.listener.view self.new.listener.view) }
    {
        self.counts.unread = self.counts.unread.saturating_add(messages.unread);
        let read = messages.read;
        if read
            .iter()
            .any(|message| matches!(message, Message::Claim(_)))
        {
            count(&mut self.counts.claiming);
        }
        let pinged = Pinged::among(self.alloc, &read)?;
        for message in &read {
            self.said(sent, Kind::of_message(message))?;
            self.message(sent, &pinged, message)?;
        }
        drop(pinged);
        self.notes.add(&sent, What::Messages(read))
    }

    /// Hears a message of a datagram with these pings.
    fn message<'m>(
        &mut self,
        sent: Sent,
        pinged: &Pinged<'m>,
        message: &'m Message,
    ) -> Result<(), AllocError>
        ensures { (all : List Message) → HasPings pinged.now.pairs all
            → OnOk result (HearsMessage sent.time all message.now self.old.listener.view
            self.new.listener.view) }
    {
        match message {
            Message::Ping(ping) => self.ping(sent, ping),
            Message::IndirectPing(ping) => {
                let (name, addr) = (ping.source_node.as_slice(), ping.source_addr.as_slice());
                self.see_sender(sent, name, addr, ping.source_port)
            }
            Message::Ack(ack) => self.ack(sent, ack),
            Message::Claim(packet) => self.claim(sent, pinged, packet),
            Message::User(body) => self.user(sent, body),
            Message::Nack(_) | Message::Error(_) => Ok(()),
        }
    }

    /// Hears a claim of a datagram with these pings, unless it is a warning.
    fn claim<'m>(
        &mut self,
        sent: Sent,
        pinged: &Pinged<'m>,
        packet: &'m Packet,
    ) -> Result<(), AllocError>
        ensures { (all : List Message) → HasPings pinged.now.pairs all
            → OnOk result (MatchBool (is_warning all packet.now)
            (self.new.listener.view ≡ self.old.listener.view)
            (self.new.listener.view ≡ view_after self.old.listener.view
            (heard_of sent.time (packet_told packet.now)))) }
    {
        if pinged.warns(packet) {
            self.warn(sent, packet)
        } else {
            self.hear_packet(sent, packet)
        }
    }

    /// Hears what a packet says, and shows it.
    fn hear_packet(&mut self, sent: Sent, packet: &Packet) -> Result<(), AllocError>
        ensures { OnOk result (self.new.listener.view ≡ view_after self.old.listener.view
            (heard_of sent.time (packet_told packet.now))) }
    {
        let told = Told::of_packet(packet);
        self.hear(sent, &told)
    }

    /// Hears a ping: who sends it is alive, and so is who is asked once it answers.
    fn ping(&mut self, sent: Sent, ping: &Ping) -> Result<(), AllocError>
        ensures { OnOk result
            (MaySee sent.time self.old.listener.view self.new.listener.view) }
    {
        self.pings.note(sent.source, sent.destination, ping)?;
        let (name, addr) = (ping.source_node.as_slice(), ping.source_addr.as_slice());
        self.see_sender(sent, name, addr, ping.source_port)
    }

    /// Hears an ack: the member that the ping named is at the end that sent the ack.
    fn ack(&mut self, sent: Sent, ack: &Ack) -> Result<(), AllocError>
        ensures { OnOk result
            (MaySee sent.time self.old.listener.view self.new.listener.view) }
    {
        let name = self
            .pings
            .answered(sent.source, sent.destination, ack.seq_no);
        self.locate(&sent, &name, &ack.payload)?;
        match name {
            Some(name) => self.see_at(sent, name, sent.source),
            None => Ok(()),
        }
    }

    /// Sees the member that sent a message, if the message names it.
    fn see_sender(
        &mut self,
        sent: Sent,
        name: &[u8],
        addr: &[u8],
        port: u16,
    ) -> Result<(), AllocError>
        ensures { OnOk result
            (MaySee sent.time self.old.listener.view self.new.listener.view) }
    {
        match sender_of(self.alloc, name, addr, port, sent.source)? {
            Some((name, place)) => self.see(sent, name, place),
            None => Ok(()),
        }
    }

    /// Sees a member at an endpoint.
    fn see_at(&mut self, sent: Sent, name: MemberName, end: SocketAddr) -> Result<(), AllocError>
        ensures { OnOk result
            (MaySee sent.time self.old.listener.view self.new.listener.view) }
    {
        match place_at(self.alloc, end) {
            Some(place) => self.see(sent, name, place),
            None => Ok(()),
        }
    }

    /// Hears that a packet shows a member at this address and port.
    fn see(&mut self, sent: Sent, name: MemberName, place: Details) -> Result<(), AllocError>
        ensures { OnOk result (self.new.listener.view ≡ view_after self.old.listener.view
            (record { time = sent.time; said = Said.Seen name place })) }
    {
        let heard = Heard {
            time: sent.time,
            said: Said::Seen { name, place },
        };
        self.hear_seen(&sent, &heard)
    }

    /// Hears that a packet shows a member, and shows what that changed.
    fn hear_seen(&mut self, sent: &Sent, heard: &Heard) -> Result<(), AllocError>
        ensures { OnOk result (self.new.listener.view
            ≡ view_after self.old.listener.view heard.now) }
    {
        let Some(event) = self.take_in(heard)? else {
            return Ok(());
        };
        let change = Change {
            member: heard.said.name(),
            from: &[],
            event,
        };
        self.show_change(sent, &change)
    }
}
