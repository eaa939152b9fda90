//! What comes in datagrams.

ghost use Rattle.std.specs.Prelude.{◌≡◌, List, OnOk, length, true};
ghost use Rattle.std.specs.List.{All, Contains};
ghost use Rattle.swim_wire.specs.Packet.{PacketValue};
ghost use Rattle.memberlist_message.specs.Messages.{AckValue, MessageValue, message_value};
ghost use Rattle.memberlist_member.specs.Steps.{AnswersAtMostEach, IsAnsweredAfter, IsHeededAck};
ghost use Rattle.memberlist_member.specs.Steps.{IsOutdone, IsOutdoneAfter, IsOutdoneIn};
ghost use Rattle.memberlist_member.specs.Staying.{Adds, BeginsNoProbe, HasNoProbe, KeepsAnswered};
ghost use Rattle.memberlist_member.specs.Staying.{ShowsTheSame, Stays, StaysButProbe};
ghost use Rattle.memberlist_member.specs.Showing.{KeepsLines, GoesBy, GoesByDatagram, GoesOn};
ghost use Rattle.memberlist_member.specs.Showing.{Tells};
ghost use Rattle.memberlist_member.specs.Saying.{said_of};
ghost use Rattle.memberlist_view.specs.declared.heard.Said.{Said};

use crate::cover::Opened;
use crate::member::Member;
use memberlist_message::{Leaves, Message, decode_message};
use rand_core::Rng;
use std::alloc::AllocError;
use std::net::SocketAddr;
use swim_wire::WireFault;

impl Member {
    /// Takes in a datagram that came from there (`ingestPacket`).
    pub(crate) fn take_datagram<R: Rng>(
        &mut self,
        from: SocketAddr,
        bytes: &[u8],
        rng: &mut R,
    ) -> Result<(), AllocError>
        ensures adds { AnswersAtMostEach self.old.cover bytes.now self.old self.new }
        ensures outdone { OnOk result (IsOutdoneAfter self.old.cover bytes.now self.new.own) }
        ensures answered { OnOk result (IsAnsweredAfter self.old.cover bytes.now self.new) }
        ensures stays { StaysButProbe self.old self.new }
        ensures probes { BeginsNoProbe self.old self.new }
        ensures goes { GoesByDatagram self.old.cover bytes.now self.old self.new }
        ensures lines { KeepsLines self.old self.new }
    {
        let Opened::Message(message) = self.cover.open_packet(self.alloc, bytes)? else {
            self.refuse();
            return Ok(());
        };
        let leaves = Leaves::of(self.alloc, &message)?;
        self.take_parts(from, &leaves.parts, rng)
    }

    /// Takes in the messages of a datagram.
    fn take_parts<R: Rng>(
        &mut self,
        from: SocketAddr,
        parts: &[&[u8]],
        rng: &mut R,
    ) -> Result<(), AllocError>
        ensures adds { Adds (length parts.now) 0 0 self.old self.new }
        ensures outdone { OnOk result (All (λ part. IsOutdoneIn self.new.own part.now) parts.now) }
        ensures answered { OnOk result (All (λ part. IsHeededAck self.new part.now) parts.now) }
        ensures stays { StaysButProbe self.old self.new }
        ensures probes { BeginsNoProbe self.old self.new }
        ensures goes { (told : List Said) → All (λ part. Tells told part.now) parts.now
            → GoesBy told self.old self.new }
        ensures lines { KeepsLines self.old self.new }
    {
        for part in parts {
            self.take_part(from, part, rng)?;
        }
        Ok(())
    }

    /// Takes in one message of a datagram.
    fn take_part<R: Rng>(
        &mut self,
        from: SocketAddr,
        part: &[u8],
        rng: &mut R,
    ) -> Result<(), AllocError>
        ensures adds { Adds 1 0 0 self.old self.new }
        ensures outdone { OnOk result (IsOutdoneIn self.new.own part.now) }
        ensures answered { OnOk result (IsHeededAck self.new part.now) }
        ensures keeps { KeepsAnswered self.old self.new }
        ensures stays { StaysButProbe self.old self.new }
        ensures probes { BeginsNoProbe self.old self.new }
        ensures goes { (told : List Said) → Tells told part.now → GoesBy told self.old self.new }
        ensures lines { KeepsLines self.old self.new }
    {
        match decode_message(self.alloc, part) {
            Ok(message) => self.take_message(from, message, rng),
            Err(WireFault::Memory) => Err(AllocError),
            Err(_) => {
                self.refuse();
                Ok(())
            }
        }
    }

    fn take_message<R: Rng>(
        &mut self,
        from: SocketAddr,
        message: Message,
        rng: &mut R,
    ) -> Result<(), AllocError>
        ensures adds { Adds 1 0 0 self.old self.new }
        ensures outdone { OnOk result ((packet : PacketValue)
            → message_value message ≡ MessageValue.claim packet → IsOutdone self.new.own packet) }
        ensures answered { OnOk result ((ack : AckValue)
            → message_value message ≡ MessageValue.ack ack → HasNoProbe ack.seq_no self.new) }
        ensures keeps { KeepsAnswered self.old self.new }
        ensures stays { StaysButProbe self.old self.new }
        ensures probes { BeginsNoProbe self.old self.new }
        ensures goes { (told : List Said) → ((packet : PacketValue)
            → message_value message ≡ MessageValue.claim packet → Contains told (said_of packet
            true))
            → GoesBy told self.old self.new }
        ensures lines { KeepsLines self.old self.new }
    {
        match message {
            Message::Ping(ping) => self.answer_ping(from, &ping, rng),
            Message::IndirectPing(ping) => self.relay_ping(from, &ping, rng),
            Message::Ack(ack) => self.take_ack(ack.seq_no, rng),
            Message::Nack(nack) => {
                self.take_nack(nack.seq_no);
                Ok(())
            }
            Message::Claim(packet) => self.hear(&packet, true, rng),
            Message::User(bytes) => self.take_user_message(bytes),
            Message::Error(_) => Ok(()),
        }
    }

    /// Counts something that was refused.
    pub(crate) fn refuse(&mut self)
        ensures adds { Adds 0 0 0 self.old self.new }
        ensures stays { Stays self.old self.new }
        ensures goes { GoesOn self.old self.new }
        ensures lines { KeepsLines self.old self.new }
        ensures shown { ShowsTheSame self.old self.new }
    {
        self.refused = self.refused.saturating_add(1);
    }
}
