//! What the member sends in datagrams.

ghost use Rattle.std.specs.Prelude.{◌<◌, ◌≤◌, IfOk, length};
ghost use Rattle.std.specs.List.{All};
ghost use Rattle.memberlist_member.specs.Covers.{IsSentWith};
ghost use Rattle.memberlist_member.specs.Staying.{Adds, Stays};
ghost use Rattle.memberlist_member.specs.Showing.{KeepsLines, GoesOn};

use crate::compound::datagram;
use crate::member::Member;
use crate::output::Output;
use crate::scale::retransmit_limit;
use memberlist_compress::compressed_if_shorter;
use rand_core::Rng;
use std::alloc::AllocError;
use std::net::SocketAddr;

/// The bytes of a compound message: its type and the count of its parts, and the length of each.
const HEAD: usize = 2;

const PART: usize = 2;

/// The most parts of a compound message, besides the first one.
const MAX_PARTS: usize = 254;

impl Member {
    /// How many bytes a message in a datagram may have.
    pub(crate) fn room(&self) -> usize
        ensures { result < 65536 }
    {
        usize::from(self.config().udp_buffer_size).saturating_sub(self.cover.size())
    }

    /// Sends a message, and what it can tell besides (`encodeAndSendMsg`).
    pub(crate) fn send_with_news<R: Rng>(
        &mut self,
        to: SocketAddr,
        message: Vec<u8>,
        rng: &mut R,
    ) -> Result<(), AllocError>
        ensures adds { Adds 1 0 0 self.old self.new }
        ensures stays { Stays self.old self.new }
        ensures goes { GoesOn self.old self.new }
        ensures lines { KeepsLines self.old self.new }
    {
        let room = self.room();
        if room < message.len() {
            return Ok(());
        }
        let left = room.saturating_sub(HEAD + PART + message.len());
        let mut parts = Vec::new(self.alloc);
        parts.push(message)?;
        let mut news = self.take_news(left)?;
        parts.append(&mut news)?;
        self.send(to, parts, rng)
    }

    /// Takes what is to be told next, as much as fits: claims, and behind them the program's messages
    /// (`getBroadcasts` in broadcast.go).
    pub(crate) fn take_news(&mut self, room: usize) -> Result<Vec<Vec<u8>>, AllocError>
        ensures few { IfOk result (λ news. length news.items ≤ 254) }
        ensures short { IfOk result (λ news. All (λ p. length p.items ≤ room) news.items) }
        ensures adds { Adds 0 0 0 self.old self.new }
        ensures stays { Stays self.old self.new }
        ensures goes { GoesOn self.old self.new }
        ensures lines { KeepsLines self.old self.new }
    {
        let limit = retransmit_limit(self.config().retransmit_mult, self.members());
        let mut news = self.claims.take(self.alloc, PART, room, MAX_PARTS, limit)?;
        let left = room_behind(&news, room);
        let most = MAX_PARTS.saturating_sub(news.len());
        let mut said = self.said.take(self.alloc, PART, left, most, limit)?;
        news.append(&mut said)?;
        Ok(news)
    }

    /// Sends a datagram of these parts.
    pub(crate) fn send<R: Rng>(
        &mut self,
        to: SocketAddr,
        parts: Vec<Vec<u8>>,
        rng: &mut R,
    ) -> Result<(), AllocError>
        requires few { length parts.items < 256 }
        requires short { All (λ p. length p.items < 65536) parts.items }
        ensures adds { Adds 1 0 0 self.old self.new }
        ensures stays { Stays self.old self.new }
        ensures goes { GoesOn self.old self.new }
        ensures lines { KeepsLines self.old self.new }
    {
        let message = self.compressed(datagram(self.alloc, parts)?)?;
        if self.room() < message.len() {
            return Ok(());
        }
        let Some(bytes) = self.cover.close_packet(self.alloc, message, rng)? else {
            return Ok(());
        };
        self.put(Output::Send { to, bytes })
    }

    /// The message as it is sent: compressed if messages are and that makes it shorter
    /// (`rawSendMsgPacket`; memberlist compresses each stream, also where it becomes longer).
    pub(crate) fn compressed(&self, message: Vec<u8>) -> Result<Vec<u8>, AllocError>
        ensures { IfOk result (λ sent. IsSentWith self.now.settings.enable_compression
            message.items sent.items) }
    {
        if self.config().enable_compression {
            compressed_if_shorter(self.alloc, message)
        } else {
            Ok(message)
        }
    }
}

/// How much of the room is left behind these parts.
fn room_behind(parts: &[Vec<u8>], room: usize) -> usize
    ensures { result ≤ room }
{
    let mut left = room;
    for part in parts {
        left = left.saturating_sub(PART.saturating_add(part.len()));
    }
    left
}
