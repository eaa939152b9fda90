//! Counting what senders sent.

ghost use Rattle.std.specs.Prelude.{◌≡◌};

use super::Watch;
use crate::heard::sent::{Proto, Sent};
use crate::shown::talkers::{Kind, host_of};
use memberlist_view::Said;
use std::alloc::AllocError;
use std::net::SocketAddr;

impl Watch {
    /// Counts a message of this kind. Who sent it runs.
    pub(super) fn said(&mut self, sent: Sent, kind: Kind) -> Result<(), AllocError>
        ensures { self.new.listener ≡ self.old.listener }
    {
        if kind != Kind::Unread {
            self.spread_sender(&sent)?;
        }
        if !self.is_timely(sent.time) {
            return Ok(());
        }
        self.talkers.said(talker(sent), kind)
    }

    /// Counts the bytes of a datagram, or of one direction of a connection.
    pub(crate) fn count_bytes(&mut self, sent: Sent, bytes: usize) -> Result<(), AllocError>
        ensures { self.new.listener ≡ self.old.listener }
    {
        if !self.is_timely(sent.time) {
            return Ok(());
        }
        self.talkers.sent(talker(sent), bytes)
    }

    /// Counts what was sent so far from the ends that a member leaves or takes, if this moves it, as
    /// sent by who is there now.
    pub(super) fn settle(&mut self, said: &Said) -> Result<(), AllocError>
        ensures { self.new.listener ≡ self.old.listener }
    {
        self.spread_move(said)?;
        self.talkers.settle(&self.listener, said)
    }
}

/// Whose message this is in a count of talkers: each connection has another port, so a host is it.
fn talker(sent: Sent) -> SocketAddr {
    match sent.proto {
        Proto::Udp => sent.source,
        Proto::Tcp => host_of(sent.source),
    }
}
