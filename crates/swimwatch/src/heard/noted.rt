//! What is noted for those who follow the probes of members.

use crate::heard::sent::Sent;
use memberlist_message::Message;
use memberlist_probes::Segment;
use memberlist_view::Event;
use std::alloc::{AllocError, Global};
use std::mem::replace;
use std::net::SocketAddr;

/// What was captured or heard.
#[derive(Drop)]
pub(crate) enum What {
    /// A packet, whatever it carries.
    Packet,
    /// That a host refused a packet from one endpoint to another.
    Refusal { from: SocketAddr, to: SocketAddr },
    /// A segment.
    Segment(Segment),
    /// A push/pull in a connection.
    PushPull,
    /// Something else of memberlist's in a connection.
    Stream,
    /// That a push/pull has this name as suspected or dead.
    Hearsay(Vec<u8>),
    /// The messages of a datagram.
    Messages(Vec<Message>),
    /// That a message changed what is shown of a member.
    Change(Change),
}

/// What a message changed about a member, and who said so.
#[derive(Drop)]
pub(crate) struct Change {
    pub(crate) name: Vec<u8>,
    pub(crate) inc: u32,
    pub(crate) by: Vec<u8>,
    pub(crate) event: Event,
}

/// Something that was captured or heard.
#[derive(Drop)]
pub(crate) struct Noted {
    /// The number of the capture.
    pub(crate) capture: usize,
    pub(crate) sent: Sent,
    pub(crate) what: What,
}

/// What a view heard since its notes were taken, if somebody asks for it: what was captured, and
/// then what it changed.
#[derive(Drop)]
pub(crate) struct Notes {
    alloc: Global,
    is_asked: bool,
    /// The number of the capture whose record is heard.
    pub(crate) capture: usize,
    heard: Vec<Noted>,
    changes: Vec<Noted>,
}

impl Notes {
    /// No notes. None are made if nobody asks for them.
    pub(crate) fn new(alloc: Global, is_asked: bool) -> Notes {
        Notes {
            alloc,
            is_asked,
            capture: 0,
            heard: Vec::new(alloc),
            changes: Vec::new(alloc),
        }
    }

    /// Whether somebody asks for them.
    pub(crate) fn is_asked(&self) -> bool {
        self.is_asked
    }

    /// Notes what was captured.
    pub(crate) fn add(&mut self, sent: &Sent, what: What) -> Result<(), AllocError> {
        if !self.is_asked {
            return Ok(());
        }
        let noted = Noted {
            capture: self.capture,
            sent: *sent,
            what,
        };
        self.heard.push(noted).map_err(AllocError::from)
    }

    /// Notes that a push/pull has this name as suspected or dead.
    pub(crate) fn hearsay(&mut self, sent: &Sent, name: &[u8]) -> Result<(), AllocError> {
        if !self.is_asked {
            return Ok(());
        }
        let name = name.to_vec(self.alloc)?;
        self.add(sent, What::Hearsay(name))
    }

    /// Notes that a message changed what is shown of a member.
    pub(crate) fn change(
        &mut self,
        sent: &Sent,
        name: &[u8],
        inc: u32,
        by: &[u8],
        event: Event,
    ) -> Result<(), AllocError> {
        if !self.is_asked {
            return Ok(());
        }
        let change = Change {
            name: name.to_vec(self.alloc)?,
            inc,
            by: by.to_vec(self.alloc)?,
            event,
        };
        let noted = Noted {
            capture: self.capture,
            sent: *sent,
            what: What::Change(change),
        };
        self.changes.push(noted).map_err(AllocError::from)
    }

    /// Takes the notes: what was captured, and what it changed.
    pub(crate) fn take(&mut self) -> [Vec<Noted>; 2] {
        let heard = replace(&mut self.heard, Vec::new(self.alloc));
        [heard, replace(&mut self.changes, Vec::new(self.alloc))]
    }
}
