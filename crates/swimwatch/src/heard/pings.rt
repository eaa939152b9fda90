//! Pings that wait for their acks, which show who is where.

use memberlist_message::Ping;
use memberlist_view::MemberName;
use std::alloc::{AllocError, Global};
use std::collections::BTreeMap;
use std::net::SocketAddr;
use swim_claim::{Details, Name};

/// The most pings that wait (own). With one more all are forgotten: their members answer others.
const MAX_WAITING: usize = 4096;

/// A ping that waits for its ack.
#[derive(Drop)]
struct Waiting {
    asked: SocketAddr,
    node: MemberName,
}

/// The pings that wait, by who asked and by the number that the ack repeats.
#[derive(Drop)]
pub(crate) struct Pings {
    alloc: Global,
    waiting: BTreeMap<(SocketAddr, u32), Waiting>,
}

impl Pings {
    pub(crate) fn new(alloc: Global) -> Pings {
        Pings {
            alloc,
            waiting: BTreeMap::new(alloc),
        }
    }

    /// Notes a ping from one endpoint to another, if it names whom it asks.
    pub(crate) fn note(
        &mut self,
        asker: SocketAddr,
        asked: SocketAddr,
        ping: &Ping,
    ) -> Result<(), AllocError> {
        let Ok(node) = Name::copied(self.alloc, &ping.node)? else {
            return Ok(());
        };
        if MAX_WAITING <= self.waiting.len() {
            self.waiting = BTreeMap::new(self.alloc);
        }
        let node = MemberName::new(node);
        self.waiting
            .insert((asker, ping.seq_no), Waiting { asked, node })?;
        Ok(())
    }

    /// The member that answers with this ack from one endpoint to another.
    pub(crate) fn answered(
        &mut self,
        asked: SocketAddr,
        asker: SocketAddr,
        seq_no: u32,
    ) -> Option<MemberName> {
        let waiting = self.waiting.remove(&(asker, seq_no))?;
        if waiting.asked == asked {
            Some(waiting.node)
        } else {
            None
        }
    }
}

/// The name and the address that a message gives of its sender: the address where it listens, or
/// else where the packet came from. None if it names none.
pub(crate) fn sender_of(
    alloc: Global,
    name: &[u8],
    addr: &[u8],
    port: u16,
    source: SocketAddr,
) -> Result<Option<(MemberName, Details)>, AllocError> {
    let Ok(name) = Name::copied(alloc, name)? else {
        return Ok(None);
    };
    let place = match Details::of(addr, port, Vec::new(alloc), &[]) {
        Ok(place) if port != 0 => Some(place),
        _ => place_at(alloc, source),
    };
    Ok(place.map(|place| (MemberName::new(name), place)))
}

/// An endpoint, as details without metadata and versions.
pub(crate) fn place_at(alloc: Global, end: SocketAddr) -> Option<Details> {
    let none = Vec::new(alloc);
    let made = match end {
        SocketAddr::V4(end) => Details::of(&end.ip().octets(), end.port(), none, &[]),
        SocketAddr::V6(end) => Details::of(&end.ip().octets(), end.port(), none, &[]),
    };
    made.ok()
}
