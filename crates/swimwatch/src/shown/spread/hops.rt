//! Packets with news, put together from the captures that have them.

use memberlist_probes::{SAME, Sighting, Sightings};
use std::alloc::{AllocError, Global};
use std::collections::{BTreeMap, VecDeque};

/// The most packets that are waited for (own). With one more the first is over.
const MAX_WAITING: usize = 65_536;

/// Which piece of news goes from which agent to which, by their numbers.
#[derive(Clone, Copy, PartialEq, Eq, PartialOrd, Ord)]
pub(super) struct Hop {
    pub(super) piece: usize,
    pub(super) from: usize,
    pub(super) to: usize,
}

/// The packets with news that another capture may have too.
#[derive(Drop)]
pub(super) struct Hops {
    alloc: Global,
    /// The packets of each hop, in the order in which they were first seen. A capture has those of
    /// the start: the first that it shows is the first, and so on.
    open: BTreeMap<Hop, VecDeque<Sightings>>,
    /// All of them, by when they were first seen.
    queue: VecDeque<(u64, Hop)>,
}

impl Hops {
    pub(super) fn new(alloc: Global) -> Hops {
        Hops {
            alloc,
            open: BTreeMap::new(alloc),
            queue: VecDeque::new(alloc),
        }
    }

    /// How many there are.
    pub(super) fn len(&self) -> usize {
        self.queue.len()
    }

    /// Notes that a capture has a packet: one that other captures showed before, or another.
    pub(super) fn note(&mut self, hop: Hop, seen: Sighting) -> Result<(), AllocError> {
        if !self.open.contains_key(&hop) {
            let _ = self.open.insert(hop, VecDeque::new(self.alloc))?;
        }
        let Some(packets) = self.open.get_mut(&hop) else {
            return Ok(());
        };
        let next = packets.partition_point(|packet| packet.is_in(seen.capture));
        if let Some(packet) = packets.get_mut(next) {
            return packet.note(seen);
        }
        let mut packet = Sightings::new(self.alloc);
        packet.note(seen)?;
        packets.push_back(packet)?;
        self.queue
            .push_back((seen.time, hop))
            .map_err(AllocError::from)
    }

    /// The first packet that no other capture can have any more at this time.
    pub(super) fn pop(&mut self, now: u64) -> Option<(Hop, Sightings)> {
        let (time, _) = self.queue.front().copied()?;
        if now.saturating_sub(time) <= SAME && self.queue.len() <= MAX_WAITING {
            return None;
        }
        self.finish()
    }

    /// The first packet that is left.
    pub(super) fn finish(&mut self) -> Option<(Hop, Sightings)> {
        let (_, hop) = self.queue.pop_front()?;
        let packets = self.open.get_mut(&hop)?;
        let packet = packets.pop_front()?;
        if packets.is_empty() {
            let _ = self.open.remove(&hop);
        }
        Some((hop, packet))
    }
}
