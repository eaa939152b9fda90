//! Claims, packets and streams like those of a real memberlist.

ghost use Rattle.std.specs.Prelude.{◌<◌, [], IfOk};
ghost use Rattle.swim_wire.specs.Packet.{IsLegalPacket};

use crate::failure::Failure;
use crate::order::Order;
use std::alloc::{AllocError, Global};
use swim_claim::{Claim, Details, Name};
use swim_table::Node;
use swim_wire::{Header, Packet, encode_packet, write_header, write_state};

/// The port of every member: memberlist's default.
const PORT: u16 = 7946;

/// The versions of every member: memberlist's default.
const VERSIONS: [u8; 6] = [1, 5, 2, 0, 0, 0];

/// The name of the member that makes the accusations.
const ACCUSER: &[u8] = b"node-accuser";

/// The most bytes of a record of a stream, for which room is made at once.
const RECORD: usize = 128;

/// The most claims that compounds bring.
const MAX_SPREAD: u32 = 960;

/// Which claims a measurement has: about `count` names in this order. The lowest of them has the
/// number `first`, and each other one the number of the one below it plus `step`.
#[derive(Clone, Copy, Debug, PartialEq, Eq)]
pub(crate) struct Workload {
    pub(crate) order: Order,
    pub(crate) count: u32,
    pub(crate) inc: u32,
    pub(crate) first: u32,
    pub(crate) step: u32,
}

impl Workload {
    /// All names from number 0 on, at incarnation 1.
    pub(crate) fn new(order: Order, count: u32) -> Workload {
        Workload {
            order,
            count,
            inc: 1,
            first: 0,
            step: 1,
        }
    }

    /// The same names at the next incarnation.
    pub(crate) fn newer(self) -> Workload {
        Workload { inc: 2, ..self }
    }

    /// Every second name, from the number 0 or 1 on.
    pub(crate) fn half(self, first: u32) -> Workload {
        Workload {
            count: self.count / 2,
            first,
            step: 2,
            ..self
        }
    }

    /// As many other names: every second one, with the places of [`Workload::spread`] between them.
    pub(crate) fn others(self) -> Workload {
        Workload { step: 2, ..self }
    }

    /// At most 960 names that are between those of [`Workload::others`], spread over them.
    pub(crate) fn spread(self) -> Workload {
        let count = Workload::spread_over(self.count);
        Workload {
            count,
            first: 1,
            step: (self.count / count).saturating_mul(2),
            ..self
        }
    }

    /// How many names [`Workload::spread`] has among this many others, at least 1.
    pub(crate) fn spread_over(count: u32) -> u32
        ensures { 0 < result }
    {
        count.max(1).min(MAX_SPREAD)
    }

    /// Alive claims about the members.
    pub(crate) fn claims(&self, alloc: Global) -> Result<Vec<Claim>, Failure> {
        let mut claims = Vec::new(alloc);
        for place in self.order.numbers(alloc, self.count)? {
            let claim = self.claim(alloc, place)?;
            claims.push(claim).map_err(AllocError::from)?;
        }
        Ok(claims)
    }

    /// An alive claim about the member whose name has this place in ascending order.
    pub(crate) fn claim(&self, alloc: Global, place: u32) -> Result<Claim, Failure>
        ensures { IfOk result (λ claim. IsLegalPacket claim []) }
    {
        Ok(Claim::Alive {
            name: self.name(alloc, place)?,
            inc: self.inc,
            details: self.details(alloc, place)?,
        })
    }

    /// The canonical packets of these claims.
    pub(crate) fn packets(&self, alloc: Global) -> Result<Vec<Vec<u8>>, Failure> {
        let mut packets = Vec::new(alloc);
        for place in self.order.numbers(alloc, self.count)? {
            let claim = self.claim(alloc, place)?;
            let packet = encode_packet(alloc, &Packet::new(claim, Vec::new(alloc)))?;
            packets.push(packet).map_err(AllocError::from)?;
        }
        Ok(packets)
    }

    /// The canonical packets of a member that suspects the same names.
    pub(crate) fn suspicions(&self, alloc: Global) -> Result<Vec<Vec<u8>>, Failure> {
        let mut packets = Vec::new(alloc);
        for place in self.order.numbers(alloc, self.count)? {
            let claim = Claim::Suspect {
                name: self.name(alloc, place)?,
                inc: self.inc,
            };
            let packet = Packet::new(claim, ACCUSER.to_vec(alloc)?);
            let packet = encode_packet(alloc, &packet)?;
            packets.push(packet).map_err(AllocError::from)?;
        }
        Ok(packets)
    }

    /// A stream of these claims: its header, and a canonical record of each.
    pub(crate) fn stream(&self, alloc: Global) -> Result<Vec<u8>, Failure> {
        let mut bytes = Vec::with_capacity(alloc, self.count as usize * RECORD)?;
        let header = Header {
            join: false,
            nodes: self.count,
            user_len: 0,
        };
        write_header(&mut bytes, &header)?;
        for place in self.order.numbers(alloc, self.count)? {
            let claim = self.claim(alloc, place)?;
            write_state(&mut bytes, claim.name(), claim.facts())?;
        }
        Ok(bytes)
    }

    /// A stream for each of these claims.
    pub(crate) fn streams_of_one(&self, alloc: Global) -> Result<Vec<Vec<u8>>, Failure> {
        let mut streams = Vec::with_capacity(alloc, self.count as usize)?;
        for place in self.order.numbers(alloc, self.count)? {
            let claim = self.claim(alloc, place)?;
            let mut bytes = Vec::with_capacity(alloc, 2 * RECORD)?;
            let header = Header {
                join: false,
                nodes: 1,
                user_len: 0,
            };
            write_header(&mut bytes, &header)?;
            write_state(&mut bytes, claim.name(), claim.facts())?;
            streams.push(bytes).map_err(AllocError::from)?;
        }
        Ok(streams)
    }

    /// The member whose name has this place in ascending order.
    pub(crate) fn node(&self, alloc: Global, place: u32) -> Result<Node, Failure> {
        let name = self.name(alloc, place)?;
        let details = self.details(alloc, place)?;
        Ok(Node::new(alloc, name, details, self.inc)?)
    }

    fn name(&self, alloc: Global, place: u32) -> Result<Name, Failure> {
        let number = self.number(place);
        let text = format!(in alloc; "node-{number:06}")?;
        Ok(Name::new(text.as_bytes().to_vec(alloc)?)?)
    }

    /// An address of 10.0.0.0/8 that has the number in it, and no metadata.
    fn details(&self, alloc: Global, place: u32) -> Result<Details, Failure> {
        let [_, high, middle, low] = self.number(place).to_be_bytes();
        let addr = [10, high, middle, low].to_vec(alloc)?;
        let versions = VERSIONS.to_vec(alloc)?;
        Ok(Details::new(addr, PORT, Vec::new(alloc), versions)?)
    }

    /// The number in the name that has this place in ascending order.
    fn number(&self, place: u32) -> u32 {
        place.wrapping_mul(self.step).wrapping_add(self.first)
    }
}
