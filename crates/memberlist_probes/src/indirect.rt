//! Indirect pings: who asks whom to ping a member, and the probes of which nothing else tells.

use crate::captures::{Captures, Sightings};
use crate::probe::{Helper, Probe};
use crate::probes::{Key, Observed, Probes, is_of};
use memberlist_message::IndirectPing;
use std::alloc::{AllocError, Global};
use std::collections::BTreeMap;
use std::net::{IpAddr, SocketAddr};

/// How long after an indirect ping the ping that was asked for may follow.
const RELAYED: u64 = 1_000_000;

/// The most pings that are waited for after indirect ones (own). With one more all are forgotten.
const MAX_ASKED: usize = 65_536;

/// The most members that one probe is known to have asked (own). memberlist asks `IndirectChecks`, 3
/// by default (config.go). Others are left out.
const MAX_HELPERS: usize = 64;

/// Pings that members were asked for.
#[derive(Clone, Copy)]
pub(crate) struct Asked {
    /// How many were not sent yet.
    pings: u32,
    /// When the last of them was asked for.
    time: u64,
    /// Who asked for it, and the number in that.
    by: Key,
    /// Whether that was seen to come.
    came: bool,
}

impl Probes {
    /// Takes in an indirect ping: of the prober's open probe with its number, and a ping that will be
    /// sent for it. If no capture has the prober's ping, this begins a probe.
    pub(crate) fn indirect_ping(
        &mut self,
        captures: &Captures,
        packet: Observed,
        ping: &IndirectPing,
    ) -> Result<(), AllocError> {
        self.ask(captures, packet, ping)?;
        let key = (packet.from, ping.seq_no);
        let Some(probe) = self.open.get_mut(&key) else {
            return self.follow_unseen(key, packet, ping);
        };
        if !is_of(probe, &ping.node) {
            return Ok(());
        }
        if let Some(helper) = probe
            .helpers
            .iter_mut()
            .find(|helper| helper.end == packet.to)
        {
            return helper.asked.note(packet.seen);
        }
        if MAX_HELPERS <= probe.helpers.len() {
            return Ok(());
        }
        if probe.is_seen() && probe.helpers.is_empty() {
            let after = packet.seen.time.saturating_sub(probe.time());
            self.timing.note_asked(after)?;
        }
        let helper = helper_of(self.alloc, packet, ping)?;
        probe.helpers.push(helper).map_err(AllocError::from)
    }

    /// Follows a probe of which an indirect ping tells, and no capture has the ping.
    fn follow_unseen(
        &mut self,
        key: Key,
        packet: Observed,
        ping: &IndirectPing,
    ) -> Result<(), AllocError> {
        let Some(to) = target_of(ping) else {
            return Ok(());
        };
        self.ends
            .insert(ping.source_node.to_vec(self.alloc)?, packet.from)?;
        let mut probe = Probe {
            prober: self.name_of(&ping.source_node, packet.from)?,
            target: self.name_of(&ping.node, to)?,
            from: packet.from,
            to,
            seq_no: ping.seq_no,
            is_relayed: false,
            is_for_unseen: false,
            pinged: Sightings::new(self.alloc),
            acked: Sightings::new(self.alloc),
            helpers: Vec::new(self.alloc),
            fallback: None,
            is_refused: false,
            next: None,
            is_accused: false,
        };
        let helper = helper_of(self.alloc, packet, ping)?;
        probe.helpers.push(helper)?;
        self.follow(key, probe)
    }

    /// Notes that a member was asked for a ping, once however many captures have that.
    fn ask(
        &mut self,
        captures: &Captures,
        packet: Observed,
        ping: &IndirectPing,
    ) -> Result<(), AllocError> {
        if MAX_ASKED <= self.asked.len() {
            self.asked = BTreeMap::new(self.alloc);
        }
        let key = (packet.to, ping.node.to_vec(self.alloc)?);
        let by = (packet.from, ping.seq_no);
        let time = packet.seen.time;
        let came = captures.is_at(packet.seen.capture, packet.to.ip());
        let asked = match self.asked.get(&key) {
            Some(asked) if asked.by == by => Asked {
                came: came || asked.came,
                ..*asked
            },
            Some(asked) if time.saturating_sub(asked.time) <= RELAYED => Asked {
                pings: asked.pings.saturating_add(1),
                time,
                by,
                came,
            },
            _ => Asked {
                pings: 1,
                time,
                by,
                came,
            },
        };
        let _ = self.asked.insert(key, asked)?;
        Ok(())
    }

    /// Who asked the sender for this ping a moment ago, and the number in that.
    pub(crate) fn asked_by(
        &mut self,
        captures: &Captures,
        packet: Observed,
        node: &[u8],
    ) -> Result<Option<Key>, AllocError> {
        let key = (packet.from, node.to_vec(self.alloc)?);
        let Some(asked) = self.asked.get_mut(&key) else {
            return Ok(None);
        };
        if asked.pings == 0 || RELAYED < packet.seen.time.saturating_sub(asked.time) {
            return Ok(None);
        }
        let host = packet.from.ip();
        if !asked.came && captures.covers(host, asked.time, 0) {
            return Ok(None);
        }
        asked.pings -= 1;
        Ok(Some(asked.by))
    }

    /// Whether no capture has the ping of who asked for another one.
    pub(crate) fn is_unseen(&self, by: Option<Key>) -> bool {
        match by {
            Some(key) => self.open.get(&key).is_some_and(|probe| !probe.is_seen()),
            None => false,
        }
    }
}

/// The member that an indirect ping asks.
fn helper_of(alloc: Global, packet: Observed, ping: &IndirectPing) -> Result<Helper, AllocError> {
    let mut asked = Sightings::new(alloc);
    asked.note(packet.seen)?;
    Ok(Helper {
        end: packet.to,
        nacks: ping.nack,
        asked,
        acked: Sightings::new(alloc),
        nacked: Sightings::new(alloc),
    })
}

/// Where the member is that is to be pinged, if it has an address of IPv4 or IPv6.
fn target_of(ping: &IndirectPing) -> Option<SocketAddr> {
    let octets = ping.target.as_slice();
    let ip = match <[u8; 4]>::try_from(octets) {
        Ok(octets) => IpAddr::from(octets),
        Err(_) => IpAddr::from(<[u8; 16]>::try_from(octets).ok()?).to_canonical(),
    };
    Some(SocketAddr::new(ip, ping.port))
}
