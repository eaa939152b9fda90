//! The log of a member's agent, held against what was captured.
//!
//! `lines` reads it, and `shown` writes which of its lines the captures confirm.

mod lines;
mod shown;

use lines::{Line, line_of, name_of_agent};
use memberlist_probes::{Captures, Outcome, Probe, Timing};
pub(crate) use shown::{write_log_objects, write_logs};
use std::alloc::{AllocError, Global};
use std::collections::BTreeMap;
use swim_claim::Claim;
use swim_wire::Packet;

/// The microseconds of a second.
const SECOND: u64 = 1_000_000;

/// How many seconds after a line what it says may be sent first (own): gossip waits for its turn.
const GOSSIP: u64 = 2;

/// What a line says of a member.
#[derive(Clone, Copy, PartialEq, Eq, PartialOrd, Ord)]
pub(crate) enum Says {
    /// It did not answer a ping in time.
    FailedPing,
    /// It is suspected, since nothing answered.
    Suspect,
    /// It is declared dead.
    Failed,
    /// It answered over TCP alone.
    Connected,
}

/// The log of an agent.
#[derive(Drop)]
pub(crate) struct AgentLog {
    /// The word that names the file.
    word: String,
    /// The name of the agent, as its first join says.
    own: Option<Vec<u8>>,
    /// The lines that can be confirmed.
    lines: Vec<Line>,
    /// Their indexes, by what they say, of whom, and in which second.
    index: BTreeMap<(Says, Vec<u8>, u64), Vec<usize>>,
}

impl AgentLog {
    /// The log in the file that this word names.
    pub(crate) fn of(alloc: Global, word: &str, bytes: &[u8]) -> Result<AgentLog, AllocError> {
        let mut log = AgentLog {
            word: String::from_str(alloc, word)?,
            own: None,
            lines: Vec::new(alloc),
            index: BTreeMap::new(alloc),
        };
        let mut number = 0u64;
        for bytes in bytes.split(|byte| *byte == b'\n') {
            number = number.saturating_add(1);
            let text = String::from_utf8_lossy(alloc, bytes)?;
            if log.own.is_none() {
                log.own = name_of_agent(alloc, &text)?;
            }
            if let Some(line) = line_of(alloc, number, &text)? {
                log.add(alloc, line)?;
            }
        }
        Ok(log)
    }

    /// Adds a line that can be confirmed.
    fn add(&mut self, alloc: Global, line: Line) -> Result<(), AllocError> {
        let key = (line.says, line.name.to_vec(alloc)?, line.time / SECOND);
        let place = self.lines.len();
        self.lines.push(line)?;
        if let Some(places) = self.index.get_mut(&key) {
            return places.push(place).map_err(AllocError::from);
        }
        let mut places = Vec::new(alloc);
        places.push(place)?;
        self.index.insert(key, places)?;
        Ok(())
    }

    /// Whether it is the log of the agent with this name, as far as it says whose it is.
    fn is_of(&self, name: &[u8]) -> bool {
        match &self.own {
            Some(own) => own.as_slice() == name,
            None => true,
        }
    }

    /// Confirms the lines that say this of the member between two times, to the second.
    fn confirm(
        &mut self,
        alloc: Global,
        says: Says,
        name: &[u8],
        from: u64,
        to: u64,
    ) -> Result<(), AllocError> {
        let first = (from / SECOND).saturating_sub(1);
        let last = (to / SECOND).saturating_add(1);
        for (key, places) in self.index.range((says, name.to_vec(alloc)?, first)..) {
            if key.0 != says || key.1.as_slice() != name || last < key.2 {
                break;
            }
            for place in places {
                if let Some(line) = self.lines.get_mut(*place) {
                    line.is_confirmed = true;
                }
            }
        }
        Ok(())
    }

    /// Takes in a probe that is over.
    pub(crate) fn probe(
        &mut self,
        alloc: Global,
        probe: &Probe,
        captures: &Captures,
        timing: &Timing,
        end: u64,
    ) -> Result<(), AllocError> {
        if probe.is_relayed || !self.is_of(&probe.prober) {
            return Ok(());
        }
        let outcome = probe.outcome(captures, timing, end);
        let is_well = outcome == Outcome::Answered && !probe.is_unread(captures, timing);
        if is_well || outcome == Outcome::Open {
            return Ok(());
        }
        let target = probe.target.as_slice();
        if !probe.is_seen() {
            let asked = probe.time();
            return self.confirm(alloc, Says::FailedPing, target, asked, asked);
        }
        let asked = probe.sent(captures).saturating_add(timing.timeout());
        self.confirm(alloc, Says::FailedPing, target, asked, asked)?;
        let over = asked.saturating_add(timing.longest());
        match outcome {
            Outcome::Failed => self.confirm(alloc, Says::Suspect, target, asked, over),
            Outcome::Tcp => self.confirm(alloc, Says::Connected, target, asked, over),
            _ => Ok(()),
        }
    }

    /// Takes in what a packet claims: that a member says of another that it is suspected or dead.
    pub(crate) fn claim(
        &mut self,
        alloc: Global,
        time: u64,
        packet: &Packet,
    ) -> Result<(), AllocError> {
        let says = match packet.claim() {
            Claim::Suspect { .. } => Says::Suspect,
            Claim::Confirm { .. } => Says::Failed,
            Claim::Alive { .. } | Claim::Leave { .. } => return Ok(()),
        };
        if !self.is_of(packet.from_name()) {
            return Ok(());
        }
        let from = time.saturating_sub(GOSSIP.saturating_mul(SECOND));
        self.confirm(alloc, says, packet.claim().name().bytes(), from, time)
    }
}
