//! What the hosts of members do, whatever their agents do: they accept or refuse connections, and
//! refuse datagrams.

use crate::{Member, Members};
use memberlist_probes::{Observed, Segment, Sighting};
use std::alloc::{AllocError, Global};
use std::collections::{BTreeMap, VecDeque};
use std::net::SocketAddr;

/// How long after its SYN a handshake is over (own), in microseconds.
const OVER: u64 = 10_000_000;

/// The most handshakes that are followed (own). With one more all are forgotten.
const MAX_OPEN: usize = 65_536;

/// What became of a connection to a host, or of a datagram.
#[derive(Clone, Copy, PartialEq, Eq)]
pub enum Answer {
    /// It was accepted, and who dialled went on.
    Accepted,
    /// It was accepted, and who dialled did not go on.
    HalfOpen,
    /// No process has the port.
    Refused,
}

/// What the host of a member did.
#[derive(Clone, Copy)]
pub struct Contact {
    /// When the connection was dialled, or the refusal seen.
    pub time: u64,
    /// Whose host it is.
    pub at: Member,
    /// Who dialled, if that is known.
    pub by: Option<Member>,
    pub answer: Answer,
    /// How long it took from the SYN until who dialled answered the host's answer, in microseconds, if
    /// neither was sent twice.
    pub took: Option<u64>,
}

/// The connection between two ends, until its handshake is over.
#[derive(Clone, Copy)]
struct Handshake {
    time: u64,
    /// The number of the capture that has the first SYN.
    capture: usize,
    syns: u32,
    /// The number of the capture that has the first answer.
    accepted: Option<usize>,
    answers: u32,
}

/// What the hosts of members did, in the order in which it was over.
#[derive(Drop)]
pub(crate) struct Contacts {
    open: BTreeMap<(SocketAddr, SocketAddr), Handshake>,
    /// The open ones, by their times.
    queue: VecDeque<(u64, (SocketAddr, SocketAddr))>,
    all: VecDeque<Contact>,
    /// The capture whose refusals of datagrams between two ends count: others may have them too.
    refusing: BTreeMap<(SocketAddr, SocketAddr), usize>,
}

impl Contacts {
    /// None yet.
    pub(crate) fn new(alloc: Global) -> Contacts {
        Contacts {
            open: BTreeMap::new(alloc),
            queue: VecDeque::new(alloc),
            all: VecDeque::new(alloc),
            refusing: BTreeMap::new(alloc),
        }
    }

    /// All that is not forgotten.
    pub(crate) fn all(&self) -> &VecDeque<Contact> {
        &self.all
    }

    /// Takes in a segment.
    pub(crate) fn segment(
        &mut self,
        members: &Members,
        packet: Observed,
        segment: Segment,
    ) -> Result<(), AllocError> {
        self.close(members, packet.seen.time)?;
        let (way, back) = ((packet.from, packet.to), (packet.to, packet.from));
        if self.open.contains_key(&back) {
            self.answer(members, back, packet, segment)
        } else if segment.syn && members.listening(packet.to).is_some() {
            self.dial(way, packet)
        } else {
            self.go_on(members, way, packet, segment)
        }
    }

    /// Takes in a SYN of who dials.
    fn dial(&mut self, way: (SocketAddr, SocketAddr), packet: Observed) -> Result<(), AllocError> {
        let seen = packet.seen;
        if let Some(handshake) = self.open.get_mut(&way) {
            if seen.capture == handshake.capture {
                handshake.syns = handshake.syns.saturating_add(1);
            }
            return Ok(());
        }
        if MAX_OPEN <= self.open.len() {
            self.open.clear();
            self.queue.clear();
        }
        self.queue.push_back((seen.time, way))?;
        self.open.insert(
            way,
            Handshake {
                time: seen.time,
                capture: seen.capture,
                syns: 1,
                accepted: None,
                answers: 0,
            },
        )?;
        Ok(())
    }

    /// Takes in what the host that was dialled sends.
    fn answer(
        &mut self,
        members: &Members,
        way: (SocketAddr, SocketAddr),
        packet: Observed,
        segment: Segment,
    ) -> Result<(), AllocError> {
        let Some(handshake) = self.open.get_mut(&way) else {
            return Ok(());
        };
        let capture = packet.seen.capture;
        if segment.syn {
            if *handshake.accepted.get_or_insert(capture) == capture {
                handshake.answers = handshake.answers.saturating_add(1);
            }
            return Ok(());
        }
        if !segment.rst || handshake.accepted.is_some() {
            return Ok(());
        }
        let time = handshake.time;
        self.open.remove(&way);
        self.tell(members, way, time, (Answer::Refused, None))
    }

    /// Takes in what who dialled sends next.
    fn go_on(
        &mut self,
        members: &Members,
        way: (SocketAddr, SocketAddr),
        packet: Observed,
        segment: Segment,
    ) -> Result<(), AllocError> {
        let Some(handshake) = self.open.get(&way).copied() else {
            return Ok(());
        };
        if handshake.accepted.is_none() {
            return Ok(());
        }
        self.open.remove(&way);
        let answer = if segment.rst {
            Answer::HalfOpen
        } else {
            Answer::Accepted
        };
        let took = if handshake.syns == 1 && handshake.answers == 1 {
            Some(packet.seen.time.saturating_sub(handshake.time))
        } else {
            None
        };
        self.tell(members, way, handshake.time, (answer, took))
    }

    /// Notes that a capture has a refusal of a datagram that went this way.
    pub(crate) fn refuse(
        &mut self,
        members: &Members,
        seen: Sighting,
        way: (SocketAddr, SocketAddr),
    ) -> Result<(), AllocError> {
        match self.refusing.get(&way) {
            Some(capture) if *capture == seen.capture => {}
            Some(_) => return Ok(()),
            None => {
                if MAX_OPEN <= self.refusing.len() {
                    self.refusing.clear();
                }
                self.refusing.insert(way, seen.capture)?;
            }
        }
        self.tell(members, way, seen.time, (Answer::Refused, None))
    }

    /// Notes what the host at the end of this way did, if a member is there.
    fn tell(
        &mut self,
        members: &Members,
        way: (SocketAddr, SocketAddr),
        time: u64,
        (answer, took): (Answer, Option<u64>),
    ) -> Result<(), AllocError> {
        let Some(at) = members.listening(way.1) else {
            return Ok(());
        };
        let contact = Contact {
            time,
            at,
            by: members.at(way.0),
            answer,
            took,
        };
        self.all.push_back(contact).map_err(AllocError::from)
    }

    /// Closes the handshakes that are over at this time.
    fn close(&mut self, members: &Members, now: u64) -> Result<(), AllocError> {
        for _ in 0..self.queue.len() {
            let Some((time, way)) = self.queue.front().copied() else {
                break;
            };
            if now.saturating_sub(time) < OVER {
                break;
            }
            let _ = self.queue.pop_front();
            let Some(handshake) = self.open.get(&way).copied() else {
                continue;
            };
            if handshake.time != time {
                continue;
            }
            self.open.remove(&way);
            if handshake.accepted.is_some() {
                self.tell(members, way, time, (Answer::HalfOpen, None))?;
            }
        }
        Ok(())
    }

    /// Forgets what was before this time.
    pub(crate) fn forget(&mut self, before: u64) {
        for _ in 0..self.all.len() {
            match self.all.front() {
                Some(contact) if contact.time < before => {
                    let _ = self.all.pop_front();
                }
                _ => break,
            }
        }
    }
}
