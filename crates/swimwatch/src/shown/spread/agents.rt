//! Which agent is at an address, and when each was last heard.

use crate::heard::sent::Proto;
use crate::shown::talkers::host_of;
use crate::view::directory::copy_of;
use crate::view::listener::Listener;
use memberlist_view::MemberName;
use std::alloc::{AllocError, Global};
use std::collections::{BTreeMap, BTreeSet};
use std::net::{IpAddr, SocketAddr};

/// The most agents that are told apart (own).
const MAX_AGENTS: usize = 65_536;

/// An agent: who is at an endpoint, as long as the same member is there.
#[derive(Drop)]
struct Agent {
    /// The endpoint. Its port is 0 for who opens connections there.
    end: SocketAddr,
    /// The member that it was, once another one is there.
    was: Option<MemberName>,
    /// When it was last heard, in microseconds since the start of 1970.
    heard: Option<u64>,
}

/// Agents, by their numbers.
#[derive(Drop)]
pub(super) struct Agents {
    alloc: Global,
    all: Vec<Agent>,
    /// The number of the agent that is at each endpoint now.
    at: BTreeMap<SocketAddr, usize>,
    /// Those that were heard, by when that was last.
    recent: BTreeSet<(u64, usize)>,
}

impl Agents {
    pub(super) fn new(alloc: Global) -> Agents {
        Agents {
            alloc,
            all: Vec::new(alloc),
            at: BTreeMap::new(alloc),
            recent: BTreeSet::new(alloc),
        }
    }

    /// The number of the agent at an end of a packet or a connection. None if there are too many. A
    /// connection comes from a port of its own, so there a host is the agent, unless a member has
    /// the port.
    pub(super) fn number_at(
        &mut self,
        listener: &Listener,
        proto: Proto,
        end: SocketAddr,
    ) -> Result<Option<usize>, AllocError> {
        let end = match proto {
            Proto::Tcp if !listener.has_member_at(end) => host_of(end),
            _ => end,
        };
        if let Some(number) = self.at.get(&end) {
            return Ok(Some(*number));
        }
        let number = self.all.len();
        if MAX_AGENTS <= number {
            return Ok(None);
        }
        self.all.push(Agent {
            end,
            was: None,
            heard: None,
        })?;
        self.at.insert(end, number)?;
        Ok(Some(number))
    }

    /// The host of the agent with this number.
    pub(super) fn host(&self, number: usize) -> Option<IpAddr> {
        let agent = self.all.get(number)?;
        Some(agent.end.ip())
    }

    /// Notes that an agent was heard.
    pub(super) fn note(&mut self, number: usize, time: u64) -> Result<(), AllocError> {
        let Some(agent) = self.all.get_mut(number) else {
            return Ok(());
        };
        if agent.heard.is_some_and(|heard| time <= heard) {
            return Ok(());
        }
        if let Some(heard) = agent.heard {
            let _ = self.recent.remove(&(heard, number));
        }
        agent.heard = Some(time);
        let _ = self.recent.insert((time, number))?;
        Ok(())
    }

    /// The numbers of those that were heard at this time or later, but no more than so many.
    pub(super) fn since(&self, time: u64, most: usize) -> Result<Vec<usize>, AllocError> {
        let mut numbers = Vec::new(self.alloc);
        for (_, number) in self.recent.range((time, 0)..).take(most) {
            numbers.push(*number)?;
        }
        Ok(numbers)
    }

    /// Before a member leaves or takes this endpoint: who was there so far is the member that a
    /// listener has there, if it has one.
    pub(super) fn settle(
        &mut self,
        listener: &Listener,
        end: SocketAddr,
    ) -> Result<(), AllocError> {
        let (Some(number), Some(name)) = (self.at.get(&end).copied(), listener.member_at(end))
        else {
            return Ok(());
        };
        if let Some(agent) = self.all.get_mut(number) {
            agent.was = Some(copy_of(self.alloc, name)?);
        }
        let _ = self.at.remove(&end);
        Ok(())
    }

    /// The name of each agent, in the order of their numbers, if it is a member.
    pub(super) fn names(&self, listener: &Listener) -> Result<Vec<Option<MemberName>>, AllocError> {
        let mut names = Vec::new(self.alloc);
        for agent in &self.all {
            let name = match &agent.was {
                Some(name) => Some(name),
                None => listener.member_at(agent.end),
            };
            names.push(match name {
                Some(name) => Some(copy_of(self.alloc, name)?),
                None => None,
            })?;
        }
        Ok(names)
    }
}
