//! The handle by which a program in another language holds an agent.

ghost use Rattle.std.specs.Prelude.{◌≡◌, Option, Some, None, MatchOption};
ghost use Rattle.swim_c.specs.contracts.agent.held.HeldAgent.{the_row};
ghost use Rattle.swim_c.specs.Agents.{agent_owns, agent_coded};

use crate::agent::held::HeldAgent;
use std::alloc::Global;
use std::marker::Model;
use std::mem;

/// An agent, or nothing. A handle with all bytes zero is empty.
#[repr(C)]
#[derive(Drop)]
pub struct AgentHandle {
    at: *mut u8,
    held: bool,
    pub ghost agent: { Option the_row.Denot } by { agent_coded },
}

impl Model for AgentHandle {
    ghost also_owns = { λ h. agent_owns h.at h.held h.agent };
}

impl AgentHandle {
    /// The empty handle.
    pub fn none() -> AgentHandle
        ensures { result.agent ≡ None }
    {
        AgentHandle {
            at: std::ptr::null_mut(),
            held: false,
        }
    }

    fn of(agent: Box<HeldAgent>) -> AgentHandle
        ensures { result.agent ≡ Some agent.value }
    {
        let at = Box::into_raw(agent);
        AgentHandle {
            at: at as *mut u8,
            held: true,
        }
    }

    fn into_agent(self, alloc: Global) -> Option<Box<HeldAgent>>
        ensures { MatchOption result (self.agent ≡ None) (λ agent. self.agent ≡ Some agent.value) }
    {
        let AgentHandle { at, held } = self;
        if !held {
            return None;
        }
        Some(unsafe { Box::from_raw(alloc, at as *mut HeldAgent) })
    }

    /// Takes the agent out.
    pub fn take(&mut self, alloc: Global) -> Option<Box<HeldAgent>>
        ensures left { self.new.agent ≡ None }
        ensures taken { MatchOption result (self.old.agent ≡ None)
            (λ agent. self.old.agent ≡ Some agent.value) }
    {
        let handle = mem::replace(self, AgentHandle::none());
        handle.into_agent(alloc)
    }

    /// Puts an agent in.
    pub fn put(&mut self, agent: Box<HeldAgent>)
        requires { self.old.agent ≡ None }
        ensures { self.new.agent ≡ Some agent.value }
    {
        *self = AgentHandle::of(agent);
    }
}
