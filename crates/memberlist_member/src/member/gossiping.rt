//! Gossip (`gossip` in state.go), and choices among members (`kRandomNodes` in util.go).

ghost use Rattle.std.specs.Prelude.{◌≤◌, IfOk, length};
ghost use Rattle.memberlist_member.specs.Staying.{Adds, Stays, unless_silent};
ghost use Rattle.memberlist_member.specs.Showing.{GoesOn, KeepsLines};

use crate::config::micros;
use crate::member::Member;
use crate::member::hearing::copy_of;
use memberlist_view::{Entry, MemberName, State};
use rand_core::Rng;
use std::alloc::AllocError;
use std::net::SocketAddr;

/// Which members are chosen.
#[derive(Clone, Copy)]
pub(crate) enum Among {
    /// Those that are alive, and not suspected.
    Alive,
    /// Those to which gossip goes: all but those that left, or are dead for long.
    Hearers,
}

impl Member {
    /// Tells news to some members.
    pub(crate) fn gossip<R: Rng>(&mut self, rng: &mut R) -> Result<(), AllocError>
        ensures adds { Adds (unless_silent self.old.settings self.old.settings.gossip_nodes) 0 0
            self.old self.new }
        ensures stays { Stays self.old self.new }
        ensures goes { GoesOn self.old self.new }
        ensures lines { KeepsLines self.old self.new }
    {
        if self.config().is_silent || (self.claims.len() == 0 && self.said.len() == 0) {
            return Ok(());
        }
        let count = self.config().gossip_nodes as usize;
        let members = self.some_members(count, None, Among::Hearers, rng)?;
        for name in &members {
            let Some(to) = self.place_of(name) else {
                continue;
            };
            if !self.tell_news(to, rng)? {
                return Ok(());
            }
        }
        Ok(())
    }

    /// Tells news to a member. Returns whether there is any.
    fn tell_news<R: Rng>(&mut self, to: SocketAddr, rng: &mut R) -> Result<bool, AllocError>
        ensures adds { Adds 1 0 0 self.old self.new }
        ensures stays { Stays self.old self.new }
        ensures goes { GoesOn self.old self.new }
        ensures lines { KeepsLines self.old self.new }
    {
        let news = self.take_news(self.room().saturating_sub(2))?;
        if news.is_empty() {
            return Ok(false);
        }
        self.send(to, news, rng)?;
        Ok(true)
    }

    /// Up to so many members at random that are in such a state, without this one and another one: by
    /// up to three draws for each member that there is.
    pub(crate) fn some_members<R: Rng>(
        &self,
        count: usize,
        other: Option<&MemberName>,
        among: Among,
        rng: &mut R,
    ) -> Result<Vec<MemberName>, AllocError>
        ensures { IfOk result (λ names. length names.items ≤ count) }
    {
        let mut chosen: Vec<MemberName> = Vec::new(self.alloc);
        for _ in 0..self.rounds.len().saturating_mul(3) {
            if count <= chosen.len() {
                break;
            }
            let Some(name) = self.rounds.any(rng) else {
                break;
            };
            if !self.may_choose(name, other, among) {
                continue;
            }
            if !chosen.iter().any(|each| *each == *name) {
                chosen.push(copy_of(self.alloc, name)?)?;
            }
        }
        Ok(chosen)
    }

    /// Whether a member is in such a state, and neither this one nor the other one.
    fn may_choose(&self, name: &MemberName, other: Option<&MemberName>, among: Among) -> bool {
        let Some(entry) = self.view.get(name) else {
            return false;
        };
        let wait = micros(self.config().gossip_to_the_dead_time);
        among.includes(entry, self.time, wait) && *name != self.own.name && !is(other, name)
    }
}

/// Whether this is the name.
fn is(other: Option<&MemberName>, name: &MemberName) -> bool {
    match other {
        Some(other) => *other == *name,
        None => false,
    }
}

impl Among {
    /// Whether the member is one of these, at this time.
    fn includes(self, entry: &Entry, now: u64, wait: u64) -> bool {
        match (self, &entry.state) {
            (_, State::Alive) => true,
            (Among::Hearers, State::Suspect { .. }) => true,
            (Among::Hearers, State::Dead { .. }) => now.saturating_sub(entry.since) <= wait,
            _ => false,
        }
    }
}
