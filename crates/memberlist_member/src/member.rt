//! A whole member.

mod asking;
mod datagrams;
mod gossiping;
mod hearing;
mod joining;
mod messages;
mod probing;
mod sending;
mod stepping;
mod streams;
mod suspecting;
mod tables;
mod timing;

ghost use Rattle.std.specs.Prelude.{◌≡◌, []};
ghost use Rattle.std.specs.List.{All};
ghost use Rattle.memberlist_member.specs.Outputs.{FitsIn};
ghost use Rattle.memberlist_member.specs.Beginning.{IsBegun};
ghost use Rattle.memberlist_member.specs.Suspects.{AreWatched};
ghost use Rattle.memberlist_member.specs.Viewing.{IsViewUntil};

use crate::awareness::Awareness;
use crate::config::{Config, Settings, micros};
use crate::connections::Connections;
use crate::cover::Cover;
use crate::lost::LostMembers;
use crate::output::Outputs;
use crate::own::{Identity, Own};
use crate::probe::Probe;
use crate::queue::Queue;
use crate::relays::Relays;
use crate::rounds::Rounds;
use crate::suspicions::Suspicions;
use memberlist_view::View;
use rand::RngExt;
use rand_core::Rng;
use std::alloc::{AllocError, Global};
use std::net::SocketAddr;

/// A member of a memberlist cluster. It has no socket, clock or thread: it is told what came and what
/// time it is, and says what is to be sent.
#[derive(Drop)]
pub struct Member {
    alloc: Global,
    settings: Settings,
    own: Own,
    cover: Cover,
    view: View,
    rounds: Rounds,
    health: Awareness,
    probe: Option<Probe>,
    relays: Relays,
    suspicions: Suspicions,
    /// Claims to be told, and the program's messages.
    claims: Queue,
    said: Queue,
    /// How many messages the program said.
    says: u64,
    connections: Connections,
    lost: LostMembers,
    seeds: Vec<SocketAddr>,
    /// The program's own state.
    state: Vec<u8>,
    out: Outputs,
    /// The time, in microseconds; the number of the last ping, and of the last connection.
    time: u64,
    seq: u32,
    conn: u64,
    /// When the next of each is due.
    times: Times,
    /// How many messages were refused.
    refused: u64,
    ghost limited: { out.limit ≡ settings.udp_buffer_size },
    ghost viewed: { IsViewUntil view time },
    ghost begun: { ∥ All (λ s. IsBegun settings s.suspicion) suspicions.list.items ∥₁ },
    ghost watched: { AreWatched view suspicions.list.items },
}

/// When the next of each is due, in microseconds.
#[derive(Clone, Copy)]
struct Times {
    probe: u64,
    gossip: u64,
    push_pull: u64,
    reconnect: u64,
    seed: u64,
    /// When the leave has been told for long enough; none if the member does not leave.
    departure: Option<u64>,
}

impl Member {
    /// A member that knows nobody, at this time in microseconds.
    ///
    /// # Errors
    ///
    /// `AllocError` if out of memory.
    pub fn new<R: Rng>(
        alloc: Global,
        settings: Settings,
        cover: Cover,
        identity: Identity,
        now: u64,
        rng: &mut R,
    ) -> Result<Member, AllocError> {
        let config = settings.config();
        let mut member = Member {
            alloc,
            settings,
            own: Own::new(identity),
            cover,
            view: View::new(alloc, micros(config.gossip_to_the_dead_time)),
            rounds: Rounds::new(alloc),
            health: Awareness::new(config.awareness_max_multiplier),
            probe: None,
            relays: Relays::new(alloc),
            suspicions: Suspicions::new(alloc),
            claims: Queue::new(alloc),
            said: Queue::new(alloc),
            says: 0,
            connections: Connections::new(alloc),
            lost: LostMembers::new(alloc),
            seeds: Vec::new(alloc),
            state: Vec::new(alloc),
            out: Outputs::new(alloc, usize::from(config.udp_buffer_size)),
            time: now,
            seq: rng.next_u32(),
            conn: 0,
            times: Times::staggered(&config, now, rng),
            refused: 0,
        };
        member.announce(rng)?;
        Ok(member)
    }

    /// What the member shows of each member, itself included.
    pub fn view(&self) -> &View
        ensures same { result.now ≡ self.now.view }
        ensures viewed { IsViewUntil result.now self.now.time }
    {
        &self.view
    }

    /// Its incarnation.
    pub fn inc(&self) -> u32 {
        self.own.inc
    }

    /// How unhealthy it takes itself to be: 0 if it is well.
    pub fn health(&self) -> u32 {
        self.health.score()
    }

    /// How many datagrams, streams and messages were refused.
    pub fn refused(&self) -> u64 {
        self.refused
    }

    /// The cluster's keys and label, which may be changed.
    pub fn cover_mut(&mut self) -> &mut Cover {
        &mut self.cover
    }

    /// What it put out since this was last asked.
    pub fn take_outputs(&mut self) -> Outputs
        ensures all { result ≡ self.old.out }
        ensures none { self.new.out.list.items ≡ [] }
        ensures fits { All (FitsIn self.old.settings.udp_buffer_size) result.list.items }
    {
        let limit = usize::from(self.config().udp_buffer_size);
        std::mem::replace(&mut self.out, Outputs::new(self.alloc, limit))
    }

    pub(crate) fn config(&self) -> Config
        ensures { result ≡ self.now.settings }
    {
        self.settings.config()
    }

    /// How many members there are, itself included, and dead ones that are not yet forgotten
    /// (`estNumNodes`).
    pub(crate) fn members(&self) -> u32 {
        u32::try_from(self.rounds.len()).unwrap_or(u32::MAX)
    }
}

impl Times {
    /// Each begins at a random time within its interval, so that members that begin together do not
    /// all act at once (`schedule`, `randStagger`).
    fn staggered<R: Rng>(config: &Config, now: u64, rng: &mut R) -> Times {
        Times {
            probe: now.saturating_add(stagger(config.probe_interval, rng)),
            gossip: now.saturating_add(stagger(config.gossip_interval, rng)),
            push_pull: now.saturating_add(stagger(config.push_pull_interval, rng)),
            reconnect: now.saturating_add(stagger(config.reconnect_interval, rng)),
            seed: now.saturating_add(micros(config.probe_interval)),
            departure: None,
        }
    }
}

/// A random time within so many milliseconds, in microseconds.
fn stagger<R: Rng>(interval: u32, rng: &mut R) -> u64 {
    micros(rng.random_range(0..interval.max(1) as usize) as u32)
}
