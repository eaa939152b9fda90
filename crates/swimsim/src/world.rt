//! All members, and what happens to them.
//!
//! | module | subject |
//! |---|---|
//! | `founding` | the members that there are at first |
//! | `acting` | what a scenario does |
//! | `delivering` | what a member is told |
//! | `serving` | what a member wants done |
//! | `observing` | what a member tells |
//! | `ending` | what members show at the end |

mod acting;
mod delivering;
mod ending;
mod founding;
mod observing;
mod serving;

use crate::agenda::{Agenda, Happening, What};
use crate::arguments::Run;
use crate::failure::Failure;
use crate::host::Host;
use crate::laws::Laws;
use crate::links::Links;
use crate::measured::Measured;
use rand::RngExt;
use rand_pcg::Pcg32;
use std::alloc::{AllocError, Global};

/// The most things that happen in one run.
const MOST: u64 = 1 << 40;

/// How long a datagram is under way at least, in microseconds.
const LEAST_DELAY: u64 = 100;

/// All members of a cluster, and what is under way among them.
#[derive(Drop)]
pub(crate) struct World {
    alloc: Global,
    run: Run,
    hosts: Vec<Host>,
    agenda: Agenda,
    links: Links,
    rng: Pcg32,
    /// The time, in microseconds.
    now: u64,
    /// The incarnation of the first member that tells of the change.
    change: Option<u32>,
    measured: Measured,
    laws: Laws,
}

impl World {
    /// Members that know each other.
    pub(crate) fn new(alloc: Global, run: Run) -> Result<World, Failure> {
        let mut world = World {
            alloc,
            run,
            hosts: Vec::new(alloc),
            agenda: Agenda::new(alloc),
            links: Links::new(alloc),
            rng: Pcg32::new(run.seed, 54),
            now: 0,
            change: None,
            measured: Measured::new(run.members),
            laws: Laws::new(alloc),
        };
        world.found()?;
        world.plan()?;
        Ok(world)
    }

    /// What was measured.
    pub(crate) fn measured(&self) -> Measured {
        self.measured
    }

    /// How often each law was broken.
    pub(crate) fn laws(&self) -> &Laws {
        &self.laws
    }

    /// Lets the time pass.
    pub(crate) fn run(&mut self) -> Result<(), Failure> {
        let until = self.run.seconds.saturating_mul(1_000_000);
        for _ in 0..MOST {
            let Some((time, happening)) = self.agenda.next() else {
                break;
            };
            if until < time {
                break;
            }
            self.now = time;
            self.happen(happening)?;
        }
        self.end();
        Ok(())
    }

    fn happen(&mut self, happening: Happening) -> Result<(), Failure> {
        match happening {
            Happening::Done(act) => self.act(act),
            Happening::Told { host, what } => self.deliver(host, what),
            Happening::Dialled { from, conn, to } => self.connect(from, conn, to),
        }
    }

    /// Has a member told something, so long from now.
    fn tell_after(&mut self, delay: u64, host: u32, what: What) -> Result<(), AllocError> {
        let time = self.now.saturating_add(delay);
        self.agenda.add(time, Happening::Told { host, what })
    }

    fn host(&self, number: u32) -> Option<&Host> {
        self.hosts.get(number as usize)
    }

    fn host_mut(&mut self, number: u32) -> Option<&mut Host> {
        self.hosts.get_mut(number as usize)
    }

    /// The number of the last member, to which the scenario does something.
    fn last(&self) -> u32 {
        self.run.members.saturating_sub(1)
    }

    /// How long something is under way.
    fn delay(&mut self) -> u64 {
        self.rng
            .random_range(LEAST_DELAY..self.run.delay.max(LEAST_DELAY + 1))
    }
}
