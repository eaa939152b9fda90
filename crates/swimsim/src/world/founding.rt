//! The members that there are at first.

use crate::agenda::{Happening, What};
use crate::failure::Failure;
use crate::host::Host;
use crate::naming::{details, name, place};
use crate::scenario::{START, Scenario};
use crate::world::World;
use memberlist_member::Input;
use rand::seq::SliceRandom;
use std::alloc::AllocError;
use swim_claim::{Facts, Kind};
use swim_wire::{Header, write_header, write_state};

impl World {
    /// Begins with members that know each other.
    pub(crate) fn found(&mut self) -> Result<(), Failure> {
        let table = self.table()?;
        for number in 0..self.run.members {
            let is_silent = self.run.scenario == Scenario::Silent && number == self.last();
            let mut host = Host::new(self.alloc, number, is_silent, 0, &mut self.rng)?;
            let _ = host.member.recall(&table, &mut self.rng)?;
            self.start(&mut host, number)?;
            self.hosts.push(host).map_err(AllocError::from)?;
        }
        Ok(())
    }

    /// Has the member with this number told the time.
    fn start(&mut self, host: &mut Host, number: u32) -> Result<(), Failure> {
        host.wake = host.member.wake();
        host.scheduled = host.wake;
        let told = Happening::Told {
            host: number,
            what: What::Wake,
        };
        Ok(self.agenda.add(host.wake, told)?)
    }

    /// The table of all members, in an order at random, so that the maps that are made of it have full
    /// nodes.
    fn table(&mut self) -> Result<Vec<u8>, Failure> {
        let mut numbers = (0..self.run.members).collect::<Vec<u32>>(self.alloc)?;
        numbers.shuffle(&mut self.rng);
        let mut table = Vec::new(self.alloc);
        write_header(
            &mut table,
            &Header {
                nodes: self.run.members,
                user_len: 0,
                join: false,
            },
        )?;
        for number in numbers {
            let name = name(self.alloc, number)?;
            let details = details(self.alloc, number)?;
            let facts = Facts {
                kind: Kind::Alive,
                inc: 1,
                details: Some(&details),
            };
            write_state(&mut table, &name, facts)?;
        }
        Ok(table)
    }

    /// Writes down what the scenario does when.
    pub(crate) fn plan(&mut self) -> Result<(), Failure> {
        if self.run.members < 2 {
            return Ok(());
        }
        for (seconds, act) in self.run.scenario.plan() {
            let time = START.saturating_add(seconds.saturating_mul(1_000_000));
            self.agenda.add(time, Happening::Done(*act))?;
        }
        Ok(())
    }

    /// Begins a member anew, which joins by the first one.
    pub(crate) fn restart(&mut self, number: u32) -> Result<(), Failure> {
        let mut host = Host::new(self.alloc, number, false, self.now, &mut self.rng)?;
        host.recover(self.now);
        self.start(&mut host, number)?;
        match self.hosts.get_mut(number as usize) {
            Some(place) => *place = host,
            None => return Ok(()),
        }
        self.tell(number, Input::Join { seeds: &[place(0)] })
    }
}
