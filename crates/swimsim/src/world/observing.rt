//! What a member tells.

use crate::arguments::Run;
use crate::failure::Failure;
use crate::host::Host;
use crate::laws::Law;
use crate::measured::count;
use crate::naming::number_of;
use crate::scenario::{START, Scenario};
use crate::spread::note;
use crate::world::World;
use memberlist_member::suspicion_timeout;
use memberlist_view::{Event, MemberName, State};
use std::alloc::AllocError;

/// With delays below this an answer comes within a probe's second, in microseconds.
const IN_TIME: u64 = 500_000;

impl World {
    /// A member shows another one, or itself, in another way.
    pub(crate) fn observe(
        &mut self,
        number: u32,
        name: &MemberName,
        event: Event,
        inc: u32,
        by: Option<MemberName>,
    ) -> Result<(), Failure> {
        let Some(about) = number_of(name) else {
            return Ok(());
        };
        let by = match &by {
            Some(by) => number_of(by),
            None => None,
        };
        self.check_itself(number, about, event);
        self.check_suspicion((number, about), event, by == Some(number))?;
        match event {
            Event::Suspected => self.observe_suspicion(number, about),
            Event::Dead | Event::Left => {
                self.observe_false_death(number, about, event, by);
                self.observe_end(number, about);
            }
            _ => self.observe_life(number, about, inc),
        }
        Ok(())
    }

    /// A member that does not leave shows itself as alive.
    fn check_itself(&mut self, number: u32, about: u32, event: Event) {
        let is_gone = matches!(event, Event::Suspected | Event::Dead | Event::Left);
        let is_here = match self.host(number) {
            Some(host) => host.is_here(),
            None => false,
        };
        if number == about && is_gone && is_here {
            self.laws.broke(Law::Disowned, number, self.now);
        }
    }

    /// A member declares another one dead only if it has suspected it for the least time.
    fn check_suspicion(
        &mut self,
        pair: (u32, u32),
        event: Event,
        is_own: bool,
    ) -> Result<(), AllocError> {
        match event {
            Event::Suspected => {
                let least = match self.host(pair.0) {
                    Some(host) => suspicion_timeout(4, known(host), 1000),
                    None => 0,
                };
                self.laws.suspected(pair, self.now, least)
            }
            Event::AlsoSuspected | Event::Conflict | Event::Seen => Ok(()),
            Event::Dead if is_own => {
                self.laws.declared(pair, self.now);
                Ok(())
            }
            _ => {
                self.laws.relieved(pair);
                Ok(())
            }
        }
    }

    /// Whether both members run in a whole network.
    fn are_well(&self, one: u32, other: u32) -> bool {
        match (self.host(one), self.host(other)) {
            (Some(one), Some(other)) => one.is_well(self.now) && other.is_well(self.now),
            _ => false,
        }
    }

    /// Whether this is the last member, and it is in the trouble of the scenario.
    fn is_concerned(&self, about: u32) -> bool {
        about == self.last() && START <= self.now && !self.are_well(about, about)
    }

    fn observe_suspicion(&mut self, number: u32, about: u32) {
        self.check_calm(number);
        let after = self.now.saturating_sub(START);
        let is_first = number != about && self.is_concerned(about);
        note(&mut self.measured.suspected, after, is_first);
    }

    /// In calm nobody is suspected, if each answer comes in time.
    fn check_calm(&mut self, number: u32) {
        let Run {
            scenario,
            loss,
            delay,
            ..
        } = self.run;
        if scenario == Scenario::Calm && loss == 0 && delay < IN_TIME {
            self.laws.broke(Law::Alarm, number, self.now);
        }
    }

    /// A member shows another one as dead, which this one declared so, though both are well.
    fn observe_false_death(&mut self, number: u32, about: u32, event: Event, by: Option<u32>) {
        if event != Event::Dead || !self.are_well(number, about) {
            return;
        }
        count(&mut self.measured.false_deaths);
        if by == Some(self.last()) {
            count(&mut self.measured.carried);
        }
    }

    /// A member shows another one as dead, or as gone.
    fn observe_end(&mut self, number: u32, about: u32) {
        if number == about || !self.is_concerned(about) {
            return;
        }
        let after = self.now.saturating_sub(START);
        let Some(host) = self.host_mut(number) else {
            return;
        };
        if !host.has_seen_end {
            host.has_seen_end = true;
            self.measured.ended.add(after);
        }
    }

    /// A member shows another one as alive, with this incarnation.
    fn observe_life(&mut self, number: u32, about: u32, inc: u32) {
        let is_change = match self.change {
            Some(change) => about == 0 && change <= inc,
            None => false,
        };
        if !is_change || number == about {
            return;
        }
        let after = self.now.saturating_sub(START);
        let Some(host) = self.host_mut(number) else {
            return;
        };
        if host.is_here() && !host.has_news {
            host.has_news = true;
            self.measured.told.add(after);
        }
    }

    /// A member got no answer from another one.
    pub(crate) fn observe_silence(&mut self, number: u32, name: &MemberName) {
        self.check_calm(number);
        let Some(about) = number_of(name) else {
            return;
        };
        if self.are_well(number, about) {
            count(&mut self.measured.false_suspicions);
        }
    }
}

/// How many members a member knows.
fn known(host: &Host) -> u32 {
    let mut count = 0u32;
    for each in host.member.view().iter() {
        if !matches!(each.1.state, State::Noted | State::Seen) {
            count = count.saturating_add(1);
        }
    }
    count
}
