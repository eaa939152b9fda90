//! What members show at the end.

use crate::agenda::Happening;
use crate::failure::Failure;
use crate::host::Host;
use crate::laws::Law;
use crate::measured::count;
use crate::naming::number_of;
use crate::scenario::{Act, START};
use crate::spread::note;
use crate::world::World;
use memberlist_view::State;

/// How often members are looked at, in microseconds.
const LOOK: u64 = 1_000_000;

/// What one member shows.
#[derive(Clone, Copy, Debug)]
struct Sight {
    /// How many members that are here it shows as alive, and how many it suspects.
    alive: u64,
    suspects: u64,
    /// How many members that are gone it shows as alive.
    ghosts: u64,
    /// Whether it shows itself as alive.
    is_itself: bool,
}

impl World {
    /// Looks at what each member shows, for the last time.
    pub(crate) fn end(&mut self) {
        let found = self.look();
        self.measured.wrong = found.0;
        self.measured.suspects = found.1;
    }

    /// Looks whether all members show each other rightly, and looks again later.
    pub(crate) fn look_again(&mut self) -> Result<(), Failure> {
        let after = self.now.saturating_sub(START);
        if self.look() == (0, 0) {
            note(&mut self.measured.healed, after, true);
        } else {
            self.measured.healed = None;
        }
        let time = self.now.saturating_add(LOOK);
        Ok(self.agenda.add(time, Happening::Done(Act::Look))?)
    }

    /// In how many pairs one member shows another one wrongly, and in how many it suspects it.
    fn look(&mut self) -> (u64, u64) {
        let here = self.hosts.iter().filter(|host| host.is_here()).count() as u64;
        let (mut wrong, mut suspects) = (0u64, 0u64);
        for number in 0..self.run.members {
            let Some(host) = self.host(number) else {
                break;
            };
            if !host.is_here() {
                continue;
            }
            let sight = self.sight(number, host);
            let seen = sight.alive.saturating_add(sight.suspects);
            wrong = wrong
                .saturating_add(here.saturating_sub(seen))
                .saturating_add(sight.ghosts);
            suspects = suspects.saturating_add(sight.suspects);
            if !sight.is_itself {
                self.laws.broke(Law::Disowned, number, self.now);
            }
        }
        (wrong, suspects)
    }

    /// What a member shows.
    fn sight(&self, number: u32, host: &Host) -> Sight {
        let mut sight = Sight {
            alive: 0,
            suspects: 0,
            ghosts: 0,
            is_itself: false,
        };
        for each in host.member.view().iter() {
            let about = number_of(each.0).unwrap_or(u32::MAX);
            let is_here = match self.host(about) {
                Some(other) => other.is_here(),
                None => false,
            };
            match (&each.1.state, is_here) {
                (State::Alive, true) => {
                    count(&mut sight.alive);
                    sight.is_itself = sight.is_itself || about == number;
                }
                (State::Alive, false) => count(&mut sight.ghosts),
                (State::Suspect { .. }, true) => count(&mut sight.suspects),
                _ => {}
            }
        }
        sight
    }
}
