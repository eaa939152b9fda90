//! What the member does when its time has come.

ghost use Rattle.std.specs.Prelude.{◌≡◌, ◌+◌, ◌||◌, OnOk, length};
ghost use Rattle.memberlist_member.specs.Steps.{AreWaitedFor, IsLater, IsOnTime, TicksAtMost};
ghost use Rattle.memberlist_member.specs.Staying.{Adds, BeginsInTime, BeginsNoProbe, Stays};
ghost use Rattle.memberlist_member.specs.Staying.{StaysButProbe, StaysButTimes, unless_silent};
ghost use Rattle.memberlist_member.specs.Showing.{GoesByLines, GoesByTime, GoesOn, KeepsLines};

use crate::config::micros;
use crate::connections::Purpose;
use crate::member::Member;
use crate::member::gossiping::Among;
use crate::scale::push_pull_scale;
use rand::RngExt;
use rand_core::Rng;
use std::alloc::AllocError;

impl Member {
    /// When it is to be told the time next, if nothing comes before.
    pub fn wake(&self) -> u64 {
        let times = &self.times;
        let mut first = times
            .probe
            .min(times.gossip)
            .min(times.push_pull)
            .min(times.reconnect)
            .min(times.seed);
        let others = [
            times.departure,
            self.relays.wakes_at(),
            self.next_suspicion(),
            match &self.probe {
                Some(probe) => Some(probe.wakes_at()),
                None => None,
            },
        ];
        for due in others {
            if let Some(due) = due {
                first = first.min(due);
            }
        }
        for each in &self.connections.list {
            first = first.min(each.wakes_at());
        }
        first
    }

    /// When the next suspicion ends; a silent member ends none.
    fn next_suspicion(&self) -> Option<u64> {
        if self.config().is_silent {
            return None;
        }
        self.suspicions.wakes_at(&self.view)
    }

    /// Does what is due.
    pub(crate) fn tick<R: Rng>(&mut self, rng: &mut R) -> Result<(), AllocError>
        ensures adds { TicksAtMost self.old self.new }
        ensures stays { StaysButTimes self.old self.new }
        ensures probes { BeginsInTime self.old self.new }
        ensures on_time { OnOk result (IsOnTime self.new) }
        ensures goes { GoesByTime self.old self.new }
        ensures waits { OnOk result (AreWaitedFor self.new) }
        ensures lines { KeepsLines self.old self.new }
    {
        self.look_around(rng)?;
        self.go_on_probing(rng)?;
        self.act_in_time(rng)?;
        self.end_suspicions(rng)
    }

    /// Tells those who asked that no answer came, and looks at what came over connections.
    fn look_around<R: Rng>(&mut self, rng: &mut R) -> Result<(), AllocError>
        ensures adds { Adds (length self.old.relays.waiting.items) 0 128 self.old self.new }
        ensures stays { StaysButProbe self.old self.new }
        ensures goes { GoesByLines self.old self.new }
        ensures probes { BeginsNoProbe self.old self.new }
        ensures lines { KeepsLines self.old self.new }
    {
        self.end_relays(rng)?;
        self.look_again(rng)
    }

    /// Does what is done at regular times.
    fn act_in_time<R: Rng>(&mut self, rng: &mut R) -> Result<(), AllocError>
        ensures adds { Adds (unless_silent self.old.settings (1 + self.old.settings.gossip_nodes))
            (1 + unless_silent self.old.settings 2) 0 self.old self.new }
        ensures stays { StaysButTimes self.old self.new }
        ensures probes { BeginsInTime self.old self.new }
        ensures on_time { OnOk result (IsOnTime self.new) }
        ensures goes { GoesOn self.old self.new }
        ensures lines { KeepsLines self.old self.new }
    {
        self.probe_in_time(rng)?;
        self.gossip_in_time(rng)?;
        self.dial_in_time(rng)?;
        self.close_overdue()?;
        self.depart()
    }

    /// Dials those with which it exchanges tables.
    fn dial_in_time<R: Rng>(&mut self, rng: &mut R) -> Result<(), AllocError>
        ensures adds { Adds 0 (1 + unless_silent self.old.settings 2) 0 self.old self.new }
        ensures stays { StaysButTimes self.old self.new }
        ensures probes { BeginsNoProbe self.old self.new }
        ensures times { self.new.times ≡ record self.old.times {
          push_pull = self.new.times.push_pull;
          reconnect = self.new.times.reconnect;
          seed = self.new.times.seed;
        } }
        ensures later { OnOk result (IsLater self.new.time self.new.times.push_pull
            × IsLater self.new.time self.new.times.reconnect
            × IsLater self.new.time self.new.times.seed) }
        ensures goes { GoesOn self.old self.new }
        ensures lines { KeepsLines self.old self.new }
    {
        self.exchange_in_time(rng)?;
        self.reconnect_in_time(rng)?;
        self.join_in_time(rng)
    }

    fn probe_in_time<R: Rng>(&mut self, rng: &mut R) -> Result<(), AllocError>
        ensures adds { Adds (unless_silent self.old.settings 1) 0 0 self.old self.new }
        ensures stays { StaysButTimes self.old self.new }
        ensures probes { BeginsInTime self.old self.new }
        ensures times { self.new.times ≡ record self.old.times { probe = self.new.times.probe } }
        ensures later { IsLater self.new.time self.new.times.probe }
        ensures goes { GoesOn self.old self.new }
        ensures lines { KeepsLines self.old self.new }
    {
        if self.time < self.times.probe {
            return Ok(());
        }
        self.times.probe = next_tick(self.times.probe, self.config().probe_interval, self.time);
        self.begin_probe(rng)
    }

    fn gossip_in_time<R: Rng>(&mut self, rng: &mut R) -> Result<(), AllocError>
        ensures adds { Adds (unless_silent self.old.settings self.old.settings.gossip_nodes) 0 0
            self.old self.new }
        ensures stays { StaysButTimes self.old self.new }
        ensures probes { BeginsNoProbe self.old self.new }
        ensures times { self.new.times ≡ record self.old.times { gossip = self.new.times.gossip } }
        ensures later { IsLater self.new.time self.new.times.gossip }
        ensures goes { GoesOn self.old self.new }
        ensures lines { KeepsLines self.old self.new }
    {
        if self.time < self.times.gossip {
            return Ok(());
        }
        self.times.gossip = next_tick(self.times.gossip, self.config().gossip_interval, self.time);
        self.gossip(rng)
    }

    /// Exchanges tables in time.
    fn exchange_in_time<R: Rng>(&mut self, rng: &mut R) -> Result<(), AllocError>
        ensures adds { Adds 0 (unless_silent self.old.settings 1) 0 self.old self.new }
        ensures stays { StaysButTimes self.old self.new }
        ensures probes { BeginsNoProbe self.old self.new }
        ensures times { self.new.times ≡ record self.old.times {
          push_pull =
              self.new.times.push_pull;
        } }
        ensures later { IsLater self.new.time self.new.times.push_pull }
        ensures goes { GoesOn self.old self.new }
        ensures lines { KeepsLines self.old self.new }
    {
        if self.time < self.times.push_pull {
            return Ok(());
        }
        let interval = micros(self.config().push_pull_interval)
            .saturating_mul(u64::from(push_pull_scale(self.members())))
            .max(1);
        self.times.push_pull = self.time.saturating_add(interval);
        if self.is_passive() {
            return Ok(());
        }
        self.exchange_with_any(rng)
    }

    /// Exchanges tables with a member at random.
    fn exchange_with_any<R: Rng>(&mut self, rng: &mut R) -> Result<(), AllocError>
        ensures adds { Adds 0 1 0 self.old self.new }
        ensures stays { Stays self.old self.new }
        ensures goes { GoesOn self.old self.new }
        ensures lines { KeepsLines self.old self.new }
    {
        let members = self.some_members(1, None, Among::Alive, rng)?;
        let Some(name) = members.first() else {
            return Ok(());
        };
        let Some(place) = self.place_of(name) else {
            return Ok(());
        };
        self.exchange(place, false, rng)
    }

    /// Dials a member that was lost.
    fn reconnect_in_time<R: Rng>(&mut self, rng: &mut R) -> Result<(), AllocError>
        ensures adds { Adds 0 (unless_silent self.old.settings 1) 0 self.old self.new }
        ensures stays { StaysButTimes self.old self.new }
        ensures probes { BeginsNoProbe self.old self.new }
        ensures times { self.new.times ≡ record self.old.times {
          reconnect =
              self.new.times.reconnect;
        } }
        ensures later { IsLater self.new.time self.new.times.reconnect }
        ensures goes { GoesOn self.old self.new }
        ensures lines { KeepsLines self.old self.new }
    {
        if self.time < self.times.reconnect {
            return Ok(());
        }
        let interval = self.config().reconnect_interval;
        self.times.reconnect = next_tick(self.times.reconnect, interval, self.time);
        if self.is_passive() {
            return Ok(());
        }
        match self.lost.any(self.time, rng) {
            Some(place) => self.exchange(place, false, rng),
            None => Ok(()),
        }
    }

    /// Whether it dials nobody by itself.
    fn is_passive(&self) -> bool
        ensures { result ≡ (self.now.own.is_leaving || self.now.settings.is_silent) }
    {
        self.own.is_leaving || self.config().is_silent
    }

    /// Dials a seed while it is alone.
    fn join_in_time<R: Rng>(&mut self, rng: &mut R) -> Result<(), AllocError>
        ensures adds { Adds 0 1 0 self.old self.new }
        ensures stays { StaysButTimes self.old self.new }
        ensures probes { BeginsNoProbe self.old self.new }
        ensures times { self.new.times ≡ record self.old.times { seed = self.new.times.seed } }
        ensures later { IsLater self.new.time self.new.times.seed }
        ensures goes { GoesOn self.old self.new }
        ensures lines { KeepsLines self.old self.new }
    {
        if self.time < self.times.seed {
            return Ok(());
        }
        let interval = self.config().probe_interval;
        self.times.seed = next_tick(self.times.seed, interval, self.time);
        if self.own.is_leaving || self.seeds.is_empty() || !self.is_alone() {
            return Ok(());
        }
        let index = rng.random_range(0..self.seeds.len());
        let seed = self.seeds[index];
        self.exchange(seed, true, rng)
    }

    /// Closes the connections whose time is over.
    fn close_overdue(&mut self) -> Result<(), AllocError>
        ensures adds { Adds 0 0 0 self.old self.new }
        ensures stays { Stays self.old self.new }
        ensures goes { GoesOn self.old self.new }
        ensures lines { KeepsLines self.old self.new }
    {
        for _ in 0..self.connections.list.len() {
            let Some(conn) = self.connections.overdue(self.time) else {
                break;
            };
            self.hang_up(conn)?;
        }
        Ok(())
    }

    /// Opens a connection to exchange tables.
    pub(crate) fn exchange<R: Rng>(
        &mut self,
        place: std::net::SocketAddr,
        join: bool,
        rng: &mut R,
    ) -> Result<(), AllocError>
        ensures adds { Adds 0 1 0 self.old self.new }
        ensures stays { Stays self.old self.new }
        ensures goes { GoesOn self.old self.new }
        ensures lines { KeepsLines self.old self.new }
    {
        let message = self.table(join)?;
        let due = self.time.saturating_add(micros(self.config().tcp_timeout));
        let _ = self.dial(place, Purpose::PushPull { join }, message, due, rng)?;
        Ok(())
    }
}

/// The next time after now that is so many milliseconds, or a multiple, after this one: what was
/// missed is not made up for.
fn next_tick(last: u64, interval: u32, now: u64) -> u64
    ensures { IsLater now result }
{
    let interval = micros(interval.max(1));
    let missed = now.saturating_sub(last) / interval;
    last.saturating_add(missed.saturating_add(1).saturating_mul(interval))
}
