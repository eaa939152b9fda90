//! Joining, leaving, and what the program says.

ghost use Rattle.std.specs.Prelude.{◌≡◌, List, OnOk, length, true};
ghost use Rattle.std.specs.List.{Contains};
ghost use Rattle.memberlist_member.specs.Owns.{own_leave};
ghost use Rattle.memberlist_member.specs.Staying.{Adds, BeginsNoProbe, Stays, StaysItself};
ghost use Rattle.memberlist_member.specs.Staying.{StaysButTimes};
ghost use Rattle.memberlist_member.specs.Steps.{IsSaid, IsUpdated};
ghost use Rattle.memberlist_member.specs.Showing.{GoesOn, KeepsLines, MayChange, MayLeave};
ghost use Rattle.memberlist_member.specs.Showing.{Went};
ghost use Rattle.memberlist_member.specs.Saying.{said_of};
ghost use Rattle.memberlist_view.specs.declared.heard.Said.{Said};

use crate::config::micros;
use crate::fault::StepFault;
use crate::member::Member;
use crate::member::probing::is_here;
use crate::output::Output;
use memberlist_message::encode_user;
use rand_core::Rng;
use std::alloc::AllocError;
use std::net::SocketAddr;
use swim_claim::Details;

/// How long a leave is told at most, in milliseconds (own; Serf's `BroadcastTimeout`).
const DEPARTURE: u32 = 5000;

impl Member {
    /// Joins by these members.
    pub(crate) fn join<R: Rng>(
        &mut self,
        seeds: &[SocketAddr],
        rng: &mut R,
    ) -> Result<(), AllocError>
        ensures adds { Adds 0 (length seeds.now) 0 self.old self.new }
        ensures seeds { OnOk result (self.new.seeds.items ≡ seeds.now) }
        ensures stays { StaysItself self.old self.new }
        ensures probes { BeginsNoProbe self.old self.new }
        ensures goes { GoesOn self.old self.new }
        ensures lines { KeepsLines self.old self.new }
    {
        self.seeds = seeds.to_vec(self.alloc)?;
        for seed in seeds {
            self.exchange(*seed, true, rng)?;
        }
        Ok(())
    }

    /// Leaves: it says that it is dead, which only a member that leaves says of itself (`Leave`).
    pub(crate) fn leave<R: Rng>(&mut self, rng: &mut R) -> Result<(), AllocError>
        ensures adds { Adds 0 0 0 self.old self.new }
        ensures stays { StaysItself self.old self.new }
        ensures probes { BeginsNoProbe self.old self.new }
        ensures leaves { OnOk result (self.new.own.is_leaving ≡ true) }
        ensures goes { (told : List Said) → Contains told (said_of (own_leave self.old.own) true)
            → Went told self.old.own self.old.own self.old self.new }
        ensures own { MayLeave self.old.own self.new.own }
        ensures lines { KeepsLines self.old self.new }
    {
        if self.own.is_leaving {
            return Ok(());
        }
        let packet = self.own.leave(self.alloc)?;
        self.hear_itself(&packet, rng)?;
        self.own.is_leaving = true;
        self.times.departure = Some(self.time.saturating_add(micros(DEPARTURE)));
        Ok(())
    }

    /// Ends the departure once the leave was told as often as it is to be, nobody is there to hear
    /// it, or its time is over.
    pub(crate) fn depart(&mut self) -> Result<(), AllocError>
        ensures adds { Adds 0 0 0 self.old self.new }
        ensures stays { StaysButTimes self.old self.new }
        ensures probes { BeginsNoProbe self.old self.new }
        ensures times { self.new.times ≡ record self.old.times {
          departure =
              self.new.times.departure;
        } }
        ensures goes { GoesOn self.old self.new }
        ensures lines { KeepsLines self.old self.new }
    {
        let Some(until) = self.times.departure else {
            return Ok(());
        };
        if self.time < until && 0 < self.claims.len() && !self.is_alone() {
            return Ok(());
        }
        self.times.departure = None;
        self.put(Output::Departed)
    }

    /// Whether no other member is alive or suspected.
    pub(crate) fn is_alone(&self) -> bool {
        for index in 0..self.rounds.len() {
            let Some(name) = self.rounds.get(index) else {
                break;
            };
            if is_here(&self.view, name, &self.own.name) {
                return false;
            }
        }
        true
    }

    /// Has this metadata from now on, which may have up to 512 bytes (`UpdateNode`).
    pub(crate) fn update<R: Rng>(&mut self, meta: &[u8], rng: &mut R) -> Result<(), StepFault>
        ensures adds { Adds 0 0 0 self.old self.new }
        ensures updates { OnOk result (IsUpdated meta.now self.old.own self.new.own) }
        ensures stays { StaysItself self.old self.new }
        ensures probes { BeginsNoProbe self.old self.new }
        ensures goes { (told : List Said) → Went told self.new.own self.new.own self.old self.new }
        ensures own { MayChange meta.now self.old.own self.new.own }
        ensures lines { KeepsLines self.old self.new }
    {
        let old = &self.own.details;
        let meta = meta.to_vec(self.alloc)?;
        let Ok(details) = Details::of(old.addr(), old.port(), meta, old.vsn()) else {
            return Err(StepFault::TooLong);
        };
        if !self.own.outdo(0) {
            self.put(Output::Exhausted)?;
            return Ok(());
        }
        self.own.details = details;
        self.announce(rng)?;
        Ok(())
    }

    /// Tells a message of the program, if it fits a datagram.
    pub(crate) fn say(&mut self, bytes: &[u8]) -> Result<(), StepFault>
        ensures adds { Adds 0 0 0 self.old self.new }
        ensures said { OnOk result (IsSaid bytes.now self.old self.new) }
        ensures stays { Stays self.old self.new }
        ensures goes { GoesOn self.old self.new }
        ensures lines { KeepsLines self.old self.new }
    {
        let message = encode_user(self.alloc, bytes)?;
        if self.room() < 4 + message.len() {
            return Err(StepFault::TooLong);
        }
        let subject = self.says.to_be_bytes().to_vec(self.alloc)?;
        self.says = self.says.wrapping_add(1);
        self.said.push(subject, message)?;
        Ok(())
    }

    /// Sends this along with tables from now on.
    pub(crate) fn set_state(&mut self, bytes: &[u8]) -> Result<(), AllocError>
        ensures adds { Adds 0 0 0 self.old self.new }
        ensures state { OnOk result (self.new.state.items ≡ bytes.now) }
        ensures stays { Stays self.old self.new }
        ensures goes { GoesOn self.old self.new }
        ensures lines { KeepsLines self.old self.new }
    {
        self.state = bytes.to_vec(self.alloc)?;
        Ok(())
    }
}
