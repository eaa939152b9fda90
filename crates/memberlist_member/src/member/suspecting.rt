//! What becomes of suspicions.

ghost use Rattle.std.specs.Prelude.{◌≡◌, ◌<◌, ◌≤◌, IfOk, List, OnErr, OnOk, Some, count_by, false, length};
ghost use Rattle.std.specs.Prelude.{true};
ghost use Rattle.std.specs.List.{All, Any};
ghost use Rattle.swim_wire.specs.Packet.{PacketValue};
ghost use Rattle.memberlist_view.specs.Heard.{about, accuser_of};
ghost use Rattle.memberlist_view.specs.Member.{is_alive, member_view_after};
ghost use Rattle.memberlist_view.specs.declared.heard.Said.{Said};
ghost use Rattle.memberlist_member.specs.Claims.{dead_by, packet_of};
ghost use Rattle.memberlist_member.specs.Saying.{said_of};
ghost use Rattle.memberlist_member.specs.Showing.{GoesBy, GoesOn, IsGround, IsOwnWord, KeepsLines};
ghost use Rattle.memberlist_member.specs.Staying.{Adds, Stays};
ghost use Rattle.memberlist_member.specs.Suspects.{GrowsByAtMost, IsLater, IsOver, is_suspect};
ghost use Rattle.memberlist_member.specs.Suspects.{shows_suspect};

use crate::claims;
use crate::member::Member;
use crate::member::hearing::copy_of;
use crate::suspicion::Suspicion;
use memberlist_view::{Event, Heard, MemberName, Said, State};
use rand_core::Rng;
use std::alloc::AllocError;
use swim_wire::Packet;

impl Member {
    /// Takes in what it hears now. A member is waited for as long as it is shown as suspect.
    ///
    /// # Errors
    ///
    /// `AllocError` if out of memory: what is shown is as it was.
    pub(crate) fn take_in(&mut self, heard: &Heard) -> Result<Option<Event>, AllocError>
        requires now { heard.now.time ≡ self.old.time }
        ensures adds { Adds 0 0 0 self.old self.new }
        ensures stays { Stays self.old self.new }
        ensures own { self.new.own ≡ self.old.own }
        ensures lines { KeepsLines self.old self.new }
        ensures step { OnOk result (self.new.view ≡ member_view_after self.old.view heard.now) }
        ensures refused { OnErr result (self.new.view ≡ self.old.view) }
        ensures goes { (told : List Said) → IsGround told self.old heard.now.said
            → GoesBy told self.old self.new }
        ensures tells { (told : List Said) (packet : PacketValue) → IsOwnWord told self.old packet
            → heard.now.said ≡ said_of packet true → GoesBy told self.old self.new }
        ensures grows { GrowsByAtMost (about heard.now.said) self.old.suspicions.list.items
            self.new.suspicions.list.items }
    {
        self.get_ready(&heard.said)?;
        let event = self.view.hear_as_member(heard);
        self.settle(&heard.said, !matches!(event, Ok(None)));
        event
    }

    /// Waits for a member before anything is heard by which it may be suspected, so that hearing it
    /// needs no memory for that.
    fn get_ready(&mut self, said: &Said) -> Result<(), AllocError>
        ensures adds { Adds 0 0 0 self.old self.new }
        ensures stays { Stays self.old self.new }
        ensures own { self.new.own ≡ self.old.own }
        ensures lines { KeepsLines self.old self.new }
        ensures view { self.new.view ≡ self.old.view }
        ensures ready { OnOk result (is_alive said.now ≡ false
            → 1 ≤ count_by (is_suspect (about said.now)) self.new.suspicions.list.items) }
        ensures grows { GrowsByAtMost (about said.now) self.old.suspicions.list.items
            self.new.suspicions.list.items }
    {
        match said {
            Said::Alive { .. } => Ok(()),
            Said::Suspect { .. } | Said::Dead { .. } | Said::Left { .. } | Said::Seen { .. } => {
                self.watch(said.name())
            }
        }
    }

    /// Waits for a member from now on, unless it does already.
    fn watch(&mut self, name: &MemberName) -> Result<(), AllocError>
        ensures adds { Adds 0 0 0 self.old self.new }
        ensures stays { Stays self.old self.new }
        ensures own { self.new.own ≡ self.old.own }
        ensures lines { KeepsLines self.old self.new }
        ensures view { self.new.view ≡ self.old.view }
        ensures ready { OnOk result
            (1 ≤ count_by (is_suspect name.now) self.new.suspicions.list.items) }
        ensures grows { GrowsByAtMost name.now self.old.suspicions.list.items
            self.new.suspicions.list.items }
    {
        if self.suspicions.has(name) {
            return Ok(());
        }
        let config = self.settings.config();
        let suspicion = Suspicion::begun(
            config.suspicion_mult,
            config.suspicion_max_timeout_mult,
            config.probe_interval,
            self.members(),
        );
        let copy = copy_of(self.alloc, name)?;
        self.suspicions.add(copy, suspicion)
    }

    /// Waits no more for a member that is not shown as suspect. An Alive that changed nothing leaves
    /// all as it was.
    fn settle(&mut self, said: &Said, is_changed: bool)
        ensures adds { Adds 0 0 0 self.old self.new }
        ensures stays { Stays self.old self.new }
        ensures own { self.new.own ≡ self.old.own }
        ensures lines { KeepsLines self.old self.new }
        ensures view { self.new.view ≡ self.old.view }
        ensures grows { GrowsByAtMost (about said.now) self.old.suspicions.list.items
            self.new.suspicions.list.items }
    {
        let name = said.name();
        let is_alive = matches!(said, Said::Alive { .. });
        if (is_changed || !is_alive) && !self.is_suspect(name) {
            self.suspicions.remove(name);
        }
    }

    /// Whether a member is shown as suspect.
    fn is_suspect(&self, name: &MemberName) -> bool
        ensures { result ≡ shows_suspect self.now.view name.now }
    {
        match self.view.get(name) {
            Some(entry) => matches!(entry.state, State::Suspect { .. }),
            None => false,
        }
    }

    /// Declares dead those that did not refute in time; a silent member accuses nobody.
    pub(crate) fn end_suspicions<R: Rng>(&mut self, rng: &mut R) -> Result<(), AllocError>
        ensures adds { Adds 0 0 0 self.old self.new }
        ensures stays { Stays self.old self.new }
        ensures goes { GoesOn self.old self.new }
        ensures none { OnOk result (self.old.settings.is_silent ≡ false
            → All (IsLater self.new.view self.new.time) self.new.suspicions.list.items) }
        ensures lines { KeepsLines self.old self.new }
    {
        if self.config().is_silent {
            return Ok(());
        }
        while let Some(name) = self.suspicions.first_due(&self.view, self.time) {
            let name = copy_of(self.alloc, name)?;
            self.end_suspicion(&name, rng)?;
        }
        Ok(())
    }

    /// Ends the suspicion of a member whose time is over.
    fn end_suspicion<R: Rng>(&mut self, name: &MemberName, rng: &mut R) -> Result<(), AllocError>
        requires over { Any (λ suspect. (suspect.name ≡ name.now)
            × IsOver self.old.view self.old.time suspect) self.old.suspicions.list.items }
        ensures adds { Adds 0 0 0 self.old self.new }
        ensures stays { Stays self.old self.new }
        ensures goes { GoesOn self.old self.new }
        ensures fewer { OnOk result (length self.new.suspicions.list.items
            < length self.old.suspicions.list.items) }
        ensures lines { KeepsLines self.old self.new }
    {
        self.declare_dead(name, rng)?;
        self.suspicions.remove(name);
        Ok(())
    }

    /// Declares dead a member whose time is over.
    fn declare_dead<R: Rng>(&mut self, name: &MemberName, rng: &mut R) -> Result<(), AllocError>
        requires over { Any (λ suspect. (suspect.name ≡ name.now)
            × IsOver self.old.view self.old.time suspect) self.old.suspicions.list.items }
        ensures adds { Adds 0 0 0 self.old self.new }
        ensures stays { Stays self.old self.new }
        ensures goes { GoesOn self.old self.new }
        ensures ends { OnOk result (shows_suspect self.new.view name.now ≡ false) }
        ensures grows { GrowsByAtMost name.now self.old.suspicions.list.items
            self.new.suspicions.list.items }
        ensures lines { KeepsLines self.old self.new }
    {
        let Some(entry) = self.view.get(name) else {
            return Ok(());
        };
        let State::Suspect { .. } = &entry.state else {
            return Ok(());
        };
        let inc = entry.inc;
        let packet = self.death_of(name, inc)?;
        self.hear_packet(&packet, rng)
    }

    /// Hears now what it says itself of another member.
    fn hear_packet<R: Rng>(&mut self, packet: &Packet, rng: &mut R) -> Result<(), AllocError>
        ensures adds { Adds 0 0 0 self.old self.new }
        ensures stays { Stays self.old self.new }
        ensures goes { (told : List Said) → IsGround told self.old (said_of packet.now true)
            → GoesBy told self.old self.new }
        ensures step { OnOk result (self.new.view ≡ member_view_after self.old.view
            (record { time = self.old.time; said = said_of packet.now true })) }
        ensures grows { GrowsByAtMost (about (said_of packet.now true))
            self.old.suspicions.list.items self.new.suspicions.list.items }
        ensures lines { KeepsLines self.old self.new }
    {
        let heard = self.heard_now(packet, true)?;
        self.hear_now(packet, &heard, rng)
    }

    /// What it says when it declares a member dead.
    fn death_of(&self, name: &MemberName, inc: u32) -> Result<Packet, AllocError>
        ensures says { IfOk result (λ packet.
            packet ≡ packet_of (dead_by name.now inc self.now.own.name) self.now.own.name) }
        ensures named { IfOk result (λ _.
            accuser_of self.now.own.name ≡ Some self.now.own.name) }
    {
        let copy = name.name().try_clone(self.alloc)?;
        claims::dead(self.alloc, copy, inc, self.own.name.name())
    }
}
