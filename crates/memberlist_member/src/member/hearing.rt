//! What the member hears, about others and about itself.

ghost use Rattle.std.specs.Prelude.{◌≡◌, ◌-◌, ◌^◌, ◌<◌, ◌≤◌, Bool, false, IfOk, List, OnOk, true};
ghost use Rattle.swim_claim.specs.Claim.{name_of};
ghost use Rattle.memberlist_view.specs.Heard.{about};
ghost use Rattle.memberlist_view.specs.Member.{member_view_after};
ghost use Rattle.memberlist_member.specs.Steps.{IsOutdone};
ghost use Rattle.memberlist_member.specs.Staying.{Adds, ShowsTheSame, Stays};
ghost use Rattle.memberlist_member.specs.Showing.{KeepsLines, GoesBy, GoesOn, IsGround, IsOwnWord};
ghost use Rattle.memberlist_member.specs.Saying.{inc_in, said_of};
ghost use Rattle.memberlist_member.specs.Suspects.{GrowsByAtMost};
ghost use Rattle.memberlist_view.specs.declared.heard.Said.{Said};

use crate::config::micros;
use crate::member::Member;
use crate::output::Output;
use crate::own::Verdict;
use crate::place::place_of;
use memberlist_view::{Event, Heard, MemberName, Said, State};
use rand_core::Rng;
use std::alloc::{AllocError, Global};
use swim_claim::Claim;
use swim_wire::{MAX_NODES, Packet, encode_packet};

impl Member {
    /// Hears a claim, of a packet or of a record; of a record a new name joins or does not.
    pub(crate) fn hear<R: Rng>(
        &mut self,
        packet: &Packet,
        joins: bool,
        rng: &mut R,
    ) -> Result<(), AllocError>
        ensures adds { Adds 0 0 0 self.old self.new }
        ensures outdone { OnOk result (IsOutdone self.new.own packet.now) }
        ensures stays { Stays self.old self.new }
        ensures goes { (told : List Said) → IsGround told self.old (said_of packet.now joins)
            → GoesBy told self.old self.new }
        ensures lines { KeepsLines self.old self.new }
    {
        if *packet.claim().name().bytes() == *self.own.name.name().bytes() {
            return self.hear_about_itself(packet, rng);
        }
        let heard = self.heard_now(packet, joins)?;
        self.hear_of(packet, &heard, rng)
    }

    /// Hears now what a packet says of another member, if that is known or there is room for it.
    fn hear_of<R: Rng>(
        &mut self,
        packet: &Packet,
        heard: &Heard,
        rng: &mut R,
    ) -> Result<(), AllocError>
        requires now { heard.now.time ≡ self.old.time }
        ensures adds { Adds 0 0 0 self.old self.new }
        ensures stays { Stays self.old self.new }
        ensures goes { (told : List Said) → IsGround told self.old heard.now.said
            → GoesBy told self.old self.new }
        ensures own { self.new.own ≡ self.old.own }
        ensures lines { KeepsLines self.old self.new }
    {
        if MAX_NODES as usize <= self.rounds.len() && self.view.get(heard.said.name()).is_none() {
            return Ok(());
        }
        self.hear_now(packet, heard, rng)
    }

    /// What a packet says, as it is heard now.
    pub(crate) fn heard_now(&self, packet: &Packet, joins: bool) -> Result<Heard, AllocError>
        ensures time { IfOk result (λ heard. heard.time ≡ self.now.time) }
        ensures said { IfOk result (λ heard. heard.said ≡ said_of packet.now joins) }
    {
        Ok(Heard {
            time: self.time,
            said: said_by(self.alloc, packet, joins)?,
        })
    }

    /// Hears now what a packet says, and tells it on if it changed anything.
    pub(crate) fn hear_now<R: Rng>(
        &mut self,
        packet: &Packet,
        heard: &Heard,
        rng: &mut R,
    ) -> Result<(), AllocError>
        requires now { heard.now.time ≡ self.old.time }
        ensures adds { Adds 0 0 0 self.old self.new }
        ensures stays { Stays self.old self.new }
        ensures goes { (told : List Said) → IsGround told self.old heard.now.said
            → GoesBy told self.old self.new }
        ensures own { self.new.own ≡ self.old.own }
        ensures lines { KeepsLines self.old self.new }
        ensures step { OnOk result (self.new.view ≡ member_view_after self.old.view heard.now) }
        ensures grows { GrowsByAtMost (about heard.now.said) self.old.suspicions.list.items
            self.new.suspicions.list.items }
    {
        let event = self.take_in(heard)?;
        self.heed(packet, heard.said.name(), event, rng)
    }

    /// Does what an event asks for, and tells on the claim from which it came.
    fn heed<R: Rng>(
        &mut self,
        packet: &Packet,
        name: &MemberName,
        event: Option<Event>,
        rng: &mut R,
    ) -> Result<(), AllocError>
        ensures adds { Adds 0 0 0 self.old self.new }
        ensures stays { Stays self.old self.new }
        ensures goes { GoesOn self.old self.new }
        ensures own { self.new.own ≡ self.old.own }
        ensures lines { KeepsLines self.old self.new }
        ensures shown { ShowsTheSame self.old self.new }
    {
        let Some(event) = event else {
            return Ok(());
        };
        self.follow(name, event, rng)?;
        self.tell_on(packet, event)?;
        self.show(name, event)
    }

    /// Does what an event asks for.
    pub(crate) fn follow<R: Rng>(
        &mut self,
        name: &MemberName,
        event: Event,
        rng: &mut R,
    ) -> Result<(), AllocError>
        ensures adds { Adds 0 0 0 self.old self.new }
        ensures stays { Stays self.old self.new }
        ensures goes { GoesOn self.old self.new }
        ensures own { self.new.own ≡ self.old.own }
        ensures lines { KeepsLines self.old self.new }
        ensures shown { ShowsTheSame self.old self.new }
    {
        match event {
            Event::Joined | Event::Known => self.admit(name, rng),
            Event::Back | Event::Updated | Event::Renewed | Event::Refuted | Event::Left => {
                self.lost.remove(name);
                Ok(())
            }
            Event::Dead => self.lose(name),
            Event::Suspected | Event::AlsoSuspected | Event::Conflict | Event::Seen => Ok(()),
        }
    }

    /// Adds a member of which the first Alive was believed.
    fn admit<R: Rng>(&mut self, name: &MemberName, rng: &mut R) -> Result<(), AllocError>
        ensures adds { Adds 0 0 0 self.old self.new }
        ensures stays { Stays self.old self.new }
        ensures goes { GoesOn self.old self.new }
        ensures own { self.new.own ≡ self.old.own }
        ensures lines { KeepsLines self.old self.new }
        ensures shown { ShowsTheSame self.old self.new }
    {
        if !self.is_known(name) {
            return Ok(());
        }
        let copy = copy_of(self.alloc, name)?;
        self.lost.remove(name);
        self.rounds.add(copy, rng)
    }

    /// Whether an Alive of the name was believed.
    pub(crate) fn is_known(&self, name: &MemberName) -> bool {
        match self.view.get(name) {
            Some(entry) => !matches!(entry.state, State::Noted),
            None => false,
        }
    }

    /// Remembers where a member was that died.
    fn lose(&mut self, name: &MemberName) -> Result<(), AllocError>
        ensures adds { Adds 0 0 0 self.old self.new }
        ensures stays { Stays self.old self.new }
        ensures goes { GoesOn self.old self.new }
        ensures own { self.new.own ≡ self.old.own }
        ensures lines { KeepsLines self.old self.new }
        ensures shown { ShowsTheSame self.old self.new }
    {
        let Some(entry) = self.view.get(name) else {
            return Ok(());
        };
        let Some(details) = &entry.details else {
            return Ok(());
        };
        let Some(place) = place_of(details) else {
            return Ok(());
        };
        let until = self
            .time
            .saturating_add(micros(self.config().reconnect_timeout));
        let copy = copy_of(self.alloc, name)?;
        self.lost.add(copy, place, until)
    }

    /// Tells a claim on that changed the view. Of further accusers only those that count are named.
    fn tell_on(&mut self, packet: &Packet, event: Event) -> Result<(), AllocError>
        ensures adds { Adds 0 0 0 self.old self.new }
        ensures stays { Stays self.old self.new }
        ensures goes { GoesOn self.old self.new }
        ensures own { self.new.own ≡ self.old.own }
        ensures lines { KeepsLines self.old self.new }
        ensures shown { ShowsTheSame self.old self.new }
    {
        if self.config().is_silent || !self.is_news(packet, event)? {
            return Ok(());
        }
        self.queue_claim(packet)
    }

    fn is_news(&self, packet: &Packet, event: Event) -> Result<bool, AllocError> {
        let name = MemberName::new(packet.claim().name().try_clone(self.alloc)?);
        Ok(match event {
            Event::Conflict | Event::Seen => false,
            Event::AlsoSuspected => self.counts(&name),
            Event::Joined
            | Event::Known
            | Event::Back
            | Event::Updated
            | Event::Renewed
            | Event::Refuted
            | Event::Suspected
            | Event::Dead
            | Event::Left => self.is_known(&name),
        })
    }

    /// Whether the last accuser of the member shortened its time (`Confirm` in suspicion.go).
    fn counts(&self, name: &MemberName) -> bool {
        let Some(entry) = self.view.get(name) else {
            return false;
        };
        match &entry.state {
            State::Suspect { by } => by.names().len() <= self.suspicions.wanted(name) as usize + 1,
            State::Noted | State::Seen | State::Alive | State::Dead { .. } | State::Left => false,
        }
    }

    /// Puts a claim into the queue; one that fits no datagram is told with the tables alone.
    pub(crate) fn queue_claim(&mut self, packet: &Packet) -> Result<(), AllocError>
        ensures adds { Adds 0 0 0 self.old self.new }
        ensures stays { Stays self.old self.new }
        ensures goes { GoesOn self.old self.new }
        ensures own { self.new.own ≡ self.old.own }
        ensures lines { KeepsLines self.old self.new }
        ensures shown { ShowsTheSame self.old self.new }
    {
        let bytes = encode_packet(self.alloc, packet)?;
        if self.room() < 4 + bytes.len() {
            let name = packet.claim().name().try_clone(self.alloc)?;
            return self.put(Output::Untold {
                name: MemberName::new(name),
            });
        }
        let subject = packet.claim().name().bytes().to_vec(self.alloc)?;
        self.claims.push(subject, bytes)
    }

    /// Puts out what changed.
    fn show(&mut self, name: &MemberName, event: Event) -> Result<(), AllocError>
        ensures adds { Adds 0 0 0 self.old self.new }
        ensures stays { Stays self.old self.new }
        ensures goes { GoesOn self.old self.new }
        ensures own { self.new.own ≡ self.old.own }
        ensures lines { KeepsLines self.old self.new }
        ensures shown { ShowsTheSame self.old self.new }
    {
        let alloc = self.alloc;
        let Some(entry) = self.view.get(name) else {
            return Ok(());
        };
        let inc = entry.inc;
        let by = match &entry.state {
            State::Suspect { by } => by.names().last(),
            State::Dead { by } => by.as_ref(),
            State::Noted | State::Seen | State::Alive | State::Left => None,
        };
        let by = match by {
            Some(name) => Some(copy_of(alloc, name)?),
            None => None,
        };
        let name = copy_of(alloc, name)?;
        self.put(Output::Changed {
            name,
            event,
            inc,
            by,
        })
    }

    /// Hears a claim about itself: it refutes what it does not say itself.
    fn hear_about_itself<R: Rng>(&mut self, packet: &Packet, rng: &mut R) -> Result<(), AllocError>
        ensures adds { Adds 0 0 0 self.old self.new }
        ensures outdone { OnOk result (IsOutdone self.new.own packet.now) }
        ensures stays { Stays self.old self.new }
        ensures goes { (told : List Said) (joins : Bool)
            → IsGround told self.old (said_of packet.now joins)
            → name_of packet.now.claim ≡ self.old.own.name → GoesBy told self.old self.new }
        ensures lines { KeepsLines self.old self.new }
    {
        match self.own.judge(packet.claim()) {
            Verdict::Stands => Ok(()),
            Verdict::Refute => self.refute(packet.claim().inc(), rng),
            Verdict::Conflict => {
                let name = copy_of(self.alloc, &self.own.name)?;
                self.put(Output::Changed {
                    name,
                    event: Event::Conflict,
                    inc: packet.claim().inc(),
                    by: None,
                })
            }
        }
    }

    /// Says that it is alive, at an incarnation above its own and this one (`refute`).
    fn refute<R: Rng>(&mut self, accused: u32, rng: &mut R) -> Result<(), AllocError>
        ensures adds { Adds 0 0 0 self.old self.new }
        ensures outdone { OnOk result (accused < 2 ^ 32 - 1 → self.old.own.inc ≤ accused
            → accused < self.new.own.inc) }
        ensures stays { Stays self.old self.new }
        ensures goes { (told : List Said) (said : Said) → IsGround told self.old said
            → about said ≡ self.old.own.name → self.old.own.is_leaving ≡ false → inc_in said ≡
            accused
            → self.old.own.inc ≤ accused → GoesBy told self.old self.new }
        ensures lines { KeepsLines self.old self.new }
    {
        if !self.own.outdo(accused) {
            return self.put(Output::Exhausted);
        }
        self.health.worsen(1);
        self.announce(rng)?;
        self.put(Output::Refuted { inc: self.own.inc })
    }

    /// Tells what it says about itself.
    pub(crate) fn announce<R: Rng>(&mut self, rng: &mut R) -> Result<(), AllocError>
        ensures adds { Adds 0 0 0 self.old self.new }
        ensures stays { Stays self.old self.new }
        ensures goes { GoesOn self.old self.new }
        ensures own { self.new.own ≡ self.old.own }
        ensures lines { KeepsLines self.old self.new }
    {
        let packet = self.own.alive(self.alloc)?;
        self.hear_itself(&packet, rng)
    }

    /// Hears what it says itself.
    pub(crate) fn hear_itself<R: Rng>(
        &mut self,
        packet: &Packet,
        rng: &mut R,
    ) -> Result<(), AllocError>
        ensures adds { Adds 0 0 0 self.old self.new }
        ensures stays { Stays self.old self.new }
        ensures own { self.new.own ≡ self.old.own }
        ensures goes { (told : List Said) → IsOwnWord told self.old packet.now
            → GoesBy told self.old self.new }
        ensures lines { KeepsLines self.old self.new }
    {
        let heard = self.heard_now(packet, true)?;
        self.hear_own(packet, &heard, rng)
    }

    /// Hears now what it says itself, and tells it.
    fn hear_own<R: Rng>(
        &mut self,
        packet: &Packet,
        heard: &Heard,
        rng: &mut R,
    ) -> Result<(), AllocError>
        requires now { heard.now.time ≡ self.old.time }
        requires said { heard.now.said ≡ said_of packet.now true }
        ensures adds { Adds 0 0 0 self.old self.new }
        ensures stays { Stays self.old self.new }
        ensures own { self.new.own ≡ self.old.own }
        ensures goes { (told : List Said) → IsOwnWord told self.old packet.now
            → GoesBy told self.old self.new }
        ensures lines { KeepsLines self.old self.new }
    {
        let Some(event) = self.take_in(heard)? else {
            return Ok(());
        };
        self.follow(heard.said.name(), event, rng)?;
        self.queue_claim(packet)?;
        self.show(heard.said.name(), event)
    }
}

/// What a packet says.
fn said_by(alloc: Global, packet: &Packet, joins: bool) -> Result<Said, AllocError>
    ensures { IfOk result (λ said. said ≡ said_of packet.now joins) }
{
    let claim = packet.claim().try_clone(alloc)?;
    match claim {
        Claim::Alive { .. } => Ok(Said::of_record(claim, joins)),
        Claim::Suspect { .. } | Claim::Confirm { .. } | Claim::Leave { .. } => {
            Said::of_packet(alloc, claim, packet.from_name())
        }
    }
}

/// A copy of a name.
pub(crate) fn copy_of(alloc: Global, name: &MemberName) -> Result<MemberName, AllocError>
    ensures { IfOk result (λ copy. copy ≡ name.now) }
{
    Ok(MemberName::new(name.name().try_clone(alloc)?))
}
