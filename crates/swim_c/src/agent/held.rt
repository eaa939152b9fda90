//! An agent as a handle holds it.

ghost use Rattle.std.specs.Prelude.{◌≡◌, [], IfOk, OnOk};
ghost use Rattle.swim_c.specs.Agents.{AcceptDone, Hears, Told, to_give};

use crate::status::{DONE, MEMORY, OUT_OF_RANGE};
use memberlist_member::{Input, Member, Output, StepFault};
use rand_chacha::ChaCha20Rng;
use std::alloc::{AllocError, Global};
use std::collections::VecDeque;
use std::mem;

/// The most streams that are numbered.
const MOST_STREAMS: u64 = 1 << 62;

/// An agent as a handle holds it. What it put out and was not given yet is what is unsent, then what
/// is behind it, and then what the member still has.
#[derive(Drop)]
pub struct HeldAgent {
    pub member: Member,
    pub rng: ChaCha20Rng,
    pub unsent: VecDeque<Output>,
    pub behind: VecDeque<Output>,
    /// How many streams were accepted.
    pub accepted: u64,
}

impl HeldAgent {
    /// An agent that was given nothing yet.
    pub fn boxed(
        alloc: Global,
        member: Member,
        rng: ChaCha20Rng,
    ) -> Result<Box<HeldAgent>, AllocError>
        ensures { IfOk result (λ held. held.value.accepted ≡ 0) }
    {
        let agent = HeldAgent {
            member,
            rng,
            unsent: VecDeque::new(alloc),
            behind: VecDeque::new(alloc),
            accepted: 0,
        };
        match Box::new(alloc, agent) {
            Ok(held) => Ok(held),
            Err(_) => Err(AllocError),
        }
    }

    /// Takes what the member has put out. It takes memory only if something else was not given yet;
    /// refused, nothing is changed.
    pub fn settle(&mut self) -> Result<(), AllocError>
        ensures all { to_give self.new ≡ to_give self.old }
        ensures none { OnOk result (self.new.member.out.list.items ≡ []) }
        ensures streams { self.new.accepted ≡ self.old.accepted }
    {
        self.unsent.append(&mut self.behind)?;
        self.behind = VecDeque::from_vec(self.member.take_outputs().into_all());
        Ok(())
    }

    /// Tells the member something, at this time. Returns a status.
    pub fn tell(&mut self, now: u64, input: Input<'_>) -> u32
        ensures { Told result self.old self.new }
    {
        match self.step(now, input) {
            Ok(()) => DONE,
            Err(_) => MEMORY,
        }
    }

    /// Tells the member something, at this time.
    pub fn step(&mut self, now: u64, input: Input<'_>) -> Result<(), StepFault>
        ensures { Hears self.old self.new }
    {
        self.settle()?;
        self.member.step(now, input, &mut self.rng)
    }

    /// Tells the member that another one opened a stream, and numbers it. Returns a status.
    pub fn accept(&mut self, now: u64, stream: &mut u64) -> u32
        ensures { AcceptDone result stream.old stream.new self.old self.new }
    {
        if MOST_STREAMS <= self.accepted {
            return OUT_OF_RANGE;
        }
        let number = 2 * self.accepted + 1;
        self.accepted += 1;
        let status = self.tell(now, Input::Accepted { conn: number });
        if status == DONE {
            *stream = number;
        }
        status
    }

    /// Brings what is to be given first to the front of what is unsent, if there is anything.
    pub fn bring(&mut self)
        ensures all { to_give self.new ≡ to_give self.old }
        ensures first { self.new.unsent.items ≡ [] → to_give self.new ≡ [] }
        ensures streams { self.new.accepted ≡ self.old.accepted }
    {
        if !self.unsent.is_empty() {
            return;
        }
        mem::swap(&mut self.unsent, &mut self.behind);
        if self.unsent.is_empty() {
            self.unsent = VecDeque::from_vec(self.member.take_outputs().into_all());
        }
    }
}
