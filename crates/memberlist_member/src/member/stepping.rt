//! What the member does with what it is told.

ghost use Rattle.std.specs.Prelude.{◌≡◌, ◌≤◌, OnOk, if◌then◌else◌, max};
ghost use Rattle.memberlist_member.specs.Staying.{Adds, ShowsTheSame, Stays};
ghost use Rattle.memberlist_member.specs.Steps.{Comes, Does, Probes, PutsAtMost, Shows};
ghost use Rattle.memberlist_member.specs.Traffic.{is_datagram, is_dial, is_write};
ghost use Rattle.memberlist_member.specs.Showing.{KeepsLines, GoesOn};

use crate::fault::StepFault;
use crate::input::Input;
use crate::member::Member;
use crate::output::Output;
use rand_core::Rng;
use std::alloc::AllocError;

impl Member {
    /// Tells it something, at this time in microseconds, which never falls.
    ///
    /// # Errors
    ///
    /// `Memory` if out of memory: what was told is then heeded in part, as if the rest were lost.
    /// `TooLong` if it is metadata of more than 512 bytes, or a message that fits no datagram.
    pub fn step<R: Rng>(&mut self, now: u64, input: Input<'_>, rng: &mut R) -> Result<(), StepFault>
        ensures time { self.new.time ≡ max self.old.time now }
        ensures same { (self.new.settings ≡ self.old.settings) × (self.new.cover ≡ self.old.cover)
            × (self.new.own.name ≡ self.old.own.name) × (self.old.own.inc ≤ self.new.own.inc) }
        ensures puts { PutsAtMost input.entry self.old self.new }
        ensures does { OnOk result (Does input.entry self.old self.new) }
        ensures shows { Shows input.entry self.old self.new }
        ensures probes { Probes input.entry self.old self.new }
        ensures comes { Comes input.entry self.old self.new }
    {
        self.time = self.time.max(now);
        match input {
            Input::Tick => self.tick(rng)?,
            Input::Datagram { from, bytes } => self.take_datagram(from, bytes, rng)?,
            Input::Accepted { conn } => self.take_connection(conn)?,
            Input::Connected { conn } => self.write_first(conn)?,
            Input::Received { conn, bytes } => self.take_bytes(conn, bytes, rng)?,
            Input::Closed { conn } => self.end_connection(conn, rng)?,
            Input::Join { seeds } => self.join(seeds, rng)?,
            Input::Leave => self.leave(rng)?,
            Input::Update { meta } => return self.update(meta, rng),
            Input::Say { bytes } => return self.say(bytes),
            Input::State { bytes } => self.set_state(bytes)?,
        }
        Ok(())
    }

    /// Puts out something.
    pub(crate) fn put(&mut self, output: Output) -> Result<(), AllocError>
        ensures adds { Adds (if is_datagram output then 1 else 0) (if is_dial output then 1 else 0)
            (if is_write output then 1 else 0) self.old self.new }
        ensures stays { Stays self.old self.new }
        ensures goes { GoesOn self.old self.new }
        ensures own { self.new.own ≡ self.old.own }
        ensures lines { KeepsLines self.old self.new }
        ensures shown { ShowsTheSame self.old self.new }
    {
        self.out.push(output)
    }

    /// The number of the next ping.
    pub(crate) fn next_seq(&mut self) -> u32
        ensures adds { Adds 0 0 0 self.old self.new }
        ensures stays { Stays self.old self.new }
        ensures goes { GoesOn self.old self.new }
        ensures lines { KeepsLines self.old self.new }
    {
        self.seq = self.seq.wrapping_add(1);
        self.seq
    }
}
