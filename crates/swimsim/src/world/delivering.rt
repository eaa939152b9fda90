//! What a member is told.

use crate::agenda::What;
use crate::failure::Failure;
use crate::host::Standing;
use crate::laws::{Law, messages_in};
use crate::links::End;
use crate::naming::place;
use crate::world::World;
use memberlist_member::{Input, Output};

impl World {
    /// Tells a member something if it runs; if it is stopped that waits.
    pub(crate) fn deliver(&mut self, number: u32, what: What) -> Result<(), Failure> {
        let Some(host) = self.host_mut(number) else {
            return Ok(());
        };
        match host.standing {
            Standing::Down => Ok(()),
            Standing::Paused => {
                host.waiting
                    .push(what)
                    .map_err(std::alloc::AllocError::from)?;
                Ok(())
            }
            Standing::Up => self.tell_what(number, what),
        }
    }

    fn tell_what(&mut self, number: u32, what: What) -> Result<(), Failure> {
        match what {
            What::Wake => self.wake(number),
            What::Datagram { from, bytes } => {
                self.tell(
                    number,
                    Input::Datagram {
                        from: place(from),
                        bytes: &bytes,
                    },
                )
            }
            What::Accepted { conn } => self.tell(number, Input::Accepted { conn }),
            What::Opened { conn } => self.tell(number, Input::Connected { conn }),
            What::Bytes { conn, bytes } => {
                self.tell(
                    number,
                    Input::Received {
                        conn,
                        bytes: &bytes,
                    },
                )
            }
            What::Closed { conn } => {
                self.links.forget(End { host: number, conn });
                self.tell(number, Input::Closed { conn })
            }
        }
    }

    /// Tells a member the time if it wanted to be told it by now; else it is told later.
    fn wake(&mut self, number: u32) -> Result<(), Failure> {
        let now = self.now;
        let Some(host) = self.host_mut(number) else {
            return Ok(());
        };
        if now < host.scheduled {
            return Ok(());
        }
        host.scheduled = u64::MAX;
        if now < host.wake {
            return self.schedule(number);
        }
        self.tell(number, Input::Tick)
    }

    /// Sees to it that a member is told the time when it wants to be.
    fn schedule(&mut self, number: u32) -> Result<(), Failure> {
        let now = self.now;
        let Some(host) = self.host_mut(number) else {
            return Ok(());
        };
        let time = host.wake.max(now.saturating_add(1));
        if host.scheduled <= time {
            return Ok(());
        }
        host.scheduled = time;
        Ok(self.tell_after(time.saturating_sub(now), number, What::Wake)?)
    }

    /// Tells a member something, and does what it then wants.
    pub(crate) fn tell(&mut self, number: u32, input: Input<'_>) -> Result<(), Failure> {
        let Some(host) = self.hosts.get_mut(number as usize) else {
            return Ok(());
        };
        host.member.step(self.now, input, &mut self.rng)?;
        let outputs = host.member.take_outputs().into_all();
        host.wake = host.member.wake();
        let wake = host.wake;
        self.check_wake(&input, number, wake);
        self.check_answers(&input, number, &outputs);
        self.schedule(number)?;
        for output in outputs {
            self.serve(number, output)?;
        }
        Ok(())
    }

    /// After it was told the time a member wants to be told it later.
    fn check_wake(&mut self, input: &Input<'_>, number: u32, wake: u64) {
        if matches!(*input, Input::Tick) && wake <= self.now {
            self.laws.broke(Law::Asleep, number, self.now);
        }
    }

    /// A datagram is answered by at most as many as it has messages.
    fn check_answers(&mut self, input: &Input<'_>, number: u32, outputs: &[Output]) {
        if let Input::Datagram { bytes, .. } = input {
            let sent = outputs
                .iter()
                .filter(|output| matches!(*output, Output::Send { .. }));
            let datagrams = sent.count();
            if messages_in(bytes) < datagrams {
                self.laws.broke(Law::Many, number, self.now);
            }
        }
    }
}
