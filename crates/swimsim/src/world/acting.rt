//! What a scenario does.

use crate::failure::Failure;
use crate::host::{Line, Standing};
use crate::scenario::Act;
use crate::world::World;
use memberlist_member::Input;

impl World {
    /// Does something to a member.
    pub(crate) fn act(&mut self, act: Act) -> Result<(), Failure> {
        let last = self.last();
        match act {
            Act::Change => self.change_meta(),
            Act::Kill => {
                self.stop(last);
                Ok(())
            }
            Act::Restart => {
                self.restart(last)?;
                self.look_again()
            }
            Act::Cut => self.trouble_line(last, Line::Cut),
            Act::Mute => self.trouble_line(last, Line::Mute),
            Act::OneWay => self.trouble_line(last, Line::OneWay),
            Act::Mend => self.mend(last),
            Act::Pause => self.pause(last),
            Act::Resume => self.resume(last),
            Act::Leave => self.leave(last),
            Act::Look => self.look_again(),
        }
    }

    /// The first member changes its metadata; all that are here are to hear of it.
    fn change_meta(&mut self) -> Result<(), Failure> {
        let here = self.hosts.iter().filter(|host| host.is_here()).count();
        let others = u32::try_from(here).unwrap_or(u32::MAX).saturating_sub(1);
        self.measured.told.expect(others);
        if let Some(host) = self.host(0) {
            self.change = host.member.inc().checked_add(1);
        }
        self.tell(0, Input::Update { meta: &[1] })
    }

    /// A member ends, and all its connections.
    pub(crate) fn stop(&mut self, number: u32) {
        if let Some(host) = self.host_mut(number) {
            host.standing = Standing::Down;
            host.trouble();
        }
        self.links.forget_all(number);
    }

    fn trouble_line(&mut self, number: u32, line: Line) -> Result<(), Failure> {
        if let Some(host) = self.host_mut(number) {
            host.line = line;
            host.trouble();
        }
        Ok(())
    }

    fn mend(&mut self, number: u32) -> Result<(), Failure> {
        let now = self.now;
        if let Some(host) = self.host_mut(number) {
            host.line = Line::Whole;
            host.recover(now);
        }
        self.look_again()
    }

    fn pause(&mut self, number: u32) -> Result<(), Failure> {
        if let Some(host) = self.host_mut(number) {
            host.standing = Standing::Paused;
            host.trouble();
        }
        Ok(())
    }

    /// A member goes on: what waits comes in its order, at once.
    fn resume(&mut self, number: u32) -> Result<(), Failure> {
        let (now, empty) = (self.now, Vec::new(self.alloc));
        let Some(host) = self.host_mut(number) else {
            return Ok(());
        };
        host.standing = Standing::Up;
        host.recover(now);
        let waiting = std::mem::replace(&mut host.waiting, empty);
        for what in waiting {
            self.deliver(number, what)?;
        }
        self.look_again()
    }

    fn leave(&mut self, number: u32) -> Result<(), Failure> {
        if let Some(host) = self.host_mut(number) {
            host.is_leaving = true;
            host.trouble();
        }
        self.tell(number, Input::Leave)
    }
}
