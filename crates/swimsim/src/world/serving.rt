//! What a member wants done.

use crate::agenda::{Happening, What};
use crate::failure::Failure;
use crate::host::{Line, Standing};
use crate::laws::{Law, MOST_BYTES};
use crate::links::End;
use crate::measured::count;
use crate::naming::number_at;
use crate::world::World;
use memberlist_member::Output;
use rand::RngExt;

impl World {
    /// Does what a member wants, or notes what it tells.
    pub(crate) fn serve(&mut self, number: u32, output: Output) -> Result<(), Failure> {
        match output {
            Output::Send { to, bytes } => match number_at(to) {
                Some(to) => self.send(number, to, bytes),
                None => Ok(()),
            },
            Output::Dial { conn, to } => match number_at(to) {
                Some(to) => self.dial(number, conn, to),
                None => Ok(()),
            },
            Output::Write { conn, bytes } => self.write(End { host: number, conn }, bytes),
            Output::Close { conn } => self.close(End { host: number, conn }),
            Output::Changed {
                name,
                event,
                inc,
                by,
            } => self.observe(number, &name, event, inc, by),
            Output::Unanswered { name, .. } => {
                self.observe_silence(number, &name);
                Ok(())
            }
            Output::Refuted { .. } => {
                count(&mut self.measured.refutations);
                Ok(())
            }
            Output::Departed => {
                self.stop(number);
                Ok(())
            }
            Output::Untold { .. }
            | Output::Exhausted
            | Output::Incompatible { .. }
            | Output::Forgotten { .. }
            | Output::User { .. }
            | Output::UserState { .. } => Ok(()),
        }
    }

    fn line(&self, number: u32) -> Line {
        match self.host(number) {
            Some(host) => host.line,
            None => Line::Cut,
        }
    }

    /// Sends a datagram, which is lost or comes later.
    fn send(&mut self, from: u32, to: u32, bytes: Vec<u8>) -> Result<(), Failure> {
        count(&mut self.measured.packets);
        self.measured.bytes = self.measured.bytes.saturating_add(bytes.len() as u64);
        self.measured.longest = self.measured.longest.max(bytes.len());
        if MOST_BYTES < bytes.len() {
            self.laws.broke(Law::Long, from, self.now);
        }
        let is_lost = self.rng.random_range(0..100u32) < self.run.loss;
        let delay = self.delay();
        if is_lost || self.line(from) != Line::Whole || self.line(to) == Line::Cut {
            return Ok(());
        }
        Ok(self.tell_after(delay, to, What::Datagram { from, bytes })?)
    }

    /// Whether what one member sends over a connection reaches another one.
    fn passes(&self, from: u32, to: u32) -> bool {
        !matches!(self.line(from), Line::OneWay | Line::Cut) && self.line(to) != Line::Cut
    }

    fn dial(&mut self, from: u32, conn: u64, to: u32) -> Result<(), Failure> {
        let time = self.now.saturating_add(self.delay());
        Ok(
            self.agenda
                .add(time, Happening::Dialled { from, conn, to })?,
        )
    }

    /// Opens a connection that a member dialled. Nothing comes of it if the network loses what one of
    /// them sends; if nobody listens the dialling member is told.
    pub(crate) fn connect(&mut self, from: u32, conn: u64, to: u32) -> Result<(), Failure> {
        if !self.passes(from, to) || !self.passes(to, from) {
            return Ok(());
        }
        let delay = self.delay();
        let is_up = match self.host(to) {
            Some(host) => host.standing != Standing::Down,
            None => false,
        };
        if !is_up {
            return Ok(self.tell_after(delay, from, What::Closed { conn })?);
        }
        let other = self.links.connect(End { host: from, conn }, to)?;
        self.tell_after(delay, from, What::Opened { conn })?;
        self.deliver(to, What::Accepted { conn: other.conn })
    }

    /// Writes to a connection. A piece takes as long as any may, so that none overtakes another one.
    fn write(&mut self, one: End, bytes: Vec<u8>) -> Result<(), Failure> {
        let Some(other) = self.links.other(one) else {
            return Ok(());
        };
        if !self.passes(one.host, other.host) {
            return Ok(());
        }
        self.measured.streamed = self.measured.streamed.saturating_add(bytes.len() as u64);
        let what = What::Bytes {
            conn: other.conn,
            bytes,
        };
        Ok(self.tell_after(self.run.delay, other.host, what)?)
    }

    /// Closes an end of a connection, once all that was written has come.
    fn close(&mut self, one: End) -> Result<(), Failure> {
        let Some(other) = self.links.other(one) else {
            return Ok(());
        };
        self.links.forget(one);
        if !self.passes(one.host, other.host) {
            return Ok(());
        }
        Ok(self.tell_after(
            self.run.delay,
            other.host,
            What::Closed { conn: other.conn },
        )?)
    }
}
