//! Following how news spreads.

ghost use Rattle.std.specs.Prelude.{◌≡◌};

use super::Watch;
use crate::arguments::chosen::{Chosen, Verb};
use crate::heard::sent::Sent;
use crate::heard::told::Told;
use crate::shown::spread::{Shown, Spread, write_spread, write_spread_objects};
use memberlist_view::Said;
use std::alloc::{AllocError, Global};

/// What follows news, if that is asked for.
pub(super) fn spread_of(alloc: Global, chosen: &Chosen) -> Option<Spread> {
    match chosen.verb {
        Verb::Spread => Some(Spread::new(alloc)),
        _ => None,
    }
}

impl Watch {
    /// Takes in that a packet was captured.
    pub(super) fn spread_packet(&mut self, sent: &Sent) -> Result<(), AllocError>
        ensures { self.new.listener ≡ self.old.listener }
    {
        match &mut self.spread {
            Some(spread) => spread.packet(self.notes.capture, sent),
            None => Ok(()),
        }
    }

    /// Takes in that an agent sent something.
    pub(super) fn spread_sender(&mut self, sent: &Sent) -> Result<(), AllocError>
        ensures { self.new.listener ≡ self.old.listener }
    {
        match &mut self.spread {
            Some(spread) => spread.sender(&self.listener, sent),
            None => Ok(()),
        }
    }

    /// Takes in what a message says, if that may be news.
    pub(super) fn spread_news(&mut self, sent: &Sent, told: &Told) -> Result<(), AllocError>
        ensures { self.new.listener ≡ self.old.listener }
    {
        match &mut self.spread {
            Some(spread) => spread.news(&self.listener, self.notes.capture, sent, told),
            None => Ok(()),
        }
    }

    /// Takes in that this will be heard, which may move a member.
    pub(super) fn spread_move(&mut self, said: &Said) -> Result<(), AllocError>
        ensures { self.new.listener ≡ self.old.listener }
    {
        match &mut self.spread {
            Some(spread) => spread.settle(&self.listener, said),
            None => Ok(()),
        }
    }

    /// Shows how news spread.
    pub(super) fn show_spread(&mut self) -> Result<(), AllocError>
        ensures { self.new.listener ≡ self.old.listener }
    {
        let Some(spread) = &mut self.spread else {
            return Ok(());
        };
        spread.finish()?;
        self.counts.crowded = spread.left_out;
        let shown = Shown {
            member: &self.member,
            window: self.window,
        };
        if self.json {
            write_spread_objects(&mut self.out, spread, &self.listener, shown)
        } else {
            write_spread(&mut self.out, spread, &self.listener, shown)
        }
    }
}
