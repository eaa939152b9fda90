//! Hearing who leaves and who stays, which changes nothing in memberlist's view.

ghost use Rattle.std.specs.Prelude.{◌≡◌, OnOk};
ghost use Rattle.serf_view.specs.declared.intents.Standing.{Standing};
ghost use Rattle.serf_view.specs.Intents.{intent_of, leave_after, join_after};
ghost use Rattle.swimwatch.specs.Serf.{OthersStay};

use super::Watch;
use crate::heard::sent::Sent;
use crate::heard::serf::intention::{Intention, Turn};
use crate::shown::serf_lines::write_intention;
use crate::shown::serf_objects::write_intention_object;
use crate::text::written::Text;
use memberlist_view::State as MemberState;
use serf_message::{State, StatusTime};
use serf_view::{Standing, left_time};
use std::alloc::{AllocError, Global};
use std::collections::BTreeMap;

impl Watch {
    /// Hears the times of statuses, those of members that left first.
    pub(super) fn statuses(&mut self, sent: Sent, state: &State) -> Result<(), AllocError>
        ensures { self.new.listener ≡ self.old.listener }
    {
        let mut times = times_in(self.alloc, &state.status_times)?;
        self.departures(sent, &state.left_members, &mut times)?;
        self.arrivals(sent, &times)
    }

    /// Hears that members left, and takes their times out.
    fn departures(
        &mut self,
        sent: Sent,
        left: &[Vec<u8>],
        times: &mut Times,
    ) -> Result<(), AllocError>
        ensures { self.new.listener ≡ self.old.listener }
    {
        for name in left {
            let time = times.remove(name.as_slice()).unwrap_or(0);
            self.departed(sent, name, left_time(time))?;
        }
        Ok(())
    }

    /// Hears that members joined.
    fn arrivals(&mut self, sent: Sent, times: &Times) -> Result<(), AllocError>
        ensures { self.new.listener ≡ self.old.listener }
    {
        for (name, time) in times.iter() {
            self.join(sent, name, *time)?;
        }
        Ok(())
    }

    /// Hears that a member has left, as another one's state says.
    fn departed(&mut self, sent: Sent, name: &[u8], time: u64) -> Result<(), AllocError>
        ensures listener { self.new.listener ≡ self.old.listener }
        ensures intent { OnOk result (intent_of self.new.serf.intents name.now
            ≡ leave_after (intent_of self.old.serf.intents name.now) time) }
        ensures others { OthersStay name.now self.old.serf.intents self.new.serf.intents }
    {
        let was_leaving = self.serf.intents.is_leaving(name);
        if !self.serf.intents.leave(name, time)? || was_leaving || !self.is_dead(name)? {
            return Ok(());
        }
        self.show_intention(
            sent,
            &Intention {
                name,
                turn: Turn::Left,
                time,
                pruned: false,
            },
        )
    }

    /// Hears a leave intent.
    pub(super) fn leave(
        &mut self,
        sent: Sent,
        name: &[u8],
        time: u64,
        pruned: bool,
    ) -> Result<(), AllocError>
        ensures listener { self.new.listener ≡ self.old.listener }
        ensures intent { OnOk result (intent_of self.new.serf.intents name.now
            ≡ leave_after (intent_of self.old.serf.intents name.now) time) }
        ensures others { OthersStay name.now self.old.serf.intents self.new.serf.intents }
    {
        if !self.serf.intents.leave(name, time)? {
            return Ok(());
        }
        let turn = match self.standing(name)? {
            Standing::Up | Standing::Unknown => Turn::Leaving,
            Standing::Down if pruned || self.is_dead(name)? => Turn::Forced,
            Standing::Down => return Ok(()),
        };
        self.show_intention(
            sent,
            &Intention {
                name,
                turn,
                time,
                pruned,
            },
        )
    }

    /// Hears a join intent. It shows only if it takes back that the member leaves.
    pub(super) fn join(&mut self, sent: Sent, name: &[u8], time: u64) -> Result<(), AllocError>
        ensures listener { self.new.listener ≡ self.old.listener }
        ensures intent { OnOk result ((standing : Standing) ×
            (intent_of self.new.serf.intents name.now
            ≡ join_after (intent_of self.old.serf.intents name.now) time standing)) }
        ensures others { OthersStay name.now self.old.serf.intents self.new.serf.intents }
    {
        let was_leaving = self.serf.intents.is_leaving(name);
        let standing = self.standing(name)?;
        let is_news = self.serf.intents.join(name, time, standing)?;
        if !is_news || !was_leaving || self.serf.intents.is_leaving(name) {
            return Ok(());
        }
        self.show_intention(
            sent,
            &Intention {
                name,
                turn: Turn::Stays,
                time,
                pruned: false,
            },
        )
    }

    /// Where memberlist has a member.
    fn standing(&self, name: &[u8]) -> Result<Standing, AllocError> {
        let Some(entry) = self.listener.entry_of(name)? else {
            return Ok(Standing::Unknown);
        };
        Ok(match entry.state {
            MemberState::Noted => Standing::Unknown,
            MemberState::Seen | MemberState::Alive | MemberState::Suspect { .. } => Standing::Up,
            MemberState::Dead { .. } | MemberState::Left => Standing::Down,
        })
    }

    /// Whether a member is dead, and did not say so itself.
    fn is_dead(&self, name: &[u8]) -> Result<bool, AllocError> {
        let entry = self.listener.entry_of(name)?;
        Ok(entry.is_some_and(|entry| matches!(entry.state, MemberState::Dead { .. })))
    }

    /// Shows what an intent makes of a member.
    fn show_intention(&mut self, sent: Sent, intention: &Intention) -> Result<(), AllocError>
        ensures listener { self.new.listener ≡ self.old.listener }
        ensures serf { self.new.serf ≡ self.old.serf }
    {
        let is_shown = self.is_shown(intention.name) && self.is_timely(sent.time);
        if !self.verb.tells_news() || !is_shown || self.events {
            return Ok(());
        }
        let mut line = Text::new(self.alloc);
        let is_origin = self.serf.is_origin(&sent);
        if self.json {
            write_intention_object(&mut line, &self.listener, &sent, intention, is_origin);
        } else {
            write_intention(&mut line, &self.listener, &sent, intention, is_origin);
        }
        let words = intention.turn.words();
        let key = self.intention_key(words, intention.name, intention.time)?;
        self.tell(key, line.end()?)
    }

    /// What makes news of an intent another one than others.
    fn intention_key(&self, words: &str, name: &[u8], time: u64) -> Result<String, AllocError> {
        let mut key = format!(in self.alloc; "{words} {time} ")?;
        key.push_str(&hex::encode(self.alloc, name)?)?;
        Ok(key)
    }
}

/// The time of each name's status. Of a name that comes twice the last one counts, as in Serf.
type Times = BTreeMap<Vec<u8>, u64>;

fn times_in(alloc: Global, statuses: &[StatusTime]) -> Result<Times, AllocError> {
    let mut times = BTreeMap::new(alloc);
    for status in statuses {
        times.insert(status.node.to_vec(alloc)?, status.time)?;
    }
    Ok(times)
}
