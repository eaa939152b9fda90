//! Why members were suspected, from what captures tell.

use crate::chapter::Chapter;
use crate::diagnosis::diagnose;
use crate::facts::Facts;
use crate::numbers::Ping;
use crate::restarts::Restart;
use crate::words::{Saying, Word};
use crate::{Case, Episode, Members, News};
use memberlist_message::Message;
use memberlist_probes::{Captures, Observed, Probe, Segment, Sighting, Timing};
use std::alloc::{AllocError, Global};
use std::net::SocketAddr;

/// How long there may be between two failed probes of one scene (own), in microseconds.
const PAUSE: u64 = 9_000_000;

/// How long a scene may be (own). What goes on then is told as another one.
const LONGEST: u64 = 600_000_000;

/// How long facts are kept when nothing is in trouble (own).
const KEPT: u64 = 60_000_000;

/// How long before trouble they are kept (own).
const KEPT_BEFORE: u64 = 15_000_000;

/// How often what can be told is looked for (own).
const STEP: u64 = 1_000_000;

/// The most probes that are kept (own). With one more the oldest is forgotten.
const MAX_CASES: usize = 524_288;

/// The time in which probes failed.
#[derive(Clone, Copy)]
struct Stretch {
    begin: u64,
    last: u64,
}

/// Why members were suspected. What is taken in comes in the order of its times, as far as the clocks
/// of the captures agree, and probes when they are over.
#[derive(Drop)]
pub struct Causes {
    facts: Facts,
    /// The time of the last failed probe that was told of.
    judged: u64,
    /// When it was looked last.
    looked: u64,
}

impl Causes {
    /// With nothing taken in.
    pub fn new(alloc: Global) -> Causes {
        Causes {
            facts: Facts::new(alloc),
            judged: 0,
            looked: 0,
        }
    }

    /// The members.
    pub fn members(&self) -> &Members {
        &self.facts.members
    }

    /// memberlist's `ProbeTimeout`, in microseconds, as it was when something was told last.
    pub fn timeout(&self) -> u64 {
        self.facts.timeout
    }

    /// Takes in a message of a datagram.
    ///
    /// # Errors
    ///
    /// `AllocError` if out of memory.
    pub fn message(&mut self, packet: Observed, message: &Message) -> Result<(), AllocError> {
        let members = &mut self.facts.members;
        let time = packet.seen.time;
        let saying = match message {
            Message::Ping(ping) => {
                members.note(packet.from, &ping.source_node, true, time)?;
                members.note(packet.to, &ping.node, false, time)?;
                Saying::Ping(ping.seq_no)
            }
            Message::IndirectPing(ping) => {
                members.note(packet.from, &ping.source_node, true, time)?;
                Saying::Other
            }
            Message::Ack(_) => Saying::Ack,
            _ => Saying::Other,
        };
        self.say(time, packet.from, packet.to, saying)
    }

    /// Takes in a stream from one end to another.
    ///
    /// # Errors
    ///
    /// `AllocError` if out of memory.
    pub fn stream(
        &mut self,
        time: u64,
        from: SocketAddr,
        to: SocketAddr,
    ) -> Result<(), AllocError> {
        self.say(time, from, to, Saying::Other)
    }

    fn say(
        &mut self,
        time: u64,
        from: SocketAddr,
        to: SocketAddr,
        saying: Saying,
    ) -> Result<(), AllocError> {
        self.facts.now = self.facts.now.max(time);
        let Some(member) = self.facts.members.at(from) else {
            return Ok(());
        };
        if let Saying::Ping(number) = saying {
            self.facts
                .restarts
                .ping(member, from, Ping { time, number })?;
        }
        let to = self.facts.members.at(to);
        self.facts.words.note(member, Word { time, to, saying })
    }

    /// Takes in a segment of TCP.
    ///
    /// # Errors
    ///
    /// `AllocError` if out of memory.
    pub fn segment(&mut self, packet: Observed, segment: Segment) -> Result<(), AllocError> {
        let facts = &mut self.facts;
        facts.contacts.segment(&facts.members, packet, segment)
    }

    /// Takes in that a host refused a datagram from one end to another.
    ///
    /// # Errors
    ///
    /// `AllocError` if out of memory.
    pub fn refusal(
        &mut self,
        seen: Sighting,
        from: SocketAddr,
        to: SocketAddr,
    ) -> Result<(), AllocError> {
        let facts = &mut self.facts;
        facts.contacts.refuse(&facts.members, seen, (from, to))
    }

    /// Takes in what became known of a member.
    ///
    /// # Errors
    ///
    /// `AllocError` if out of memory.
    pub fn news(&mut self, news: &News) -> Result<(), AllocError> {
        self.facts.episodes.take(&mut self.facts.members, news)
    }

    /// Takes in that a push/pull brought to an end that a member is suspected or dead.
    ///
    /// # Errors
    ///
    /// `AllocError` if out of memory.
    pub fn hearsay(&mut self, time: u64, to: SocketAddr, of: &[u8]) -> Result<(), AllocError> {
        let facts = &mut self.facts;
        let (Some(to), Some(of)) = (facts.members.at(to), facts.members.named(of)?) else {
            return Ok(());
        };
        facts.episodes.note_hearsay(time, to, of)
    }

    /// Takes in a probe that is over.
    ///
    /// # Errors
    ///
    /// `AllocError` if out of memory.
    pub fn probe(
        &mut self,
        probe: &Probe,
        captures: &Captures,
        timing: &Timing,
        end: u64,
    ) -> Result<(), AllocError> {
        let facts = &mut self.facts;
        let case = Case::of(
            facts.alloc,
            &mut facts.members,
            probe,
            captures,
            timing,
            end,
        )?;
        let Some(case) = case else {
            return Ok(());
        };
        if MAX_CASES <= facts.cases.len() {
            let _ = facts.cases.pop_front();
        }
        facts.cases.push_back(case).map_err(AllocError::from)
    }

    /// What can be told, now that all probes that were sent before this time are over. It is called
    /// again until it tells nothing more.
    ///
    /// # Errors
    ///
    /// `AllocError` if out of memory.
    pub fn told(
        &mut self,
        settled: u64,
        captures: &Captures,
        timing: &Timing,
    ) -> Result<Option<Chapter>, AllocError> {
        if settled < self.looked.saturating_add(STEP) {
            return Ok(None);
        }
        let stretch = self.stretch();
        let open = self.facts.episodes.open();
        let is_over = |stretch: &Stretch| {
            let latest = stretch.last.saturating_add(PAUSE);
            let is_open = open.values().any(|episode| episode.begin <= latest);
            let is_long = stretch.begin.saturating_add(LONGEST) < settled;
            latest < settled && (!is_open || is_long)
        };
        if let Some(stretch) = stretch.filter(is_over) {
            self.facts.look(captures, timing)?;
            return self.scene(stretch);
        }
        if let Some(index) = self.lone(stretch, settled) {
            self.facts.look(captures, timing)?;
            return self.alone(index);
        }
        if let Some(restart) = self.restart(stretch, settled) {
            return self.restarted(restart);
        }
        self.looked = settled;
        self.forget(stretch, settled);
        Ok(None)
    }

    /// What is left to tell, since the captures end: all probes are over, and all suspicions stay as
    /// they are. It is called again until it tells nothing more.
    ///
    /// # Errors
    ///
    /// `AllocError` if out of memory.
    pub fn finish(
        &mut self,
        captures: &Captures,
        timing: &Timing,
    ) -> Result<Option<Chapter>, AllocError> {
        self.facts.episodes.finish()?;
        self.facts.look(captures, timing)?;
        if let Some(stretch) = self.stretch() {
            return self.scene(stretch);
        }
        if let Some(index) = self.lone(None, u64::MAX) {
            return self.alone(index);
        }
        match self.restart(None, u64::MAX) {
            Some(restart) => self.restarted(restart),
            None => Ok(None),
        }
    }

    /// The first stretch of failed probes that was not told of.
    fn stretch(&self) -> Option<Stretch> {
        let mut found: Option<Stretch> = None;
        for case in &self.facts.cases {
            if !case.is_bad() || case.time <= self.judged {
                continue;
            }
            let time = case.time;
            let Some(stretch) = &mut found else {
                found = Some(Stretch {
                    begin: time,
                    last: time,
                });
                continue;
            };
            let is_long = stretch.begin.saturating_add(LONGEST) < time;
            if stretch.last.saturating_add(PAUSE) < time || is_long {
                break;
            }
            stretch.begin = stretch.begin.min(time);
            stretch.last = stretch.last.max(time);
        }
        found
    }

    /// Tells of a stretch, and of the suspicions that belong to it.
    fn scene(&mut self, stretch: Stretch) -> Result<Option<Chapter>, AllocError> {
        let alloc = self.facts.alloc;
        self.judged = stretch.last;
        let mut chapter = Chapter {
            suspicions: Vec::new(alloc),
            troubles: diagnose(&self.facts, stretch.begin, stretch.last)?,
        };
        let mut until = stretch.last;
        for trouble in &chapter.troubles {
            until = until.max(trouble.until);
        }
        for _ in 0..self.facts.episodes.ended.len() {
            let Some(episode) = self.facts.episodes.ended.pop_front() else {
                break;
            };
            if is_near(&episode, stretch.begin, until) && !self.is_later(&episode) {
                chapter.add(&self.facts, episode)?;
            } else {
                self.facts.episodes.ended.push_back(episode)?;
            }
        }
        self.note_told(&chapter)?;
        Ok(Some(chapter))
    }

    /// Whether a suspicion belongs to a later stretch: a probe of its member failed before it, of which
    /// nothing is told yet.
    fn is_later(&self, episode: &Episode) -> bool {
        self.facts.cases.iter().any(|case| {
            let is_untold = self.judged < case.time && case.time <= episode.begin;
            is_untold && case.target == episode.of && case.is_bad()
        })
    }

    /// Forgets the restarts of which this tells.
    fn note_told(&mut self, chapter: &Chapter) -> Result<(), AllocError> {
        for trouble in &chapter.troubles {
            let from = trouble.begin.saturating_sub(PAUSE);
            let to = trouble.until.saturating_add(PAUSE);
            self.facts.restarts.told(trouble, from, to)?;
        }
        Ok(())
    }

    /// The first restart that is over, to which no failed probes belong, unless it follows a leave.
    fn restart(&mut self, stretch: Option<Stretch>, settled: u64) -> Option<Restart> {
        for _ in 0..self.facts.restarts.all.len() {
            let restart = self.facts.restarts.all.front().copied()?;
            let belongs = match stretch {
                Some(stretch) => stretch.begin <= restart.after.saturating_add(PAUSE),
                None => false,
            };
            if belongs || settled <= restart.after.saturating_add(PAUSE) {
                return None;
            }
            let _ = self.facts.restarts.all.pop_front();
            let is_after_leave = self.facts.episodes.leaves.iter().any(|leave| leave.of
                == restart.of
                && restart.is_after_leave(leave.time));
            if !is_after_leave {
                return Some(restart);
            }
        }
        None
    }

    /// Tells of a restart to which no suspicion and no failed probe belongs.
    fn restarted(&mut self, restart: Restart) -> Result<Option<Chapter>, AllocError> {
        let alloc = self.facts.alloc;
        let mut chapter = Chapter {
            suspicions: Vec::new(alloc),
            troubles: Vec::new(alloc),
        };
        chapter
            .troubles
            .push(restart.trouble(alloc, &self.facts.contacts)?)?;
        Ok(Some(chapter))
    }

    /// The index of a suspicion that ended, to which no failed probes belong.
    fn lone(&self, stretch: Option<Stretch>, settled: u64) -> Option<usize> {
        self.facts.episodes.ended.iter().position(|episode| {
            let end = episode.end().unwrap_or(episode.begin);
            let belongs = match stretch {
                Some(stretch) => is_near(episode, stretch.begin, stretch.last),
                None => false,
            };
            end.saturating_add(PAUSE) < settled && !belongs
        })
    }

    /// Tells of a suspicion to which no failed probes belong.
    fn alone(&mut self, index: usize) -> Result<Option<Chapter>, AllocError> {
        let alloc = self.facts.alloc;
        let Some(episode) = self.facts.episodes.ended.remove(index) else {
            return Ok(None);
        };
        let mut chapter = Chapter {
            suspicions: Vec::new(alloc),
            troubles: Vec::new(alloc),
        };
        chapter.add(&self.facts, episode)?;
        self.note_told(&chapter)?;
        Ok(Some(chapter))
    }

    /// Forgets what is not needed to tell of what is to come.
    fn forget(&mut self, stretch: Option<Stretch>, settled: u64) {
        let mut needed = settled.saturating_sub(KEPT);
        if let Some(stretch) = stretch {
            needed = needed.min(stretch.begin.saturating_sub(KEPT_BEFORE));
        }
        let episodes = &self.facts.episodes;
        for episode in episodes.ended.iter().chain(episodes.open().values()) {
            needed = needed.min(episode.begin.saturating_sub(KEPT_BEFORE));
        }
        let least = settled.saturating_sub(LONGEST).saturating_sub(KEPT);
        self.facts.forget(needed.max(least));
    }
}

/// Whether a suspicion belongs to failed probes of this time.
fn is_near(episode: &Episode, begin: u64, until: u64) -> bool {
    begin.saturating_sub(PAUSE) <= episode.begin && episode.begin <= until.saturating_add(PAUSE)
}
