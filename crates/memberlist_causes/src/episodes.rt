//! Suspicions, and how they ended.

use crate::{Member, Members};
use std::alloc::{AllocError, Global};
use std::collections::{BTreeMap, VecDeque};

/// How long after a push/pull with a suspicion or a death a member may accuse by it (own), in
/// microseconds.
const HEARSAY: u64 = 1_500_000;

/// What became known of a member.
#[derive(Clone, Copy, PartialEq, Eq)]
pub enum Kind {
    /// It is suspected, by one more member.
    Suspected,
    /// It was declared dead.
    Dead,
    /// It is alive at a greater incarnation.
    Alive,
    /// It left.
    Left,
}

/// What became known of a member, when, and who said so.
#[derive(Clone, Copy)]
pub struct News<'a> {
    /// In microseconds since the start of 1970.
    pub time: u64,
    pub name: &'a [u8],
    pub inc: u32,
    /// Who accuses it; empty if that is not said.
    pub by: &'a [u8],
    pub kind: Kind,
}

/// A member that accuses another in its own name.
#[derive(Clone, Copy)]
pub struct Accuser {
    pub by: Member,
    pub time: u64,
}

/// A death, and who declared it.
#[derive(Clone, Copy)]
pub struct Death {
    pub time: u64,
    pub by: Option<Member>,
}

/// An Alive of the member, which ended a suspicion or came after a death.
#[derive(Clone, Copy)]
pub struct Alive {
    pub time: u64,
    pub inc: u32,
}

/// A suspicion of a member: from its first accusation to its end.
#[derive(Drop)]
pub struct Episode {
    pub of: Member,
    pub inc: u32,
    pub begin: u64,
    pub accusers: Vec<Accuser>,
    pub dead: Option<Death>,
    pub refuted: Option<Alive>,
    /// After a death.
    pub back: Option<Alive>,
    pub left: Option<u64>,
}

impl Episode {
    /// When it ended, if it did.
    pub(crate) fn end(&self) -> Option<u64> {
        match (&self.dead, &self.refuted) {
            (Some(death), _) => Some(death.time),
            (None, Some(alive)) => Some(alive.time),
            (None, None) => self.left,
        }
    }

    fn new(alloc: Global, of: Member, news: &News) -> Episode {
        Episode {
            of,
            inc: news.inc,
            begin: news.time,
            accusers: Vec::new(alloc),
            dead: None,
            refuted: None,
            back: None,
            left: None,
        }
    }

    /// Notes one more accuser.
    fn accuse(&mut self, by: Option<Member>, time: u64) -> Result<(), AllocError> {
        let Some(by) = by else {
            return Ok(());
        };
        if self.accusers.iter().any(|accuser| accuser.by == by) {
            return Ok(());
        }
        self.accusers
            .push(Accuser { by, time })
            .map_err(AllocError::from)
    }
}

/// A push/pull that brought a suspicion or a death.
#[derive(Clone, Copy)]
struct Hearsay {
    time: u64,
    to: Member,
    of: Member,
}

/// A member that left, and when.
#[derive(Clone, Copy)]
pub(crate) struct Leave {
    pub(crate) time: u64,
    pub(crate) of: Member,
}

/// The suspicions that were not told yet.
#[derive(Drop)]
pub(crate) struct Episodes {
    alloc: Global,
    /// Those that go on.
    open: BTreeMap<Member, Episode>,
    /// Those that ended, in the order of their ends.
    pub(crate) ended: VecDeque<Episode>,
    pub(crate) leaves: VecDeque<Leave>,
    hearsay: VecDeque<Hearsay>,
}

impl Episodes {
    /// None yet.
    pub(crate) fn new(alloc: Global) -> Episodes {
        Episodes {
            alloc,
            open: BTreeMap::new(alloc),
            ended: VecDeque::new(alloc),
            leaves: VecDeque::new(alloc),
            hearsay: VecDeque::new(alloc),
        }
    }

    /// Those that go on.
    pub(crate) fn open(&self) -> &BTreeMap<Member, Episode> {
        &self.open
    }

    /// Takes in what became known.
    pub(crate) fn take(&mut self, members: &mut Members, news: &News) -> Result<(), AllocError> {
        let Some(of) = members.named(news.name)? else {
            return Ok(());
        };
        let by = members.named(news.by)?;
        match news.kind {
            Kind::Suspected => self.suspect(of, by, news),
            Kind::Dead => self.die(of, by, news),
            Kind::Alive => self.live(of, news),
            Kind::Left => self.leave(of, news.time),
        }
    }

    fn suspect(&mut self, of: Member, by: Option<Member>, news: &News) -> Result<(), AllocError> {
        if let Some(episode) = self.open.get_mut(&of) {
            return episode.accuse(by, news.time);
        }
        let mut episode = Episode::new(self.alloc, of, news);
        episode.accuse(by, news.time)?;
        self.open.insert(of, episode)?;
        Ok(())
    }

    fn die(&mut self, of: Member, by: Option<Member>, news: &News) -> Result<(), AllocError> {
        let mut episode = match self.open.remove(&of) {
            Some(episode) => episode,
            None => Episode::new(self.alloc, of, news),
        };
        episode.dead = Some(Death {
            time: news.time,
            by,
        });
        self.ended.push_back(episode).map_err(AllocError::from)
    }

    fn live(&mut self, of: Member, news: &News) -> Result<(), AllocError> {
        let alive = Alive {
            time: news.time,
            inc: news.inc,
        };
        if let Some(mut episode) = self.open.remove(&of) {
            episode.refuted = Some(alive);
            return self.ended.push_back(episode).map_err(AllocError::from);
        }
        for episode in &mut self.ended {
            if episode.of == of && episode.dead.is_some() && episode.back.is_none() {
                episode.back = Some(alive);
            }
        }
        Ok(())
    }

    fn leave(&mut self, of: Member, time: u64) -> Result<(), AllocError> {
        self.leaves.push_back(Leave { time, of })?;
        let Some(mut episode) = self.open.remove(&of) else {
            return Ok(());
        };
        episode.left = Some(time);
        self.ended.push_back(episode).map_err(AllocError::from)
    }

    /// Notes that a push/pull brought a member that another is suspected or dead.
    pub(crate) fn note_hearsay(
        &mut self,
        time: u64,
        to: Member,
        of: Member,
    ) -> Result<(), AllocError> {
        self.hearsay
            .push_back(Hearsay { time, to, of })
            .map_err(AllocError::from)
    }

    /// Whether a member that accuses another at this time had it from a push/pull a moment before.
    pub(crate) fn is_hearsay(&self, by: Member, of: Member, time: u64) -> bool {
        self.hearsay.iter().any(|heard| {
            let is_it = heard.to == by && heard.of == of;
            is_it && heard.time <= time && time.saturating_sub(heard.time) <= HEARSAY
        })
    }

    /// Ends those that go on, since the captures end.
    pub(crate) fn finish(&mut self) -> Result<(), AllocError> {
        for _ in 0..self.open.len() {
            let Some((_, episode)) = self.open.pop_first() else {
                break;
            };
            self.ended.push_back(episode)?;
        }
        Ok(())
    }

    /// Forgets what was heard and who left before this time.
    pub(crate) fn forget(&mut self, before: u64) {
        for _ in 0..self.hearsay.len() {
            match self.hearsay.front() {
                Some(heard) if heard.time < before => {
                    let _ = self.hearsay.pop_front();
                }
                _ => break,
            }
        }
        for _ in 0..self.leaves.len() {
            match self.leaves.front() {
                Some(leave) if leave.time < before => {
                    let _ = self.leaves.pop_front();
                }
                _ => break,
            }
        }
    }
}
