//! What is told at once: suspicions, and the trouble behind them.

use crate::diagnosis::restart;
use crate::episodes::Accuser;
use crate::facts::Facts;
use crate::trouble::Trouble;
use crate::{Case, Episode, Member};
use memberlist_probes::Outcome;
use std::alloc::AllocError;

/// How long before an accusation the probe may be sent that led to it (own), in microseconds.
const BEHIND: u64 = 12_000_000;

/// How long before a suspicion probes of the member are told that had no answer (own).
const BEFORE: u64 = 6_000_000;

/// How far from trouble a suspicion may begin that belongs to it (own).
const NEAR: u64 = 9_000_000;

/// What led to an accusation.
#[derive(Drop)]
pub enum Behind {
    /// A probe of its own.
    Probe(Case),
    /// A push/pull, which brought that another suspects it.
    Hearsay,
    /// Nothing that was captured. Whether a capture was running where it would be.
    Nothing { is_captured: bool },
}

/// An accusation, and what led to it.
#[derive(Drop)]
pub struct Accusation {
    pub by: Member,
    pub time: u64,
    pub behind: Behind,
}

/// A suspicion, and all that is known of it.
#[derive(Drop)]
pub struct Suspicion {
    pub episode: Episode,
    pub accusations: Vec<Accusation>,
    /// The probes of the member that had no answer in time.
    pub probes: Vec<Case>,
    /// How many probes of it were answered in time meanwhile, and whose.
    pub answered: u64,
    pub answered_to: Vec<Member>,
    /// The index of the trouble that explains it.
    pub cause: Option<usize>,
}

/// What is told at once.
#[derive(Drop)]
pub struct Chapter {
    pub suspicions: Vec<Suspicion>,
    pub troubles: Vec<Trouble>,
}

impl Chapter {
    /// Adds a suspicion.
    pub(crate) fn add(&mut self, facts: &Facts, episode: Episode) -> Result<(), AllocError> {
        let alloc = facts.alloc;
        let mut suspicion = Suspicion {
            accusations: Vec::new(alloc),
            probes: Vec::new(alloc),
            answered: 0,
            answered_to: Vec::new(alloc),
            cause: self.cause_of(facts, &episode)?,
            episode,
        };
        for accuser in &suspicion.episode.accusers {
            suspicion.accusations.push(Accusation {
                by: accuser.by,
                time: accuser.time,
                behind: led_to(facts, suspicion.episode.of, *accuser)?,
            })?;
        }
        for case in &facts.cases {
            suspicion.take(facts, case)?;
        }
        suspicion.answered_to.sort_unstable();
        let later = self
            .suspicions
            .iter()
            .position(|other| suspicion.episode.begin < other.episode.begin);
        let place = later.unwrap_or(self.suspicions.len());
        self.suspicions
            .insert(place, suspicion)
            .map_err(AllocError::from)
    }

    /// The index of the trouble that explains a suspicion, or else of a restart of its member.
    fn cause_of(&mut self, facts: &Facts, episode: &Episode) -> Result<Option<usize>, AllocError> {
        if let Some(index) = self.explaining(episode) {
            return Ok(Some(index));
        }
        let end = episode.end().unwrap_or(facts.now);
        let Some(trouble) = restart(facts, episode.of, episode.begin, end)? else {
            return Ok(None);
        };
        let index = self.troubles.len();
        self.troubles.push(trouble)?;
        Ok(Some(index))
    }

    /// The index of the trouble that explains a suspicion: one about the member, or else one with
    /// probes of it. What began after the suspicion ended does not explain it.
    fn explaining(&self, episode: &Episode) -> Option<usize> {
        let of = episode.of;
        let end = episode.end().unwrap_or(u64::MAX);
        let near = |trouble: &Trouble| {
            let from = trouble.begin.saturating_sub(NEAR);
            let is_near = from <= episode.begin
                && episode.begin <= trouble.until.saturating_add(NEAR);
            is_near && trouble.began_before(end)
        };
        let about = self
            .troubles
            .iter()
            .position(|trouble| trouble.of.has(of) && near(trouble));
        match about {
            Some(index) => Some(index),
            None => self
                .troubles
                .iter()
                .position(|trouble| trouble.probes(of) && near(trouble)),
        }
    }
}

impl Suspicion {
    /// Takes in a probe of the member.
    fn take(&mut self, facts: &Facts, case: &Case) -> Result<(), AllocError> {
        let end = self.episode.end().unwrap_or(facts.now);
        if case.target != self.episode.of || case.is_relayed || end < case.time {
            return Ok(());
        }
        if case.is_good() && self.episode.begin <= case.time {
            self.answered = self.answered.saturating_add(1);
            if !self.answered_to.contains(&case.prober) {
                self.answered_to.push(case.prober)?;
            }
        }
        if case.is_bad() && self.episode.begin.saturating_sub(BEFORE) <= case.time {
            self.probes.push(case.try_clone(facts.alloc)?)?;
        }
        Ok(())
    }
}

/// What led to an accusation of the member: the accuser's last probe of it that failed, or else what
/// it heard.
fn led_to(facts: &Facts, of: Member, accuser: Accuser) -> Result<Behind, AllocError> {
    let mut found = None;
    for case in &facts.cases {
        let is_theirs = case.prober == accuser.by && case.target == of && !case.is_relayed;
        let is_timely = case.time < accuser.time && accuser.time < case.time.saturating_add(BEHIND);
        if is_theirs && is_timely && case.is_bad() && case.outcome != Outcome::Indirect {
            found = Some(case);
        }
    }
    Ok(match found {
        Some(case) => Behind::Probe(case.try_clone(facts.alloc)?),
        None if facts.episodes.is_hearsay(accuser.by, of, accuser.time) => Behind::Hearsay,
        None => Behind::Nothing {
            is_captured: facts.is_between || facts.is_captured(accuser.by),
        },
    })
}
