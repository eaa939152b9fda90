//! The member that failed probes touch, and what was captured of it meanwhile.

use crate::contacts::Answer;
use crate::evidence::{Numbers, place_of};
use crate::facts::Facts;
use crate::members::Heir;
use crate::numbers::{Silence, numbers_of};
use crate::scene::{Scene, end_of};
use crate::words::Saying;
use crate::{Case, Member, Tried, Word};
use memberlist_probes::{Delays, Explanation};
use std::alloc::{AllocError, Global};

/// How long after a ping something of the target may have been sent before it (own), in
/// microseconds.
const CROSSING: u64 = 20_000;

/// How long before the first failed probe what a host did counts (own).
const BEFORE: u64 = 500_000;

/// How long before the first failed probe handshakes count (own).
const SHAKEN: u64 = 1_000_000;

/// How long before the first failed probe another member at its address and port explains it (own).
const HEIR_BEFORE: u64 = 12_000_000;

/// The greatest number of a ping of a process that has just begun (own).
const FIRST: u32 = 8;

/// What the host of the member did meanwhile.
#[derive(Drop)]
pub(crate) struct Host {
    /// How often it refused, and when first.
    pub(crate) refusals: u64,
    pub(crate) first_refusal: u64,
    pub(crate) accepted: u64,
    pub(crate) half_open: u64,
    /// How long the handshakes took in which it is an end.
    pub(crate) handshakes: Delays,
}

/// What its agent did meanwhile.
#[derive(Clone, Copy)]
pub(crate) struct Agent {
    /// How many words it sent until all was over.
    pub(crate) words: u64,
    /// How many it sent until the last failed probe, and how many of them are acks.
    pub(crate) meanwhile: u64,
    pub(crate) acks: u64,
    /// The longest silence.
    pub(crate) silence: Silence,
    /// From its last word before the first failed probe of it to the first one after the last, or else
    /// the last time of a packet.
    pub(crate) around: Silence,
    /// Whether a process with small numbers began after its host refused.
    pub(crate) is_new: bool,
}

/// The member that failed probes touch, and what was captured of it meanwhile.
#[derive(Drop)]
pub(crate) struct Subject<'a> {
    pub(crate) facts: &'a Facts,
    pub(crate) member: Member,
    /// The probes of it and by it that had no answer in time, and those that had.
    pub(crate) to: Vec<&'a Case>,
    pub(crate) from: Vec<&'a Case>,
    /// Those without an answer that no capture has.
    pub(crate) unseen: Vec<&'a Case>,
    pub(crate) good_to: Vec<&'a Case>,
    pub(crate) good_from: Vec<&'a Case>,
    pub(crate) begin: u64,
    pub(crate) end: u64,
    pub(crate) host: Host,
    pub(crate) agent: Agent,
    pub(crate) numbers: Option<Numbers>,
    /// How late the answers were that came late, from it and to it.
    pub(crate) late_from: Delays,
    pub(crate) late_to: Delays,
    /// What happened to probes of it, and to its own, where only one thing may have.
    pub(crate) of_it: [u64; 7],
    pub(crate) of_own: [u64; 7],
}

impl<'a> Subject<'a> {
    /// The member, and what was captured of it while these probes failed.
    pub(crate) fn of(
        scene: &Scene<'a>,
        member: Member,
        bad: &[&'a Case],
    ) -> Result<Subject<'a>, AllocError> {
        let facts = scene.facts;
        let (begin, last) = span_of(bad);
        let end = end_of(facts, Some(member), (begin, last));
        let mut subject = Subject::new(facts, member, (begin, end));
        for case in bad {
            subject.take_bad(case)?;
        }
        subject.take_answered(scene, last)?;
        let first = subject
            .to
            .iter()
            .map(|case| case.time)
            .min()
            .unwrap_or(begin);
        subject.meet_host(first)?;
        subject.hear_agent(first, last);
        subject.numbers = numbers_of(facts, member, first, end);
        Ok(subject)
    }

    /// The member between these times, with nothing taken in.
    fn new(facts: &'a Facts, member: Member, (begin, end): (u64, u64)) -> Subject<'a> {
        let alloc = facts.alloc;
        Subject {
            facts,
            member,
            to: Vec::new(alloc),
            from: Vec::new(alloc),
            unseen: Vec::new(alloc),
            good_to: Vec::new(alloc),
            good_from: Vec::new(alloc),
            begin,
            end,
            host: Host::new(alloc),
            agent: Agent::new(facts.now),
            numbers: None,
            late_from: Delays::new(alloc),
            late_to: Delays::new(alloc),
            of_it: [0; 7],
            of_own: [0; 7],
        }
    }

    /// Takes in the probes of the scene that were answered in time until this time.
    fn take_answered(&mut self, scene: &Scene<'a>, last: u64) -> Result<(), AllocError> {
        for case in &scene.good {
            if self.begin <= case.time && case.time <= last {
                self.take_good(case)?;
            }
        }
        Ok(())
    }

    /// Takes in a probe that had no answer in time.
    fn take_bad(&mut self, case: &'a Case) -> Result<(), AllocError> {
        if !case.is_seen {
            return self.unseen.push(case).map_err(AllocError::from);
        }
        let timeout = self.facts.timeout;
        let is_of_it = case.target == self.member;
        if is_of_it {
            self.to.push(case)?;
        } else if case.prober == self.member {
            self.from.push(case)?;
        } else {
            return Ok(());
        }
        if let Some(explanation) = case.only() {
            if is_of_it {
                add_one(&mut self.of_it, explanation);
            } else {
                add_one(&mut self.of_own, explanation);
            }
        }
        match case.round_trip {
            Some(time) if timeout < time && is_of_it => self.late_from.note(time),
            Some(time) if timeout < time => self.late_to.note(time),
            _ => Ok(()),
        }
    }

    /// Takes in a probe that was answered in time.
    fn take_good(&mut self, case: &'a Case) -> Result<(), AllocError> {
        if case.target == self.member {
            self.good_to.push(case)?;
        } else if case.prober == self.member {
            self.good_from.push(case)?;
        }
        Ok(())
    }

    /// Takes in what its host did. `first` is when the first failed probe of it was sent.
    fn meet_host(&mut self, first: u64) -> Result<(), AllocError> {
        let from = first.saturating_sub(BEFORE);
        let shaken = self.begin.saturating_sub(SHAKEN);
        for contact in self.facts.contacts.all() {
            let is_at_it = contact.at == self.member;
            if let Some(took) = contact.took {
                let is_end = is_at_it || contact.by == Some(self.member);
                if is_end && shaken <= contact.time && contact.time <= self.end {
                    self.host.handshakes.note(took)?;
                }
            }
            if is_at_it && from <= contact.time && contact.time <= self.end {
                self.host.take(contact.time, contact.answer);
            }
        }
        Ok(())
    }

    /// Takes in what its agent sent after the first failed probe of it. `until` is when the last one
    /// was sent that touches it.
    fn hear_agent(&mut self, first: u64, until: u64) {
        let begun = first.saturating_add(CROSSING);
        self.agent.around.from = first;
        let mut last = first;
        let mut longest = Silence {
            from: first,
            to: first,
        };
        let mut is_begun = false;
        if let Some(words) = self.facts.words.of(self.member) {
            for word in words {
                if word.time <= begun {
                    last = word.time;
                    self.agent.around.from = last;
                    continue;
                }
                if until < word.time && word.time < self.agent.around.to {
                    self.agent.around.to = word.time;
                }
                if self.end <= word.time {
                    break;
                }
                if !is_begun {
                    is_begun = true;
                    longest = Silence {
                        from: last,
                        to: last,
                    };
                }
                longest = longer(longest, last, word.time);
                last = word.time;
                self.agent.hear(word, self.host.first_refusal, until);
            }
        }
        self.agent.silence = longer(longest, last, self.end);
    }

    /// The member that took its address and port about this time, if one did.
    pub(crate) fn heir(&self) -> Option<Heir> {
        let heir = self.facts.members.heir(self.member)?;
        let from = self.begin.saturating_sub(HEIR_BEFORE);
        let is_timely = from <= heir.time && heir.time <= self.end;
        if is_timely { Some(heir) } else { None }
    }

    /// How many probes of it only this may have happened to.
    pub(crate) fn of_it(&self, explanation: Explanation) -> u64 {
        self.of_it.get(place_of(explanation)).copied().unwrap_or(0)
    }

    /// How many of its own probes only this may have happened to.
    pub(crate) fn of_own(&self, explanation: Explanation) -> u64 {
        self.of_own.get(place_of(explanation)).copied().unwrap_or(0)
    }

    /// How many captured probes of it or by it had no answer in time.
    pub(crate) fn failed(&self) -> u64 {
        (self.to.len() as u64).saturating_add(self.from.len() as u64)
    }

    /// How many had one.
    pub(crate) fn answered(&self) -> u64 {
        (self.good_to.len() as u64).saturating_add(self.good_from.len() as u64)
    }

    /// How many probes of it met a host that accepts and an agent that is mute.
    pub(crate) fn mute(&self) -> u64 {
        self.to.iter().filter(|case| case.is_mute).count() as u64
    }

    /// How many probes of it were tried again over TCP, and nothing answered.
    pub(crate) fn unanswered(&self) -> u64 {
        self.to
            .iter()
            .filter(|case| matches!(case.tried, Some(Tried::Unanswered(_))))
            .count() as u64
    }

    /// How many failed probes of it were sent between these times.
    pub(crate) fn sent_within(&self, from: u64, to: u64) -> u64 {
        self.to
            .iter()
            .filter(|case| from <= case.time && case.time <= to)
            .count() as u64
    }

    /// Whether a probe of it failed, captured or not.
    pub(crate) fn is_probed(&self) -> bool {
        let is_unseen = self.unseen.iter().any(|case| case.target == self.member);
        !self.to.is_empty() || is_unseen
    }

    /// Whether another member reached it, or its agent answered over TCP.
    pub(crate) fn is_reached(&self) -> bool {
        self.to.iter().any(|case| case.is_relayed_answer() || case.tried == Some(Tried::Answered))
    }

    /// How many of its own failed probes have no ack.
    pub(crate) fn unacked(&self) -> u64 {
        self.from.iter().filter(|case| case.acked.is_none()).count() as u64
    }

    /// How many of those failed probes were tried again over TCP, and how many answered so.
    pub(crate) fn tried(&self) -> (u64, u64) {
        let (mut tried, mut answered) = (0u64, 0u64);
        for case in self.to.iter().chain(self.from.iter()) {
            if case.tried.is_some() {
                tried = tried.saturating_add(1);
            }
            if case.tried == Some(Tried::Answered) {
                answered = answered.saturating_add(1);
            }
        }
        (tried, answered)
    }
}

impl Host {
    /// It did nothing yet.
    fn new(alloc: Global) -> Host {
        Host {
            refusals: 0,
            first_refusal: 0,
            accepted: 0,
            half_open: 0,
            handshakes: Delays::new(alloc),
        }
    }

    /// Takes in what it did.
    fn take(&mut self, time: u64, answer: Answer) {
        match answer {
            Answer::Accepted => self.accepted = self.accepted.saturating_add(1),
            Answer::HalfOpen => self.half_open = self.half_open.saturating_add(1),
            Answer::Refused => {
                if self.refusals == 0 || time < self.first_refusal {
                    self.first_refusal = time;
                }
                self.refusals = self.refusals.saturating_add(1);
            }
        }
    }
}

impl Agent {
    /// It sent nothing until this time.
    fn new(now: u64) -> Agent {
        Agent {
            words: 0,
            meanwhile: 0,
            acks: 0,
            silence: Silence { from: 0, to: 0 },
            around: Silence { from: 0, to: now },
            is_new: false,
        }
    }

    /// Takes in what it sent. Failed probes were sent until this time.
    fn hear(&mut self, word: &Word, refused: u64, until: u64) {
        self.words = self.words.saturating_add(1);
        if word.time <= until {
            self.meanwhile = self.meanwhile.saturating_add(1);
            if word.saying == Saying::Ack {
                self.acks = self.acks.saturating_add(1);
            }
        }
        match word.saying {
            Saying::Ping(number) if refused != 0 && refused < word.time && number < FIRST => {
                self.is_new = true;
            }
            _ => {}
        }
    }
}

/// The longer of a silence and the one between these times.
fn longer(longest: Silence, from: u64, to: u64) -> Silence {
    let silence = Silence { from, to };
    if longest.len() < silence.len() {
        silence
    } else {
        longest
    }
}

/// Counts a probe to which only this may have happened.
fn add_one(counts: &mut [u64; 7], explanation: Explanation) {
    if let Some(count) = counts.get_mut(place_of(explanation)) {
        *count = count.saturating_add(1);
    }
}

/// When the first and the last of these were sent.
pub(crate) fn span_of(cases: &[&Case]) -> (u64, u64) {
    let first = cases.iter().map(|case| case.time).min().unwrap_or(0);
    let last = cases.iter().map(|case| case.time).max().unwrap_or(0);
    (first, last)
}
