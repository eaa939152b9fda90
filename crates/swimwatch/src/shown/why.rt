//! Why members were suspected, in words.
//!
//! `reasons` writes what a cause stands on, and `objects` writes JSON.

pub(crate) mod objects;
mod reasons;

use crate::text::moment::{write_as, write_moment};
use crate::text::names::write_name;
use crate::text::texts::Millis;
use crate::text::window::Window;
use crate::text::written::Text;
use memberlist_causes::{
    Accusation, Asked, Behind, Case, Chapter, Episode, Member, Members, Of, Suspicion, Tried,
    Trouble,
};
use memberlist_probes::{Explanation, Outcome};
use reasons::write_reason;

/// The format of a time of the day.
pub(crate) const CLOCK: &str = "%H:%M:%S.%6f";

/// With so many explanations left, nothing is known.
const MANY: usize = 5;

/// What is told, and in whose words.
#[derive(Clone, Copy)]
pub(crate) struct Teller<'a> {
    pub(crate) members: &'a Members,
    /// The only member to tell of, if there is one.
    pub(crate) only: &'a Option<Vec<u8>>,
    /// The time that is shown.
    pub(crate) window: &'a Window,
    /// memberlist's `ProbeTimeout`, in microseconds.
    pub(crate) timeout: u64,
}

impl<'a> Teller<'a> {
    /// Whether a suspicion is told.
    pub(crate) fn tells(&self, suspicion: &Suspicion) -> bool {
        self.is_it(suspicion.episode.of) && self.window.shows(suspicion.episode.begin)
    }

    /// Whether trouble is told without a suspicion. Of one member it is told if it is about it, or if
    /// its probes touch it and it explains no suspicion of another one.
    pub(crate) fn tells_trouble(&self, chapter: &Chapter, index: usize) -> bool {
        let Some(trouble) = chapter.troubles.get(index) else {
            return false;
        };
        let explains = chapter
            .suspicions
            .iter()
            .any(|suspicion| suspicion.cause == Some(index));
        let touches = trouble.legs.iter().any(|(prober, target)| self.is_it(*prober)
            || self.is_it(*target));
        let is_told = self.is_about(&trouble.of) || touches && !explains;
        is_told && self.window.shows(trouble.begin)
    }

    /// Whether this is the only member to tell of, if there is one.
    fn is_it(&self, member: Member) -> bool {
        match self.only {
            Some(only) => self.members.name(member) == only.as_slice(),
            None => true,
        }
    }

    fn is_about(&self, of: &Of) -> bool {
        match of {
            Of::One(member) => self.is_it(*member),
            Of::Several(members) => members.iter().any(|member| self.is_it(*member)),
            Of::Groups(groups) => groups
                .iter()
                .any(|group| group.iter().any(|member| self.is_it(*member))),
        }
    }

    /// Adds a name.
    fn name(&self, text: &mut Text, member: Member) {
        write_name(text, self.members.name(member))
    }

    /// Adds names, separated by commas.
    fn names(&self, text: &mut Text, members: &[Member]) {
        let mut between = "";
        for member in members {
            text.push_str(between);
            self.name(text, *member);
            between = ", ";
        }
    }

    /// Adds whom trouble is about.
    pub(crate) fn of(&self, text: &mut Text, of: &Of) {
        match of {
            Of::One(member) => self.name(text, *member),
            Of::Several(members) => self.names(text, members),
            Of::Groups(groups) => {
                let mut between = "";
                for group in groups {
                    text.push_str(between);
                    self.names(text, group);
                    between = " | ";
                }
            }
        }
    }
}

/// Writes what is told at once.
pub(crate) fn write_chapter(text: &mut Text, teller: Teller, chapter: &Chapter) {
    let mut told = None;
    for suspicion in &chapter.suspicions {
        if !teller.tells(suspicion) {
            continue;
        }
        write_suspicion(text, teller, suspicion);
        if let Some(index) = suspicion.cause {
            let is_told = told == Some(index);
            if let Some(trouble) = chapter.troubles.get(index) {
                write_cause(text, teller, suspicion.episode.of, trouble, is_told);
            }
            told = Some(index);
        }
    }
    for (index, trouble) in chapter.troubles.iter().enumerate() {
        if !is_told(chapter, teller, index) && teller.tells_trouble(chapter, index) {
            write_trouble(text, teller, trouble);
        }
    }
}

/// Whether trouble is told with a suspicion.
pub(crate) fn is_told(chapter: &Chapter, teller: Teller, index: usize) -> bool {
    chapter.suspicions.iter().any(|suspicion| suspicion.cause == Some(index)
        && teller.tells(suspicion))
}

fn write_suspicion(text: &mut Text, teller: Teller, suspicion: &Suspicion) {
    let episode = &suspicion.episode;
    write_moment(text, episode.begin);
    text.push(' ');
    teller.name(text, episode.of);
    write!(text, " suspected {}: ", episode.inc);
    write_end(text, teller, episode);
    text.push('\n');
    for accusation in &suspicion.accusations {
        write_accusation(text, teller, accusation);
    }
    if suspicion.answered > 0 {
        write!(text, "  meanwhile {} probes of it, by ", suspicion.answered);
        teller.names(text, &suspicion.answered_to);
        text.push_str(", were answered in time\n");
    }
    write_back(text, episode)
}

/// How a suspicion ended.
fn write_end(text: &mut Text, teller: Teller, episode: &Episode) {
    if let Some(death) = &episode.dead {
        text.push_str("dead ");
        write_as(text, death.time, CLOCK);
        if let Some(by) = death.by {
            text.push_str(" by ");
            teller.name(text, by);
        }
        if episode.accusers.is_empty() {
            return text.push_str(", of which no suspicion was captured");
        }
        text.push_str(", ");
        write_seconds(text, death.time.saturating_sub(episode.begin));
        return text.push_str(" after the first suspicion");
    }
    if let Some(alive) = &episode.refuted {
        text.push_str("refuted ");
        write_as(text, alive.time, CLOCK);
        write!(text, " at {}, after ", alive.inc);
        return write_seconds(text, alive.time.saturating_sub(episode.begin));
    }
    match episode.left {
        Some(time) => {
            text.push_str("left ");
            write_as(text, time, CLOCK)
        }
        None => text.push_str("not over when the capture ends"),
    }
}

/// That a member came back after its death.
fn write_back(text: &mut Text, episode: &Episode) {
    let (Some(back), Some(death)) = (&episode.back, &episode.dead) else {
        return;
    };
    text.push_str("  back ");
    write_as(text, back.time, CLOCK);
    write!(text, " at {}", back.inc);
    if episode.inc < back.inc {
        text.push_str(", ");
        write_seconds(text, back.time.saturating_sub(death.time));
        text.push_str(" too late to refute");
    } else {
        text.push_str(", as a new one");
    }
    text.push('\n')
}

fn write_accusation(text: &mut Text, teller: Teller, accusation: &Accusation) {
    text.push_str("  by ");
    teller.name(text, accusation.by);
    text.push_str(" at ");
    write_as(text, accusation.time, CLOCK);
    text.push_str(": ");
    match &accusation.behind {
        Behind::Probe(case) => write_probe(text, teller, case),
        Behind::Hearsay => text.push_str("by hearsay, from a push/pull"),
        Behind::Nothing { is_captured } => {
            text.push_str("no failed probe of it was captured");
            if !is_captured {
                text.push_str(" (no capture at ");
                teller.name(text, accusation.by);
                text.push(')');
            }
        }
    }
    text.push('\n')
}

/// A probe: `probe 18 by web-5 at 21:19:12.963257: no answer (answer late); asked ..`.
fn write_probe(text: &mut Text, teller: Teller, case: &Case) {
    write!(text, "probe {} by ", case.seq_no);
    teller.name(text, case.prober);
    text.push_str(" at ");
    write_as(text, case.time, CLOCK);
    text.push_str(": ");
    if case.is_seen {
        write_outcome(text, teller, case);
        write_left(text, case);
    } else {
        text.push_str("no answer in time (the ping was not captured)");
    }
    let mut before = "; asked ";
    for asked in &case.asked {
        text.push_str(before);
        teller.name(text, asked.member);
        text.push_str(asked_words(asked));
        before = ", ";
    }
    match case.tried {
        None => {}
        Some(Tried::Refused) => text.push_str("; TCP refused"),
        Some(Tried::Answered) => text.push_str("; TCP answered"),
        Some(Tried::Mute) => text.push_str("; TCP connected, no answer in it"),
        Some(Tried::Unanswered(syns)) => write!(text, "; TCP no answer to {syns} SYN"),
    }
}

fn asked_words(asked: &Asked) -> &'static str {
    if asked.has_reached {
        " reached it"
    } else if asked.has_nacked {
        " did not (nack)"
    } else {
        " said nothing"
    }
}

/// What the prober made of it.
fn write_outcome(text: &mut Text, teller: Teller, case: &Case) {
    let took = Millis(case.round_trip.unwrap_or(0));
    match case.outcome {
        Outcome::Answered if case.is_unread => write!(
            text,
            "answered in {took} ms, but it went on"
        ),
        Outcome::Answered => write!(text, "answered in {took} ms"),
        Outcome::Late => write!(text, "answered late, in {took} ms"),
        Outcome::Indirect => write!(text, "no answer in {} ms", Millis(teller.timeout)),
        Outcome::Tcp => text.push_str("no answer over UDP"),
        Outcome::Failed => text.push_str("no answer"),
        Outcome::Open => text.push_str("the capture ends"),
    }
}

/// What may have happened: `(ping lost or refused)`.
fn write_left(text: &mut Text, case: &Case) {
    let left = case.left.iter().filter(|is_left| **is_left).count();
    if left == 0 {
        return;
    }
    if MANY <= left {
        return text.push_str(" (nothing captured says why)");
    }
    let mut is_first = true;
    for (explanation, is_left) in Explanation::ALL.iter().zip(&case.left) {
        if *is_left {
            text.push_str(if is_first { " (" } else { " or " });
            text.push_str(explanation.words());
            is_first = false;
        }
    }
    text.push(')')
}

/// The cause of a suspicion of this member, and what it stands on, unless that was told just before.
fn write_cause(text: &mut Text, teller: Teller, of: Member, trouble: &Trouble, is_told: bool) {
    write!(text, "  cause: {}", trouble.cause.words());
    match &trouble.of {
        Of::One(member) if *member == of => {}
        other => {
            text.push_str(" of ");
            teller.of(text, other);
        }
    }
    if is_told {
        return text.push_str(", as before\n");
    }
    text.push('\n');
    write_reasons(text, teller, trouble)
}

/// Trouble that led to no suspicion.
fn write_trouble(text: &mut Text, teller: Teller, trouble: &Trouble) {
    write_moment(text, trouble.begin);
    text.push(' ');
    teller.of(text, &trouble.of);
    write!(text, ": {}, until ", trouble.cause.words());
    write_as(text, trouble.until, CLOCK);
    text.push_str(", no suspicion of its own\n");
    write_reasons(text, teller, trouble)
}

fn write_reasons(text: &mut Text, teller: Teller, trouble: &Trouble) {
    for evidence in &trouble.evidence {
        text.push_str("    ");
        write_reason(text, teller, evidence);
        text.push('\n');
    }
}

/// Microseconds in seconds, to a tenth: `1.6 s`.
pub(crate) fn write_seconds(text: &mut Text, micros: u64) {
    let tenths = micros.saturating_add(50_000) / 100_000;
    write!(text, "{}.{} s", tenths / 10, tenths % 10)
}
