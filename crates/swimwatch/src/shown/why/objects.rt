//! Why members were suspected, as JSON objects.

use super::reasons::write_reason;
use super::{Teller, is_told};
use crate::shown::probes::explanations_of;
use crate::text::json::{List, Object};
use crate::text::texts::moment_text;
use crate::text::written::Text;
use memberlist_causes::{Case, Chapter, Member, Of, Suspicion, Trouble};
use memberlist_probes::Outcome;
use std::alloc::Global;

/// Writes an object for each suspicion, and for each trouble without one.
pub(crate) fn write_chapter_objects(
    alloc: Global,
    text: &mut Text,
    teller: Teller,
    chapter: &Chapter,
) {
    for suspicion in &chapter.suspicions {
        if teller.tells(suspicion) {
            let trouble = match suspicion.cause {
                Some(index) => chapter.troubles.get(index),
                None => None,
            };
            suspicion_object(alloc, teller, suspicion, trouble).write(text);
        }
    }
    for (index, trouble) in chapter.troubles.iter().enumerate() {
        if !is_told(chapter, teller, index) && teller.tells_trouble(chapter, index) {
            let mut object = Object::new(alloc);
            object.text("time", moment_text(alloc, trouble.begin));
            object.text("until", moment_text(alloc, trouble.until));
            cause(alloc, &mut object, teller, Some(trouble));
            object.write(text);
        }
    }
}

fn suspicion_object(
    alloc: Global,
    teller: Teller,
    suspicion: &Suspicion,
    trouble: Option<&Trouble>,
) -> Object {
    let episode = &suspicion.episode;
    let mut object = Object::new(alloc);
    object.text("time", moment_text(alloc, episode.begin));
    object.escaped("name", teller.members.name(episode.of));
    object.number("incarnation", u64::from(episode.inc));
    let mut accusers = List::new(alloc);
    for accuser in &episode.accusers {
        let mut one = Object::new(alloc);
        one.escaped("by", teller.members.name(accuser.by));
        one.text("time", moment_text(alloc, accuser.time));
        accusers.object(one);
    }
    object.list("accusers", accusers);
    object.object("dead", dead(alloc, teller, suspicion));
    object.object("refuted", refuted(alloc, suspicion));
    cause(alloc, &mut object, teller, trouble);
    let mut probes = List::new(alloc);
    for case in &suspicion.probes {
        probes.object(probe(alloc, teller, case));
    }
    object.list("probes", probes);
    object
}

fn dead(alloc: Global, teller: Teller, suspicion: &Suspicion) -> Option<Object> {
    let death = suspicion.episode.dead.as_ref()?;
    let mut object = Object::new(alloc);
    object.text("time", moment_text(alloc, death.time));
    if let Some(by) = death.by {
        object.escaped("by", teller.members.name(by));
    }
    Some(object)
}

fn refuted(alloc: Global, suspicion: &Suspicion) -> Option<Object> {
    let alive = suspicion.episode.refuted.as_ref()?;
    let mut object = Object::new(alloc);
    object.text("time", moment_text(alloc, alive.time));
    object.number("incarnation", u64::from(alive.inc));
    Some(object)
}

/// Adds the cause, whom it is about, and what it stands on.
fn cause(alloc: Global, object: &mut Object, teller: Teller, trouble: Option<&Trouble>) {
    let mut evidence = List::new(alloc);
    let mut of = List::new(alloc);
    let mut failed = 0;
    match trouble {
        None => object.null("cause"),
        Some(trouble) => {
            object.word("cause", trouble.cause.words());
            of = list_of(alloc, teller, &trouble.of);
            failed = trouble.legs.len() as u64;
            for reason in &trouble.evidence {
                let mut line = Text::new(alloc);
                write_reason(&mut line, teller, reason);
                evidence.text(line.end());
            }
        }
    }
    object.list("of", of);
    object.number("failed", failed);
    object.list("evidence", evidence);
}

/// The names; of groups, a list of names each.
fn list_of(alloc: Global, teller: Teller, of: &Of) -> List {
    match of {
        Of::One(member) => names(alloc, teller, &[*member]),
        Of::Several(members) => names(alloc, teller, members),
        Of::Groups(groups) => {
            let mut lists = List::new(alloc);
            for group in groups {
                lists.list(names(alloc, teller, group));
            }
            lists
        }
    }
}

fn names(alloc: Global, teller: Teller, members: &[Member]) -> List {
    let mut list = List::new(alloc);
    for member in members {
        list.escaped(teller.members.name(*member));
    }
    list
}

fn probe(alloc: Global, teller: Teller, case: &Case) -> Object {
    let mut object = Object::new(alloc);
    object.escaped("by", teller.members.name(case.prober));
    object.text("time", moment_text(alloc, case.time));
    object.number("seq", u64::from(case.seq_no));
    object.word("outcome", outcome_word(case));
    object.list("maybe", explanations_of(alloc, &case.left));
    let mut asked = List::new(alloc);
    let mut nacks = List::new(alloc);
    let mut reached = List::new(alloc);
    for one in &case.asked {
        let name = teller.members.name(one.member);
        asked.escaped(name);
        if one.has_nacked {
            nacks.escaped(name);
        }
        if one.has_reached {
            reached.escaped(name);
        }
    }
    object.list("asked", asked);
    object.list("nacks", nacks);
    object.list("reached", reached);
    object
}

/// The word for what the prober made of a probe.
fn outcome_word(case: &Case) -> &'static str {
    match case.outcome {
        _ if !case.is_seen => "unseen",
        Outcome::Answered if case.is_unread => "unread",
        Outcome::Answered => "answered",
        Outcome::Late => "late",
        Outcome::Indirect => "indirect",
        Outcome::Tcp => "tcp",
        Outcome::Failed => "failed",
        Outcome::Open => "open",
    }
}
