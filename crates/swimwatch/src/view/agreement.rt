//! What several say about members, and whether they agree.

use crate::text::columns::Rows;
use crate::text::texts::name_text;
use crate::text::written::Text;
use crate::view::directory::copy_of;
use crate::view::known::Known;
use crate::view::roster::Roster;
use memberlist_view::MemberName;
use std::alloc::{AllocError, Global};
use std::collections::BTreeMap;

/// What most members report about a name; of equally many, what the first of them does. What claims
/// say comes before what packets only show.
#[derive(Clone, Copy)]
pub(crate) struct Opinion<'a> {
    known: &'a Known,
    /// How many members report it, and no more than it.
    count: usize,
    /// Whether all report the name, and no two of them contradict each other.
    is_agreed: bool,
}

impl<'a> Opinion<'a> {
    /// What one of these says about the name.
    fn of(answers: &[Voice], name: &MemberName, known: &'a Known) -> Opinion<'a> {
        let agreeing = answers
            .iter()
            .filter(|other| does_agree(other, name, known))
            .count();
        Opinion {
            known,
            count: answers
                .iter()
                .filter(|other| has_same(other, name, known))
                .count(),
            is_agreed: agreeing == answers.len(),
        }
    }

    /// How many of this many members report it: `3 of 5`.
    fn share_text(&self, alloc: Global, members: usize) -> Result<String, AllocError> {
        let count = if self.is_agreed { members } else { self.count };
        format!(in alloc; "{count} of {members}")
    }

    /// This or another one about the name, whichever more members report.
    fn or(self, other: Opinion<'a>) -> Opinion<'a> {
        let is_agreed = self.is_agreed && other.is_agreed;
        let (heard, heard_too) = (!self.known.unheard.state, !other.known.unheard.state);
        let best = if (heard, self.count) < (heard_too, other.count) {
            other
        } else {
            self
        };
        Opinion { is_agreed, ..best }
    }
}

/// Names, each with what most members report about it.
pub(crate) type Opinions<'a> = BTreeMap<MemberName, Opinion<'a>>;

/// What somebody reports about members: a member that was asked, or a view.
#[derive(Clone, Copy)]
pub(crate) struct Voice<'a> {
    pub(crate) name: &'a str,
    pub(crate) roster: &'a Roster,
}

/// All names that are reported.
pub(crate) fn opinions_in<'a>(
    alloc: Global,
    answers: &[Voice<'a>],
) -> Result<Opinions<'a>, AllocError> {
    let mut opinions: Opinions<'a> = BTreeMap::new(alloc);
    for answer in answers {
        for (name, known) in answer.roster.iter() {
            let opinion = Opinion::of(answers, name, known);
            if let Some(noted) = opinions.get_mut(name) {
                *noted = noted.or(opinion);
            } else {
                opinions.insert(copy_of(alloc, name)?, opinion)?;
            }
        }
    }
    Ok(opinions)
}

/// On how many names not all agree.
pub(crate) fn differing(opinions: &Opinions) -> usize {
    opinions
        .iter()
        .filter(|(_, opinion)| !opinion.is_agreed)
        .count()
}

/// Whether what an answer reports about a name does not contradict this.
fn does_agree(answer: &Voice, name: &MemberName, known: &Known) -> bool {
    match answer.roster.get(name) {
        Some(own) => own.agrees(known),
        None => false,
    }
}

/// Whether an answer reports this about a name, or a part of it.
fn has_same(answer: &Voice, name: &MemberName, known: &Known) -> bool {
    match answer.roster.get(name) {
        Some(own) => own.agrees(known) && !own.knows_more(known),
        None => false,
    }
}

/// The index of the first of these that knows all that any of them does, if there is one.
pub(crate) fn fullest(answers: &[Voice]) -> Option<usize> {
    answers.iter().position(|answer| {
        answers
            .iter()
            .all(|other| !does_know_more(other.roster, answer.roster))
    })
}

/// Whether one roster says something about a name that the other did not hear.
fn does_know_more(one: &Roster, other: &Roster) -> bool {
    one.iter().any(|(name, known)| match other.get(name) {
        Some(own) => known.knows_more(own),
        None => true,
    })
}

/// Adds a row for each name, and below it what each view shows about those on which they differ.
pub(crate) fn write_views(text: &mut Text, answers: &[Voice], opinions: &Opinions) {
    write_opinions(text, opinions, Some(answers.len()));
    if differing(opinions) > 0 {
        write_others(text, answers, opinions);
    }
}

/// Adds the table of what most members report, with how many of this many do, if it is shown.
pub(crate) fn write_opinions(text: &mut Text, opinions: &Opinions, members: Option<usize>) {
    let alloc = text.alloc();
    let has_tags = opinions.iter().any(|(_, opinion)| !opinion.known.is_bare());
    let agree = if members.is_some() { "AGREE" } else { "" };
    let tags = if has_tags { "TAGS" } else { "" };
    let heads = ["NAME", "ADDRESS", "STATE", "INC", agree, tags];
    let mut rows = Rows::below(alloc, &heads);
    for (name, opinion) in opinions.iter() {
        let known = opinion.known;
        rows.cell(name_text(alloc, name));
        rows.cell(known.place_text(alloc));
        rows.word(known.state());
        rows.cell(known.inc_text(alloc));
        match members {
            Some(members) => rows.cell(opinion.share_text(alloc, members)),
            None => rows.word(""),
        }
        rows.cell(known.tags(alloc));
        rows.end_row();
    }
    rows.write(text);
}

/// Adds what each member reports about the names on which not all agree.
pub(crate) fn write_others(text: &mut Text, answers: &[Voice], opinions: &Opinions) {
    let alloc = text.alloc();
    let has_vsn = opinions
        .iter()
        .any(|(name, _)| differ_in_versions(answers, name));
    let vsn = if has_vsn { "VERSIONS" } else { "" };
    let heads = ["NAME", "MEMBER", "STATE", "INC", "ADDRESS", vsn, "TAGS"];
    let mut rows = Rows::below(alloc, &heads);
    for (name, opinion) in opinions.iter() {
        if !opinion.is_agreed {
            for answer in answers {
                add_row(&mut rows, name, answer, has_vsn);
            }
        }
    }
    rows.write(text);
}

/// Whether two members report different versions for a name.
fn differ_in_versions(answers: &[Voice], name: &MemberName) -> bool {
    let mut told = answers
        .iter()
        .filter_map(|answer| answer.roster.get(name))
        .filter(|known| !known.unheard.tags);
    match told.next() {
        Some(first) => told.any(|other| other.vsn() != first.vsn()),
        None => false,
    }
}

/// What a member reports about a name, and about its versions if these are shown.
fn add_row(rows: &mut Rows, name: &MemberName, answer: &Voice, has_vsn: bool) {
    let alloc = rows.alloc();
    rows.cell(name_text(alloc, name));
    rows.word(answer.name);
    match answer.roster.get(name) {
        Some(known) => {
            rows.word(known.state());
            rows.cell(known.inc_text(alloc));
            rows.cell(known.place_text(alloc));
            let vsn: &[u8] = if has_vsn { known.vsn() } else { &[] };
            rows.cell(hex::encode(alloc, vsn));
            rows.cell(known.tags(alloc));
        }
        None => rows.word("absent"),
    }
    rows.end_row();
}
