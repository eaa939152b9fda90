//! What members that are followed answered, as metrics in Prometheus' text format.

use crate::NAME;
use crate::asked::ask::Answer;
use crate::asked::follow::Followed;
use crate::asked::unlisted::{FORGOTTEN, MAX_KEPT};
use crate::text::said::said;
use crate::text::texts::name_text;
use crate::text::written::Text;
use crate::view::agreement::{Voice, differing, opinions_in};
use crate::view::directory::copy_of;
use memberlist_view::MemberName;
use std::alloc::{AllocError, Global};
use std::collections::BTreeMap;
use std::fs::{self, File};
use std::io;
use swim_claim::Kind;
use swim_pack::write_whole;
use swim_program::Failure;

/// The words for what a member can change to.
const STATES: [&str; 6] = ["alive", "suspect", "dead", "left", FORGOTTEN, "absent"];

/// How often each name changed to which state, at any of the members.
#[derive(Drop)]
pub(crate) struct Tally {
    counts: BTreeMap<MemberName, [u64; 6]>,
    /// How many changes of further names were not counted.
    surplus: u64,
}

impl Tally {
    pub(crate) fn new(alloc: Global) -> Tally {
        Tally {
            counts: BTreeMap::new(alloc),
            surplus: 0,
        }
    }

    /// Counts that a name changed to this state, unless it is one name too many.
    pub(crate) fn count(
        &mut self,
        alloc: Global,
        name: &MemberName,
        state: &str,
    ) -> Result<(), AllocError> {
        let noted = self.counts.get(name).copied();
        if noted.is_none() && self.counts.len() >= MAX_KEPT {
            self.surplus = self.surplus.saturating_add(1);
            return Ok(());
        }
        let mut counts = noted.unwrap_or([0; 6]);
        for (word, count) in STATES.iter().zip(counts.iter_mut()) {
            if *word == state {
                *count = count.saturating_add(1);
            }
        }
        self.counts.insert(copy_of(alloc, name)?, counts)?;
        Ok(())
    }
}

/// A page of metrics: families, each with its samples.
#[derive(Drop)]
struct Page {
    text: Text,
}

impl Page {
    /// Begins a family: what it says, and whether it is a `gauge` or a `counter`.
    fn family(&mut self, name: &str, kind: &str, help: &str) {
        write!(self.text, "# HELP {name} {help}\n# TYPE {name} {kind}\n")
    }

    /// Begins a sample of a family with these labels; its value has to follow.
    fn sample(&mut self, name: &str, labels: &[(&str, &str)]) {
        self.text.push_str(name);
        let mut before = '{';
        for (label, value) in labels {
            self.text.push(before);
            before = ',';
            self.text.push_str(label);
            self.text.push_str("=\"");
            write_label(&mut self.text, value);
            self.text.push('"');
        }
        self.text
            .push_str(if labels.is_empty() { " " } else { "} " })
    }

    /// Adds a sample whose value is a whole number.
    fn number(&mut self, name: &str, labels: &[(&str, &str)], value: u64) {
        self.sample(name, labels);
        write!(self.text, "{value}\n")
    }
}

/// Adds the value of a label, in which a backslash, a quotation mark and a line feed are escaped
/// (Prometheus, "Text-based format").
fn write_label(text: &mut Text, value: &str) {
    for sign in value.chars() {
        match sign {
            '\\' => text.push_str("\\\\"),
            '"' => text.push_str("\\\""),
            '\n' => text.push_str("\\n"),
            _ => text.push(sign),
        }
    }
}

/// The metrics of the members that are followed.
pub(crate) fn metrics_of(
    alloc: Global,
    followed: &[Followed],
    tally: &Tally,
) -> Result<String, AllocError> {
    let mut page = Page {
        text: Text::new(alloc),
    };
    write_pulls(&mut page, followed);
    write_members(&mut page, followed);
    write_down(&mut page, followed);
    write_agreement(&mut page, followed)?;
    write_tally(&mut page, tally);
    write_surplus(&mut page, followed, tally);
    page.text.end()
}

/// Adds whether each member answered, and how.
fn write_pulls(page: &mut Page, followed: &[Followed]) {
    page.family(
        "swimwatch_up",
        "gauge",
        "Whether the member answered the last pull.",
    );
    for member in followed {
        let up = u64::from(member.current().is_some());
        page.number("swimwatch_up", &[("member", &member.host)], up);
    }
    page.family(
        "swimwatch_pull_seconds",
        "gauge",
        "How long the last pull took, from the connection to its end.",
    );
    for member in followed {
        if let Some(answer) = member.current() {
            let micros = answer.way.took.subsec_micros();
            page.sample("swimwatch_pull_seconds", &[("member", &member.host)]);
            write!(page.text, "{}.{micros:06}\n", answer.way.took.as_secs());
        }
    }
    page.family(
        "swimwatch_pull_bytes",
        "gauge",
        "The size of the last answer in bytes.",
    );
    for member in followed {
        if let Some(answer) = member.current() {
            let len = answer.way.len as u64;
            page.number("swimwatch_pull_bytes", &[("member", &member.host)], len);
        }
    }
}

/// Adds how many names each member has in each state.
fn write_members(page: &mut Page, followed: &[Followed]) {
    page.family(
        "swimwatch_members",
        "gauge",
        "How many names the member has in this state.",
    );
    for member in followed {
        if let Some(answer) = member.current() {
            for state in ["alive", "suspect", "dead", "left"] {
                let names = answer.roster.iter();
                let count = names.filter(|(_, known)| known.state() == state).count();
                write_count(page, &member.host, state, count);
            }
            let count = answer.unlisted.forgotten.len();
            write_count(page, &member.host, FORGOTTEN, count);
        }
    }
}

fn write_count<'a>(page: &mut Page, member: &'a str, state: &'a str, count: usize) {
    let labels = [("member", member), ("state", state)];
    page.number("swimwatch_members", &labels, count as u64)
}

/// Adds each name that a member has as suspected, dead or forgotten. Of one that does not answer, its
/// last answer counts, but for suspicions.
fn write_down(page: &mut Page, followed: &[Followed]) {
    page.family(
        "swimwatch_member_down",
        "gauge",
        "A name that the member has as suspected, dead or forgotten.",
    );
    for member in followed {
        if let Some(answer) = member.last() {
            write_listed_down(page, answer, member.current().is_some());
            write_forgotten_down(page, answer);
        }
    }
}

/// Adds each name that a table has as dead, and those that it has as suspected, if they are shown.
fn write_listed_down(page: &mut Page, answer: &Answer, suspects: bool) {
    for (name, known) in answer.roster.iter() {
        if known.kind == Kind::Confirm || (suspects && known.kind == Kind::Suspect) {
            write_name_down(page, &answer.host, name, known.state());
        }
    }
}

/// Adds each name that is forgotten.
fn write_forgotten_down(page: &mut Page, answer: &Answer) {
    for (name, _) in answer.unlisted.forgotten.iter() {
        write_name_down(page, &answer.host, name, FORGOTTEN);
    }
}

fn write_name_down(page: &mut Page, member: &str, name: &MemberName, state: &str) {
    let alloc = page.text.alloc();
    if let Some(name) = page.text.made(name_text(alloc, name)) {
        write_sample_down(page, member, &name, state);
    }
}

fn write_sample_down<'a>(page: &mut Page, member: &'a str, name: &'a str, state: &'a str) {
    let labels = [("member", member), ("name", name), ("state", state)];
    page.number("swimwatch_member_down", &labels, 1)
}

/// Adds on how many names the members that answered differ.
fn write_agreement(page: &mut Page, followed: &[Followed]) -> Result<(), AllocError> {
    let alloc = page.text.alloc();
    let mut answers = Vec::new(alloc);
    for member in followed {
        if let Some(answer) = member.current() {
            answers.push(Voice::of(answer))?;
        }
    }
    let opinions = opinions_in(alloc, &answers)?;
    page.family(
        "swimwatch_names_differ",
        "gauge",
        "On how many names the members that answered do not agree.",
    );
    let count = differing(&opinions);
    page.number("swimwatch_names_differ", &[], count as u64);
    Ok(())
}

/// Adds how often each name changed to each state.
fn write_tally(page: &mut Page, tally: &Tally) {
    let alloc = page.text.alloc();
    page.family(
        "swimwatch_changes_total",
        "counter",
        "How often what a member says about the name changed, by its new state.",
    );
    for (name, counts) in tally.counts.iter() {
        let Some(name) = page.text.made(name_text(alloc, name)) else {
            break;
        };
        for (state, count) in STATES.iter().zip(counts) {
            if *count > 0 {
                let labels = [("name", name.as_str()), ("to", *state)];
                page.number("swimwatch_changes_total", &labels, *count);
            }
        }
    }
}

/// Adds how often a name was one too many.
fn write_surplus(page: &mut Page, followed: &[Followed], tally: &Tally) {
    page.family(
        "swimwatch_surplus_total",
        "counter",
        "How often a name was not kept or counted, beyond 10000 names.",
    );
    let mut count = tally.surplus;
    for member in followed {
        if let Some(answer) = member.last() {
            count = count.saturating_add(answer.unlisted.surplus);
        }
    }
    page.number("swimwatch_surplus_total", &[], count);
}

/// Writes a file anew, so that who reads it sees the old text or the new one: a file beside it, with
/// `.tmp` behind its name, is written and then renamed.
///
/// # Errors
///
/// The message with the system's cause, and status 4.
pub(crate) fn write_anew(rt: &HostRuntime, path: &str, text: &str) -> Result<(), Failure> {
    let beside = format!(in rt.alloc(); "{path}.tmp")?;
    match written(rt, &beside, text).and_then(|()| fs::rename(rt, beside.as_str(), path)) {
        Ok(()) => Ok(()),
        Err(error) => Err(said(
            format!(in rt.alloc(); "{NAME}: {path}: cannot write the metrics ({error})"),
            4,
        )),
    }
}

fn written(rt: &HostRuntime, path: &str, text: &str) -> io::Result<()> {
    let mut file = File::create(rt, path)?;
    match write_whole(&mut file, text.as_bytes()) {
        Ok(()) => Ok(()),
        Err(_) => Err(io::Error::from(io::ErrorKind::WriteZero)),
    }
}
