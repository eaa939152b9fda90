//! What an answer says about names that its table does not have.
//!
//! memberlist drops a dead member from its table after a while (`GossipToTheDeadTime`). Serf still
//! knows the name, and has a time for it in its state (`StatusLTimes`).

use crate::asked::ask::{Answer, Asked};
use crate::heard::records::records_of_stream;
use crate::heard::serf_state::MAX_STATE_LEN;
use crate::text::columns::Rows;
use crate::text::json::Object;
use crate::text::texts::{NONE, kind_word, name_text};
use crate::text::written::Text;
use crate::view::directory::copy_of;
use crate::view::roster::Roster;
use memberlist_view::MemberName;
use serf_message::{SerfFault, StatusTime, decode_state};
use std::alloc::{AllocError, Global};
use std::collections::{BTreeMap, BTreeSet};
use std::time::{Duration, Instant};
use swim_claim::{Kind, Name};

/// The most names that are kept of what one member said before (own).
pub(crate) const MAX_KEPT: usize = 10_000;

/// The word for the state of a forgotten name.
pub(crate) const FORGOTTEN: &str = "forgotten";

/// The word for the state of a name of which nothing is said.
const ABSENT: &str = "absent";

/// Names of which an answer has no record.
#[derive(Drop)]
pub(crate) struct Unlisted {
    /// Forgotten names, each with when an answer last named it: those that Serf's state has, but not
    /// as left, and those that are kept of earlier answers.
    pub(crate) forgotten: BTreeMap<MemberName, Instant>,
    /// Names that left, as Serf has them.
    left: BTreeSet<MemberName>,
    /// How many names were not kept.
    pub(crate) surplus: u64,
}

impl Unlisted {
    /// What Serf's state in a stream, which was there at this moment, says about names that the
    /// roster of the stream does not have. What is no state of Serf's says nothing.
    pub(crate) fn of_stream(
        alloc: Global,
        stream: &[u8],
        roster: &Roster,
        at: Instant,
    ) -> Result<Unlisted, AllocError> {
        let mut unlisted = Unlisted {
            forgotten: BTreeMap::new(alloc),
            left: BTreeSet::new(alloc),
            surplus: 0,
        };
        let user = match records_of_stream(alloc, stream)? {
            Some(read) if read.user.len() <= MAX_STATE_LEN => read.user,
            _ => return Ok(unlisted),
        };
        match decode_state(alloc, &user) {
            Ok(state) => {
                unlisted.take_left(state.left_members)?;
                unlisted.take_known(state.status_times, roster, at)?;
                Ok(unlisted)
            }
            Err(SerfFault::Memory) => Err(AllocError),
            Err(_) => Ok(unlisted),
        }
    }

    /// Takes the names that left. One that no member can have is passed over.
    fn take_left(&mut self, left: Vec<Vec<u8>>) -> Result<(), AllocError> {
        for bytes in left {
            if let Ok(name) = Name::new(bytes) {
                self.left.insert(MemberName::new(name))?;
            }
        }
        Ok(())
    }

    /// Takes the names that Serf knows, that have not left and that the roster does not have.
    fn take_known(
        &mut self,
        times: Vec<StatusTime>,
        roster: &Roster,
        at: Instant,
    ) -> Result<(), AllocError> {
        for status in times {
            let Ok(name) = Name::new(status.node) else {
                continue;
            };
            let name = MemberName::new(name);
            if roster.get(&name).is_none() && !self.left.contains(&name) {
                self.forgotten.insert(name, at)?;
            }
        }
        Ok(())
    }

    /// Whether a name is forgotten.
    pub(crate) fn has(&self, name: &MemberName) -> bool {
        self.forgotten.contains_key(name)
    }
}

impl Answer {
    /// The word for what it says about a name.
    pub(crate) fn state_of(&self, name: &MemberName) -> &'static str {
        match self.roster.get(name) {
            Some(known) => known.state(),
            None if self.unlisted.has(name) => FORGOTTEN,
            None if self.unlisted.left.contains(name) => kind_word(Kind::Leave),
            None => ABSENT,
        }
    }

    /// What it says about a name, as an object of JSON; none if it says nothing.
    pub(crate) fn object_of(&self, alloc: Global, name: &MemberName) -> Option<Object> {
        let mut object = Object::new(alloc);
        match self.roster.get(name) {
            Some(known) => known.write(&mut object),
            None if self.state_of(name) == ABSENT => return None,
            None => object.word("state", self.state_of(name)),
        }
        Some(object)
    }

    /// Keeps as forgotten what the member's last answer had as dead or forgotten, unless this one has
    /// a record of the name or has it as left, or no answer has named it for that long.
    pub(crate) fn keep(
        &mut self,
        alloc: Global,
        last: &Answer,
        forget: Option<Duration>,
    ) -> Result<(), AllocError> {
        self.unlisted.surplus = last.unlisted.surplus;
        for (name, known) in last.roster.iter() {
            if known.kind == Kind::Confirm {
                self.keep_name(alloc, name, last.at, forget)?;
            }
        }
        self.keep_forgotten(alloc, last, forget)
    }

    /// Keeps what the member's last answer had as forgotten.
    fn keep_forgotten(
        &mut self,
        alloc: Global,
        last: &Answer,
        forget: Option<Duration>,
    ) -> Result<(), AllocError> {
        for (name, named) in last.unlisted.forgotten.iter() {
            self.keep_name(alloc, name, *named, forget)?;
        }
        Ok(())
    }

    /// Keeps a name that an answer last named at this moment.
    fn keep_name(
        &mut self,
        alloc: Global,
        name: &MemberName,
        named: Instant,
        forget: Option<Duration>,
    ) -> Result<(), AllocError> {
        let is_over = match forget {
            Some(forget) => self.at.duration_since(named) >= forget,
            None => false,
        };
        if is_over || self.state_of(name) != ABSENT {
            return Ok(());
        }
        if self.unlisted.forgotten.len() >= MAX_KEPT {
            self.unlisted.surplus = self.unlisted.surplus.saturating_add(1);
            return Ok(());
        }
        self.unlisted
            .forgotten
            .insert(copy_of(alloc, name)?, named)?;
        Ok(())
    }
}

/// Forgotten names, each with how many members forgot it.
pub(crate) type Counts<'a> = BTreeMap<&'a MemberName, usize>;

/// The names that members forgot.
pub(crate) fn forgotten_in<'a>(
    alloc: Global,
    asked: &'a [Asked],
) -> Result<Counts<'a>, AllocError> {
    let mut counts = BTreeMap::new(alloc);
    for told in asked {
        if let Ok(answer) = told {
            count_names(&mut counts, answer)?;
        }
    }
    Ok(counts)
}

/// Counts the names that a member forgot.
fn count_names<'a>(counts: &mut Counts<'a>, answer: &'a Answer) -> Result<(), AllocError> {
    for (name, _) in answer.unlisted.forgotten.iter() {
        let count = counts.get(&name).copied().unwrap_or(0);
        counts.insert(name, count.saturating_add(1))?;
    }
    Ok(())
}

/// Adds a table of forgotten names, with the columns of the others, and how many of this many members
/// forgot each, if it is shown. There is none if there are no names.
pub(crate) fn write_forgotten(text: &mut Text, counts: &Counts, members: Option<usize>) {
    if counts.is_empty() {
        return;
    }
    let alloc = text.alloc();
    let agree = if members.is_some() { "AGREE" } else { "" };
    let mut rows = Rows::below(alloc, &["NAME", "ADDRESS", "STATE", "INC", agree]);
    for (name, count) in counts.iter() {
        rows.cell(name_text(alloc, name));
        rows.word(NONE);
        rows.word(FORGOTTEN);
        rows.word(NONE);
        if let Some(members) = members {
            rows.cell(format!(in alloc; "{count} of {members}"));
        }
        rows.end_row();
    }
    rows.write(text);
}

/// Adds a JSON object for each name that a member forgot.
pub(crate) fn write_forgotten_objects(text: &mut Text, answer: &Answer) {
    let alloc = text.alloc();
    for (name, _) in answer.unlisted.forgotten.iter() {
        let mut object = Object::new(alloc);
        object.word("host", &answer.host);
        object.text("name", name_text(alloc, name));
        object.word("state", FORGOTTEN);
        object.write(text);
    }
}
