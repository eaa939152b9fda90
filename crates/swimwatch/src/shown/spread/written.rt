//! What came of each piece of news, as rows and as objects.

use super::{Part, Piece, Spread};
use crate::shown::probes::{is_or_none, time_text};
use crate::text::columns::Rows;
use crate::text::json::Object;
use crate::text::names::write_name;
use crate::text::texts::{NONE, kind_word, moment_text, name_text, names_text};
use crate::text::window::Window;
use crate::text::written::Text;
use crate::view::directory::copy_of;
use crate::view::listener::Listener;
use memberlist_probes::rank_of;
use memberlist_view::MemberName;
use std::alloc::{AllocError, Global};
use std::collections::BTreeMap;
use swim_claim::Kind;

const HEADS: [&str; 10] = [
    "TIME", "NEWS", "BY", "SENT", "REACHED", "P50", "P90", "LAST", "SLOWEST", "NOT-SEEN",
];

/// Which pieces of news are shown.
#[derive(Clone, Copy)]
pub(crate) struct Shown<'a> {
    /// The only name that they are about, if there is one.
    pub(crate) member: &'a Option<Vec<u8>>,
    /// The time in which they begin.
    pub(crate) window: Window,
}

/// How far a piece of news came: to which of the members that should get it.
#[derive(Drop)]
struct Reach {
    /// Those that it came to, and how many microseconds after it began.
    reached: Vec<(MemberName, u64)>,
    not_seen: Vec<MemberName>,
}

impl Reach {
    /// These times in ascending order.
    fn delays(&self, alloc: Global) -> Result<Vec<u64>, AllocError> {
        let mut delays = Vec::new(alloc);
        for (_, delay) in &self.reached {
            delays.push(*delay)?;
        }
        delays.sort()?;
        Ok(delays)
    }

    /// The first name of those that it came to last.
    fn slowest(&self, alloc: Global) -> Result<String, AllocError> {
        let mut slowest: Option<&(MemberName, u64)> = None;
        for one in &self.reached {
            if slowest.is_none_or(|last| last.1 < one.1) {
                slowest = Some(one);
            }
        }
        match slowest {
            Some((name, _)) => name_text(alloc, name),
            None => String::from_str(alloc, NONE),
        }
    }
}

/// Writes a row for each piece of news that is shown, by when it began. Times are in milliseconds.
pub(crate) fn write_spread(
    text: &mut Text,
    spread: &Spread,
    listener: &Listener,
    shown: Shown,
) -> Result<(), AllocError> {
    let alloc = text.alloc();
    let names = spread.agents.names(listener)?;
    let mut rows = Rows::below(alloc, &HEADS);
    for (number, piece) in spread.pieces.iter().enumerate() {
        if shown.has(piece) {
            let reach = spread.reach(number, piece, &names)?;
            add_row(&mut rows, piece, &reach)?;
        }
    }
    rows.write(text);
    Ok(())
}

fn add_row(rows: &mut Rows, piece: &Piece, reach: &Reach) -> Result<(), AllocError> {
    let alloc = rows.alloc();
    let delays = reach.delays(alloc)?;
    let reached = reach.reached.len();
    let all = reached.saturating_add(reach.not_seen.len());
    rows.cell(moment_text(alloc, piece.time));
    rows.cell(news_text(alloc, piece));
    if piece.by.is_empty() {
        rows.word(NONE);
    } else {
        rows.name(&piece.by);
    }
    rows.number(piece.sent);
    rows.cell(format!(in alloc; "{reached} of {all}"));
    for percent in [50, 90, 100] {
        rows.cell(time_text(alloc, percentile(&delays, percent)));
    }
    rows.cell(reach.slowest(alloc));
    if reach.not_seen.is_empty() {
        rows.word(NONE);
    } else {
        rows.cell(names_text(alloc, &reach.not_seen));
    }
    rows.end_row();
    Ok(())
}

/// What a piece of news says: `web-5 suspect 1`.
fn news_text(alloc: Global, piece: &Piece) -> Result<String, AllocError> {
    let mut text = Text::new(alloc);
    write_name(&mut text, &piece.name);
    write!(text, " {} {}", kind_word(piece.kind), piece.inc);
    text.end()
}

/// The least of these times, which ascend, that so many percent of them do not exceed.
fn percentile(times: &[u64], percent: u8) -> Option<u64> {
    let rank = usize::try_from(rank_of(times.len() as u64, percent)).ok()?;
    times.get(rank.checked_sub(1)?).copied()
}

/// Writes an object for each piece of news that is shown.
pub(crate) fn write_spread_objects(
    text: &mut Text,
    spread: &Spread,
    listener: &Listener,
    shown: Shown,
) -> Result<(), AllocError> {
    let names = spread.agents.names(listener)?;
    for (number, piece) in spread.pieces.iter().enumerate() {
        if shown.has(piece) {
            let reach = spread.reach(number, piece, &names)?;
            write_object(text, piece, &reach);
        }
    }
    Ok(())
}

fn write_object(text: &mut Text, piece: &Piece, reach: &Reach) {
    let alloc = text.alloc();
    let mut reached = Object::new(alloc);
    for (name, delay) in &reach.reached {
        if let Some(name) = reached.made(name_text(alloc, name)) {
            reached.number(&name, *delay);
        }
    }
    let mut object = Object::new(alloc);
    object.text("time", moment_text(alloc, piece.time));
    object.escaped("name", &piece.name);
    object.word("event", kind_word(piece.kind));
    object.number("incarnation", u64::from(piece.inc));
    if !piece.by.is_empty() {
        object.escaped("by", &piece.by);
    }
    object.number("sent", piece.sent);
    object.object("reached_us", Some(reached));
    object.names("not_seen", &reach.not_seen);
    object.write(text)
}

impl<'a> Shown<'a> {
    fn has(self, piece: &Piece) -> bool {
        is_or_none(self.member, &piece.name) && self.window.shows(piece.time)
    }
}

impl Piece {
    /// Whether the member with this name has the news of itself from the start.
    fn is_own(&self, name: &MemberName) -> bool {
        matches!(self.kind, Kind::Alive | Kind::Leave)
            && name.name().bytes() == self.name.as_slice()
    }
}

impl Spread {
    /// How far a piece of news came, by the names of the agents.
    fn reach(
        &self,
        number: usize,
        piece: &Piece,
        names: &[Option<MemberName>],
    ) -> Result<Reach, AllocError> {
        let mut reach = Reach {
            reached: Vec::new(self.alloc),
            not_seen: Vec::new(self.alloc),
        };
        for (name, part) in &self.members(number, names)? {
            if !part.is_near || piece.is_own(name) {
                continue;
            }
            let name = copy_of(self.alloc, name)?;
            match part.first {
                Some(first) => reach
                    .reached
                    .push((name, first.saturating_sub(piece.time)))?,
                None => reach.not_seen.push(name)?,
            }
        }
        Ok(reach)
    }

    /// What each member has of a piece of news, at all the ends where it was.
    fn members(
        &self,
        number: usize,
        names: &[Option<MemberName>],
    ) -> Result<BTreeMap<MemberName, Part>, AllocError> {
        let mut members: BTreeMap<MemberName, Part> = BTreeMap::new(self.alloc);
        for ((piece, agent), part) in self.parts.range((number, 0)..) {
            if *piece != number {
                break;
            }
            let Some(Some(name)) = names.get(*agent) else {
                continue;
            };
            if let Some(whole) = members.get_mut(name) {
                *whole = whole.and(*part);
            } else {
                let _ = members.insert(copy_of(self.alloc, name)?, *part)?;
            }
        }
        Ok(members)
    }
}
