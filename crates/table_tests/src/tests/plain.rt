//! A table computed from its definition: slowly, over the list of all claims that were taken in.

use super::{LOOPBACK, Saying, assert_lists, assert_that, claims_of, table_of};
use std::alloc::{AllocError, Global};
use std::process::Abort;
use swim_claim::Kind;
use swim_table::{Relation, Table, relation};

const NAMES: [&[u8]; 3] = [b"a", b"b", b"c"];

impl Saying {
    /// Whether the claim overrides another one about its name, by the table of kinds.
    fn overrides(&self, other: &Saying) -> bool {
        match (self.kind, other.kind) {
            (Kind::Alive, Kind::Alive) => (self.inc, self.port) > (other.inc, other.port),
            (Kind::Alive, Kind::Suspect)
            | (Kind::Suspect, Kind::Suspect)
            | (Kind::Confirm, Kind::Confirm | Kind::Leave)
            | (Kind::Leave, Kind::Leave) => self.inc > other.inc,
            (Kind::Suspect, Kind::Alive) | (Kind::Leave, Kind::Confirm) => self.inc >= other.inc,
            (Kind::Confirm | Kind::Leave, Kind::Alive | Kind::Suspect) => true,
            (Kind::Alive | Kind::Suspect, Kind::Confirm | Kind::Leave) => false,
        }
    }

    fn is_alive(&self) -> bool {
        self.kind == Kind::Alive
    }

    fn word(&self) -> &'static str {
        match self.kind {
            Kind::Alive => "alive",
            Kind::Suspect => "suspect",
            Kind::Confirm => "confirm",
            Kind::Leave => "leave",
        }
    }
}

/// The first claim about the name that no other one overrides, among all or among the Alives.
fn first<'a>(sayings: &'a [Saying], name: &[u8], alives: bool) -> Option<&'a Saying> {
    for saying in sayings {
        let overridden = sayings.iter().any(|other| {
            other.name == name && (!alives || other.is_alive()) && other.overrides(saying)
        });
        if saying.name == name && (!alives || saying.is_alive()) && !overridden {
            return Some(saying);
        }
    }
    None
}

/// The line of a member with this top and this home.
fn line(alloc: Global, top: &Saying, home: Option<&Saying>) -> Result<String, AllocError> {
    let letter = char::from(top.name.first().copied().unwrap_or(b'?'));
    let (word, inc) = (top.word(), top.inc);
    match home {
        Some(home) => {
            format!(in alloc;
                "{letter} {word} {inc} {}/7f000001/{}//\n",
                home.inc, home.port
            )
        }
        None => format!(in alloc; "{letter} {word} {inc} -\n"),
    }
}

/// The listing of the claims.
fn listing(alloc: Global, sayings: &[Saying]) -> Result<String, AllocError> {
    let mut text = String::new(alloc);
    for name in NAMES {
        if let Some(top) = first(sayings, name, false) {
            let home = first(sayings, name, true);
            text.push_str(line(alloc, top, home)?.as_str())?;
        }
    }
    Ok(text)
}

/// A claim for a number, with few names, incarnations and ports.
fn saying(number: u32) -> Saying {
    let name = NAMES[number as usize % 3];
    let inc = number / 3 % 3;
    match number / 9 % 5 {
        0 => suspect!(name, inc),
        1 => confirm!(name, inc),
        2 => leave!(name, inc),
        _ => alive!(name, inc, LOOPBACK, (number / 45 % 2) as u16),
    }
}

/// Asserts the listing of the table of the claims, of which the second half came one by one, and
/// then the first half at once.
fn assert_several(
    rt: &impl Abort,
    alloc: Global,
    sayings: &[Saying],
    wanted: &str,
) -> Result<(), AllocError> {
    let (front, back) = sayings.split_at(sayings.len() / 2);
    let mut table = table_of(rt, alloc, back)?;
    table.take_all(claims_of(rt, alloc, front)?)?;
    assert_lists(rt, alloc, &table, wanted)
}

/// How the join of the tables of both halves of the claims relates to the table of all.
fn joined(
    rt: &impl Abort,
    alloc: Global,
    sayings: &[Saying],
    table: &Table,
) -> Result<Relation, AllocError> {
    let (front, back) = sayings.split_at(sayings.len() / 2);
    let mut halves = table_of(rt, alloc, front)?;
    match halves.join(table_of(rt, alloc, back)?) {
        Ok(()) => Ok(relation(&halves, table)),
        Err(_) => Err(AllocError),
    }
}

/// Asserts that all ways to the table of the claims give this listing.
fn assert_same(
    rt: &impl Abort,
    alloc: Global,
    sayings: &[Saying],
    wanted: &str,
) -> Result<(), AllocError> {
    assert_several(rt, alloc, sayings, wanted)?;
    let table = table_of(rt, alloc, sayings)?;
    let joined = joined(rt, alloc, sayings, &table)?;
    assert_that(rt, joined == Relation::Equal, wanted);
    assert_lists(rt, alloc, &table, wanted)
}

/// Seven claims, and the state for choosing the next ones.
fn choose(mut state: u32) -> ([Saying; 7], u32) {
    let mut sayings = [suspect!(b"a", 0); 7];
    for place in 0..7 {
        state = state.wrapping_mul(1_664_525).wrapping_add(1_013_904_223);
        sayings[place] = saying(state >> 16);
    }
    (sayings, state)
}

#[test]
fn a_table_is_as_its_definition_says(rt: HostRuntime) -> Result<(), AllocError> {
    let mut state = 1u32;
    for _ in 0..300 {
        let (sayings, next) = choose(state);
        state = next;
        let wanted = listing(rt.alloc(), &sayings)?;
        assert_same(&rt, rt.alloc(), &sayings, wanted.as_str())?;
    }
    Ok(())
}
