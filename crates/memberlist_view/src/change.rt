//! The rules of memberlist's `state.go`, one name at a time.

ghost use Rattle.std.specs.Prelude.{◌≡◌, ◌∷◌, [], Some, IsSome, IfOk, OnErr};
ghost use Rattle.std.specs.Option.{option_copied};
ghost use Rattle.memberlist_view.specs.Rules.{are_sound_versions, with_versions, alive_since, alive_after};
ghost use Rattle.memberlist_view.specs.Rules.{alive_elsewhere, first_event, alive_still, alive_again, believed};
ghost use Rattle.memberlist_view.specs.Rules.{alive_unplaced, alive_placed, alive, accused, suspect_since, suspected};
ghost use Rattle.memberlist_view.specs.Rules.{ended, ended_in_record, ended_by, seen_in, seen_at, change_of_entry};
ghost use Rattle.memberlist_view.specs.Rules.{change};

use crate::accusers::Accusers;
use crate::entry::{Entry, State, name_copy};
use crate::event::Event;
use crate::heard::{Heard, Said};
use crate::member_name::MemberName;
use crate::rivals::is_same_place;
use std::alloc::{AllocError, Global};
use swim_claim::Details;

/// The entry after a change, and what changed. `None` if nothing does.
type Change = Option<(Entry, Event)>;

/// How something heard changes the entry of its name.
pub(crate) fn change(
    alloc: Global,
    wait: u64,
    old: Option<&Entry>,
    heard: &Heard,
) -> Result<Change, AllocError>
    ensures ok { IfOk result (λ changed. changed ≡ change wait (option_copied old.entry) heard.now) }
    ensures asks { OnErr result (IsSome (change wait (option_copied old.entry) heard.now)) }
{
    match old {
        Some(entry) => change_of_entry(alloc, wait, heard.time, entry, &heard.said),
        None => {
            let blank = Entry::blank(alloc, heard.time);
            change_of_entry(alloc, wait, heard.time, &blank, &heard.said)
        }
    }
}

fn change_of_entry(
    alloc: Global,
    wait: u64,
    time: u64,
    entry: &Entry,
    said: &Said,
) -> Result<Change, AllocError>
    ensures ok { IfOk result (λ changed. changed ≡ change_of_entry wait time entry.now said.now) }
    ensures asks { OnErr result (IsSome (change_of_entry wait time entry.now said.now)) }
{
    match said {
        Said::Alive {
            inc,
            details,
            joins,
            ..
        } => if has_sound_versions(details) {
            alive(alloc, wait, time, entry, *inc, details, *joins)
        } else {
            Ok(None)
        },
        Said::Suspect { inc, from, .. } => if *inc < entry.inc {
            Ok(None)
        } else {
            suspected(alloc, time, entry, *inc, from.as_ref())
        },
        Said::Dead { name, inc, from } => if *inc < entry.inc {
            Ok(None)
        } else {
            ended_by(alloc, name, from.as_ref(), time, entry, *inc)
        },
        Said::Left { inc, .. } => if *inc < entry.inc {
            Ok(None)
        } else {
            left(alloc, time, entry, *inc)
        },
        Said::Seen { place, .. } => seen_at(alloc, time, entry, place),
    }
}

fn has_sound_versions(details: &Details) -> bool
    ensures { result ≡ are_sound_versions details.now.vsn }
{
    let vsn = details.vsn();
    vsn.len() < 2 || (0 < vsn[0] && 0 < vsn[1] && vsn[0] <= vsn[1])
}

/// The details, with the versions that were known if they have none.
fn with_versions(
    alloc: Global,
    old: Option<&Details>,
    details: &Details,
) -> Result<Details, AllocError>
    ensures { IfOk result (λ copy. copy ≡ with_versions (option_copied old.entry) details.now) }
{
    match old {
        Some(old) if details.vsn().is_empty() => speaking(alloc, details, old),
        _ => details.try_clone(alloc),
    }
}

/// The details with the versions of others.
fn speaking(alloc: Global, details: &Details, old: &Details) -> Result<Details, AllocError>
    ensures { IfOk result (λ copy. copy ≡ record details.now { vsn = old.now.vsn }) }
{
    let meta = details.meta().to_vec(alloc)?;
    match Details::of(details.addr(), details.port(), meta, old.vsn()) {
        Ok(copy) => Ok(copy),
        Err(_) => unreachable!(),
    }
}

fn alive_since(alloc: Global, since: u64, inc: u32, details: Details) -> Entry
    ensures { result ≡ alive_since since inc details }
{
    let mut entry = Entry::blank(alloc, since);
    entry.state = State::Alive;
    entry.inc = inc;
    entry.details = Some(details);
    entry
}

fn alive_after(alloc: Global, time: u64, inc: u32, details: &Details) -> Result<Change, AllocError>
    ensures ok { IfOk result (λ changed. changed ≡ alive_after time inc details.now) }
    ensures asks { OnErr result (IsSome (alive_after time inc details.now)) }
{
    if 0 < inc {
        let details = details.try_clone(alloc)?;
        Ok(Some((alive_since(alloc, time, inc, details), Event::Back)))
    } else {
        Ok(None)
    }
}

fn alive(
    alloc: Global,
    wait: u64,
    time: u64,
    entry: &Entry,
    inc: u32,
    details: &Details,
    joins: bool,
) -> Result<Change, AllocError>
    ensures ok { IfOk result (λ changed. changed ≡ alive wait time entry.now inc details.now joins) }
    ensures asks { OnErr result (IsSome (alive wait time entry.now inc details.now joins)) }
{
    if entry.is_forgotten(wait, time) {
        return alive_after(alloc, time, inc, details);
    }
    match &entry.details {
        None => alive_unplaced(alloc, time, entry, inc, details, joins),
        Some(old) => alive_placed(alloc, old, time, entry, inc, details, joins),
    }
}

fn alive_unplaced(
    alloc: Global,
    time: u64,
    entry: &Entry,
    inc: u32,
    details: &Details,
    joins: bool,
) -> Result<Change, AllocError>
    ensures ok { IfOk result (λ changed.
        changed ≡ alive_unplaced time entry.now inc details.now joins) }
    ensures asks { OnErr result (IsSome (alive_unplaced time entry.now inc details.now joins)) }
{
    if inc <= entry.inc {
        Ok(Some((entry.with_details(alloc, details)?, Event::Known)))
    } else {
        believed(alloc, time, entry, inc, details, joins)
    }
}

fn alive_placed(
    alloc: Global,
    old: &Details,
    time: u64,
    entry: &Entry,
    inc: u32,
    details: &Details,
    joins: bool,
) -> Result<Change, AllocError>
    ensures ok { IfOk result (λ changed.
        changed ≡ alive_placed old.now time entry.now inc details.now joins) }
    ensures asks { OnErr result (IsSome (alive_placed old.now time entry.now inc details.now joins)) }
{
    if !is_same_place(old, details) {
        alive_elsewhere(alloc, time, entry, inc, details)
    } else if inc <= entry.inc {
        Ok(None)
    } else {
        believed(alloc, time, entry, inc, details, joins)
    }
}

fn alive_elsewhere(
    alloc: Global,
    time: u64,
    entry: &Entry,
    inc: u32,
    details: &Details,
) -> Result<Change, AllocError>
    ensures ok { IfOk result (λ changed. changed ≡ alive_elsewhere time entry.now inc details.now) }
    ensures asks { OnErr result (IsSome (alive_elsewhere time entry.now inc details.now)) }
{
    if entry.state.has_left() {
        let details = with_versions(alloc, entry.details.as_ref(), details)?;
        Ok(Some((alive_since(alloc, time, inc, details), Event::Back)))
    } else if entry.rivals.has_place(details) || entry.rivals.is_full() {
        Ok(None)
    } else {
        let rivals = entry.rivals.with(alloc, details)?;
        Ok(Some((entry.with_rivals(alloc, rivals)?, Event::Conflict)))
    }
}

/// The event of a first Alive.
fn first_event(joins: bool) -> Event
    ensures { result ≡ first_event joins }
{
    if joins { Event::Joined } else { Event::Known }
}

/// The event of a believed Alive about a member that was alive.
fn alive_still(old: Option<&Details>, new: &Details) -> Event
    ensures { result ≡ alive_still (option_copied old.entry) new.now }
{
    match old {
        None => Event::Known,
        Some(old) => if *old == *new {
            Event::Renewed
        } else {
            Event::Updated
        },
    }
}

/// The change by an Alive that is believed.
fn believed(
    alloc: Global,
    time: u64,
    entry: &Entry,
    inc: u32,
    details: &Details,
    joins: bool,
) -> Result<Change, AllocError>
    ensures ok { IfOk result (λ changed. changed ≡ believed time entry.now inc details.now joins) }
    ensures asks { OnErr result (IsSome (believed time entry.now inc details.now joins)) }
{
    let details = with_versions(alloc, entry.details.as_ref(), details)?;
    Ok(alive_again(alloc, time, entry, inc, details, joins))
}

fn alive_again(
    alloc: Global,
    time: u64,
    entry: &Entry,
    inc: u32,
    details: Details,
    joins: bool,
) -> Change
    ensures { result ≡ alive_again entry.now.state time entry.now inc details joins }
{
    let (since, event) = match &entry.state {
        State::Noted => (time, first_event(joins)),
        State::Seen => (entry.since, Event::Known),
        State::Alive => (entry.since, alive_still(entry.details.as_ref(), &details)),
        State::Suspect { .. } => (time, Event::Refuted),
        State::Dead { .. } | State::Left => (time, Event::Back),
    };
    Some((alive_since(alloc, since, inc, details), event))
}

fn suspected(
    alloc: Global,
    time: u64,
    entry: &Entry,
    inc: u32,
    from: Option<&MemberName>,
) -> Result<Change, AllocError>
    ensures ok { IfOk result (λ changed.
        changed ≡ suspected entry.now.state time entry.now inc (option_copied from.entry)) }
    ensures asks { OnErr result
        (IsSome (suspected entry.now.state time entry.now inc (option_copied from.entry))) }
{
    match &entry.state {
        State::Noted | State::Seen | State::Alive => suspect_since(alloc, time, entry, inc, from),
        State::Suspect { by } => accused(alloc, by, entry, from),
        State::Dead { .. } | State::Left => Ok(None),
    }
}

fn suspect_since(
    alloc: Global,
    time: u64,
    entry: &Entry,
    inc: u32,
    from: Option<&MemberName>,
) -> Result<Change, AllocError>
    ensures { IfOk result (λ changed.
        changed ≡ suspect_since time entry.now inc (option_copied from.entry)) }
{
    let by = Accusers::new(alloc, from)?;
    let suspect = entry.with_state(alloc, State::Suspect { by }, inc, time)?;
    Ok(Some((suspect, Event::Suspected)))
}

fn accused(
    alloc: Global,
    by: &Accusers,
    entry: &Entry,
    from: Option<&MemberName>,
) -> Result<Change, AllocError>
    ensures ok { IfOk result (λ changed.
        changed ≡ accused by.now entry.now (option_copied from.entry)) }
    ensures asks { OnErr result (IsSome (accused by.now entry.now (option_copied from.entry))) }
{
    let Some(from) = from else {
        return Ok(None);
    };
    if by.contains(from) || by.is_full() {
        return Ok(None);
    }
    let by = by.with(alloc, from)?;
    let suspect = entry.with_state(alloc, State::Suspect { by }, entry.inc, entry.since)?;
    Ok(Some((suspect, Event::AlsoSuspected)))
}

fn left(alloc: Global, time: u64, entry: &Entry, inc: u32) -> Result<Change, AllocError>
    ensures ok { IfOk result (λ changed.
        changed ≡ ended State.Left Event.Left time entry.now inc) }
    ensures asks { OnErr result (IsSome (ended State.Left Event.Left time entry.now inc)) }
{
    if entry.state.is_gone() {
        return Ok(None);
    }
    Ok(Some((
        entry.with_state(alloc, State::Left, inc, time)?,
        Event::Left,
    )))
}

fn dead(
    alloc: Global,
    from: Option<&MemberName>,
    time: u64,
    entry: &Entry,
    inc: u32,
) -> Result<Change, AllocError>
    ensures ok { IfOk result (λ changed.
        changed ≡ ended (State.Dead (option_copied from.entry)) Event.Dead time entry.now inc) }
    ensures asks { OnErr result
        (IsSome (ended (State.Dead (option_copied from.entry)) Event.Dead time entry.now inc)) }
{
    if entry.state.is_gone() {
        return Ok(None);
    }
    let by = name_copy(alloc, from)?;
    Ok(Some((
        entry.with_state(alloc, State::Dead { by }, inc, time)?,
        Event::Dead,
    )))
}

/// The change by a record that says dead.
fn ended_in_record(alloc: Global, time: u64, entry: &Entry, inc: u32) -> Result<Change, AllocError>
    ensures ok { IfOk result (λ changed.
        changed ≡ ended_in_record entry.now.details time entry.now inc) }
    ensures asks { OnErr result (IsSome (ended_in_record entry.now.details time entry.now inc)) }
{
    match &entry.details {
        None => dead(alloc, None, time, entry, inc),
        Some(_) => suspected(alloc, time, entry, inc, None),
    }
}

fn ended_by(
    alloc: Global,
    name: &MemberName,
    from: Option<&MemberName>,
    time: u64,
    entry: &Entry,
    inc: u32,
) -> Result<Change, AllocError>
    ensures ok { IfOk result (λ changed.
        changed ≡ ended_by name.now (option_copied from.entry) time entry.now inc) }
    ensures asks { OnErr result
        (IsSome (ended_by name.now (option_copied from.entry) time entry.now inc)) }
{
    let Some(from) = from else {
        return ended_in_record(alloc, time, entry, inc);
    };
    if *name == *from {
        left(alloc, time, entry, inc)
    } else {
        dead(alloc, Some(from), time, entry, inc)
    }
}

fn seen_at(alloc: Global, time: u64, entry: &Entry, place: &Details) -> Result<Change, AllocError>
    ensures ok { IfOk result (λ changed. changed ≡ seen_at time entry.now place.now) }
    ensures asks { OnErr result (IsSome (seen_at time entry.now place.now)) }
{
    if !entry.lacks_place() {
        return Ok(None);
    }
    Ok(Some((seen_in(alloc, time, entry, place)?, Event::Seen)))
}

fn seen_in(alloc: Global, time: u64, entry: &Entry, place: &Details) -> Result<Entry, AllocError>
    ensures { IfOk result (λ seen. seen ≡ seen_in entry.now.state time entry.now place.now) }
{
    let mut seen = entry.with_seen(alloc, place)?;
    if let State::Noted = seen.state {
        seen.state = State::Seen;
        seen.since = time;
    }
    Ok(seen)
}
