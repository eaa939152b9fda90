//! The events of one member: from captures of real clusters of Serf, whose `serf members` printed
//! what is shown in the end, and for the rules of memberlist's `state.go` that no capture shows.

use memberlist_view::*;
use std::alloc::{AllocError, Global};
use std::process::Abort;
use std::test::Fail;
use swim_claim::{Claim, Details, Kind, Name};

/// memberlist's `GossipToTheDeadTime` in a local network, in microseconds.
const LOCAL: u64 = 30_000_000;

/// In a wide area network.
const WIDE: u64 = 60_000_000;

/// On loopback.
const LOOPBACK: u64 = 15_000_000;

/// The member that everything is about.
const NAME: &str = "web-4";

/// What is said about it.
#[derive(Clone, Copy)]
enum Word {
    /// It is alive at this incarnation at 10.20.1.x, for the last number, by gossip.
    Alive(u32, u8),
    /// The same, with another tag.
    Tagged(u32, u8),
    /// The same, with these least, greatest and present versions of the protocol.
    Speaking(u32, u8, [u8; 3]),
    /// This member suspects it.
    Suspect(u32, &'static str),
    /// This member says that it is dead.
    Dead(u32, &'static str),
    /// The same, without versions.
    Silent(u32, u8),
    /// A record of a stream says so. An alive one is at 10.20.1.14.
    Record(Kind, u32),
    /// A packet shows it there.
    Seen(u8),
}

/// At which millisecond, what is said, and the event.
type Step = (u32, Word, Option<Event>);

fn name(alloc: Global, text: &str) -> Result<Name, Fail> {
    Ok(Name::copied(alloc, text.as_bytes())??)
}

fn details(alloc: Global, host: u8, meta: &[u8], speaks: [u8; 3]) -> Result<Details, Fail> {
    let [least, greatest, present] = speaks;
    let meta = match meta.to_vec(alloc) {
        Ok(copy) => copy,
        Err(AllocError) => meta.to_vec(alloc)?,
    };
    Ok(Details::of(
        &[10, 20, 1, host],
        7946,
        meta,
        &[least, greatest, present, 2, 5, 4],
    )?)
}

/// An address and port, without metadata and versions.
fn place(alloc: Global, host: u8) -> Result<Details, Fail> {
    Ok(Details::of(&[10, 20, 1, host], 7946, Vec::new(alloc), &[])?)
}

fn alive(alloc: Global, inc: u32, details: Details) -> Result<Said, Fail> {
    Ok(Said::Alive {
        name: MemberName::new(name(alloc, NAME)?),
        inc,
        details,
        joins: true,
    })
}

fn said_in_record(alloc: Global, kind: Kind, inc: u32) -> Result<Said, Fail> {
    let name = name(alloc, NAME)?;
    Ok(Said::of_record(
        match kind {
            Kind::Alive => Claim::Alive {
                name,
                inc,
                details: details(alloc, 14, b"\xff\x80", [1, 5, 2])?,
            },
            Kind::Suspect => Claim::Suspect { name, inc },
            Kind::Confirm => Claim::Confirm { name, inc },
            Kind::Leave => Claim::Leave { name, inc },
        },
        false,
    ))
}

fn said(alloc: Global, word: Word) -> Result<Said, Fail> {
    match word {
        Word::Alive(inc, host) => alive(alloc, inc, details(alloc, host, b"\xff\x80", [1, 5, 2])?),
        Word::Tagged(inc, host) => alive(
            alloc,
            inc,
            details(alloc, host, b"\xff\x81\xa3ver\xa2v2", [1, 5, 2])?,
        ),
        Word::Speaking(inc, host, speaks) => alive(
            alloc,
            inc,
            details(alloc, host, b"\xff\x80", speaks)?,
        ),
        Word::Suspect(inc, from) => Ok(Said::Suspect {
            name: MemberName::new(name(alloc, NAME)?),
            inc,
            from: Some(MemberName::new(name(alloc, from)?)),
        }),
        Word::Dead(inc, from) => Ok(Said::Dead {
            name: MemberName::new(name(alloc, NAME)?),
            inc,
            from: Some(MemberName::new(name(alloc, from)?)),
        }),
        Word::Silent(inc, host) => alive(alloc, inc, place(alloc, host)?),
        Word::Record(kind, inc) => said_in_record(alloc, kind, inc),
        Word::Seen(host) => Ok(Said::Seen {
            name: MemberName::new(name(alloc, NAME)?),
            place: place(alloc, host)?,
        }),
    }
}

/// The event of it. If a growth is refused, the next call finds memory.
fn told(view: &mut View, heard: &Heard) -> Result<Option<Event>, AllocError> {
    match view.hear(heard) {
        Ok(event) => Ok(event),
        Err(AllocError) => view.hear(heard),
    }
}

/// Serf's word for a state, where a suspected member counts as alive, and the last number of the
/// address, or 0 if there is none.
fn shown(alloc: Global, view: &View) -> Result<(&'static str, u8), Fail> {
    let name = MemberName::new(name(alloc, NAME)?);
    let Some(entry) = view.get(&name) else {
        return Ok(("unknown", 0));
    };
    let status = match entry.state {
        State::Noted => "noted",
        State::Seen | State::Alive | State::Suspect { .. } => "alive",
        State::Dead { .. } => "failed",
        State::Left => "left",
    };
    let host = match entry.place() {
        Some(place) => place.addr()[3],
        None => 0,
    };
    Ok((status, host))
}

/// A view with this wait that hears these has these events, and shows this in the end.
fn assert_tells(
    rt: &impl Abort,
    alloc: Global,
    wait: u64,
    steps: &[Step],
    end: (&str, u8),
) -> Result<(), Fail> {
    let mut view = View::new(alloc, wait);
    for (millis, word, event) in steps {
        let heard = Heard {
            time: u64::from(*millis) * 1000,
            said: said(alloc, *word)?,
        };
        assert_eq!(rt; told(&mut view, &heard)?, *event, "at {millis}");
    }
    let (status, host) = shown(alloc, &view)?;
    assert_eq!(rt; status, end.0);
    assert_eq!(rt; host, end.1);
    assert_eq!(rt; view.wait(), wait);
    assert_eq!(rt; view.is_empty(), status == "unknown");
    assert_eq!(rt; view.iter().count(), view.len());
    Ok(())
}

// Milliseconds since 02:01:00 at web-1. The member was killed at 36,117 and restarted at 80,946.
#[test]
fn one_that_died_comes_back_at_its_first_incarnation(rt: HostRuntime) -> Result<(), Fail> {
    let steps = [
        (25_035, Word::Alive(1, 15), Some(Event::Joined)),
        (39_024, Word::Suspect(1, "web-2"), Some(Event::Suspected)),
        (
            41_990,
            Word::Suspect(1, "web-1"),
            Some(Event::AlsoSuspected),
        ),
        (42_000, Word::Suspect(1, "web-2"), None),
        (43_011, Word::Dead(1, "web-3"), Some(Event::Dead)),
        (44_000, Word::Alive(1, 15), None),
        (81_007, Word::Alive(1, 15), Some(Event::Back)),
    ];
    assert_tells(&rt, rt.alloc(), LOCAL, &steps[..6], ("failed", 15))?;
    assert_tells(&rt, rt.alloc(), LOCAL, &steps, ("alive", 15))
}

// It left at 61,625 and came back. A record of a stream says left too.
#[test]
fn one_that_left_comes_back_at_a_greater_incarnation(rt: HostRuntime) -> Result<(), Fail> {
    let steps = [
        (24_024, Word::Alive(1, 14), Some(Event::Joined)),
        (61_625, Word::Dead(1, "web-4"), Some(Event::Left)),
        (70_896, Word::Record(Kind::Leave, 1), None),
        (71_096, Word::Alive(2, 14), Some(Event::Back)),
    ];
    assert_tells(&rt, rt.alloc(), LOCAL, &steps[..3], ("left", 14))?;
    assert_tells(&rt, rt.alloc(), LOCAL, &steps, ("alive", 14))
}

// Milliseconds since 02:05:00. It was killed at 77,012, and its successor at another address was
// refused by all members, who list it as failed at the old one.
#[test]
fn another_address_is_a_conflict_until_the_first_is_forgotten(rt: HostRuntime) -> Result<(), Fail> {
    let steps = [
        (4_818, Word::Alive(1, 14), Some(Event::Joined)),
        (78_025, Word::Alive(1, 4), Some(Event::Conflict)),
        (78_100, Word::Alive(1, 4), None),
        (78_807, Word::Suspect(1, "web-1"), Some(Event::Suspected)),
        (82_811, Word::Dead(1, "web-5"), Some(Event::Dead)),
        (125_000, Word::Alive(1, 4), Some(Event::Back)),
    ];
    assert_tells(&rt, rt.alloc(), LOCAL, &steps[..5], ("failed", 14))?;
    assert_tells(&rt, rt.alloc(), LOCAL, &steps, ("alive", 4))
}

#[test]
fn records_of_streams_accuse_in_nobodys_name(rt: HostRuntime) -> Result<(), Fail> {
    let steps = [
        (2, Word::Record(Kind::Alive, 1), Some(Event::Known)),
        (3, Word::Record(Kind::Confirm, 1), Some(Event::Suspected)),
        (4, Word::Record(Kind::Suspect, 1), None),
        (5, Word::Suspect(1, "web-1"), Some(Event::AlsoSuspected)),
        (6, Word::Alive(2, 14), Some(Event::Refuted)),
        (7, Word::Tagged(3, 14), Some(Event::Updated)),
        (8, Word::Tagged(4, 14), Some(Event::Renewed)),
        (9, Word::Record(Kind::Leave, 4), Some(Event::Left)),
    ];
    assert_tells(&rt, rt.alloc(), LOCAL, &steps, ("left", 14))
}

// aliveNode takes over the address of a member that left, whatever the incarnation.
#[test]
fn the_address_of_one_that_left_is_free(rt: HostRuntime) -> Result<(), Fail> {
    let steps = [
        (1_000, Word::Alive(7, 14), Some(Event::Joined)),
        (2_000, Word::Dead(7, "web-4"), Some(Event::Left)),
        (3_000, Word::Alive(1, 24), Some(Event::Back)),
        (4_000, Word::Suspect(1, "web-1"), Some(Event::Suspected)),
    ];
    assert_tells(&rt, rt.alloc(), LOCAL, &steps, ("alive", 24))
}

// aliveNode: a name that is new, or forgotten, is at incarnation 0, so an Alive at 0 gives only the
// address, which is then its own.
#[test]
fn an_alive_at_incarnation_0_gives_the_address(rt: HostRuntime) -> Result<(), Fail> {
    let steps = [
        (1_000, Word::Alive(0, 14), Some(Event::Known)),
        (1_500, Word::Alive(1, 24), Some(Event::Conflict)),
        (2_000, Word::Alive(1, 14), Some(Event::Joined)),
        (3_000, Word::Dead(1, "web-1"), Some(Event::Dead)),
        (90_000, Word::Alive(0, 14), None),
    ];
    assert_tells(&rt, rt.alloc(), LOCAL, &steps[..2], ("noted", 14))?;
    assert_tells(&rt, rt.alloc(), LOCAL, &steps, ("failed", 14))
}

// aliveNode: pMin == 0, pMax == 0, pMin > pMax.
#[test]
fn an_alive_with_unsound_versions_is_none(rt: HostRuntime) -> Result<(), Fail> {
    let steps = [
        (1_000, Word::Speaking(1, 14, [0, 5, 2]), None),
        (2_000, Word::Speaking(1, 14, [1, 0, 2]), None),
        (3_000, Word::Speaking(1, 14, [5, 4, 2]), None),
        (4_000, Word::Speaking(1, 14, [5, 5, 0]), Some(Event::Joined)),
        (5_000, Word::Speaking(2, 14, [0, 5, 2]), None),
        (
            6_000,
            Word::Speaking(2, 14, [5, 5, 0]),
            Some(Event::Renewed),
        ),
    ];
    assert_tells(&rt, rt.alloc(), LOCAL, &steps[..3], ("unknown", 0))?;
    assert_tells(&rt, rt.alloc(), LOCAL, &steps, ("alive", 14))
}

// moveDeadNodes of later versions than 0.2.2 forgets a member that left, too.
#[test]
fn one_that_left_is_forgotten_after_more_than_the_wait(rt: HostRuntime) -> Result<(), Fail> {
    let steps = [
        (1_000, Word::Alive(3, 14), Some(Event::Joined)),
        (2_000, Word::Dead(3, "web-4"), Some(Event::Left)),
        (32_000, Word::Alive(3, 14), None),
        (32_001, Word::Dead(4, "web-1"), None),
        (32_002, Word::Alive(3, 14), Some(Event::Back)),
    ];
    assert_tells(&rt, rt.alloc(), LOCAL, &steps[..4], ("left", 14))?;
    assert_tells(&rt, rt.alloc(), LOCAL, &steps, ("alive", 14))
}

// resetNodes: time.Since(n.StateChange) > gossipToTheDeadTime.
#[test]
fn one_that_died_is_forgotten_after_more_than_the_wait(rt: HostRuntime) -> Result<(), Fail> {
    for (wait, still, forgotten) in [
        (LOOPBACK, 115_000, 115_001),
        (LOCAL, 130_000, 130_001),
        (WIDE, 160_000, 160_001),
    ] {
        let steps = [
            (1_000, Word::Alive(5, 14), Some(Event::Joined)),
            (100_000, Word::Dead(5, "web-1"), Some(Event::Dead)),
            // what was heard before, in a capture that is read later
            (2_000, Word::Alive(5, 14), None),
            (still, Word::Alive(1, 14), None),
            (forgotten, Word::Alive(1, 14), Some(Event::Back)),
        ];
        assert_tells(&rt, rt.alloc(), wait, &steps[..4], ("failed", 14))?;
        assert_tells(&rt, rt.alloc(), wait, &steps, ("alive", 14))?;
    }
    Ok(())
}

// Two rivals in turn are reported once each, and again after an Alive that is believed.
#[test]
fn each_rival_is_told_once(rt: HostRuntime) -> Result<(), Fail> {
    let steps = [
        (1_000, Word::Alive(1, 14), Some(Event::Joined)),
        (2_000, Word::Alive(1, 24), Some(Event::Conflict)),
        (3_000, Word::Alive(9, 24), None),
        (4_000, Word::Alive(1, 34), Some(Event::Conflict)),
        (4_500, Word::Alive(1, 24), None),
        (5_000, Word::Alive(2, 14), Some(Event::Renewed)),
        (6_000, Word::Alive(1, 34), Some(Event::Conflict)),
    ];
    assert_tells(&rt, rt.alloc(), LOCAL, &steps, ("alive", 14))
}

// A capture that begins during an incident: nothing was heard of the member but its death.
#[test]
fn a_death_is_told_of_a_name_that_no_alive_gave(rt: HostRuntime) -> Result<(), Fail> {
    let steps = [
        (1_000, Word::Suspect(3, "web-2"), Some(Event::Suspected)),
        (2_000, Word::Dead(3, "web-3"), Some(Event::Dead)),
        (3_000, Word::Alive(3, 14), Some(Event::Known)),
        (4_000, Word::Alive(3, 14), None),
        (5_000, Word::Alive(4, 14), Some(Event::Back)),
    ];
    assert_tells(&rt, rt.alloc(), LOCAL, &steps[..2], ("failed", 0))?;
    assert_tells(&rt, rt.alloc(), LOCAL, &steps[..4], ("failed", 14))?;
    assert_tells(&rt, rt.alloc(), LOCAL, &steps, ("alive", 14))
}

// mergeState would only suspect it, but a capture that begins late may have no other sign of its
// death than a record.
#[test]
fn a_record_tells_the_death_of_a_name_that_no_alive_gave(rt: HostRuntime) -> Result<(), Fail> {
    let steps = [
        (1_000, Word::Record(Kind::Confirm, 3), Some(Event::Dead)),
        (2_000, Word::Record(Kind::Confirm, 3), None),
        (3_000, Word::Dead(3, "web-3"), None),
        (4_000, Word::Record(Kind::Alive, 3), Some(Event::Known)),
        (5_000, Word::Record(Kind::Alive, 4), Some(Event::Back)),
        (
            6_000,
            Word::Record(Kind::Confirm, 4),
            Some(Event::Suspected),
        ),
    ];
    assert_tells(&rt, rt.alloc(), LOCAL, &steps[..3], ("failed", 0))?;
    assert_tells(&rt, rt.alloc(), LOCAL, &steps[..4], ("failed", 14))?;
    assert_tells(&rt, rt.alloc(), LOCAL, &steps, ("alive", 14))
}

// What was known of the name before decides what such a record means.
#[test]
fn a_record_that_says_dead_believes_itself_only_without_an_alive(
    rt: HostRuntime,
) -> Result<(), Fail> {
    for (before, first, inc, event, status) in [
        (Word::Seen(14), Event::Seen, 0, Some(Event::Dead), "failed"),
        (
            Word::Suspect(3, "web-2"),
            Event::Suspected,
            3,
            Some(Event::Dead),
            "failed",
        ),
        (
            Word::Suspect(3, "web-2"),
            Event::Suspected,
            2,
            None,
            "alive",
        ),
        (Word::Record(Kind::Leave, 3), Event::Left, 4, None, "left"),
        (
            Word::Alive(0, 14),
            Event::Known,
            0,
            Some(Event::Suspected),
            "alive",
        ),
    ] {
        let host = match before {
            Word::Seen(host) | Word::Alive(_, host) => host,
            _ => 0,
        };
        let steps = [
            (1_000, before, Some(first)),
            (2_000, Word::Record(Kind::Confirm, inc), event),
        ];
        assert_tells(&rt, rt.alloc(), LOCAL, &steps, (status, host))?;
    }
    Ok(())
}

// Packets show where it is, until an Alive says it.
#[test]
fn a_member_is_seen_until_a_claim_is_heard(rt: HostRuntime) -> Result<(), Fail> {
    let steps = [
        (1_000, Word::Seen(14), Some(Event::Seen)),
        (2_000, Word::Seen(24), None),
        (3_000, Word::Alive(7, 34), Some(Event::Known)),
        (4_000, Word::Silent(8, 34), Some(Event::Updated)),
        (5_000, Word::Silent(9, 34), Some(Event::Renewed)),
        (6_000, Word::Seen(14), None),
    ];
    assert_tells(&rt, rt.alloc(), LOCAL, &steps[..2], ("alive", 14))?;
    assert_tells(&rt, rt.alloc(), LOCAL, &steps, ("alive", 34))
}
