//! A member's node, and what it refutes.

use super::datagrams::PACKET;
use super::{
    LOOPBACK, Saying, assert_bytes, assert_count, assert_lists, assert_that, claim_of, claims_of,
    details_of, name_of, table_of, take,
};
use std::alloc::{AllocError, Global};
use std::process::Abort;
use std::test::Fail;
use swim_claim::{Claim, Kind};
use swim_table::{EncodeFault, Node, RefuteFault, Room, Table, Taken, list};
use swim_wire::Datagram;

/// A node `a` at incarnation 3, or none if memory is refused.
fn start_once(rt: &impl Abort, alloc: Global) -> Result<Option<Node>, AllocError> {
    let name = name_of(rt, alloc, b"a")?;
    let details = details_of(rt, LOOPBACK, 7946, Vec::new(alloc), b"");
    Ok(Node::new(alloc, name, details, 3).ok())
}

/// A node `a` at incarnation 3, made at the second try if memory is refused.
pub(super) fn start(rt: &impl Abort, alloc: Global) -> Result<Node, AllocError> {
    match start_once(rt, alloc)? {
        Some(node) => Ok(node),
        None => Ok(start_once(rt, alloc)?.expect(rt, "the second try")),
    }
}

/// Asserts that the node is still `a` with its own address and port.
pub(super) fn assert_member(rt: &impl Abort, node: &Node) {
    let details = node.details();
    let same = node.name().bytes() == b"a".as_slice()
        && details.addr() == LOOPBACK
        && details.port() == 7946
        && details.meta().is_empty()
        && details.vsn().is_empty();
    assert_that(rt, same, "the member is not itself");
}

/// The result of asking a node to refute.
type Answer = Result<Option<u32>, RefuteFault>;

/// The result of asking the node to refute. If memory is refused, the table must not change, and
/// the second try gives the result.
fn refute(rt: &impl Abort, alloc: Global, node: &mut Node) -> Result<Answer, AllocError> {
    let before = list(alloc, node.table())?;
    match node.refute() {
        Err(RefuteFault::Memory) => {
            assert_bytes(rt, &list(alloc, node.table())?, &before, "no refutation");
            assert_member(rt, node);
            Ok(node.refute())
        }
        answer => Ok(answer),
    }
}

fn assert_answer(rt: &impl Abort, found: Answer, wanted: Answer) {
    assert_eq!(rt; found, wanted);
}

/// What a node hears, if anything, the result of asking it to refute then, and the listing of its
/// table after that.
type Turn = (Option<Saying>, Answer, &'static str);

/// Asserts the node's result in this turn, and the listing of its table then.
fn assert_turn(
    rt: &impl Abort,
    alloc: Global,
    node: &mut Node,
    turn: &Turn,
) -> Result<(), AllocError> {
    let (heard, wanted, listing) = *turn;
    if let Some(saying) = heard {
        take(rt, alloc, node.table_mut(), saying)?;
    }
    assert_answer(rt, refute(rt, alloc, node)?, wanted);
    assert_member(rt, node);
    assert_lists(rt, alloc, node.table(), listing)
}

fn assert_turns(
    rt: &impl Abort,
    alloc: Global,
    node: &mut Node,
    turns: &[Turn],
) -> Result<(), AllocError> {
    assert_member(rt, node);
    assert_lists(rt, alloc, node.table(), START)?;
    for turn in turns {
        assert_turn(rt, alloc, node, turn)?;
    }
    Ok(())
}

/// The listing of a node at its start, and then with what it has heard about `b`.
pub(super) const START: &str = "a alive 3 3/7f000001/7946//\n";

pub(super) const HEARD: &str = "a alive 3 3/7f000001/7946//\nb suspect 1 -\n";

/// The turns of some nodes, each from the start.
const TURNS: &[&[Turn]] = &[
    // a suspicion is refuted once
    &[
        (None, Ok(None), START),
        (
            Some(suspect!(b"a", 7)),
            Ok(Some(8)),
            "a alive 8 8/7f000001/7946//\n",
        ),
        (None, Ok(None), "a alive 8 8/7f000001/7946//\n"),
    ],
    &[(
        Some(suspect!(b"a", 4_294_967_295)),
        Err(RefuteFault::Exhausted),
        "a suspect 4294967295 3/7f000001/7946//\n",
    )],
    &[(
        Some(confirm!(b"a", 0)),
        Err(RefuteFault::Gone { inc: 0 }),
        "a confirm 0 3/7f000001/7946//\n",
    )],
    &[(
        Some(alive!(b"a", 5, LOOPBACK, 1)),
        Ok(Some(6)),
        "a alive 6 6/7f000001/7946//\n",
    )],
    &[(
        Some(leave!(b"a", 3)),
        Err(RefuteFault::Gone { inc: 3 }),
        "a leave 3 3/7f000001/7946//\n",
    )],
];

#[test]
fn a_node_starts_with_its_own_claim_and_refutes_once_by_what_stands(
    rt: HostRuntime,
) -> Result<(), AllocError> {
    for turns in TURNS {
        let mut node = start(&rt, rt.alloc())?;
        assert_turns(&rt, rt.alloc(), &mut node, turns)?;
    }
    Ok(())
}

/// Takes a claim in, at the second try if memory is refused. Until then the table must not change.
fn take_one(rt: &impl Abort, node: &mut Node, claim: Claim) -> Option<Taken> {
    match node.take(claim) {
        Ok(taken) => Some(taken),
        Err((claim, _)) => {
            assert_count(rt, node.table().len(), 1, "claims");
            node.take(claim).ok()
        }
    }
}

/// Takes several claims in, at the second try if memory is refused. Until then the table must not
/// change.
fn take_several(rt: &impl Abort, alloc: Global, node: &mut Node) -> Result<(), AllocError> {
    let sayings = [suspect!(b"b", 1), alive!(b"a", 2, LOOPBACK, 1)];
    if node.take_all(claims_of(rt, alloc, &sayings)?).is_err() {
        assert_count(rt, node.table().len(), 1, "claims");
        let repeated = node.take_all(claims_of(rt, alloc, &sayings)?).is_ok();
        assert_that(rt, repeated, "the second try");
    }
    Ok(())
}

/// Joins a table in, with room for both.
fn join_in(
    rt: &impl Abort,
    alloc: Global,
    node: &mut Node,
    other: Table,
) -> Result<(), AllocError> {
    let room = Room::new(alloc, 2)?;
    if node.table().len() + other.len() <= room.size() {
        node.join_in(room, other);
    }
    Ok(())
}

/// A way in which a node can hear.
#[derive(Clone, Copy)]
enum Way {
    Claim,
    Claims,
    Datagram,
    Join,
    Table,
}

/// Makes the node hear a Suspect of `b` in this way.
fn hear(rt: &impl Abort, alloc: Global, node: &mut Node, way: Way) -> Result<(), Fail> {
    let saying = suspect!(b"b", 1);
    match way {
        Way::Claim => {
            let taken = take_one(rt, node, claim_of(rt, alloc, saying)?);
            assert_that(rt, taken == Some(Taken::New), "the name is new");
        }
        Way::Claims => take_several(rt, alloc, node)?,
        Way::Datagram => node.take_datagram(Datagram::decode(alloc, PACKET)?)?,
        Way::Join => join_in(rt, alloc, node, table_of(rt, alloc, &[saying])?)?,
        Way::Table => {
            take(rt, alloc, node.table_mut(), saying)?;
        }
    }
    Ok(())
}

/// Asserts that the node has heard of `b` in this way, and is still the same member.
fn assert_heard(rt: &impl Abort, alloc: Global, node: &mut Node, way: Way) -> Result<(), Fail> {
    hear(rt, alloc, node, way)?;
    assert_member(rt, node);
    assert_lists(rt, alloc, node.table(), HEARD)?;
    Ok(())
}

#[test]
fn a_node_hears_in_each_way_and_stays_the_member(rt: HostRuntime) -> Result<(), Fail> {
    for way in [
        Way::Claim,
        Way::Claims,
        Way::Datagram,
        Way::Join,
        Way::Table,
    ] {
        let mut node = start(&rt, rt.alloc())?;
        assert_heard(&rt, rt.alloc(), &mut node, way)?;
    }
    Ok(())
}

/// Asserts the number and the text of a fault.
fn assert_fault(rt: &impl Abort, number: u32, said: &str, wanted: (u32, &str)) {
    let same = number == wanted.0 && said == wanted.1;
    assert_that(rt, same, wanted.1);
}

#[test]
fn each_fault_of_a_dump_has_its_number_and_its_text(rt: HostRuntime) -> Result<(), AllocError> {
    for (fault, wanted) in [
        (
            EncodeFault::TooManyRecords,
            (23, "the table has more than 131,072 records"),
        ),
        (EncodeFault::Memory, (10, "out of memory")),
    ] {
        let said = format!(in rt.alloc(); "{fault}")?;
        assert_fault(&rt, fault.number(), said.as_str(), wanted);
    }
    Ok(())
}

#[test]
fn each_fault_of_a_refutation_has_its_number_and_its_text(
    rt: HostRuntime,
) -> Result<(), AllocError> {
    for (fault, wanted) in [
        (
            RefuteFault::Exhausted,
            (24, "there is no greater incarnation"),
        ),
        (
            RefuteFault::Gone { inc: 7 },
            (25, "the member is gone since incarnation 7"),
        ),
        (RefuteFault::Memory, (10, "out of memory")),
    ] {
        let said = format!(in rt.alloc(); "{fault}")?;
        assert_fault(&rt, fault.number(), said.as_str(), wanted);
    }
    Ok(())
}
