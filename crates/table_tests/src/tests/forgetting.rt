//! Names that a table or a node forgets.

use super::node::{HEARD, START, assert_member, start};
use super::{LOOPBACK, Saying, assert_lists, assert_that, table_of, take};
use std::alloc::{AllocError, Global};
use std::process::Abort;
use swim_claim::Kind;

/// Three names, in no order.
const THREE: &[Saying] = &[
    suspect!(b"b", 1),
    confirm!(b"c", 2),
    alive!(b"a", 0, LOOPBACK, 7946),
];

const ALL: &str = "a alive 0 0/7f000001/7946//\nb suspect 1 -\nc confirm 2 -\n";

/// Claims of a table, a name that it forgets, whether that had an entry, and the listing after
/// that.
const FORGOTTEN: &[(&[Saying], &[u8], bool, &str)] = &[
    // the first name, the middle one and the last
    (THREE, b"a", true, "b suspect 1 -\nc confirm 2 -\n"),
    (
        THREE,
        b"b",
        true,
        "a alive 0 0/7f000001/7946//\nc confirm 2 -\n",
    ),
    (
        THREE,
        b"c",
        true,
        "a alive 0 0/7f000001/7946//\nb suspect 1 -\n",
    ),
    // a name below all, one between two, and one above all
    (THREE, b"", false, ALL),
    (THREE, b"ab", false, ALL),
    (THREE, b"d", false, ALL),
    // the only name, and no name
    (&[suspect!(b"b", 1)], b"b", true, ""),
    (&[], b"b", false, ""),
    // a name's top and its home
    (
        &[alive!(b"a", 3, LOOPBACK, 7946), suspect!(b"a", 5)],
        b"a",
        true,
        "",
    ),
];

fn assert_forgotten(
    rt: &impl Abort,
    alloc: Global,
    row: &(&[Saying], &[u8], bool, &str),
) -> Result<(), AllocError> {
    let (sayings, name, had, wanted) = *row;
    let mut table = table_of(rt, alloc, sayings)?;
    assert_that(rt, table.forget(name) == had, wanted);
    assert_lists(rt, alloc, &table, wanted)
}

#[test]
fn a_forgotten_name_leaves_the_others(rt: HostRuntime) -> Result<(), AllocError> {
    for row in FORGOTTEN {
        assert_forgotten(&rt, rt.alloc(), row)?;
    }
    Ok(())
}

/// A claim that the one before it would override is taken in again.
#[test]
fn a_forgotten_name_is_taken_in_anew(rt: HostRuntime) -> Result<(), AllocError> {
    let mut table = table_of(&rt, rt.alloc(), THREE)?;
    assert_that(&rt, table.forget(b"c"), "an entry of c");
    take(&rt, rt.alloc(), &mut table, suspect!(b"c", 0))?;
    let wanted = "a alive 0 0/7f000001/7946//\nb suspect 1 -\nc suspect 0 -\n";
    assert_lists(&rt, rt.alloc(), &table, wanted)
}

/// A name that a node `a`, which has heard of `b`, forgets, whether it had an entry, and the
/// listing of the node's table after that.
const OF_NODE: &[(&[u8], bool, &str)] = &[
    (b"b", true, START),
    (b"c", false, HEARD),
    (b"a", true, "b suspect 1 -\n"),
];

fn assert_node_forgets(
    rt: &impl Abort,
    alloc: Global,
    row: &(&[u8], bool, &str),
) -> Result<(), AllocError> {
    let (name, had, wanted) = *row;
    let mut node = start(rt, alloc)?;
    take(rt, alloc, node.table_mut(), suspect!(b"b", 1))?;
    assert_that(rt, node.forget(name) == had, wanted);
    assert_member(rt, &node);
    assert_lists(rt, alloc, node.table(), wanted)
}

#[test]
fn a_node_forgets_a_name_and_stays_the_same_member(rt: HostRuntime) -> Result<(), AllocError> {
    for row in OF_NODE {
        assert_node_forgets(&rt, rt.alloc(), row)?;
    }
    Ok(())
}
