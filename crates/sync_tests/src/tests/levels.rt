//! Levelling: the listings of a cluster of up to three nodes after it.
use crate::tests::assert_stays;
use crate::tests::clusters::{
    A_LISTING, BOTH_LISTING, assert_ends, assert_nodes, cluster, level, run_once,
};
use std::alloc::{AllocError, Global};
use std::process::Abort;
use swim_sync::{Cluster, Event, Stop, Why};
use swim_table::list;

const ALL_LISTING: &str =
    "a alive 0 0/7f000001/7946//\nb alive 0 0/7f000002/7946//\nc alive 0 0/7f000003/7946//\n";

/// Asserts that levelling as many nodes as there are listings leaves them with these. If memory
/// runs out, it stops before `exchanges` exchanges are done, and the second try levels them.
fn assert_levels(
    rt: &impl Abort,
    alloc: Global,
    listings: &[&str],
    exchanges: usize,
) -> Result<(), AllocError> {
    let mut cluster = cluster(rt, alloc, listings.len())?;
    if let Err(stop) = level(rt, &mut cluster) {
        assert_eq!(rt; stop.why, Why::Memory);
        assert!(rt; stop.done < exchanges);
        assert_ends(rt, level(rt, &mut cluster), Ok(()));
    }
    assert_nodes(rt, alloc, &cluster, listings)
}

#[test]
fn levelling_gives_all_nodes_one_table(rt: HostRuntime) -> Result<(), AllocError> {
    let cases: [(&[&str], usize); 4] = [
        (&[], 0),
        (&[A_LISTING], 0),
        (&[BOTH_LISTING, BOTH_LISTING], 1),
        (&[ALL_LISTING, ALL_LISTING, ALL_LISTING], 3),
    ];
    for (listings, exchanges) in cases {
        assert_levels(&rt, rt.alloc(), listings, exchanges)?;
    }
    Ok(())
}

/// Asserts that the node of this number has the same listing in both clusters.
fn assert_same_node(
    rt: &impl Abort,
    alloc: Global,
    cluster: &Cluster,
    other: &Cluster,
    k: usize,
) -> Result<(), AllocError> {
    let node = other.node(k).expect(rt, "a node");
    let listing = list(alloc, node.table())?;
    let node = cluster.node(k).expect(rt, "a node");
    assert_stays(rt, alloc, node.table(), &listing)
}

/// Asserts that this many exchanges of a levelling were done.
fn assert_done(
    rt: &impl Abort,
    alloc: Global,
    levelled: &Cluster,
    done: usize,
) -> Result<(), AllocError> {
    let exchanges = [
        Event::Exchange(0, 1),
        Event::Exchange(0, 2),
        Event::Exchange(0, 1),
    ];
    assert!(rt; done < exchanges.len());
    let mut run = cluster(rt, alloc, 3)?;
    assert_ends(rt, run_once(&mut run, &exchanges[..done]), Ok(()));
    for k in 0..3 {
        assert_same_node(rt, alloc, levelled, &run, k)?;
    }
    Ok(())
}

#[test]
fn levelling_that_is_refused_memory_leaves_what_was_done(
    rt: HostRuntime,
) -> Result<(), AllocError> {
    let mut levelled = cluster(&rt, rt.alloc(), 3)?;
    if let Err(Stop { done, why }) = level(&rt, &mut levelled) {
        assert_eq!(rt; why, Why::Memory);
        assert_done(&rt, rt.alloc(), &levelled, done)?;
    }
    Ok(())
}
