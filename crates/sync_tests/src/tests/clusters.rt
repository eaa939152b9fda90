//! Runs of events and levelling, on the nodes of three members.
use crate::tests::{
    JOINED_LISTING, SUSPECT_OFFER, assert_bytes, assert_finishes, assert_lists, details_of,
    name_of, suspect, take_suspects,
};
use std::alloc::{AllocError, Global};
use std::process::Abort;
use swim_claim::Claim;
use swim_sync::{Claims, Cluster, Event, Stop, Why};
use swim_table::Node;

pub(super) const A_LISTING: &str = "a alive 0 0/7f000001/7946//\n";

const B_LISTING: &str = "b alive 0 0/7f000002/7946//\n";

pub(super) const BOTH_LISTING: &str = "a alive 0 0/7f000001/7946//\nb alive 0 0/7f000002/7946//\n";

/// The node of this name at 127.0.0.x and port 7946, at incarnation 0.
fn node(rt: &impl Abort, alloc: Global, name: &'static [u8], last: u8) -> Result<Node, AllocError> {
    let details = details_of(rt, alloc, last, 7946)?;
    Node::new(alloc, name_of(rt, alloc, name)?, details, 0)
}

/// The cluster of the first `size` of the members a, b and c.
pub(super) fn cluster(rt: &impl Abort, alloc: Global, size: usize) -> Result<Cluster, AllocError> {
    let members = [
        (b"a".as_slice(), 1),
        (b"b".as_slice(), 2),
        (b"c".as_slice(), 3),
    ];
    let mut nodes = Vec::new(alloc);
    for (name, last) in members.into_iter().take(size) {
        nodes.push(node(rt, alloc, name, last)?)?;
    }
    Ok(Cluster::new(alloc, nodes))
}

/// Asserts the listing of the node with this number.
fn assert_node(
    rt: &impl Abort,
    alloc: Global,
    cluster: &Cluster,
    k: usize,
    listing: &str,
) -> Result<(), AllocError> {
    let node = cluster.node(k).expect(rt, "a node");
    assert_lists(rt, alloc, node.table(), listing)
}

/// Asserts the listing of each node, and that there is no other node.
pub(super) fn assert_nodes(
    rt: &impl Abort,
    alloc: Global,
    cluster: &Cluster,
    listings: &[&str],
) -> Result<(), AllocError> {
    assert_eq!(rt; cluster.len(), listings.len());
    assert!(rt; cluster.node(listings.len()).is_none());
    for (k, listing) in listings.iter().enumerate() {
        assert_node(rt, alloc, cluster, k, listing)?;
    }
    Ok(())
}

pub(super) fn run_once(cluster: &mut Cluster, events: &[Event]) -> Result<(), Stop> {
    cluster.run(events)
}

/// Asserts that a run or a levelling ends this way.
pub(super) fn assert_ends(rt: &impl Abort, found: Result<(), Stop>, wanted: Result<(), Stop>) {
    assert_eq!(rt; found, wanted);
}

/// Runs the events, which all happen. If memory runs out, the run continues at the event that did
/// not happen.
pub(super) fn assert_runs(rt: &impl Abort, cluster: &mut Cluster, events: &[Event]) {
    if let Err(stop) = run_once(cluster, events) {
        assert_eq!(rt; stop.why, Why::Memory);
        assert!(rt; stop.done < events.len());
        assert_ends(rt, run_once(cluster, &events[stop.done..]), Ok(()));
    }
}

/// Levels a cluster of at most three nodes.
pub(super) fn level(rt: &impl Abort, cluster: &mut Cluster) -> Result<(), Stop> {
    assert!(rt; cluster.len() <= 3);
    cluster.level()
}

/// Runs the events. The one at this index does not happen, and not because memory ran out.
fn assert_stops(rt: &impl Abort, cluster: &mut Cluster, events: &[Event], expected: Stop) {
    let mut stop = run_once(cluster, events);
    let mut before = 0;
    if let Err(
        Stop {
            done,
            why: Why::Memory,
        },
    ) = stop
    {
        assert!(rt; done < events.len());
        before = done;
        stop = run_once(cluster, &events[done..]);
    }
    let done = expected.done - before.min(expected.done);
    let why = expected.why;
    assert_ends(rt, stop, Err(Stop { done, why }));
}

/// A hundred rounds of three events among three nodes.
fn rounds(alloc: Global) -> Result<Vec<Event>, AllocError> {
    let mut events = Vec::new(alloc);
    for _ in 0..100 {
        events.push(Event::Exchange(0, 1))?;
        events.push(Event::Half(1, 2))?;
        events.push(Event::Refute(2))?;
    }
    Ok(events)
}

#[test]
fn three_hundred_events_happen(rt: HostRuntime) -> Result<(), AllocError> {
    let events = rounds(rt.alloc())?;
    let mut cluster = cluster(&rt, rt.alloc(), 3)?;
    if let Err(stop) = run_once(&mut cluster, &events) {
        assert_eq!(rt; stop.why, Why::Memory);
        return Err(AllocError);
    }
    Ok(())
}

#[test]
fn half_an_exchange_tells_the_second_node_alone(rt: HostRuntime) -> Result<(), AllocError> {
    let alloc = rt.alloc();
    let mut cluster = cluster(&rt, alloc, 2)?;
    assert_nodes(&rt, alloc, &cluster, &[A_LISTING, B_LISTING])?;
    assert_runs(&rt, &mut cluster, &[Event::Half(0, 1)]);
    assert_nodes(&rt, alloc, &cluster, &[A_LISTING, BOTH_LISTING])?;
    assert_runs(&rt, &mut cluster, &[Event::Exchange(0, 1)]);
    assert_nodes(&rt, alloc, &cluster, &[BOTH_LISTING, BOTH_LISTING])
}

#[test]
fn a_run_that_memory_stopped_goes_on_where_it_stopped(rt: HostRuntime) -> Result<(), AllocError> {
    let alloc = rt.alloc();
    let mut cluster = cluster(&rt, alloc, 2)?;
    assert_runs(
        &rt,
        &mut cluster,
        &[Event::Half(0, 1), Event::Exchange(0, 1)],
    );
    assert_nodes(&rt, alloc, &cluster, &[BOTH_LISTING, BOTH_LISTING])
}

/// Asserts that the node is still `a` with its own address and port.
fn assert_member(rt: &impl Abort, node: &Node) {
    assert_bytes(rt, node.name().bytes(), b"a", "the name");
    assert_bytes(rt, node.details().addr(), &[127, 0, 0, 1], "the address");
    assert_eq!(rt; node.details().port(), 7946);
}

#[test]
fn a_node_finishes_an_exchange_and_stays_the_member(rt: HostRuntime) -> Result<(), AllocError> {
    let alloc = rt.alloc();
    let mut node = node(&rt, alloc, b"a", 1)?;
    assert_finishes(&rt, alloc, SUSPECT_OFFER, node.table_mut(), Ok(true))?;
    assert_lists(&rt, alloc, node.table(), JOINED_LISTING)?;
    assert_member(&rt, &node);
    Ok(())
}

/// Asserts that a first event of `a` and `b` leaves them with these listings.
fn assert_tells(
    rt: &impl Abort,
    alloc: Global,
    event: Event,
    listings: &[&str; 2],
) -> Result<(), AllocError> {
    let mut cluster = cluster(rt, alloc, 2)?;
    assert_runs(rt, &mut cluster, &[event]);
    assert_nodes(rt, alloc, &cluster, listings)
}

#[test]
fn an_exchange_tells_both_nodes_whichever_begins(rt: HostRuntime) -> Result<(), AllocError> {
    let both = [BOTH_LISTING, BOTH_LISTING];
    assert_tells(&rt, rt.alloc(), Event::Exchange(0, 1), &both)?;
    assert_tells(&rt, rt.alloc(), Event::Exchange(1, 0), &both)?;
    assert_tells(
        &rt,
        rt.alloc(),
        Event::Half(1, 0),
        &[BOTH_LISTING, B_LISTING],
    )
}

/// The node hears that the member with this name is suspected.
fn hear(
    rt: &impl Abort,
    alloc: Global,
    k: usize,
    name: &'static [u8],
    inc: u32,
) -> Result<Event, AllocError> {
    Ok(Event::Hear(k, suspect(rt, alloc, name, inc)?))
}

#[test]
fn a_suspected_node_refutes_until_its_number_is_no_nodes(
    rt: HostRuntime,
) -> Result<(), AllocError> {
    let alloc = rt.alloc();
    let events = [
        hear(&rt, alloc, 0, b"a", 1)?,
        Event::Refute(0),
        hear(&rt, alloc, 1, b"a", 1)?,
    ];
    let mut cluster = cluster(&rt, alloc, 1)?;
    let why = Why::NoSuchNode;
    assert_stops(&rt, &mut cluster, &events, Stop { done: 2, why });
    assert_nodes(&rt, alloc, &cluster, &["a alive 2 2/7f000001/7946//\n"])
}

/// Suspects of `b`, of `x`, and of `b` again.
fn three_suspects(rt: &impl Abort, alloc: Global) -> Result<Claims, AllocError> {
    let mut claims = Vec::new(alloc);
    claims.push(suspect(rt, alloc, b"b", 1)?)?;
    claims.push(suspect(rt, alloc, b"x", 3)?)?;
    claims.push(suspect(rt, alloc, b"b", 0)?)?;
    Ok(Claims::new(claims))
}

#[test]
fn claims_are_heard_together(rt: HostRuntime) -> Result<(), AllocError> {
    let heard = "a alive 0 0/7f000001/7946//\nb suspect 1 -\nx suspect 3 -\n";
    let event = Event::HearAll(0, three_suspects(&rt, rt.alloc())?);
    assert_tells(&rt, rt.alloc(), event, &[heard, B_LISTING])
}

/// Asserts that the event stops a run after a first event, and that two nodes know nothing new.
fn assert_event_stops(
    rt: &impl Abort,
    alloc: Global,
    event: Event,
    why: Why,
) -> Result<(), AllocError> {
    let events = [Event::Refute(0), event];
    let mut cluster = cluster(rt, alloc, 2)?;
    assert_stops(rt, &mut cluster, &events, Stop { done: 1, why });
    assert_nodes(rt, alloc, &cluster, &[A_LISTING, B_LISTING])
}

#[test]
fn events_that_name_no_two_nodes_stop_a_run(rt: HostRuntime) -> Result<(), AllocError> {
    let alloc = rt.alloc();
    assert_event_stops(&rt, alloc, hear(&rt, alloc, 2, b"a", 1)?, Why::NoSuchNode)?;
    let nothing = Claims::new(Vec::new(alloc));
    assert_event_stops(&rt, alloc, Event::HearAll(2, nothing), Why::NoSuchNode)?;
    for (event, why) in [
        (Event::Refute(2), Why::NoSuchNode),
        (Event::Exchange(0, 2), Why::NoSuchNode),
        (Event::Exchange(2, 0), Why::NoSuchNode),
        (Event::Half(0, 2), Why::NoSuchNode),
        (Event::Half(usize::MAX, 1), Why::NoSuchNode),
        (Event::Exchange(2, 2), Why::NoSuchNode),
        (Event::Half(2, 2), Why::NoSuchNode),
        (Event::Exchange(0, 0), Why::SameNode),
        (Event::Half(1, 1), Why::SameNode),
    ] {
        assert_event_stops(&rt, alloc, event, why)?;
    }
    Ok(())
}

/// A node `a` that knows 131,072 others, and a node `b`.
fn crowded(rt: &impl Abort, alloc: Global) -> Result<Cluster, AllocError> {
    let mut first = node(rt, alloc, b"a", 1)?;
    take_suspects(rt, alloc, first.table_mut(), 131_072)?;
    let mut nodes = Vec::new(alloc);
    nodes.push(first)?;
    nodes.push(node(rt, alloc, b"b", 2)?)?;
    Ok(Cluster::new(alloc, nodes))
}

/// Asserts that the crowded node heard of one more member, and that neither node heard of the
/// other.
fn assert_crowded(rt: &impl Abort, alloc: Global, cluster: &Cluster) -> Result<(), AllocError> {
    let first = cluster.node(0).expect(rt, "a node");
    assert_eq!(rt; first.table().len(), 131_074);
    assert!(rt; first.table().get(b"b").is_none());
    assert_node(rt, alloc, cluster, 1, B_LISTING)
}

/// Asserts that the exchange stops a run, but not what is heard before.
fn assert_exchange_stops(
    rt: &impl Abort,
    alloc: Global,
    cluster: &mut Cluster,
    exchange: Event,
) -> Result<(), AllocError> {
    let events = [hear(rt, alloc, 0, b"x", 1)?, exchange];
    let why = Why::TooManyRecords;
    assert_stops(rt, cluster, &events, Stop { done: 1, why });
    assert_crowded(rt, alloc, cluster)
}

/// Asserts that levelling stops at its first exchange, at the second try if out of memory.
fn assert_unlevelled(rt: &impl Abort, cluster: &mut Cluster) {
    let mut levelled = level(rt, cluster);
    if levelled
        == Err(Stop {
            done: 0,
            why: Why::Memory,
        })
    {
        levelled = level(rt, cluster);
    }
    let why = Why::TooManyRecords;
    assert_ends(rt, levelled, Err(Stop { done: 0, why }));
}

#[test]
fn a_crowded_table_stops_exchanges_alone(rt: HostRuntime) -> Result<(), AllocError> {
    let alloc = rt.alloc();
    let mut cluster = crowded(&rt, alloc)?;
    assert_exchange_stops(&rt, alloc, &mut cluster, Event::Exchange(0, 1))?;
    assert_exchange_stops(&rt, alloc, &mut cluster, Event::Exchange(1, 0))?;
    assert_exchange_stops(&rt, alloc, &mut cluster, Event::Half(0, 1))?;
    assert_exchange_stops(&rt, alloc, &mut cluster, Event::Half(1, 0))?;
    assert_unlevelled(&rt, &mut cluster);
    Ok(())
}

/// The first node hears that it is dead.
fn hear_own_death(rt: &impl Abort, alloc: Global) -> Result<Event, AllocError> {
    let name = name_of(rt, alloc, b"a")?;
    Ok(Event::Hear(0, Claim::Confirm { name, inc: 0 }))
}

#[test]
fn refutations_that_nothing_or_nobody_wants_stop_no_run(rt: HostRuntime) -> Result<(), AllocError> {
    let alloc = rt.alloc();
    let last = hear(&rt, alloc, 0, b"a", u32::MAX)?;
    let events = [Event::Refute(0), last, Event::Refute(0)];
    let mut cluster = cluster(&rt, alloc, 1)?;
    assert_runs(&rt, &mut cluster, &events);
    let exhausted = "a suspect 4294967295 0/7f000001/7946//\n";
    assert_nodes(&rt, alloc, &cluster, &[exhausted])?;
    let events = [hear_own_death(&rt, alloc)?, Event::Refute(0)];
    assert_runs(&rt, &mut cluster, &events);
    let gone = "a confirm 0 0/7f000001/7946//\n";
    assert_nodes(&rt, alloc, &cluster, &[gone])
}

/// Suspects of 40 members, whose names are bytes from `A` on.
fn forty_suspects(rt: &impl Abort, alloc: Global) -> Result<Claims, AllocError> {
    let mut claims = Vec::new(alloc);
    for byte in 0x41..0x69u8 {
        let name = name_of(rt, alloc, &[byte])?;
        claims.push(Claim::Suspect { name, inc: 1 })?;
    }
    Ok(Claims::new(claims))
}

#[test]
fn many_claims_are_heard_together(rt: HostRuntime) -> Result<(), AllocError> {
    let event = Event::HearAll(0, forty_suspects(&rt, rt.alloc())?);
    let mut cluster = cluster(&rt, rt.alloc(), 1)?;
    assert_runs(&rt, &mut cluster, &[event]);
    let node = cluster.node(0).expect(&rt, "a node");
    // 0x61 is `a`, which the node knew
    assert_eq!(rt; node.table().len(), 40);
    assert!(rt; node.table().get(b"h").is_some());
    Ok(())
}

/// Asserts that the events leave both nodes with the same listing.
fn assert_told(rt: &impl Abort, alloc: Global, events: &[Event; 3]) -> Result<(), AllocError> {
    let mut cluster = cluster(rt, alloc, 2)?;
    assert_runs(rt, &mut cluster, events);
    let both = "a alive 0 0/7f000001/7946//\nb suspect 1 0/7f000002/7946//\n";
    assert_nodes(rt, alloc, &cluster, &[both, both])
}

#[test]
fn nodes_that_heard_the_same_list_the_same(rt: HostRuntime) -> Result<(), AllocError> {
    let alloc = rt.alloc();
    let told_twice = [
        hear(&rt, alloc, 0, b"b", 1)?,
        hear(&rt, alloc, 1, b"b", 1)?,
        Event::Exchange(0, 1),
    ];
    assert_told(&rt, alloc, &told_twice)?;
    let told_later = [
        Event::Exchange(0, 1),
        hear(&rt, alloc, 0, b"b", 1)?,
        Event::Half(0, 1),
    ];
    assert_told(&rt, alloc, &told_later)
}
