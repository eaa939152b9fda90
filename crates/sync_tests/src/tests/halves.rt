//! Exchanges in halves and over memory, with ends that fail and tables that are too large.

use super::{
    ALIVE_LISTING, ALIVE_OFFER, JOINED_LISTING, SUSPECT_LISTING, SUSPECT_OFFER, SUSPECTED_OFFER,
    alive_table, answered, assert_bytes, assert_exchanges, assert_finishes, assert_lists,
    exchange_once, suspect_table, take_suspects,
};
use std::alloc::{AllocError, Global};
use std::process::Abort;
use swim_pack::{SliceInlet, StopInlet, StopOutlet, VecOutlet};
use swim_sync::{PreparedAnswer, SyncFault, answer, offer, prepare_answer};
use swim_table::Table;
use swim_wire::WireFault;

fn offer_once(alloc: Global, outlet: &mut VecOutlet, table: &Table) -> Result<(), SyncFault> {
    offer(alloc, outlet, table, true)
}

/// The offer of the table, with the join flag, at the second try if out of memory.
fn offer_of(rt: &impl Abort, alloc: Global, table: &Table) -> VecOutlet {
    let mut outlet = VecOutlet::new(alloc);
    if let Err(fault) = offer_once(alloc, &mut outlet, table) {
        assert_eq!(rt; fault, SyncFault::Memory);
        assert!(rt; outlet.bytes().is_empty());
        assert_eq!(rt; offer_once(alloc, &mut outlet, table), Ok(()));
    }
    outlet
}

#[test]
fn an_offer_is_the_dump_of_the_table(rt: HostRuntime) -> Result<(), AllocError> {
    let table = alive_table(&rt, rt.alloc())?;
    let outlet = offer_of(&rt, rt.alloc(), &table);
    assert_bytes(&rt, outlet.bytes(), ALIVE_OFFER, "the offer");
    assert_lists(&rt, rt.alloc(), &table, ALIVE_LISTING)
}

/// Answers the offer of `a` with the table of `b`, which is then joined, and returns the reply.
fn reply_to_alive(rt: &impl Abort, alloc: Global) -> Result<VecOutlet, AllocError> {
    let mut table = suspect_table(rt, alloc)?;
    let reply = answered(rt, alloc, ALIVE_OFFER, &mut table, true)?;
    assert_bytes(rt, reply.bytes(), SUSPECT_OFFER, "the reply");
    assert_lists(rt, alloc, &table, JOINED_LISTING)?;
    Ok(reply)
}

#[test]
fn an_offer_is_answered_and_finished_and_holds_at_most_32_kib(
    rt: HostRuntime,
) -> Result<(), AllocError> {
    let reply = reply_to_alive(&rt, rt.alloc())?;
    let mut table = alive_table(&rt, rt.alloc())?;
    assert_finishes(&rt, rt.alloc(), reply.bytes(), &mut table, Ok(true))?;
    assert_lists(&rt, rt.alloc(), &table, JOINED_LISTING)
}

#[test]
fn a_prepared_answer_has_the_reply_and_the_room(rt: HostRuntime) -> Result<(), AllocError> {
    let alloc = rt.alloc();
    let mut table = suspect_table(&rt, alloc)?;
    let mut inlet = SliceInlet::new(ALIVE_OFFER);
    match prepare_answer(alloc, &mut inlet, &table) {
        Ok(
            PreparedAnswer {
                join,
                reply,
                offered,
                room,
            },
        ) => {
            assert!(rt; join);
            assert!(rt; inlet.rest().is_empty());
            assert_eq!(rt; reply.as_slice(), SUSPECT_OFFER);
            assert_lists(&rt, alloc, &offered, ALIVE_LISTING)?;
            table.join_in(room, offered);
            assert_lists(&rt, alloc, &table, JOINED_LISTING)
        }
        Err(fault) => {
            assert_eq!(rt; fault, SyncFault::Memory);
            Err(AllocError)
        }
    }
}

/// Asserts that the reply is the record of `b`, after a header without the join flag.
fn assert_flagless(rt: &impl Abort, reply: &[u8]) {
    let header = b"\x06\x83\xa4Join\xc2\xa5Nodes\x01\xacUserStateLen\0";
    assert_eq!(rt; reply.len(), 80);
    assert!(rt; reply.starts_with(header));
    assert!(rt; reply.ends_with(&SUSPECT_OFFER[header.len()..]));
}

#[test]
fn a_reply_has_the_flag_of_its_offer(rt: HostRuntime) -> Result<(), AllocError> {
    let mut table = suspect_table(&rt, rt.alloc())?;
    let reply = answered(&rt, rt.alloc(), SUSPECTED_OFFER, &mut table, false)?;
    assert_flagless(&rt, reply.bytes());
    let listing = "a suspect 5 4/7f000001/7947//\nb suspect 1 -\n";
    assert_lists(&rt, rt.alloc(), &table, listing)
}

#[test]
fn an_exchange_over_memory_joins_both_and_holds_at_most_32_kib(
    rt: HostRuntime,
) -> Result<(), AllocError> {
    let alloc = rt.alloc();
    let mut first = alive_table(&rt, alloc)?;
    let mut second = suspect_table(&rt, alloc)?;
    assert_exchanges(&rt, alloc, &mut first, &mut second)
}

/// Answers the offer of `a` with an inlet that fails from this call on.
fn answer_stopping(
    alloc: Global,
    pulls: usize,
    outlet: &mut StopOutlet,
    table: &mut Table,
) -> Result<bool, SyncFault> {
    answer(
        alloc,
        &mut StopInlet::new(ALIVE_OFFER, pulls),
        outlet,
        table,
    )
}

/// Asserts that the offer is not answered with the table of `b`, for this fault, if the inlet and
/// the outlet fail from these calls on: the table is unchanged, and nothing is pushed. If memory
/// runs out, the second try returns this fault.
fn assert_unanswered(
    rt: &impl Abort,
    alloc: Global,
    pulls: usize,
    pushes: usize,
    fault: SyncFault,
) -> Result<(), AllocError> {
    let mut outlet = StopOutlet::new(alloc, pushes);
    let mut table = suspect_table(rt, alloc)?;
    let mut answered = answer_stopping(alloc, pulls, &mut outlet, &mut table);
    if answered == Err(SyncFault::Memory) {
        assert_lists(rt, alloc, &table, SUSPECT_LISTING)?;
        answered = answer_stopping(alloc, pulls, &mut outlet, &mut table);
    }
    assert_eq!(rt; answered, Err(fault));
    assert!(rt; outlet.bytes().is_empty());
    assert_lists(rt, alloc, &table, SUSPECT_LISTING)
}

#[test]
fn an_outlet_or_inlet_that_fails_leaves_the_table(rt: HostRuntime) -> Result<(), AllocError> {
    let alloc = rt.alloc();
    assert_unanswered(&rt, alloc, 1000, 1, SyncFault::Push)?;
    let fault = SyncFault::Wire(WireFault::Fault);
    assert_eq!(rt; fault.number(), 9);
    assert_unanswered(&rt, alloc, 1, 2, fault)
}

/// Asserts that the tables are not exchanged, since one is too large. If memory runs out, the
/// second try returns this fault.
fn assert_too_many(rt: &impl Abort, alloc: Global, first: &mut Table, second: &mut Table) {
    let mut answer = exchange_once(alloc, first, second);
    if answer == Err(SyncFault::Memory) {
        answer = exchange_once(alloc, first, second);
    }
    assert_eq!(rt; answer, Err(SyncFault::TooManyRecords));
}

/// Asserts that the table has 131,073 names without `a`, and is not offered.
fn assert_crowded(rt: &impl Abort, alloc: Global, table: &Table) {
    assert_eq!(rt; table.len(), 131_073);
    assert!(rt; table.get(b"a").is_none());
    let mut outlet = VecOutlet::new(alloc);
    let refused = offer_once(alloc, &mut outlet, table);
    assert_eq!(rt; refused, Err(SyncFault::TooManyRecords));
    assert!(rt; outlet.bytes().is_empty());
}

#[test]
fn a_table_of_131073_records_is_not_exchanged(rt: HostRuntime) -> Result<(), AllocError> {
    let mut first = alive_table(&rt, rt.alloc())?;
    let mut second = Table::new(rt.alloc());
    take_suspects(&rt, rt.alloc(), &mut second, 131_073)?;
    assert_too_many(&rt, rt.alloc(), &mut second, &mut first);
    assert_too_many(&rt, rt.alloc(), &mut first, &mut second);
    assert_lists(&rt, rt.alloc(), &first, ALIVE_LISTING)?;
    assert_crowded(&rt, rt.alloc(), &second);
    Ok(())
}
