//! Streams that are cut off, or that come and go in pieces.

use super::fakes::{Pieces, Taker};
use super::{
    ALIVE_LISTING, ALIVE_OFFER, JOINED_LISTING, SUSPECT_LISTING, SUSPECT_OFFER, SUSPECTED_OFFER,
    alive_table, answered, assert_bytes, assert_exchanges, assert_finishes, assert_lists,
    suspect_table,
};
use std::alloc::{AllocError, Global};
use std::process::Abort;
use swim_pack::{FromRead, SliceInlet, ToWrite, VecOutlet};
use swim_sync::{SyncFault, answer, finish};
use swim_table::Table;
use swim_wire::WireFault;

const ENDED: Result<bool, SyncFault> = Err(SyncFault::Wire(WireFault::Ended));

#[test]
fn a_cut_stream_finishes_nothing(rt: HostRuntime) -> Result<(), AllocError> {
    let alloc = rt.alloc();
    let mut table = alive_table(&rt, alloc)?;
    for len in 0..SUSPECTED_OFFER.len() {
        assert_finishes(&rt, alloc, &SUSPECTED_OFFER[..len], &mut table, ENDED)?;
        assert_lists(&rt, alloc, &table, ALIVE_LISTING)?;
    }
    Ok(())
}

/// Asserts that this prefix of the reply to the table of `a` finishes nothing, and that a whole
/// exchange then joins both.
fn assert_joins_after_cut(rt: &impl Abort, alloc: Global, front: &[u8]) -> Result<(), AllocError> {
    let mut first = alive_table(rt, alloc)?;
    let mut second = suspect_table(rt, alloc)?;
    let reply = answered(rt, alloc, ALIVE_OFFER, &mut second, true)?;
    assert_bytes(rt, reply.bytes(), SUSPECT_OFFER, "the reply");
    assert_finishes(rt, alloc, front, &mut first, ENDED)?;
    assert_lists(rt, alloc, &first, ALIVE_LISTING)?;
    assert_lists(rt, alloc, &second, JOINED_LISTING)?;
    assert_exchanges(rt, alloc, &mut first, &mut second)
}

#[test]
fn after_a_reply_that_was_cut_a_whole_exchange_joins_both(
    rt: HostRuntime,
) -> Result<(), AllocError> {
    for len in 0..SUSPECT_OFFER.len() {
        assert_joins_after_cut(&rt, rt.alloc(), &SUSPECT_OFFER[..len])?;
    }
    Ok(())
}

/// Answers the offer of `a` into the writer, at the second try if out of memory.
fn answer_into(alloc: Global, writer: &mut Taker, table: &mut Table) -> Result<bool, SyncFault> {
    let mut outlet = ToWrite::new(writer);
    match answer(alloc, &mut SliceInlet::new(ALIVE_OFFER), &mut outlet, table) {
        Err(SyncFault::Memory) => {
            answer(alloc, &mut SliceInlet::new(ALIVE_OFFER), &mut outlet, table)
        }
        answered => answered,
    }
}

/// Asserts that the writer took the reply up to the failed write.
fn assert_took(rt: &impl Abort, writer: &Taker, fails_at: usize) {
    let wanted = fails_at.saturating_sub(1).min(SUSPECT_OFFER.len());
    assert_bytes(
        rt,
        writer.taken(),
        &SUSPECT_OFFER[..wanted],
        "what was taken",
    );
}

/// Asserts that an answer fails if its writer fails at this byte of its 80, and leaves the table
/// unchanged.
fn assert_fails_at(rt: &impl Abort, alloc: Global, fails_at: usize) -> Result<(), AllocError> {
    let mut writer = Taker::new(fails_at);
    let mut table = suspect_table(rt, alloc)?;
    let answered = answer_into(alloc, &mut writer, &mut table);
    assert_took(rt, &writer, fails_at);
    let (wanted, listing) = if fails_at <= 80 {
        (Err(SyncFault::Push), SUSPECT_LISTING)
    } else {
        (Ok(true), JOINED_LISTING)
    };
    assert_eq!(rt; answered, wanted, "{fails_at}");
    assert_lists(rt, alloc, &table, listing)
}

#[test]
fn a_writer_that_fails_at_any_byte_leaves_the_table(rt: HostRuntime) -> Result<(), AllocError> {
    for fails_at in 1..=81 {
        assert_fails_at(&rt, rt.alloc(), fails_at)?;
    }
    Ok(())
}

/// A reader of the bytes, which returns at most `most` in each read.
fn pieces(bytes: &'static [u8], most: usize) -> FromRead<Pieces<'static>> {
    FromRead::new(Pieces { bytes, most })
}

/// Answers the offer in such pieces.
fn answer_pieces(
    alloc: Global,
    offer: &'static [u8],
    most: usize,
    outlet: &mut VecOutlet,
    table: &mut Table,
) -> Result<bool, SyncFault> {
    answer(alloc, &mut pieces(offer, most), outlet, table)
}

/// Asserts that the offer in such pieces is answered with its flag, at the second try if out of
/// memory.
fn assert_pieces_answered(
    rt: &impl Abort,
    alloc: Global,
    (offer, flag, listing): (&'static [u8], bool, &str),
    most: usize,
) -> Result<(), AllocError> {
    let mut outlet = VecOutlet::new(alloc);
    let mut table = suspect_table(rt, alloc)?;
    let mut answered = answer_pieces(alloc, offer, most, &mut outlet, &mut table);
    if answered == Err(SyncFault::Memory) {
        assert!(rt; outlet.bytes().is_empty());
        answered = answer_pieces(alloc, offer, most, &mut outlet, &mut table);
    }
    assert_eq!(rt; answered, Ok(flag), "{most}");
    assert_eq!(rt; outlet.bytes().len(), 80);
    assert_lists(rt, alloc, &table, listing)
}

#[test]
fn a_stream_in_pieces_of_any_size_is_answered(rt: HostRuntime) -> Result<(), AllocError> {
    let suspected = "a suspect 5 4/7f000001/7947//\nb suspect 1 -\n";
    for most in 1..=SUSPECTED_OFFER.len() {
        assert_pieces_answered(&rt, rt.alloc(), (SUSPECTED_OFFER, false, suspected), most)?;
        assert_pieces_answered(&rt, rt.alloc(), (ALIVE_OFFER, true, JOINED_LISTING), most)?;
    }
    Ok(())
}

/// Finishes with the reply in such pieces.
fn finish_pieces(
    alloc: Global,
    reply: &'static [u8],
    most: usize,
    table: &mut Table,
) -> Result<bool, SyncFault> {
    finish(alloc, &mut pieces(reply, most), table)
}

/// Asserts that the reply in such pieces finishes with its flag, at the second try if out of
/// memory.
fn assert_pieces_finish(
    rt: &impl Abort,
    alloc: Global,
    (reply, flag, listing): (&'static [u8], bool, &str),
    most: usize,
) -> Result<(), AllocError> {
    let mut table = alive_table(rt, alloc)?;
    let mut finished = finish_pieces(alloc, reply, most, &mut table);
    if finished == Err(SyncFault::Memory) {
        assert_lists(rt, alloc, &table, ALIVE_LISTING)?;
        finished = finish_pieces(alloc, reply, most, &mut table);
    }
    assert_eq!(rt; finished, Ok(flag), "{most}");
    assert_lists(rt, alloc, &table, listing)
}

#[test]
fn a_reply_in_pieces_of_any_size_finishes(rt: HostRuntime) -> Result<(), AllocError> {
    let suspected = "a suspect 5 4/7f000001/7947//\n";
    for most in 1..=SUSPECTED_OFFER.len() {
        assert_pieces_finish(&rt, rt.alloc(), (SUSPECTED_OFFER, false, suspected), most)?;
        assert_pieces_finish(&rt, rt.alloc(), (SUSPECT_OFFER, true, JOINED_LISTING), most)?;
    }
    Ok(())
}
