//! Exchanges of tables, compared with the listings that they must leave.

mod clusters;
mod cuts;
mod events;
mod fakes;
mod faults;
mod halves;
mod levels;
mod random_runs;

use std::alloc::{AllocError, Global};
use std::process::Abort;
use swim_claim::{Claim, Details, Name};
use swim_pack::{SliceInlet, VecOutlet};
use swim_sync::{SyncFault, answer, exchange, finish};
use swim_table::{Table, list};

/// The offer of the table of `a`, with the join flag.
const ALIVE_OFFER: &[u8] =
    b"\x06\x83\xa4Join\xc3\xa5Nodes\x01\xacUserStateLen\0\x87\xa4Addr\xa4\x7f\0\0\x01\xabIncarnation\0\xa4Meta\xa0\xa4Name\xa1a\xa4Port\xcd\x1f\x0a\xa5State\0\xa3Vsn\xa0";

/// The offer of the table of `b`, with the join flag.
const SUSPECT_OFFER: &[u8] =
    b"\x06\x83\xa4Join\xc3\xa5Nodes\x01\xacUserStateLen\0\x87\xa4Addr\xa0\xabIncarnation\x01\xa4Meta\xa0\xa4Name\xa1b\xa4Port\0\xa5State\x01\xa3Vsn\xa0";

/// An Alive of `a` at incarnation 4, at 127.0.0.1 and port 7947, and then a Suspect of it at
/// incarnation 5.
const SUSPECTED_OFFER: &[u8] =
    b"\x06\x83\xa4Join\xc2\xa5Nodes\x02\xacUserStateLen\0\x87\xa4Addr\xa4\x7f\0\0\x01\xabIncarnation\x04\xa4Meta\xa0\xa4Name\xa1a\xa4Port\xcd\x1f\x0b\xa5State\0\xa3Vsn\xa0\x87\xa4Addr\xa0\xabIncarnation\x05\xa4Meta\xa0\xa4Name\xa1a\xa4Port\0\xa5State\x01\xa3Vsn\xa0";

const ALIVE_LISTING: &str = "a alive 0 0/7f000001/7946//\n";

const SUSPECT_LISTING: &str = "b suspect 1 -\n";

const JOINED_LISTING: &str = "a alive 0 0/7f000001/7946//\nb suspect 1 -\n";

/// Asserts that the bytes are the expected ones.
fn assert_bytes(rt: &impl Abort, found: &[u8], wanted: &[u8], about: &str) {
    assert_eq!(rt; found, wanted, "{about}");
}

/// A name.
fn name_of(rt: &impl Abort, alloc: Global, name: &[u8]) -> Result<Name, AllocError> {
    Ok(Name::new(name.to_vec(alloc)?).expect(rt, "a legal name"))
}

/// The details of a member at 127.0.0.x and this port.
fn details_of(rt: &impl Abort, alloc: Global, last: u8, port: u16) -> Result<Details, AllocError> {
    let addr = [127, 0, 0, last].as_slice().to_vec(alloc)?;
    let details = Details::new(addr, port, Vec::new(alloc), Vec::new(alloc));
    Ok(details.expect(rt, "legal details"))
}

/// The table of one claim.
fn table_of(alloc: Global, claim: Claim) -> Result<Table, AllocError> {
    let mut table = Table::new(alloc);
    take(&mut table, claim)?;
    Ok(table)
}

/// The table of `a`, alive at incarnation 0, at 127.0.0.1 and port 7946.
fn alive_table(rt: &impl Abort, alloc: Global) -> Result<Table, AllocError> {
    let details = details_of(rt, alloc, 1, 7946)?;
    let name = name_of(rt, alloc, b"a")?;
    let claim = Claim::Alive {
        name,
        inc: 0,
        details,
    };
    table_of(alloc, claim)
}

/// A Suspect of the name at the incarnation.
fn suspect(
    rt: &impl Abort,
    alloc: Global,
    name: &'static [u8],
    inc: u32,
) -> Result<Claim, AllocError> {
    let name = name_of(rt, alloc, name)?;
    Ok(Claim::Suspect { name, inc })
}

/// The table of `b`, suspected at incarnation 1.
fn suspect_table(rt: &impl Abort, alloc: Global) -> Result<Table, AllocError> {
    table_of(alloc, suspect(rt, alloc, b"b", 1)?)
}

/// Takes this many Suspects into the table, of names of four bytes each.
fn take_suspects(
    rt: &impl Abort,
    alloc: Global,
    table: &mut Table,
    count: u32,
) -> Result<(), AllocError> {
    for number in 0..count {
        let name = name_of(rt, alloc, &number.to_be_bytes())?;
        take(table, Claim::Suspect { name, inc: 0 })?;
    }
    Ok(())
}

fn take(table: &mut Table, claim: Claim) -> Result<(), AllocError> {
    match table.take(claim) {
        Ok(_) => Ok(()),
        Err((_, error)) => Err(error),
    }
}

/// The listing of the table, at the second try if out of memory.
fn listing(alloc: Global, table: &Table) -> Result<Vec<u8>, AllocError> {
    match list(alloc, table) {
        Err(_) => list(alloc, table),
        answer => answer,
    }
}

/// Asserts that the table has this listing, at the second try if out of memory.
fn assert_lists(
    rt: &impl Abort,
    alloc: Global,
    table: &Table,
    wanted: &str,
) -> Result<(), AllocError> {
    assert_bytes(rt, &listing(alloc, table)?, wanted.as_bytes(), wanted);
    Ok(())
}

/// What answering the offer returns, and how many bytes of the offer are left.
fn answer_once(
    alloc: Global,
    offer: &[u8],
    reply: &mut VecOutlet,
    table: &mut Table,
) -> (Result<bool, SyncFault>, usize) {
    let mut inlet = SliceInlet::new(offer);
    let given = answer(alloc, &mut inlet, reply, table);
    (given, inlet.rest().len())
}

/// Answers the offer, which must return the flag, with the table of `b` alone, and returns what was
/// pushed. If memory runs out, both sides must be unchanged, and the second try answers.
fn answered(
    rt: &impl Abort,
    alloc: Global,
    offer: &[u8],
    table: &mut Table,
    join: bool,
) -> Result<VecOutlet, AllocError> {
    let mut reply = VecOutlet::new(alloc);
    let (mut given, mut left) = answer_once(alloc, offer, &mut reply, table);
    if given == Err(SyncFault::Memory) {
        assert!(rt; reply.bytes().is_empty());
        assert_lists(rt, alloc, table, SUSPECT_LISTING)?;
        (given, left) = answer_once(alloc, offer, &mut reply, table);
    }
    assert_eq!(rt; given, Ok(join));
    assert_eq!(rt; left, 0);
    Ok(reply)
}

fn finish_once(alloc: Global, reply: &[u8], table: &mut Table) -> Result<bool, SyncFault> {
    finish(alloc, &mut SliceInlet::new(reply), table)
}

/// Asserts what finishing with these bytes returns, with the table of `a` alone. If memory runs
/// out, the table must be unchanged, and the second try returns it.
fn assert_finishes(
    rt: &impl Abort,
    alloc: Global,
    reply: &[u8],
    table: &mut Table,
    expected: Result<bool, SyncFault>,
) -> Result<(), AllocError> {
    let mut finished = finish_once(alloc, reply, table);
    if finished == Err(SyncFault::Memory) {
        assert_lists(rt, alloc, table, ALIVE_LISTING)?;
        finished = finish_once(alloc, reply, table);
    }
    assert_eq!(rt; finished, expected);
    Ok(())
}

fn exchange_once(alloc: Global, first: &mut Table, second: &mut Table) -> Result<(), SyncFault> {
    exchange(alloc, first, second)
}

/// Asserts that the table's listing is the same as before.
fn assert_stays(
    rt: &impl Abort,
    alloc: Global,
    table: &Table,
    before: &[u8],
) -> Result<(), AllocError> {
    assert_bytes(rt, &list(alloc, table)?, before, "a table that has to stay");
    Ok(())
}

/// Exchanges the two tables. If memory runs out, both must be unchanged, and the second try
/// exchanges them.
fn exchange_at_last(
    rt: &impl Abort,
    alloc: Global,
    first: &mut Table,
    second: &mut Table,
) -> Result<(), AllocError> {
    let first_listing = list(alloc, first)?;
    let second_listing = list(alloc, second)?;
    if let Err(fault) = exchange_once(alloc, first, second) {
        assert_eq!(rt; fault, SyncFault::Memory);
        assert_stays(rt, alloc, first, &first_listing)?;
        assert_stays(rt, alloc, second, &second_listing)?;
        assert_eq!(rt; exchange_once(alloc, first, second), Ok(()));
    }
    Ok(())
}

/// Exchanges the two tables, which then are both the table of `a` and `b`. If memory runs out, both
/// must be unchanged, and the second try exchanges them.
fn assert_exchanges(
    rt: &impl Abort,
    alloc: Global,
    first: &mut Table,
    second: &mut Table,
) -> Result<(), AllocError> {
    exchange_at_last(rt, alloc, first, second)?;
    assert_lists(rt, alloc, first, JOINED_LISTING)?;
    assert_lists(rt, alloc, second, JOINED_LISTING)
}
