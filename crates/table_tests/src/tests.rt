//! Tables of a few claims, by their listings.

/// A claim that the member is alive, with these details.
macro_rules! alive {
    ($name:expr, $inc:expr, $addr:expr, $port:expr) => {
        Saying {
            kind: Kind::Alive,
            name: $name,
            inc: $inc,
            addr: $addr,
            port: $port,
        }
    };
}

/// A claim of this kind, which has no details.
macro_rules! bare {
    ($kind:expr, $name:expr, $inc:expr) => {
        Saying {
            kind: $kind,
            name: $name,
            inc: $inc,
            addr: LOOPBACK,
            port: 0,
        }
    };
}

macro_rules! suspect {
    ($name:expr, $inc:expr) => {
        bare!(Kind::Suspect, $name, $inc)
    };
}

macro_rules! confirm {
    ($name:expr, $inc:expr) => {
        bare!(Kind::Confirm, $name, $inc)
    };
}

macro_rules! leave {
    ($name:expr, $inc:expr) => {
        bare!(Kind::Leave, $name, $inc)
    };
}

mod datagrams;
mod dumps;
mod forgetting;
mod many;
mod memberlist_dumps;
mod news;
mod node;
mod pieces;
mod plain;
mod steps;
mod streams;
mod tables;

use std::alloc::{AllocError, Global};
use std::process::Abort;
use swim_claim::{Claim, Details, Kind, Name};
use swim_table::{Table, Taken, list};

/// A claim of a test. The address and the port are those of an Alive.
#[derive(Clone, Copy)]
struct Saying {
    kind: Kind,
    name: &'static [u8],
    inc: u32,
    addr: &'static [u8],
    port: u16,
}

const LOOPBACK: &[u8] = b"\x7f\x00\x00\x01";

fn name_of(rt: &impl Abort, alloc: Global, bytes: &[u8]) -> Result<Name, AllocError> {
    Ok(Name::copied(alloc, bytes)?.expect(rt, "a legal name"))
}

fn details_of(rt: &impl Abort, addr: &[u8], port: u16, meta: Vec<u8>, vsn: &[u8]) -> Details {
    Details::of(addr, port, meta, vsn).expect(rt, "legal details")
}

/// The claim itself.
fn claim_of(rt: &impl Abort, alloc: Global, saying: Saying) -> Result<Claim, AllocError> {
    let name = name_of(rt, alloc, saying.name)?;
    let inc = saying.inc;
    Ok(match saying.kind {
        Kind::Alive => Claim::Alive {
            name,
            inc,
            details: details_of(rt, saying.addr, saying.port, Vec::new(alloc), b""),
        },
        Kind::Suspect => Claim::Suspect { name, inc },
        Kind::Confirm => Claim::Confirm { name, inc },
        Kind::Leave => Claim::Leave { name, inc },
    })
}

/// A Suspect of the member whose name is the number.
fn suspicion(rt: &impl Abort, alloc: Global, number: u32) -> Result<Claim, AllocError> {
    let name = name_of(rt, alloc, &number.to_be_bytes())?;
    Ok(Claim::Suspect { name, inc: 1 })
}

/// Asserts that the bytes are the expected ones.
fn assert_bytes(rt: &impl Abort, found: &[u8], wanted: &[u8], about: &str) {
    assert_eq!(rt; found, wanted, "{about}");
}

/// Asserts that the count is the expected one.
fn assert_count(rt: &impl Abort, found: usize, wanted: usize, about: &str) {
    assert_eq!(rt; found, wanted, "{about}");
}

/// Asserts that this holds.
fn assert_that(rt: &impl Abort, holds: bool, about: &str) {
    assert!(rt; holds, "{about}");
}

/// Takes in, at the second try, the claim that was returned. The table must be unchanged.
fn take_back(
    rt: &impl Abort,
    alloc: Global,
    table: &mut Table,
    claim: Claim,
    before: &[u8],
) -> Result<Taken, AllocError> {
    assert_bytes(rt, &list(alloc, table)?, before, "a refused claim");
    Ok(table.take(claim).ok().expect(rt, "the second try"))
}

/// Takes a claim in. If memory is refused, the table must not change, and the returned claim must
/// be taken in at the second try.
fn take(
    rt: &impl Abort,
    alloc: Global,
    table: &mut Table,
    saying: Saying,
) -> Result<Taken, AllocError> {
    let before = list(alloc, table)?;
    match table.take(claim_of(rt, alloc, saying)?) {
        Ok(taken) => Ok(taken),
        Err((claim, _)) => take_back(rt, alloc, table, claim, &before),
    }
}

/// Takes the claims in one by one.
fn take_each(
    rt: &impl Abort,
    alloc: Global,
    table: &mut Table,
    sayings: &[Saying],
) -> Result<(), AllocError> {
    for saying in sayings {
        take(rt, alloc, table, *saying)?;
    }
    Ok(())
}

/// The table of these claims.
fn table_of(rt: &impl Abort, alloc: Global, sayings: &[Saying]) -> Result<Table, AllocError> {
    let mut table = Table::new(alloc);
    take_each(rt, alloc, &mut table, sayings)?;
    Ok(table)
}

/// The claims themselves.
fn claims_of(rt: &impl Abort, alloc: Global, sayings: &[Saying]) -> Result<Vec<Claim>, AllocError> {
    let mut claims = Vec::new(alloc);
    for saying in sayings {
        claims.push(claim_of(rt, alloc, *saying)?)?;
    }
    Ok(claims)
}

/// The listing of the table, at the second try if memory is refused.
fn listing(alloc: Global, table: &Table) -> Result<Vec<u8>, AllocError> {
    match list(alloc, table) {
        Err(_) => list(alloc, table),
        answer => answer,
    }
}

/// Asserts that the table has this listing, at the second try if memory is refused.
fn assert_lists(
    rt: &impl Abort,
    alloc: Global,
    table: &Table,
    wanted: &str,
) -> Result<(), AllocError> {
    assert_bytes(rt, &listing(alloc, table)?, wanted.as_bytes(), wanted);
    Ok(())
}

/// Each order in which up to three claims can arrive.
const ORDERS: [[usize; 3]; 6] = [
    [0, 1, 2],
    [0, 2, 1],
    [1, 0, 2],
    [1, 2, 0],
    [2, 0, 1],
    [2, 1, 0],
];

/// Takes in up to three claims in this order.
fn take_in_order(
    rt: &impl Abort,
    alloc: Global,
    table: &mut Table,
    sayings: &[Saying],
    order: &[usize],
) -> Result<(), AllocError> {
    for place in order {
        if let Some(saying) = sayings.get(*place) {
            take(rt, alloc, table, *saying)?;
        }
    }
    Ok(())
}

/// Asserts that the claims have this listing in every order.
fn assert_listing(
    rt: &impl Abort,
    alloc: Global,
    sayings: &[Saying],
    wanted: &str,
) -> Result<(), AllocError> {
    for order in &ORDERS {
        let mut table = Table::new(alloc);
        take_in_order(rt, alloc, &mut table, sayings, order)?;
        assert_lists(rt, alloc, &table, wanted)?;
    }
    Ok(())
}

/// Claims, in any order, and the listing of their table.
const LISTINGS: &[(&[Saying], &str)] = &[
    // an alive is its own home
    (&[], ""),
    (
        &[alive!(b"a", 0, LOOPBACK, 7946)],
        "a alive 0 0/7f000001/7946//\n",
    ),
    // a suspect keeps the home
    (&[suspect!(b"b", 1)], "b suspect 1 -\n"),
    (
        &[
            alive!(b"a", 3, LOOPBACK, 7946),
            suspect!(b"a", 5),
            alive!(b"a", 4, LOOPBACK, 7947),
        ],
        "a suspect 5 4/7f000001/7947//\n",
    ),
    (
        &[suspect!(b"a", 5), alive!(b"a", 5, LOOPBACK, 7946)],
        "a suspect 5 5/7f000001/7946//\n",
    ),
    // a confirm and a leave are final
    (
        &[
            confirm!(b"a", 0),
            alive!(b"a", 4_294_967_295, LOOPBACK, 7946),
        ],
        "a confirm 0 4294967295/7f000001/7946//\n",
    ),
    (
        &[leave!(b"a", 2), alive!(b"a", 5, LOOPBACK, 7946)],
        "a leave 2 5/7f000001/7946//\n",
    ),
    // a leave overrides a confirm at the same incarnation
    (&[leave!(b"a", 2), confirm!(b"a", 2)], "a leave 2 -\n"),
    (
        &[leave!(b"a", 2), confirm!(b"a", 2), confirm!(b"a", 3)],
        "a confirm 3 -\n",
    ),
    (
        &[leave!(b"a", 2), leave!(b"a", 3), confirm!(b"a", 3)],
        "a leave 3 -\n",
    ),
    // of two alives the one with greater details stays
    (
        &[
            alive!(b"a", 1, LOOPBACK, 255),
            alive!(b"a", 1, LOOPBACK, 256),
        ],
        "a alive 1 1/7f000001/256//\n",
    ),
    (
        &[
            alive!(b"a", 1, LOOPBACK, 7946),
            alive!(b"a", 1, b"\x7f\0\0\x01\0\0\0\0\0\0\0\0\0\0\0\0", 7946),
        ],
        "a alive 1 1/7f000001000000000000000000000000/7946//\n",
    ),
    (
        &[
            alive!(b"a", 1, b"\x0a\0\0\x01", 7946),
            alive!(b"a", 1, b"\0\0\0\0\0\0\0\0\0\0\xff\xff\x0a\0\0\x01", 7946),
        ],
        "a alive 1 1/0a000001/7946//\n",
    ),
    // a name is escaped in a listing
    (&[suspect!(b"a %\n", 0)], "a%20%25%0A suspect 0 -\n"),
    (
        &[suspect!(b"!~\x7f\x80\xff\0", 0)],
        "!~%7F%80%FF%00 suspect 0 -\n",
    ),
];

#[test]
fn claims_are_listed_alike_in_whatever_order_they_arrive(
    rt: HostRuntime,
) -> Result<(), AllocError> {
    for (sayings, wanted) in LISTINGS {
        assert_listing(&rt, rt.alloc(), sayings, wanted)?;
    }
    Ok(())
}
