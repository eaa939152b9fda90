//! Checks that the measurements agree with each other, at a size that takes no time.

use crate::failure::Failure;
use crate::order::Order;
use crate::tables::{compounds_of, table_of, take_compounds, take_each};
use crate::timing::run_once;
use crate::work::Work;
use crate::workload::Workload;
use std::alloc::Global;
use swim_pack::{FromRead, Inlet, SliceInlet};
use swim_sync::exchange;
use swim_table::{Relation, Table, encode, list, read_stream, relation};

/// Runs each measurement once in each order, compares the results, and prints what was run.
pub(crate) fn check(rt: &HostRuntime, size: u32) -> Result<(), Failure> {
    let alloc = rt.alloc();
    for order in Order::ALL {
        let workload = Workload::new(order, size);
        check_streams(alloc, workload)?;
        check_order(alloc, workload)?;
        check_compounds(alloc, workload)?;
        check_halves(alloc, workload)?;
    }
    for work in Work::ALL {
        for order in Order::ALL {
            run_once(rt, work, order, size)?;
        }
        println!(rt; "{work}")?;
    }
    Ok(())
}

/// Checks that a stream over either inlet has the table of its claims.
fn check_streams(alloc: Global, workload: Workload) -> Result<(), Failure> {
    let table = table_of(alloc, workload)?;
    let bytes = workload.stream(alloc)?;
    let mut slice = SliceInlet::new(&bytes);
    check_stream(alloc, &table, &mut slice, "a stream over a slice")?;
    let mut reader = FromRead::new(bytes.as_slice());
    check_stream(alloc, &table, &mut reader, "a stream over a reader")
}

fn check_stream<I: Inlet>(
    alloc: Global,
    table: &Table,
    inlet: &mut I,
    what: &'static str,
) -> Result<(), Failure> {
    let (read, _) = read_stream(alloc, inlet)?;
    require_equal(table, &read, what)
}

/// Checks that the table is encoded and listed like the table of the ascending names.
fn check_order(alloc: Global, workload: Workload) -> Result<(), Failure> {
    let table = table_of(alloc, workload)?;
    let order = Order::Ascending;
    let ascending = table_of(alloc, Workload { order, ..workload })?;
    require(encoded_alike(alloc, &table, &ascending)?, "encode")?;
    require(listed_alike(alloc, &table, &ascending)?, "list")
}

fn encoded_alike(alloc: Global, first: &Table, second: &Table) -> Result<bool, Failure> {
    Ok(encode(alloc, first, false)? == encode(alloc, second, false)?)
}

fn listed_alike(alloc: Global, first: &Table, second: &Table) -> Result<bool, Failure> {
    Ok(list(alloc, first)? == list(alloc, second)?)
}

/// Checks that compounds of 1, 8 and 60 claims leave the same table as the claims one by one.
fn check_compounds(alloc: Global, workload: Workload) -> Result<(), Failure> {
    let mut one_by_one = table_of(alloc, workload.others())?;
    take_each(&mut one_by_one, workload.spread().claims(alloc)?)?;
    for size in [1, 8, 60] {
        let mut table = table_of(alloc, workload.others())?;
        let claims = workload.spread().claims(alloc)?;
        take_compounds(&mut table, compounds_of(alloc, claims, size)?)?;
        require_equal(&one_by_one, &table, "take_all")?;
    }
    Ok(())
}

/// Checks that two halves exchanged, and joined, are the table of all names.
fn check_halves(alloc: Global, workload: Workload) -> Result<(), Failure> {
    let whole = table_of(alloc, workload)?;
    check_exchange(alloc, &whole, workload)?;
    let joined = joined_halves(alloc, workload)?;
    require_equal(&whole, &joined, "join")
}

fn check_exchange(alloc: Global, whole: &Table, workload: Workload) -> Result<(), Failure> {
    let mut first = table_of(alloc, workload.half(0))?;
    let mut second = table_of(alloc, workload.half(1))?;
    exchange(alloc, &mut first, &mut second)?;
    require_equal(whole, &first, "exchange")?;
    require_equal(whole, &second, "exchange")
}

fn joined_halves(alloc: Global, workload: Workload) -> Result<Table, Failure> {
    let mut joined = table_of(alloc, workload.half(0))?;
    match joined.join(table_of(alloc, workload.half(1))?) {
        Ok(()) => Ok(joined),
        Err((_, error)) => Err(Failure::Memory(error)),
    }
}

fn require_equal(first: &Table, second: &Table, what: &'static str) -> Result<(), Failure> {
    require(relation(first, second) == Relation::Equal, what)
}

fn require(holds: bool, what: &'static str) -> Result<(), Failure> {
    if holds {
        Ok(())
    } else {
        Err(Failure::Differs(what))
    }
}
