//! One run of each measurement: what is prepared, and then what is timed.

use crate::failure::Failure;
use crate::order::Order;
use crate::reading::Watch;
use crate::tables::{compounds_of, equal_nodes, join_each, table_of, take_compounds, take_each};
use crate::work::Work;
use crate::workload::Workload;
use swim_pack::{FromRead, SliceInlet, VecOutlet};
use swim_sync::{Event, exchange, offer};
use swim_table::{Table, encode, list, read_stream, relation};
use swim_wire::decode_packet;

/// The nanoseconds of one run of this many records.
pub(crate) fn run_once(
    rt: &HostRuntime,
    work: Work,
    order: Order,
    size: u32,
) -> Result<u128, Failure> {
    let workload = Workload::new(order, size);
    match work {
        Work::ReadSlice => read_slice(rt, workload),
        Work::ReadReader => read_reader(rt, workload),
        Work::TakeNew => take(rt, Table::new(rt.alloc()), workload),
        Work::TakeKnown => take(rt, table_of(rt.alloc(), workload)?, workload.newer()),
        Work::TakeEach => take(
            rt,
            table_of(rt.alloc(), workload.others())?,
            workload.spread(),
        ),
        Work::TakeAll(at_once) => take_all(rt, workload, at_once),
        Work::Join => join(rt, workload),
        Work::JoinEach => joining_each(rt, workload),
        Work::Relation => relate(rt, workload),
        Work::Encode => encoding(rt, workload),
        Work::Offer => offering(rt, workload),
        Work::Merge => merging(rt, workload),
        Work::List => listing(rt, workload),
        Work::Exchange => exchanging(rt, workload),
        Work::ExchangeEqual => exchanging_equal(rt, workload),
        Work::DecodeAlive => decode(rt, &workload.packets(rt.alloc())?),
        Work::DecodeSuspect => decode(rt, &workload.suspicions(rt.alloc())?),
    }
}

fn read_slice(rt: &HostRuntime, workload: Workload) -> Result<u128, Failure> {
    let bytes = workload.stream(rt.alloc())?;
    let mut inlet = SliceInlet::new(&bytes);
    let watch = Watch::start(rt)?;
    let _read = read_stream(rt.alloc(), &mut inlet)?;
    watch.nanoseconds(rt)
}

fn read_reader(rt: &HostRuntime, workload: Workload) -> Result<u128, Failure> {
    let bytes = workload.stream(rt.alloc())?;
    let mut inlet = FromRead::new(bytes.as_slice());
    let watch = Watch::start(rt)?;
    let _read = read_stream(rt.alloc(), &mut inlet)?;
    watch.nanoseconds(rt)
}

fn take(rt: &HostRuntime, mut table: Table, workload: Workload) -> Result<u128, Failure> {
    let claims = workload.claims(rt.alloc())?;
    let watch = Watch::start(rt)?;
    take_each(&mut table, claims)?;
    watch.nanoseconds(rt)
}

fn take_all(rt: &HostRuntime, workload: Workload, at_once: u32) -> Result<u128, Failure> {
    let mut table = table_of(rt.alloc(), workload.others())?;
    let claims = workload.spread().claims(rt.alloc())?;
    let compounds = compounds_of(rt.alloc(), claims, at_once)?;
    let watch = Watch::start(rt)?;
    take_compounds(&mut table, compounds)?;
    watch.nanoseconds(rt)
}

fn join(rt: &HostRuntime, workload: Workload) -> Result<u128, Failure> {
    let mut first = table_of(rt.alloc(), workload.half(0))?;
    let second = table_of(rt.alloc(), workload.half(1))?;
    let watch = Watch::start(rt)?;
    match first.join(second) {
        Ok(()) => watch.nanoseconds(rt),
        Err((_, error)) => Err(Failure::Memory(error)),
    }
}

fn joining_each(rt: &HostRuntime, workload: Workload) -> Result<u128, Failure> {
    let streams = workload.streams_of_one(rt.alloc())?;
    let watch = Watch::start(rt)?;
    let _table = join_each(rt.alloc(), &streams)?;
    watch.nanoseconds(rt)
}

fn relate(rt: &HostRuntime, workload: Workload) -> Result<u128, Failure> {
    let first = table_of(rt.alloc(), workload)?;
    let second = table_of(rt.alloc(), workload)?;
    let watch = Watch::start(rt)?;
    let _relation = relation(&first, &second);
    watch.nanoseconds(rt)
}

fn encoding(rt: &HostRuntime, workload: Workload) -> Result<u128, Failure> {
    let table = table_of(rt.alloc(), workload)?;
    let watch = Watch::start(rt)?;
    let _bytes = encode(rt.alloc(), &table, false)?;
    watch.nanoseconds(rt)
}

fn offering(rt: &HostRuntime, workload: Workload) -> Result<u128, Failure> {
    let table = table_of(rt.alloc(), workload)?;
    let mut outlet = VecOutlet::new(rt.alloc());
    let watch = Watch::start(rt)?;
    offer(rt.alloc(), &mut outlet, &table, false)?;
    watch.nanoseconds(rt)
}

fn merging(rt: &HostRuntime, workload: Workload) -> Result<u128, Failure> {
    let bytes = workload.stream(rt.alloc())?;
    let mut inlet = SliceInlet::new(&bytes);
    let watch = Watch::start(rt)?;
    let (table, join) = read_stream(rt.alloc(), &mut inlet)?;
    let _bytes = encode(rt.alloc(), &table, join)?;
    watch.nanoseconds(rt)
}

fn listing(rt: &HostRuntime, workload: Workload) -> Result<u128, Failure> {
    let table = table_of(rt.alloc(), workload)?;
    let watch = Watch::start(rt)?;
    let _text = list(rt.alloc(), &table)?;
    watch.nanoseconds(rt)
}

fn exchanging(rt: &HostRuntime, workload: Workload) -> Result<u128, Failure> {
    let mut first = table_of(rt.alloc(), workload.half(0))?;
    let mut second = table_of(rt.alloc(), workload.half(1))?;
    let watch = Watch::start(rt)?;
    exchange(rt.alloc(), &mut first, &mut second)?;
    watch.nanoseconds(rt)
}

fn exchanging_equal(rt: &HostRuntime, workload: Workload) -> Result<u128, Failure> {
    let mut cluster = equal_nodes(rt.alloc(), workload)?;
    let watch = Watch::start(rt)?;
    cluster.run(&[Event::Exchange(0, 1)])?;
    watch.nanoseconds(rt)
}

fn decode(rt: &HostRuntime, packets: &[Vec<u8>]) -> Result<u128, Failure> {
    let watch = Watch::start(rt)?;
    for packet in packets {
        let _packet = decode_packet(rt.alloc(), packet)?;
    }
    watch.nanoseconds(rt)
}
