//! Exchanging two tables over one connection, in one process.

ghost use Rattle.std.specs.Prelude.{◌≡◌, ◌≢◌, ◌↔◌, ◌<◌, List, length, None, IfOk, IfErr, OnOk};
ghost use Rattle.swim_claim.specs.declared.claim.Claim.{Claim};
ghost use Rattle.swim_program.specs.Limits.{max_input_len};
ghost use Rattle.swim_wire.specs.declared.fault.WireFault.{WireFault};
ghost use Rattle.swimtab.specs.Looping.{FitsLoop, IsLoopTable, IsLoopRefused, TakesIn, IsLooped, IsLoopStopped};
ghost use Rattle.swim_program.specs.Report.{IsAmong, what_of};

use crate::dumps::{check_length, table_of_file};
use crate::fault::what_of_sync;
use std::alloc::{AllocError, Global};
use std::io;
use std::io::{Error, ErrorKind};
use std::net::{Ipv4Addr, TcpListener, TcpStream};
use std::time::{Clock, Duration, Instant};
use swim_pack::{FromRead, ToWrite};
use swim_program::{Place, Report, Until, What};
use swim_sync::{SyncFault, answer, finish, offer};
use swim_table::{EncodeFault, Relation, Table, encode, list, relation};

/// The most bytes of a canonical dump that is sent over a connection of this process to itself.
const MAX_DUMP_LEN: usize = 16_384;

/// How many seconds all reads and writes of one exchange may wait in total.
const PATIENCE: u64 = 10;

/// The table of a dump for [`looped`]: a file that is one push/pull stream, and whose table has a
/// canonical dump of at most 16,384 bytes.
///
/// A report gives the file's place and one of these faults. TooManyRecords never occurs, since one
/// stream has at most 131,072 records.
///
/// - InputTooLong exactly if the file has more than 268,435,456 bytes (own).
/// - The fault of the stream if the file is not one.
/// - TooLargeForLoop only if the table's canonical dump has more than 16,384 bytes, whatever the
///   length of the file (own).
/// - Memory if out of memory.
pub fn loop_table(alloc: Global, dump: &[u8], file: usize) -> Result<Table, Report>
    // The table is that of the file's claims, and can be sent.
    ensures reads { IfOk result (IsLoopTable dump.now) }

    ensures refuses { IfErr result (λ report. IsLoopRefused dump.now report.what) }
    ensures long { (max_input_len < length dump.now)
        ↔ (result ≡ Err (record { place = Place.File file; what = What.Refused 32 None })) }
    ensures place { IfErr result (λ report. report.place ≡ Place.File file) }
{
    check_length(dump, file)?;
    let table = table_of_file(alloc, dump, file)?;
    let what = match encode(alloc, &table, false) {
        Ok(bytes) if bytes.len() <= MAX_DUMP_LEN => return Ok(table),
        Ok(_) => What::too_large_for_loop(),
        // one stream has no more records than a dump
        Err(EncodeFault::TooManyRecords) => unreachable!(),
        Err(EncodeFault::Memory) => What::Memory,
    };
    Err(what.at(Place::File(file)))
}

/// A listener for [`looped`], only on this machine, on a port that the system chooses. If there is
/// none, that is a device fault at the loop.
pub fn local_listener(rt: &HostRuntime) -> Result<TcpListener, Report>
    ensures { IfErr result (λ report. report ≡ record { place = Place.Loop; what = What.Device }) }
{
    match TcpListener::bind(rt, (Ipv4Addr::LOCALHOST, 0)) {
        Ok(listener) => Ok(listener),
        Err(_) => Err(What::Device.at(Place::Loop)),
    }
}

/// Exchanges two tables over a connection to the listener. Returns the listing of the first one,
/// and whether both ended equal. The first table offers, the second answers, and the first
/// finishes, as in memberlist's push/pull (`net.go`).
///
/// Each table's canonical dump must have at most 16,384 bytes (own). The second table answers on
/// the next connection that the listener accepts: if another one was made before, on that one.
///
/// The exchange may take 10 seconds in total (own), however many reads and writes it needs.
///
/// A report says, at the loop, that there was no connection, that it failed or took too long (both
/// a device fault), which fault the stream had, or that memory ran out; and at the output that
/// there was no memory for the listing. TooManyRecords never occurs.
pub fn looped(
    rt: &HostRuntime,
    listener: TcpListener,
    first: Table,
    second: Table,
) -> Result<(Vec<u8>, bool), Report>
    requires first { FitsLoop first }
    requires second { FitsLoop second }

    // A socket does not tell its bytes: each table took in the claims of some stream, and neither
    // lost any.
    ensures loops { IfOk result (λ ended. IsLooped first second ended.0.items ended.1) }

    ensures stops { IfErr result IsLoopStopped }
    ensures place { IfErr result (λ report. IsAmong report.place 0) }
{
    let patience = Duration::from_secs(PATIENCE);
    looped_within(rt, rt, listener, first, second, patience)
}

/// The same, but the exchange is abandoned after this time by the clock.
pub(crate) fn looped_within<C: Clock>(
    rt: &HostRuntime,
    clock: &C,
    listener: TcpListener,
    first: Table,
    second: Table,
    patience: Duration,
) -> Result<(Vec<u8>, bool), Report>
    requires first { FitsLoop first }
    requires second { FitsLoop second }
    ensures loops { IfOk result (λ ended. IsLooped first second ended.0.items ended.1) }
    ensures stops { IfErr result IsLoopStopped }
    ensures place { IfErr result (λ report. IsAmong report.place 0) }
{
    let mut first = first;
    let mut second = second;
    if let Err(what) = exchange_over_socket(
        rt,
        clock,
        &listener,
        &mut first,
        &mut second,
        patience,
    ) {
        return Err(what.at(Place::Loop));
    }
    match list(rt.alloc(), &first) {
        Ok(text) => Ok((text, relation(&first, &second) == Relation::Equal)),
        Err(AllocError) => Err(What::Memory.at(Place::Output)),
    }
}

/// Exchanges two tables over a connection to the listener.
///
/// Each side writes its whole dump before the other side reads it. Nobody waits, since a dump of at
/// most 16,384 bytes fits the buffers of the sockets. But if the listener accepts a stranger's
/// connection, the stranger may stay silent, or send slowly.
fn exchange_over_socket<C: Clock>(
    rt: &HostRuntime,
    clock: &C,
    listener: &TcpListener,
    first: &mut Table,
    second: &mut Table,
    patience: Duration,
) -> Result<(), What>
    requires first { FitsLoop first.old }
    requires second { FitsLoop second.old }
    ensures first { OnOk result ((claims : List Claim) × TakesIn first.old first.new claims) }
    ensures second { OnOk result ((claims : List Claim) × TakesIn second.old second.new claims) }
    ensures stops { IfErr result (λ what. (fault : WireFault) × (what ≡ what_of fault)) }
{
    let (near, far, end) = match connect(rt, clock, listener, patience) {
        Ok(connected) => connected,
        Err(_) => return Err(What::Device),
    };
    let near = Until::new(&near, clock, end);
    let far = Until::new(&far, clock, end);
    match exchange_between(rt.alloc(), near, far, first, second) {
        Ok(()) => Ok(()),
        Err(fault) => Err(what_of_sync(fault)),
    }
}

/// Exchanges two tables over both ends of a connection. The first one offers.
fn exchange_between<C: Clock>(
    alloc: Global,
    near: Until<'_, C>,
    far: Until<'_, C>,
    first: &mut Table,
    second: &mut Table,
) -> Result<(), SyncFault>
    requires first { FitsLoop first.old }
    requires second { FitsLoop second.old }
    ensures first { OnOk result ((claims : List Claim) × TakesIn first.old first.new claims) }
    ensures second { OnOk result ((claims : List Claim) × TakesIn second.old second.new claims) }
    ensures few { IfErr result (λ fault. fault ≢ SyncFault.TooManyRecords) }
{
    offer(alloc, &mut ToWrite::new(near.again()), first, false)?;
    answer(
        alloc,
        &mut FromRead::new(far.again()),
        &mut ToWrite::new(far),
        second,
    )?;
    finish(alloc, &mut FromRead::new(near), first)?;
    Ok(())
}

/// Both ends of a connection to the listener: the one that connects, and the next one that the
/// listener accepts. Also when the time is over.
fn connect<C: Clock>(
    rt: &HostRuntime,
    clock: &C,
    listener: &TcpListener,
    patience: Duration,
) -> io::Result<(TcpStream, TcpStream, Instant)> {
    let Some(end) = Instant::now(clock)?.checked_add(patience) else {
        return Err(Error::from(ErrorKind::TimedOut));
    };
    let near = TcpStream::connect(rt, listener.local_addr()?)?;
    let (far, _) = listener.accept()?;
    Ok((near, far, end))
}
