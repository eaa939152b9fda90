//! The exchange of two members' tables, in halves over inlets and outlets and as a whole over
//! memory.
//!
//! The member that starts offers its table as a stream. The other one answers: it reads the whole
//! stream, writes its own table as a stream, and then takes in what it read. The first one
//! finishes: it reads that reply and takes it in. The order is memberlist's (`net.go`, `state.go`).

ghost use Rattle.std.specs.Prelude.{◌≡◌, ◌↔◌, ◌⊎◌, ◌+◌, ◌≤◌, ◌++◌, List, length, IsErr, IfOk, IfErr, MatchBool, OnOk, OnErr};
ghost use Rattle.std.specs.Io.KnownBytes.{Appends};
ghost use Rattle.swim_claim.specs.declared.claim.Claim.{Claim};
ghost use Rattle.swim_pack.specs.Ends.{ConsumesSome};
ghost use Rattle.swim_table.specs.Dump.{dump_bytes};
ghost use Rattle.swim_table.specs.Join.{Join};
ghost use Rattle.swim_table.specs.Table.{TableOf};
ghost use Rattle.swim_sync.specs.Exchanging.{HasTooMany, TakesStream, ReadsOffer, IsOfferRefused, IsPrepareRefused};
ghost use Rattle.swim_sync.specs.Exchanging.{IsAnswerRefused, IsFinishRefused, IsExchangeRefused};

use crate::fault::SyncFault;
use std::alloc::Global;
use swim_pack::{Inlet, Outlet};
use swim_table::{MAX_RECORDS, Room, Table, encode, read_dump, read_stream};

/// Offers a table: writes its canonical dump, with this join flag, in one push. This starts an
/// exchange (memberlist's `net.go`).
///
/// # Errors
///
/// - `TooManyRecords` exactly if the table keeps more than 131,072 records (own). Nothing was
///   pushed.
/// - `Push` if the outlet failed. A prefix of the dump may have been pushed.
/// - `Memory` if memory runs out. Nothing was pushed.
pub fn offer<O: Outlet>(
    alloc: Global,
    outlet: &mut O,
    table: &Table,
    join: bool,
) -> Result<(), SyncFault>
    ensures pushes { OnOk result (Appends (O.seen outlet.old).written (O.seen outlet.new).written
        (dump_bytes table.now join)) }
    ensures too_many { (result ≡ Err SyncFault.TooManyRecords) ↔ HasTooMany table.now }
    ensures refused { IfErr result
        (IsOfferRefused (O.seen outlet.old) (O.seen outlet.new) table.now join) }
{
    let dump = encode(alloc, table, join)?;
    outlet.push(&dump)?;
    Ok(())
}

/// Answers an offer: reads one stream, writes the canonical dump of its own table with the same
/// join flag in one push, and then takes the stream's claims in (memberlist's `net.go`). Returns
/// the flag.
///
/// All memory is obtained before the push, so nothing is refused after a successful push (own).
/// Bytes after the stream stay in the inlet.
///
/// # Errors
///
/// The table is then unchanged, and the bytes left in the inlet are a suffix of those before the
/// call. Nothing was pushed, except with `Push`.
///
/// - `Wire` if the bytes in the inlet do not start with a stream, or the inlet failed.
/// - `TooManyRecords` if the own table keeps more than 131,072 records. Such a table never answers
///   a stream.
/// - `Push` if the outlet failed. A prefix of the dump may have been pushed.
/// - `Memory` if memory runs out.
pub fn answer<I: Inlet, O: Outlet>(
    alloc: Global,
    inlet: &mut I,
    outlet: &mut O,
    table: &mut Table,
) -> Result<bool, SyncFault>
    // The table before the call was pushed, and now has the claims of the stream.
    ensures takes { IfOk result
        (TakesStream (I.seen inlet.old) (I.seen inlet.new) table.old table.new) }
    ensures replies { IfOk result (λ join.
        Appends (O.seen outlet.old).written (O.seen outlet.new).written
        (dump_bytes table.old join)) }
    ensures too_many { HasTooMany table.old → IsErr result }

    // What a refusal leaves, and its reason.
    ensures unchanged { OnErr result (table.new ≡ table.old) }
    ensures rest { OnErr result (ConsumesSome (I.seen inlet.old).coming (I.seen inlet.new).coming) }
    ensures refused { IfErr result (IsAnswerRefused (I.seen inlet.old) (I.seen inlet.new)
        (O.seen outlet.old) (O.seen outlet.new) table.old) }
{
    let PreparedAnswer {
        join,
        reply,
        offered,
        room,
    } = prepare_answer(alloc, inlet, table)?;
    outlet.push(&reply)?;
    table.join_in(room, offered);
    Ok(join)
}

/// The answer to an offer that was read, with all the memory that it takes: what remains is to send
/// the reply and to join the offered table, and neither requests more (own).
#[derive(Drop)]
pub struct PreparedAnswer {
    /// The join flag of the offer, and of the reply.
    pub join: bool,
    /// The canonical dump of the own table.
    pub reply: Vec<u8>,
    /// The table of the offer's claims.
    pub offered: Table,
    /// Room for the entries of both tables.
    pub room: Room,
}

/// Reads an offer, one stream, and prepares the answer of the member with this table. This is the
/// first half of [`answer`], for a caller that must look at the reply before it sends it, for
/// example at its length. Bytes after the stream stay in the inlet.
///
/// # Errors
///
/// The bytes left in the inlet are a suffix of those before the call.
///
/// - `Wire` if the bytes in the inlet do not start with a stream, or the inlet failed.
/// - `TooManyRecords` if the own table keeps more than 131,072 records. Such a table never answers
///   a stream.
/// - `Memory` if memory runs out.
pub fn prepare_answer<I: Inlet>(
    alloc: Global,
    inlet: &mut I,
    table: &Table,
) -> Result<PreparedAnswer, SyncFault>
    // The offered table has the claims of the stream, and the reply is the dump of the own one.
    ensures reads { IfOk result (λ made.
        ReadsOffer (I.seen inlet.old) (I.seen inlet.new) made.offered made.join) }
    ensures replies { IfOk result (λ made. made.reply.items ≡ dump_bytes table.now made.join) }
    ensures room { IfOk result (λ made. length table.now + length made.offered ≤ made.room) }
    ensures too_many { HasTooMany table.now → IsErr result }

    // What a refusal leaves, and its reason.
    ensures rest { ConsumesSome (I.seen inlet.old).coming (I.seen inlet.new).coming }
    ensures refused { IfErr result
        (IsPrepareRefused (I.seen inlet.old) (I.seen inlet.new) table.now) }
{
    let (offered, join) = read_stream(alloc, inlet)?;
    let reply = encode(alloc, table, join)?;
    let room = room_for_both(alloc, table, &offered)?;
    Ok(PreparedAnswer {
        join,
        reply,
        offered,
        room,
    })
}

/// Finishes an exchange: reads the reply, one stream, and takes its claims in (memberlist's
/// `net.go`). Returns the stream's join flag. Bytes after the stream stay in the inlet.
///
/// # Errors
///
/// The table is then unchanged, and the bytes left in the inlet are a suffix of those before the
/// call.
///
/// - `Wire` if the bytes in the inlet do not start with a stream, or the inlet failed.
/// - `Memory` if memory runs out.
pub fn finish<I: Inlet>(alloc: Global, inlet: &mut I, table: &mut Table) -> Result<bool, SyncFault>
    ensures takes { IfOk result
        (TakesStream (I.seen inlet.old) (I.seen inlet.new) table.old table.new) }

    // What a refusal leaves, and its reason.
    ensures unchanged { OnErr result (table.new ≡ table.old) }
    ensures rest { OnErr result (ConsumesSome (I.seen inlet.old).coming (I.seen inlet.new).coming) }
    ensures refused { IfErr result (IsFinishRefused (I.seen inlet.old) (I.seen inlet.new)) }
{
    let (replied, join) = read_stream(alloc, inlet)?;
    let room = room_for_both(alloc, table, &replied)?;
    table.join_in(room, replied);
    Ok(join)
}

/// Exchanges two tables over memory: each is sent as a stream without the join flag, and both are
/// then the table of all claims that either took in (own).
///
/// # Errors
///
/// Both tables are then unchanged.
///
/// - `TooManyRecords` exactly if one of the tables keeps more than 131,072 records. This is checked
///   first.
/// - `Memory` if memory runs out.
pub fn exchange(alloc: Global, first: &mut Table, second: &mut Table) -> Result<(), SyncFault>
    // Both are the join, and the table of all claims of which the two were tables.
    ensures joins { OnOk result ((first.new ≡ Join first.old second.old)
        × (second.new ≡ Join first.old second.old)) }
    ensures all { OnOk result ((claims others : List Claim) → TableOf first.old claims
        → TableOf second.old others
        → TableOf first.new (claims ++ others) × TableOf second.new (claims ++ others)) }
    ensures too_many { (result ≡ Err SyncFault.TooManyRecords)
        ↔ (HasTooMany first.old ⊎ HasTooMany second.old) }

    // What a refusal leaves, and its reason.
    ensures unchanged { OnErr result ((first.new ≡ first.old) × (second.new ≡ second.old)) }
    ensures refused { IfErr result (IsExchangeRefused first.old second.old) }
{
    if has_too_many(first) || has_too_many(second) {
        return Err(SyncFault::TooManyRecords);
    }
    exchange_few(alloc, first, second)
}

/// Whether the table keeps more records than a stream may have.
pub(crate) fn has_too_many(table: &Table) -> bool
    ensures { MatchBool result (HasTooMany table.now) (¬ HasTooMany table.now) }
{
    // an entry keeps at most two records, so most tables need no count
    if table.len() <= MAX_RECORDS as usize / 2 {
        return false;
    }
    table.records() > MAX_RECORDS
}

/// Exchanges two tables, neither of which has too many records.
pub(crate) fn exchange_few(
    alloc: Global,
    first: &mut Table,
    second: &mut Table,
) -> Result<(), SyncFault>
    requires first { ¬ HasTooMany first.old }
    requires second { ¬ HasTooMany second.old }
    ensures joins { OnOk result ((first.new ≡ Join first.old second.old)
        × (second.new ≡ Join first.old second.old)) }
    ensures unchanged { OnErr result ((first.new ≡ first.old) × (second.new ≡ second.old)) }
    ensures memory { IfErr result (λ fault. fault ≡ SyncFault.Memory) }
{
    let size = first.len() + second.len();
    let offered = encode(alloc, first, false)?;
    let replied = encode(alloc, second, false)?;
    let (offered, _) = read_dump(alloc, &offered)?;
    let (replied, _) = read_dump(alloc, &replied)?;
    let own_room = Room::new(alloc, size)?;
    let other_room = Room::new(alloc, size)?;
    first.join_in(own_room, replied);
    second.join_in(other_room, offered);
    Ok(())
}

/// Room for the entries of both tables.
///
/// # Errors
///
/// `Memory` if memory runs out.
pub fn room_for_both(alloc: Global, table: &Table, other: &Table) -> Result<Room, SyncFault>
    ensures room { IfOk result (λ room. length table.now + length other.now ≤ room) }
    ensures memory { IfErr result (λ fault. fault ≡ SyncFault.Memory) }
{
    Ok(Room::new(alloc, table.len() + other.len())?)
}
