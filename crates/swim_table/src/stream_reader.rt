//! Push/pull streams, read record by record, as a whole, or as a dump.

ghost use Rattle.std.specs.Prelude.{◌≡◌, ◌≢◌, ◌≤◌, ◌++◌, ◌⊎◌, ℕ, [], Bool, List, length, IfOk, IfErr, IsErrOf};
ghost use Rattle.swim_claim.specs.declared.claim.Claim.{Claim};
ghost use Rattle.swim_pack.specs.Ends.{ConsumesText, NoTextAtFront, Advances, CountsFault};
ghost use Rattle.swim_pack.specs.Composing.{UnlessFailed};
ghost use Rattle.swim_wire.specs.declared.stream.Header.{Header};
ghost use Rattle.swim_wire.specs.Checks.{ReasonForStart};
ghost use Rattle.swim_wire.specs.Limits.{max_nodes, max_user_state_len};
ghost use Rattle.swim_wire.specs.Reading.{wire_cause};
ghost use Rattle.swim_wire.specs.Streams.{StreamText};
ghost use Rattle.swim_wire.specs.Texts.{HeaderText};
ghost use Rattle.swim_table.specs.Dump.{dump_bytes};
ghost use Rattle.swim_table.specs.Steps.{Steps, IsWanted, ReasonForBegin, ReasonForStep, ReasonForStream, ReasonForDump};
ghost use Rattle.swim_table.specs.Table.{Entries, Reduced, TableOf, TakesIn, IsLegalTable};

use crate::table::Table;
use std::alloc::Global;
use std::marker::Model;
use swim_pack::{Inlet, SliceInlet};
use swim_wire::{Header, WireFault, read_header, read_state, skip_user};

/// A push/pull stream of which some records were read: its header, how many records are still to
/// come, and the table into which the claims read so far were taken.
#[derive(Drop)]
pub struct StreamReader {
    alloc: Global,
    header: Header,
    left: u32,
    table: Table,
}

impl Model for StreamReader {
    ghost use Rattle.swim_table.specs.Streaming.{Streaming};

    ghost Value = { Streaming };

    ghost view = { λ r. record { header = r.header; left = r.left; table = r.table } };
}

/// The result of one step of reading a stream.
#[derive(Drop)]
pub enum Step {
    /// One more record was read.
    More(StreamReader),
    /// The stream was read to its end: the table that took its claims in, and its join flag.
    End(Table, bool),
}

impl StreamReader {
    /// Reads the header of a stream. It takes no memory: nothing is sized by the number of records
    /// that the header announces.
    ///
    /// # Errors
    ///
    /// Those of [`read_header`]. Then the bytes left are a suffix of those before.
    pub fn begin<I: Inlet>(alloc: Global, inlet: &mut I) -> Result<StreamReader, WireFault>
        // The bytes taken are the header, and no claim was read yet.
        ensures takes { IfOk result (λ reader.
            ConsumesText (I.seen inlet.old) (I.seen inlet.new) (λ b. HeaderText b reader.header)) }
        ensures fresh { IfOk result (λ reader. (reader.left ≡ reader.header.nodes)
            × (reader.table ≡ [])) }

        // Also if the inlet does not say what its bytes are.
        ensures within { IfOk result (λ reader. (reader.header.nodes ≤ max_nodes)
            × (reader.header.user_len ≤ max_user_state_len)) }

        // If refused, and the inlet did not fail, the bytes do not begin with a header, and the
        // fault says why.
        ensures lacks { IfErr result (λ fault. UnlessFailed (wire_cause fault)
            (NoTextAtFront (I.seen inlet.old) (λ b. (header : Header) × HeaderText b header))) }
        ensures reason { IfErr result (λ fault.
            ReasonForStart (ReasonForBegin fault) (I.seen inlet.old)) }
        ensures no_memory { ¬ IsErrOf result WireFault.Memory }
        ensures fault { IsErrOf result WireFault.Fault
            → CountsFault (I.seen inlet.old).faults (I.seen inlet.new).faults }
        ensures end { Advances (I.seen inlet.old) (I.seen inlet.new) }
    {
        StreamReader::begin_into(alloc, inlet, Table::new(alloc))
    }

    /// Reads the header of a stream whose claims are to be taken into this table. It takes no memory:
    /// nothing is sized by the number of records that the header announces.
    ///
    /// # Errors
    ///
    /// Those of [`read_header`]. The table is dropped, and the bytes left are a suffix of those
    /// before.
    pub fn begin_into<I: Inlet>(
        alloc: Global,
        inlet: &mut I,
        table: Table,
    ) -> Result<StreamReader, WireFault>
        // The bytes taken are the header, and none was taken in yet.
        ensures takes { IfOk result (λ reader.
            ConsumesText (I.seen inlet.old) (I.seen inlet.new) (λ b. HeaderText b reader.header)) }
        ensures fresh { IfOk result (λ reader. (reader.left ≡ reader.header.nodes)
            × (reader.table ≡ table)) }

        // Also if the inlet does not say what its bytes are.
        ensures within { IfOk result (λ reader. (reader.header.nodes ≤ max_nodes)
            × (reader.header.user_len ≤ max_user_state_len)) }

        // If refused, and the inlet did not fail, the bytes do not begin with a header, and the
        // fault says why.
        ensures lacks { IfErr result (λ fault. UnlessFailed (wire_cause fault)
            (NoTextAtFront (I.seen inlet.old) (λ b. (header : Header) × HeaderText b header))) }
        ensures reason { IfErr result (λ fault.
            ReasonForStart (ReasonForBegin fault) (I.seen inlet.old)) }
        ensures no_memory { ¬ IsErrOf result WireFault.Memory }
        ensures fault { IsErrOf result WireFault.Fault
            → CountsFault (I.seen inlet.old).faults (I.seen inlet.new).faults }
        ensures end { Advances (I.seen inlet.old) (I.seen inlet.new) }
    {
        let header = read_header(inlet)?;
        Ok(StreamReader {
            alloc,
            header,
            left: header.nodes,
            table,
        })
    }

    /// The header of the stream.
    pub fn header(&self) -> &Header
        ensures { result.now ≡ self.now.header }
    {
        &self.header
    }

    /// How many records are still to come.
    pub fn left(&self) -> u32
        ensures { result ≡ self.now.left }
    {
        self.left
    }

    /// The table, with the claims read so far.
    pub fn table(&self) -> &Table
        ensures { result.now ≡ self.now.table }
    {
        &self.table
    }

    /// Reads the next record, or, if none is to come, reads and drops the user state.
    ///
    /// # Errors
    ///
    /// Those of [`read_state`], those of [`skip_user`] at the end, and `Memory` if out of memory
    /// for the entry of a new name. The reader is dropped, and the bytes left are a suffix of those
    /// before.
    pub fn step<I: Inlet>(self, inlet: &mut I) -> Result<Step, WireFault>
        // The bytes taken are a record, whose claim is in the table, or, at the end, the user
        // state.
        ensures takes { IfOk result (λ step.
            Steps self (I.seen inlet.old) (I.seen inlet.new) step) }

        // If refused, and neither the inlet failed nor memory ran out, the bytes do not begin with
        // what was wanted, and the fault says why. The end takes no memory.
        ensures lacks { IfErr result (λ fault.
            UnlessFailed (wire_cause fault) (NoTextAtFront (I.seen inlet.old) (IsWanted self))) }
        ensures reason { IfErr result (λ fault.
            ReasonForStart (ReasonForStep self fault) (I.seen inlet.old)) }
        ensures no_memory { self.left ≡ 0 → ¬ IsErrOf result WireFault.Memory }
        ensures fault { IsErrOf result WireFault.Fault
            → CountsFault (I.seen inlet.old).faults (I.seen inlet.new).faults }
        ensures end { Advances (I.seen inlet.old) (I.seen inlet.new) }
    {
        let StreamReader {
            alloc,
            header,
            left,
            mut table,
        } = self;
        if left == 0 {
            skip_user(inlet, header.user_len)?;
            return Ok(Step::End(table, header.join));
        }
        let claim = read_state(alloc, inlet)?;
        match table.take(claim) {
            Ok(_) => Ok(Step::More(StreamReader {
                alloc,
                header,
                left: left - 1,
                table,
            })),
            Err(_) => Err(WireFault::Memory),
        }
    }
}

/// Reads one push/pull stream (memberlist's `net.go`), takes each record in, and returns the table
/// and the join flag. Bytes after it stay in the inlet.
///
/// # Errors
///
/// Those of [`StreamReader::begin`] and [`StreamReader::step`]. Then the bytes left are a suffix of
/// those before.
pub fn read_stream<I: Inlet>(alloc: Global, inlet: &mut I) -> Result<(Table, bool), WireFault>
    // The bytes taken are one stream, and the table is that of its claims.
    ensures takes { IfOk result (λ read. (claims : List Claim) × TableOf read.0 claims
        × ConsumesText (I.seen inlet.old) (I.seen inlet.new) (λ b. StreamText b claims read.1)) }

    // If refused, and neither the inlet failed nor memory ran out, the bytes do not begin with a
    // stream, and the fault says why.
    ensures lacks { IfErr result (λ fault. UnlessFailed (wire_cause fault)
        (NoTextAtFront (I.seen inlet.old)
        (λ b. (claims : List Claim) × (join : Bool) × StreamText b claims join))) }
    ensures reason { IfErr result (λ fault.
        ReasonForStart (ReasonForStream fault) (I.seen inlet.old)) }
    ensures fault { IsErrOf result WireFault.Fault
        → CountsFault (I.seen inlet.old).faults (I.seen inlet.new).faults }
    ensures end { Advances (I.seen inlet.old) (I.seen inlet.new) }
{
    read_stream_into(alloc, inlet, Table::new(alloc))
}

/// Reads one push/pull stream (memberlist's `net.go`), and takes each record into this table. Returns
/// the table and the join flag. Bytes after the stream stay in the inlet.
///
/// # Errors
///
/// Those of [`StreamReader::begin_into`] and [`StreamReader::step`]. The table is dropped, and the
/// bytes left are a suffix of those before.
pub fn read_stream_into<I: Inlet>(
    alloc: Global,
    inlet: &mut I,
    table: Table,
) -> Result<(Table, bool), WireFault>
    // The bytes taken are one stream, and the table took its claims in.
    ensures takes { IfOk result (λ read. (claims : List Claim) × TakesIn table read.0 claims
        × ConsumesText (I.seen inlet.old) (I.seen inlet.new) (λ b. StreamText b claims read.1)) }

    // If refused, and neither the inlet failed nor memory ran out, the bytes do not begin with a
    // stream, and the fault says why.
    ensures lacks { IfErr result (λ fault. UnlessFailed (wire_cause fault)
        (NoTextAtFront (I.seen inlet.old)
        (λ b. (claims : List Claim) × (join : Bool) × StreamText b claims join))) }
    ensures reason { IfErr result (λ fault.
        ReasonForStart (ReasonForStream fault) (I.seen inlet.old)) }
    ensures fault { IsErrOf result WireFault.Fault
        → CountsFault (I.seen inlet.old).faults (I.seen inlet.new).faults }
    ensures end { Advances (I.seen inlet.old) (I.seen inlet.new) }
{
    let mut reader = StreamReader::begin_into(alloc, inlet, table)?;
    loop {
        match reader.step(inlet)? {
            Step::More(next) => reader = next,
            Step::End(table, join) => return Ok((table, join)),
        }
    }
}

/// Reads a dump: one push/pull stream with nothing after it. Returns the table of its claims and
/// the join flag.
///
/// # Errors
///
/// Those of [`read_stream`], and `Trailing` if bytes follow the stream.
pub fn read_dump(alloc: Global, bytes: &[u8]) -> Result<(Table, bool), WireFault>
    // The bytes are one stream, and the table is that of its claims.
    ensures reads { IfOk result (λ read. (claims : List Claim) × TableOf read.0 claims
        × StreamText bytes.now claims read.1) }

    // If refused, and memory did not run out, the bytes are not a stream, and the fault says why.
    ensures refuses { IfErr result (λ fault. fault ≢ WireFault.Memory
        → (claims : List Claim) (join : Bool) → ¬ StreamText bytes.now claims join) }
    ensures reason { IfErr result (λ fault. ReasonForDump fault bytes.now) }

    // If bytes follow a stream, the only other fault is `Memory`.
    ensures after { (front rest : List ℕ) (claims : List Claim) (join : Bool)
        → StreamText front claims join → rest ≢ [] → bytes.now ≡ front ++ rest
        → IsErrOf result WireFault.Trailing ⊎ IsErrOf result WireFault.Memory }

    // A canonical dump is read back, and refused only if out of memory.
    ensures back { (table : Entries) (join : Bool) → IsLegalTable table
        → length (Reduced table) ≤ max_nodes → bytes.now ≡ dump_bytes table join
        → IfOk result (λ read. (read.0 ≡ table) × (read.1 ≡ join))
        × IfErr result (λ fault. fault ≡ WireFault.Memory) }
{
    read_dump_into(alloc, bytes, Table::new(alloc))
}

/// Reads a dump, and takes its claims into this table. Returns the table and the join flag.
///
/// # Errors
///
/// Those of [`read_stream_into`], and `Trailing` if bytes follow the stream. The table is dropped.
pub fn read_dump_into(alloc: Global, bytes: &[u8], table: Table) -> Result<(Table, bool), WireFault>
    // The bytes are one stream, and the table took its claims in.
    ensures reads { IfOk result (λ read. (claims : List Claim) × TakesIn table read.0 claims
        × StreamText bytes.now claims read.1) }

    // If refused, and memory did not run out, the bytes are not a stream, and the fault says why.
    ensures refuses { IfErr result (λ fault. fault ≢ WireFault.Memory
        → (claims : List Claim) (join : Bool) → ¬ StreamText bytes.now claims join) }
    ensures reason { IfErr result (λ fault. ReasonForDump fault bytes.now) }

    // If bytes follow a stream, the only other fault is `Memory`.
    ensures after { (front rest : List ℕ) (claims : List Claim) (join : Bool)
        → StreamText front claims join → rest ≢ [] → bytes.now ≡ front ++ rest
        → IsErrOf result WireFault.Trailing ⊎ IsErrOf result WireFault.Memory }
{
    let mut inlet = SliceInlet::new(bytes);
    let read = read_stream_into(alloc, &mut inlet, table)?;
    if inlet.rest().is_empty() {
        Ok(read)
    } else {
        Err(WireFault::Trailing)
    }
}
