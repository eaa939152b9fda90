//! The canonical dump of a table.

ghost use Rattle.std.specs.Prelude.{◌≡◌, ◌↔◌, ◌+◌, ◌*◌, ◌^◌, ◌<◌, ◌≤◌, ◌++◌, take, length, IsErr, IfOk, IfErr};
ghost use Rattle.std.specs.List.{flat_map};
ghost use Rattle.swim_wire.specs.Canonical.{state_bytes};
ghost use Rattle.swim_wire.specs.Limits.{max_nodes};
ghost use Rattle.swim_wire.specs.Streams.{StreamText};
ghost use Rattle.swim_table.specs.Dump.{dump_bytes};
ghost use Rattle.swim_table.specs.Table.{kept, Reduced};

use crate::entry::Entry;
use crate::fault::EncodeFault;
use crate::table::Table;
use std::alloc::Global;
use swim_wire::{Header, MAX_NODES, header_len, put_header, put_state, state_len};

/// The most records in a stream.
pub const MAX_RECORDS: u128 = MAX_NODES as u128;

/// The canonical dump of the table: a push/pull stream with the names in ascending byte order. Each
/// has the record of its home, if there is one, and then the record of its top if that is not the
/// home (own). The dump has the join flag and no user state. Memory is requested once, for its
/// length.
///
/// # Errors
///
/// - `TooManyRecords` exactly if the table keeps more than 131,072 records. This is checked first.
/// - `Memory` if out of memory for the bytes.
pub fn encode(alloc: Global, table: &Table, join: bool) -> Result<Vec<u8>, EncodeFault>
    ensures canonical { IfOk result (λ bytes. bytes.items ≡ dump_bytes table.now join) }
    ensures text { IfOk result (λ bytes. StreamText bytes.items (Reduced table.now) join) }
    ensures too_many { (result ≡ Err EncodeFault.TooManyRecords)
        ↔ (max_nodes < length (Reduced table.now)) }
{
    let len = dump_len(table, join)?;
    let mut out = Vec::with_capacity(alloc, len)?;
    out.resize(len, 0)?;
    encode_into(table, join, &mut out);
    Ok(out)
}

/// The length of the canonical dump. It takes no memory.
///
/// # Errors
///
/// `TooManyRecords`, as for [`encode`], and nothing else.
pub fn dump_len(table: &Table, join: bool) -> Result<usize, EncodeFault>
    ensures len { IfOk result (λ len. len ≡ length (dump_bytes table.now join)) }
    ensures too_many { IsErr result ↔ (max_nodes < length (Reduced table.now)) }
    ensures no_memory { IfErr result (λ fault. fault ≡ EncodeFault.TooManyRecords) }
{
    let records = table.records();
    if records > MAX_RECORDS {
        return Err(EncodeFault::TooManyRecords);
    }
    let mut len = header_len(&dump_header(records as u32, join));
    for entry in table.entries() {
        len += records_len(entry);
    }
    Ok(len)
}

/// Writes the canonical dump into a buffer of its length, which [`dump_len`] returns. It takes no
/// memory.
pub fn encode_into(table: &Table, join: bool, out: &mut [u8])
    requires few { length (Reduced table.now) ≤ max_nodes }
    requires fits { length out.old ≡ length (dump_bytes table.now join) }
    ensures canonical { out.new ≡ dump_bytes table.now join }
    ensures text { StreamText (dump_bytes table.now join) (Reduced table.now) join }
{
    let header = dump_header(table.records() as u32, join);
    let mut at = put_header(out, 0, &header);
    for entry in table.entries() {
        at = put_records(out, at, entry);
    }
}

/// The header of a dump with this many records.
pub(crate) fn dump_header(nodes: u32, join: bool) -> Header
    ensures { result ≡ record { nodes = nodes; user_len = 0; join = join } }
{
    Header {
        nodes,
        user_len: 0,
        join,
    }
}

/// The length of the records of one entry.
fn records_len(entry: &Entry) -> usize
    ensures len { result ≡ length (flat_map state_bytes (kept entry.now)) }
    ensures small { result ≤ 2 ^ 16 * length (kept entry.now) }
    ensures few { result < 2 ^ 17 }
{
    let home = match entry.home_facts() {
        Some(home) => state_len(entry.name(), home),
        None => 0,
    };
    let top = match entry.top_facts_beside_home() {
        Some(top) => state_len(entry.name(), top),
        None => 0,
    };
    home + top
}

/// Writes the records of one entry. Returns the offset after them.
fn put_records(out: &mut [u8], at: usize, entry: &Entry) -> usize
    requires { at + length (flat_map state_bytes (kept entry.now)) ≤ length out.old }
    ensures end { result ≡ at + length (flat_map state_bytes (kept entry.now)) }
    ensures put { take result out.new ≡ take at out.old ++ flat_map state_bytes (kept entry.now) }
{
    let mut at = at;
    if let Some(home) = entry.home_facts() {
        at = put_state(out, at, entry.name(), home);
    }
    if let Some(top) = entry.top_facts_beside_home() {
        at = put_state(out, at, entry.name(), top);
    }
    at
}
