//! The dump of a table that memberlist merges.

ghost use Rattle.std.specs.Prelude.{◌≡◌, ◌↔◌, ◌+◌, ◌*◌, ◌^◌, ◌<◌, ◌≤◌, ◌++◌, ◌∷◌, [], take, length, Some, None, IsErr};
ghost use Rattle.std.specs.Prelude.{IfOk, IfErr, MatchOption};
ghost use Rattle.std.specs.Option.{option_copied};
ghost use Rattle.swim_claim.specs.declared.claim.Claim.{Claim};
ghost use Rattle.swim_claim.specs.Claim.{name_of, HasFacts, IsLegalFacts};
ghost use Rattle.swim_wire.specs.Limits.{max_nodes, max_user_state_len};
ghost use Rattle.swim_wire.specs.Streams.{StreamText};
ghost use Rattle.swim_table.specs.MemberlistDump.{are_versions, entry_bytes, home_details, later, memberlist_dump_bytes, told, told_of};

use crate::dump::MAX_RECORDS;
use crate::entry::Entry;
use crate::fault::EncodeFault;
use crate::table::Table;
use std::alloc::Global;
use swim_claim::{Details, Facts};
use swim_wire::{Header, header_len, put_header, put_state_with_details, state_with_details_len};

/// The dump of the table that memberlist merges: a push/pull stream with one record for each name,
/// in ascending byte order. It is the record of the top, or of the home if that has a greater
/// incarnation, so that the member came back; it has the home's address, port, metadata and
/// versions (own). The dump has the join flag, and at its end the user state, of at most 20,971,520
/// bytes. Memory is requested once, for its length.
///
/// memberlist refuses a whole stream if one record has no versions, or versions that contradict
/// themselves (`verifyProtocol` in its state.go). So names without a home that has sound ones are
/// left out. Two records of one name would tell a member that does not know it of a life and then
/// of a death.
///
/// # Errors
///
/// - `TooManyRecords` exactly if there are more than 131,072 such records. This is checked first.
/// - `Memory` if out of memory for the bytes.
pub fn encode_memberlist(
    alloc: Global,
    table: &Table,
    join: bool,
    user: &[u8],
) -> Result<Vec<u8>, EncodeFault>
    requires { length user.now ≤ max_user_state_len }
    ensures bytes { IfOk result (λ bytes.
        bytes.items ≡ memberlist_dump_bytes table.now join user.now) }
    ensures text { IfOk result (λ bytes. StreamText bytes.items (told_of table.now) join) }
    ensures too_many { (result ≡ Err EncodeFault.TooManyRecords)
        ↔ (max_nodes < length (told_of table.now)) }
{
    let len = memberlist_dump_len(table, join, user)?;
    let mut out = Vec::with_capacity(alloc, len)?;
    out.resize(len, 0)?;
    encode_memberlist_into(table, join, user, &mut out);
    Ok(out)
}

/// The length of the dump that memberlist merges. It takes no memory.
///
/// # Errors
///
/// `TooManyRecords`, as for [`encode_memberlist`], and nothing else.
pub fn memberlist_dump_len(table: &Table, join: bool, user: &[u8]) -> Result<usize, EncodeFault>
    requires { length user.now ≤ max_user_state_len }
    ensures len { IfOk result (λ len.
        len ≡ length (memberlist_dump_bytes table.now join user.now)) }
    ensures too_many { IsErr result ↔ (max_nodes < length (told_of table.now)) }
    ensures no_memory { IfErr result (λ fault. fault ≡ EncodeFault.TooManyRecords) }
{
    let records = memberlist_records(table);
    if records as u128 > MAX_RECORDS {
        return Err(EncodeFault::TooManyRecords);
    }
    let mut len = header_len(&header(records as u32, join, user));
    for entry in table.entries() {
        len += record_len(entry);
    }
    Ok(len + user.len())
}

/// Writes the dump that memberlist merges into a buffer of its length, which
/// [`memberlist_dump_len`] returns. It takes no memory.
pub fn encode_memberlist_into(table: &Table, join: bool, user: &[u8], out: &mut [u8])
    requires few { length (told_of table.now) ≤ max_nodes }
    requires short { length user.now ≤ max_user_state_len }
    requires fits { length out.old ≡ length (memberlist_dump_bytes table.now join user.now) }
    ensures bytes { out.new ≡ memberlist_dump_bytes table.now join user.now }
    ensures text { StreamText (memberlist_dump_bytes table.now join user.now)
        (told_of table.now) join }
{
    let mut at = put_header(
        out,
        0,
        &header(memberlist_records(table) as u32, join, user),
    );
    for entry in table.entries() {
        at = put_record(out, at, entry);
    }
    let (_, back) = out.split_at_mut(at);
    back.copy_from_slice(user);
}

/// How many members the dump has a record of. The others are left out: none of their Alives was
/// heard, or the newest has no sound versions.
pub fn memberlist_records(table: &Table) -> usize
    ensures records { result ≡ length (told_of table.now) }
    ensures each { result ≤ length table.now }
{
    let mut records = 0;
    for entry in table.tiers().iter() {
        if told_facts(entry).is_some() {
            records += 1;
        }
    }
    records
}

fn header(nodes: u32, join: bool, user: &[u8]) -> Header
    requires { length user.now ≤ max_user_state_len }
    ensures { result ≡ record { nodes = nodes; user_len = length user.now; join = join } }
{
    Header {
        nodes,
        user_len: user.len() as u32,
        join,
    }
}

/// The length of the record of one entry, or 0 if it is left out.
fn record_len(entry: &Entry) -> usize
    ensures len { result ≡ length (entry_bytes entry.now) }
    ensures small { result ≤ 2 ^ 16 * length (told entry.now) }
    ensures few { result < 2 ^ 16 }
{
    match told_facts(entry) {
        Some((facts, details)) => state_with_details_len(entry.name(), facts, details),
        None => 0,
    }
}

/// Writes the record of one entry, if it is not left out. Returns the offset after it.
fn put_record(out: &mut [u8], at: usize, entry: &Entry) -> usize
    requires { at + length (entry_bytes entry.now) ≤ length out.old }
    ensures end { result ≡ at + length (entry_bytes entry.now) }
    ensures put { take result out.new ≡ take at out.old ++ entry_bytes entry.now }
{
    match told_facts(entry) {
        Some((facts, details)) => put_state_with_details(out, at, entry.name(), facts, details),
        None => at,
    }
}

/// The claim that is told of an entry, without its name, and the details of its record. None if the
/// entry is left out.
fn told_facts(entry: &Entry) -> Option<(Facts<'_>, &Details)>
    ensures told { MatchOption result (told entry.now ≡ []) (λ pair. (c : Claim)
        × (told entry.now ≡ c ∷ []) × (name_of c ≡ name_of entry.now.top) × HasFacts c pair.0) }
    ensures details { MatchOption result (told entry.now ≡ []) (λ pair.
        home_details entry.now ≡ pair.1.now) }
    ensures legal { MatchOption result (told entry.now ≡ []) (λ pair. IsLegalFacts pair.0) }
{
    let home = entry.home_facts()?;
    let details = home.details?;
    if !are_versions(details.vsn()) {
        return None;
    }
    match entry.top_facts_beside_home() {
        Some(top) if top.inc >= home.inc => Some((top, details)),
        _ => Some((home, details)),
    }
}

/// Whether versions do not make memberlist refuse a whole stream by themselves.
fn are_versions(vsn: &[u8]) -> bool
    ensures { result ≡ are_versions vsn.now }
{
    match vsn {
        [pmin, pmax, pcur, dmin, dmax, dcur] => {
            0 < *pmin && pmin <= pcur && pcur <= pmax && dmin <= dcur && dcur <= dmax
        }
        _ => false,
    }
}
