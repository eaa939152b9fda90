//! The header and the records of a stream, written into existing room, and their lengths.

ghost use Rattle.std.specs.Prelude.{◌≡◌, ◌+◌, ◌^◌, ◌<◌, ◌≤◌, ◌++◌, take, length, unwrap_or};
ghost use Rattle.std.specs.Option.{option_copied};
ghost use Rattle.swim_claim.specs.declared.claim.Claim.{Claim};
ghost use Rattle.swim_claim.specs.Claim.{name_of, HasFacts, IsLegalClaim, IsLegalFacts};
ghost use Rattle.swim_claim.specs.Details.{IsLegalDetails};
ghost use Rattle.swim_wire.specs.Canonical.{header_bytes, state_bytes, state_bytes_with, number_pair, raw_pair};
ghost use Rattle.swim_wire.specs.Pairs.{state_number};
ghost use Rattle.swim_wire.specs.Records.{facts_bytes, facts_bytes_with, bytes_of, IsShortRecord};
ghost use Rattle.swim_wire.specs.Texts.{StateText};

use crate::layout::Key;
use crate::message::PUSH_PULL_MESSAGE;
use crate::stream::Header;
use swim_claim::{Details, Facts, Kind, Name};
use swim_pack::{put_bool, put_bytes, put_map_len, put_raw, put_uint, raw_len, uint_len};

/// The length of a push/pull stream's header in bytes.
pub fn header_len(header: &Header) -> usize
    ensures len { result ≡ length (header_bytes header.now) }
    ensures small { result < 2 ^ 16 }
{
    let join = raw_len(Key::Join.text()) + 1;
    let nodes = uint_pair_len(Key::Nodes, u64::from(header.nodes));
    let user_len = uint_pair_len(Key::UserStateLen, u64::from(header.user_len));
    2 + join + nodes + user_len
}

/// Writes the header of a push/pull stream into existing room. Returns the position after it.
pub fn put_header(out: &mut [u8], at: usize, header: &Header) -> usize
    requires { at + length (header_bytes header.now) ≤ length out.old }
    ensures end { result ≡ at + length (header_bytes header.now) }
    ensures put { take result out.new ≡ take at out.old ++ header_bytes header.now }
{
    let next = put_bytes(out, at, &[PUSH_PULL_MESSAGE]);
    let next = put_map_len(out, next, 3);
    let next = put_raw(out, next, Key::Join.text());
    let next = put_bool(out, next, header.join);
    let next = put_uint_pair(out, next, Key::Nodes, u64::from(header.nodes));
    put_uint_pair(out, next, Key::UserStateLen, u64::from(header.user_len))
}

/// The length in bytes of the state record of the claim that the facts make about a member. The
/// facts must have details exactly if the claim is an Alive.
#[inline(always)]
pub fn state_len<'a>(name: &'a Name, facts: Facts<'a>) -> usize
    requires { IsLegalFacts facts }
    ensures len { (c : Claim) → name_of c ≡ name.now → HasFacts c facts.entry
        → result ≡ length (state_bytes c) }
    ensures told { result ≡ length (facts_bytes name.now facts.entry) }
    ensures small { result < 2 ^ 16 }
    ensures legal { (c : Claim) → name_of c ≡ name.now → HasFacts c facts.entry → IsLegalClaim c }
{
    record_len(&Record::of(name, facts))
}

/// Writes the state record of the claim that the facts make about a member into existing room.
/// Returns the position after it. The facts must have details exactly if the claim is an Alive.
#[inline(always)]
pub fn put_state<'a>(out: &mut [u8], at: usize, name: &'a Name, facts: Facts<'a>) -> usize
    requires legal { IsLegalFacts facts }
    requires room { at + length (facts_bytes name.now facts) ≤ length out.old }
    ensures end { result ≡ at + length (facts_bytes name.now facts.entry) }
    ensures put { take result out.new ≡ take at out.old ++ facts_bytes name.now facts.entry }
    ensures state { (c : Claim) → name_of c ≡ name.now → HasFacts c facts.entry
        → facts_bytes name.now facts.entry ≡ state_bytes c }
{
    put_record(out, at, &Record::of(name, facts))
}

/// The length in bytes of the state record that [`put_state_with_details`] writes. The facts must
/// have details exactly if the claim is an Alive.
#[inline(always)]
pub fn state_with_details_len<'a>(name: &'a Name, facts: Facts<'a>, details: &'a Details) -> usize
    requires { IsLegalFacts facts }
    ensures len { (c : Claim) → name_of c ≡ name.now → HasFacts c facts.entry
        → result ≡ length (state_bytes_with details.now c) }
    ensures told { result ≡ length (facts_bytes_with details.now name.now facts.entry) }
    ensures small { result < 2 ^ 16 }
{
    record_len(&Record::with(name, facts, details))
}

/// Writes the state record of the claim that the facts make about a member into existing room, with
/// these details if the claim has none of its own. Returns the position after it.
///
/// memberlist refuses a whole stream if one record has no versions, so here the record of a
/// Suspect, Confirm or Leave can have some. The details are not part of its claim, and readers skip
/// them. The facts must have details exactly if the claim is an Alive.
#[inline(always)]
pub fn put_state_with_details<'a>(
    out: &mut [u8],
    at: usize,
    name: &'a Name,
    facts: Facts<'a>,
    details: &'a Details,
) -> usize
    requires legal { IsLegalFacts facts }
    requires room { at + length (facts_bytes_with details.now name.now facts) ≤ length out.old }
    ensures end { result ≡ at + length (facts_bytes_with details.now name.now facts.entry) }
    ensures put { take result out.new
        ≡ take at out.old ++ facts_bytes_with details.now name.now facts.entry }
    ensures state { (c : Claim) → name_of c ≡ name.now → HasFacts c facts.entry
        → facts_bytes_with details.now name.now facts.entry ≡ state_bytes_with details.now c }
    ensures text { (c : Claim) → name_of c ≡ name.now → HasFacts c facts.entry
        → StateText (state_bytes_with details.now c) c }
{
    put_record(out, at, &Record::with(name, facts, details))
}

/// What a state record says. If it has no details, all their parts are empty.
#[derive(Drop)]
struct Record<'a> {
    name: &'a [u8],
    inc: u32,
    state: u64,
    addr: &'a [u8],
    port: u16,
    meta: &'a [u8],
    vsn: &'a [u8],
}

impl<'a> Record<'a> {
    #[inline(always)]
    fn of(name: &'a Name, facts: Facts<'a>) -> Record<'a>
        ensures told { bytes_of result ≡ facts_bytes name.now facts.entry }
        ensures short { IsShortRecord result }
        ensures legal { (c : Claim) → name_of c ≡ name.now → HasFacts c facts.entry
            → IsLegalClaim c }
    {
        match facts.details {
            Some(details) => Record::with(name, facts, details),
            None => Record {
                name: name.bytes(),
                inc: facts.inc,
                state: state_of(facts.kind),
                addr: &[],
                port: 0,
                meta: &[],
                vsn: &[],
            },
        }
    }

    /// Uses these details if the facts have none.
    #[inline(always)]
    fn with(name: &'a Name, facts: Facts<'a>, details: &'a Details) -> Record<'a>
        ensures told { bytes_of result ≡ facts_bytes_with details.now name.now facts.entry }
        ensures short { IsShortRecord result }
        ensures details { IsLegalDetails
            (unwrap_or (option_copied facts.entry.details) details.now) }
        ensures legal { (c : Claim) → name_of c ≡ name.now → HasFacts c facts.entry
            → IsLegalClaim c }
    {
        let details = facts.details.unwrap_or(details);
        Record {
            name: name.bytes(),
            inc: facts.inc,
            state: state_of(facts.kind),
            addr: details.addr(),
            port: details.port(),
            meta: details.meta(),
            vsn: details.vsn(),
        }
    }
}

/// The state number of a record for a kind of claim, as in memberlist's `state.go`.
#[inline(always)]
fn state_of(kind: Kind) -> u64
    ensures { result ≡ state_number kind }
{
    match kind {
        Kind::Alive => 0,
        Kind::Suspect => 1,
        Kind::Confirm => 2,
        Kind::Leave => 3,
    }
}

#[inline(always)]
fn record_len(parts: &Record) -> usize
    requires { IsShortRecord parts.now }
    ensures len { result ≡ length (bytes_of parts.now) }
    ensures small { result < 2 ^ 16 }
{
    let addr = raw_pair_len(Key::Addr, parts.addr);
    let inc = uint_pair_len(Key::Incarnation, u64::from(parts.inc));
    let meta = raw_pair_len(Key::Meta, parts.meta);
    let name = raw_pair_len(Key::Name, parts.name);
    let port = uint_pair_len(Key::Port, u64::from(parts.port));
    let state = uint_pair_len(Key::State, parts.state);
    let vsn = raw_pair_len(Key::Vsn, parts.vsn);
    1 + addr + inc + meta + name + port + state + vsn
}

#[inline(always)]
fn put_record(out: &mut [u8], at: usize, parts: &Record) -> usize
    requires short { IsShortRecord parts.now }
    requires room { at + length (bytes_of parts.now) ≤ length out.old }
    ensures end { result ≡ at + length (bytes_of parts.now) }
    ensures put { take result out.new ≡ take at out.old ++ bytes_of parts.now }
{
    let next = put_map_len(out, at, 7);
    let next = put_raw_pair(out, next, Key::Addr, parts.addr);
    let next = put_uint_pair(out, next, Key::Incarnation, u64::from(parts.inc));
    let next = put_raw_pair(out, next, Key::Meta, parts.meta);
    let next = put_raw_pair(out, next, Key::Name, parts.name);
    let next = put_uint_pair(out, next, Key::Port, u64::from(parts.port));
    let next = put_uint_pair(out, next, Key::State, parts.state);
    put_raw_pair(out, next, Key::Vsn, parts.vsn)
}

#[inline(always)]
fn raw_pair_len(key: Key, bytes: &[u8]) -> usize
    requires { length bytes.now < 2 ^ 15 }
    ensures len { result ≡ length (raw_pair key bytes.now) }
    ensures small { result ≤ length bytes.now + 18 }
{
    raw_len(key.text()) + raw_len(bytes)
}

#[inline(always)]
fn uint_pair_len(key: Key, value: u64) -> usize
    ensures len { result ≡ length (number_pair key value) }
    ensures small { result ≤ 24 }
{
    raw_len(key.text()) + uint_len(value)
}

/// Writes a key, then bytes.
#[inline(always)]
fn put_raw_pair(out: &mut [u8], at: usize, key: Key, bytes: &[u8]) -> usize
    requires short { length bytes.now < 2 ^ 16 }
    requires room { at + length (raw_pair key bytes.now) ≤ length out.old }
    ensures end { result ≡ at + length (raw_pair key bytes.now) }
    ensures put { take result out.new ≡ take at out.old ++ raw_pair key bytes.now }
{
    let next = put_raw(out, at, key.text());
    put_raw(out, next, bytes)
}

/// Writes a key, then a number.
#[inline(always)]
fn put_uint_pair(out: &mut [u8], at: usize, key: Key, value: u64) -> usize
    requires { at + length (number_pair key value) ≤ length out.old }
    ensures end { result ≡ at + length (number_pair key value) }
    ensures put { take result out.new ≡ take at out.old ++ number_pair key value }
{
    let next = put_raw(out, at, key.text());
    put_uint(out, next, value)
}
