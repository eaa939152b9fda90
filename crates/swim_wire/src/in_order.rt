//! Messages that are at hand as a whole, written as memberlist and canonical streams write them:
//! each key once, in alphabetical order.
//!
//! A message that is written differently is left for `map` to read, which also finds its first
//! fault.

ghost use Rattle.std.specs.Prelude.{◌≡◌, ◌≤◌, ◌++◌, ◌∷◌, List, ℕ, length, IfSome, IsErrOf, IsNone, Ok};
ghost use Rattle.swim_pack.specs.Composing.{ReadsAs, same};
ghost use Rattle.swim_wire.specs.declared.layout.Limit.TheVariants as limits;
ghost use Rattle.swim_wire.specs.Asking.{MapAsks, PacketAsks};
ghost use Rattle.swim_wire.specs.Checks.{ReasonForStart};
ghost use Rattle.swim_wire.specs.Layout.{alive_layout, state_layout, accusation_layout, header_layout};
ghost use Rattle.swim_wire.specs.Layout.Spelled.{number, raw, flag};
ghost use Rattle.swim_wire.specs.Limits.{max_nodes, max_user_state_len};
ghost use Rattle.swim_wire.specs.Message.{IsShortAlive, IsShortAccusation, IsShortState, slots_of_alive};
ghost use Rattle.swim_wire.specs.Message.{slots_of_accusation, slots_of_header, slots_of_state};
ghost use Rattle.swim_wire.specs.Reading.{wire_cause, value_at, map_at, state_at, alive_at, suspect_at, dead_at};
ghost use Rattle.swim_wire.specs.Reading.{header_at, nothing_after, whole_packet, AnswersUnlessMemory};

use crate::WireFault;
use crate::claims::{
    claim_of_state, header_of, packet_of_alive, packet_of_dead, packet_of_suspect,
};
use crate::layout::{MAX_ADDRESS_LEN, MAX_META_LEN, MAX_NAME_LEN, MAX_VERSIONS_LEN};
use crate::message::{
    ALIVE_MESSAGE, Accusation, Alive, DEAD_MESSAGE, PushNodeState, PushPullHeader, SUSPECT_MESSAGE,
};
use crate::packet::Packet;
use crate::stream::Header;
use std::alloc::Global;
use swim_claim::Claim;
use swim_pack::{Inlet, bool_at_hand, raw_at_hand, uint_at_hand};

/// The bytes after this text, if they start with it.
#[inline(always)]
fn behind<'a, const N: usize>(bytes: &'a [u8], text: &[u8; N]) -> Option<&'a [u8]>
    ensures { IfSome result (λ rest. bytes.now ≡ text.now ++ rest.now) }
{
    let (front, rest) = bytes.split_first_chunk::<N>()?;
    if front == text { Some(rest) } else { None }
}

/// The number after this key, and the bytes after it.
#[tactic(auto, unfolding(crate::specs::Reading::value_at))]
#[inline(always)]
fn number_behind<'a, const N: usize>(
    bytes: &'a [u8],
    key: &[u8; N],
    max: u64,
) -> Option<(u64, &'a [u8])>
    ensures reads { IfSome result (λ found. (mid : List ℕ) × (bytes.now ≡ key.now ++ mid)
        × (value_at (limits.Number max) mid ≡ Ok (number found.0, found.1.now))) }
    ensures within { IfSome result (λ found. found.0 ≤ max) }
{
    uint_at_hand(behind(bytes, key)?, max)
}

/// The text or bytes after this key, and the bytes after them.
#[tactic(auto, unfolding(crate::specs::Reading::value_at))]
#[inline(always)]
fn raw_behind<'a, const N: usize>(
    bytes: &'a [u8],
    key: &[u8; N],
    limit: usize,
) -> Option<(&'a [u8], &'a [u8])>
    ensures reads { IfSome result (λ found. (mid : List ℕ) × (bytes.now ≡ key.now ++ mid)
        × (value_at (limits.Raw limit) mid ≡ Ok (raw found.0.now, found.1.now))) }
    ensures within { IfSome result (λ found. length found.0.now ≤ limit) }
{
    raw_at_hand(behind(bytes, key)?, limit)
}

/// The truth value after this key, and the bytes after it.
#[tactic(auto, unfolding(crate::specs::Reading::value_at))]
fn flag_behind<'a, const N: usize>(bytes: &'a [u8], key: &[u8; N]) -> Option<(bool, &'a [u8])>
    ensures { IfSome result (λ found. (mid : List ℕ) × (bytes.now ≡ key.now ++ mid)
        × (value_at limits.Flag mid ≡ Ok (flag found.0, found.1.now))) }
{
    bool_at_hand(behind(bytes, key)?)
}

/// A state record with all its keys at the start of the bytes, and the bytes after it.
#[inline(always)]
fn state_in_order(bytes: &[u8]) -> Option<(PushNodeState, &[u8])>
    ensures reads { IfSome result (λ found. map_at state_layout bytes.now
        ≡ Ok (slots_of_state found.0, found.1.now)) }
    ensures short { IfSome result (λ found. IsShortState found.0) }
    ensures shorter { IfSome result (λ found. length found.1.now ≤ length bytes.now) }
{
    let (addr, bytes) = raw_behind(bytes, b"\x87\xa4Addr", MAX_ADDRESS_LEN)?;
    let (incarnation, bytes) = number_behind(bytes, b"\xabIncarnation", u32::MAX as u64)?;
    let (meta, bytes) = raw_behind(bytes, b"\xa4Meta", MAX_META_LEN)?;
    let (name, bytes) = raw_behind(bytes, b"\xa4Name", MAX_NAME_LEN)?;
    let (port, bytes) = number_behind(bytes, b"\xa4Port", u16::MAX as u64)?;
    let (state, bytes) = number_behind(bytes, b"\xa5State", u64::MAX)?;
    let (vsn, rest) = raw_behind(bytes, b"\xa3Vsn", MAX_VERSIONS_LEN)?;
    let state = PushNodeState {
        addr,
        incarnation: incarnation as u32,
        meta,
        name,
        port: port as u16,
        state,
        vsn,
    };
    Some((state, rest))
}

/// The map of an alive message with all its keys at the start of the bytes, and the bytes after it.
#[inline(always)]
fn alive_in_order(bytes: &[u8]) -> Option<(Alive, &[u8])>
    ensures reads { IfSome result (λ found. map_at alive_layout bytes.now
        ≡ Ok (slots_of_alive found.0, found.1.now)) }
    ensures short { IfSome result (λ found. IsShortAlive found.0) }
{
    let (addr, bytes) = raw_behind(bytes, b"\x86\xa4Addr", MAX_ADDRESS_LEN)?;
    let (incarnation, bytes) = number_behind(bytes, b"\xabIncarnation", u32::MAX as u64)?;
    let (meta, bytes) = raw_behind(bytes, b"\xa4Meta", MAX_META_LEN)?;
    let (node, bytes) = raw_behind(bytes, b"\xa4Node", MAX_NAME_LEN)?;
    let (port, bytes) = number_behind(bytes, b"\xa4Port", u16::MAX as u64)?;
    let (vsn, rest) = raw_behind(bytes, b"\xa3Vsn", MAX_VERSIONS_LEN)?;
    let alive = Alive {
        addr,
        incarnation: incarnation as u32,
        meta,
        node,
        port: port as u16,
        vsn,
    };
    Some((alive, rest))
}

/// The map of a suspect or dead message with all its keys at the start of the bytes, and the bytes
/// after it.
#[inline(always)]
fn accusation_in_order(bytes: &[u8]) -> Option<(Accusation, &[u8])>
    ensures reads { IfSome result (λ found. map_at accusation_layout bytes.now
        ≡ Ok (slots_of_accusation found.0, found.1.now)) }
    ensures short { IfSome result (λ found. IsShortAccusation found.0) }
{
    let (from, bytes) = raw_behind(bytes, b"\x83\xa4From", MAX_NAME_LEN)?;
    let (incarnation, bytes) = number_behind(bytes, b"\xabIncarnation", u32::MAX as u64)?;
    let (node, rest) = raw_behind(bytes, b"\xa4Node", MAX_NAME_LEN)?;
    let accusation = Accusation {
        from,
        incarnation: incarnation as u32,
        node,
    };
    Some((accusation, rest))
}

/// The header of a stream with all its keys at the start of the bytes, type byte included, and the
/// bytes after it.
fn header_in_order(bytes: &[u8]) -> Option<(PushPullHeader, &[u8])>
    ensures reads { IfSome result (λ found. (body : List ℕ) × (bytes.now ≡ 6 ∷ body)
        × (map_at header_layout body ≡ Ok (slots_of_header found.0, found.1.now))) }
    ensures shorter { IfSome result (λ found. length found.1.now ≤ length bytes.now) }
{
    let (join, bytes) = flag_behind(bytes, b"\x06\x83\xa4Join")?;
    let (nodes, bytes) = number_behind(bytes, b"\xa5Nodes", u64::MAX)?;
    let (user_state_len, rest) = number_behind(bytes, b"\xacUserStateLen", u64::MAX)?;
    let header = PushPullHeader {
        join,
        nodes,
        user_state_len,
    };
    Some((header, rest))
}

/// The packet of an alive message with this map.
fn alive_packet(alloc: Global, body: &[u8]) -> Option<Result<Packet, WireFault>>
    ensures answers { IfSome result (AnswersUnlessMemory (nothing_after (alive_at body.now))) }
    ensures no_fault { IfSome result (λ read. ¬ IsErrOf read WireFault.Fault) }
    ensures memory { IfSome result (λ read. IsErrOf read WireFault.Memory
        → MapAsks alive_layout body.now) }
{
    let (alive, rest) = alive_in_order(body)?;
    if rest.is_empty() {
        Some(packet_of_alive(alloc, &alive))
    } else {
        None
    }
}

/// The packet of a suspect message with this map.
fn suspect_packet(alloc: Global, body: &[u8]) -> Option<Result<Packet, WireFault>>
    ensures answers { IfSome result (AnswersUnlessMemory (nothing_after (suspect_at body.now))) }
    ensures no_fault { IfSome result (λ read. ¬ IsErrOf read WireFault.Fault) }
    ensures memory { IfSome result (λ read. IsErrOf read WireFault.Memory
        → MapAsks accusation_layout body.now) }
{
    let (suspect, rest) = accusation_in_order(body)?;
    if rest.is_empty() {
        Some(packet_of_suspect(alloc, &suspect))
    } else {
        None
    }
}

/// The packet of a dead message with this map.
fn dead_packet(alloc: Global, body: &[u8]) -> Option<Result<Packet, WireFault>>
    ensures answers { IfSome result (AnswersUnlessMemory (nothing_after (dead_at body.now))) }
    ensures no_fault { IfSome result (λ read. ¬ IsErrOf read WireFault.Fault) }
    ensures memory { IfSome result (λ read. IsErrOf read WireFault.Memory
        → MapAsks accusation_layout body.now) }
{
    let (dead, rest) = accusation_in_order(body)?;
    if rest.is_empty() {
        Some(packet_of_dead(alloc, &dead))
    } else {
        None
    }
}

/// The packet in these bytes, or why they are not a packet, if the map has all its keys in
/// alphabetical order. Any other packet is left unread.
pub(crate) fn packet_in_order(alloc: Global, bytes: &[u8]) -> Option<Result<Packet, WireFault>>
    ensures answers { IfSome result (AnswersUnlessMemory (whole_packet bytes.now)) }
    ensures no_fault { IfSome result (λ read. ¬ IsErrOf read WireFault.Fault) }
    ensures memory { IfSome result (λ read. IsErrOf read WireFault.Memory
        → PacketAsks bytes.now) }
{
    match bytes.split_first() {
        Some((&ALIVE_MESSAGE, body)) => alive_packet(alloc, body),
        Some((&SUSPECT_MESSAGE, body)) => suspect_packet(alloc, body),
        Some((&DEAD_MESSAGE, body)) => dead_packet(alloc, body),
        _ => None,
    }
}

/// Reads a state record that is at hand as a whole, with all its keys in alphabetical order. Any
/// other record, and one that is refused for a reason other than memory, is left unread.
pub(crate) fn read_state_in_order<I: Inlet>(
    alloc: Global,
    inlet: &mut I,
) -> Option<Result<Claim, WireFault>>
    ensures read { IfSome result (λ read.
        ReadsAs wire_cause same state_at (I.seen inlet.old) (I.seen inlet.new) read) }
    ensures memory { IfSome result (λ read. IsErrOf read WireFault.Memory
        → ReasonForStart (MapAsks state_layout) (I.seen inlet.old)) }
    ensures left { IsNone result → I.seen inlet.new ≡ I.seen inlet.old }
{
    let hand = inlet.at_hand();
    let (state, rest) = state_in_order(hand)?;
    let len = hand.len() - rest.len();
    match claim_of_state(alloc, &state) {
        Ok(claim) => if inlet.pass(len) {
            Some(Ok(claim))
        } else {
            None
        },
        Err(WireFault::Memory) => Some(Err(WireFault::Memory)),
        Err(_) => None,
    }
}

/// Reads a header that is at hand as a whole, with all its keys in alphabetical order. Any other
/// header, and one that is refused, is left unread.
pub(crate) fn read_header_in_order<I: Inlet>(inlet: &mut I) -> Option<Header>
    ensures read { IfSome result (λ header.
        ReadsAs wire_cause same header_at (I.seen inlet.old) (I.seen inlet.new) (Ok header)) }
    ensures within { IfSome result (λ header. (header.nodes ≤ max_nodes)
        × (header.user_len ≤ max_user_state_len)) }
    ensures left { IsNone result → I.seen inlet.new ≡ I.seen inlet.old }
{
    let hand = inlet.at_hand();
    let (header, rest) = header_in_order(hand)?;
    let len = hand.len() - rest.len();
    let Ok(header) = header_of(&header) else {
        return None;
    };
    if inlet.pass(len) { Some(header) } else { None }
}
