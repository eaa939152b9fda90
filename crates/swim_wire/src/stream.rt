//! The parts of a push/pull stream: its header, its state records and its user state.

ghost use Rattle.std.specs.Prelude.{◌≤◌, if◌then◌else◌, ◌==◌, IfOk, IfErr, IsErrOf};
ghost use Rattle.swim_claim.specs.declared.claim.Claim.{Claim};
ghost use Rattle.swim_pack.specs.Ends.{ConsumesText, NoTextAtFront};
ghost use Rattle.swim_pack.specs.Composing.{ReadsAs, UnlessFailed, same, refuses};
ghost use Rattle.swim_wire.specs.declared.stream.Header.{Header};
ghost use Rattle.swim_wire.specs.Asking.{MapAsks};
ghost use Rattle.swim_wire.specs.Checks.{ReasonForHeader, ReasonForState, ReasonForStart};
ghost use Rattle.swim_wire.specs.Layout.{header_layout, state_layout};
ghost use Rattle.swim_wire.specs.Limits.{max_nodes, max_user_state_len};
ghost use Rattle.swim_wire.specs.Reading.{wire_cause, map_at, header_at, state_at};
ghost use Rattle.swim_wire.specs.Slots.{FitsEach, slots_of};
ghost use Rattle.swim_wire.specs.Texts.{HeaderText, StateText};

use crate::WireFault;
use crate::claims::{claim_of_state, header_of};
use crate::in_order::{read_header_in_order, read_state_in_order};
use crate::layout::{HEADER, STATE};
use crate::map::{Values, read_map};
use crate::message::{PUSH_PULL_MESSAGE, PushNodeState, PushPullHeader};
use crate::packet::read_type;
use std::alloc::Global;
use swim_claim::Claim;
use swim_pack::Inlet;

/// The maximum number of state records in a stream.
pub const MAX_NODES: u64 = 131_072;

/// The maximum length of a stream's user state in bytes.
pub const MAX_USER_STATE_LEN: u64 = 20_971_520;

/// The header of a push/pull stream.
#[derive(Clone, Copy, PartialEq, Eq)]
pub struct Header {
    /// How many state records follow, at most 131,072.
    pub nodes: u32,
    /// How many bytes of user state follow them, at most 20,971,520.
    pub user_len: u32,
    /// Whether the sender joins the cluster.
    pub join: bool,
}

/// Reads the header of a push/pull stream: its type byte and its map (memberlist's `net.go`). It
/// takes no memory.
///
/// # Errors
///
/// The first of these that holds: `WrongType` if the first byte is not 6; the faults of the map, as
/// its count, its keys and values are read; for the whole, `TooManyNodes` above 131,072 and then
/// `UserTooLong` above 20,971,520 (own). The bytes left are a suffix of those before the call.
pub fn read_header<I: Inlet>(inlet: &mut I) -> Result<Header, WireFault>
    // The consumed bytes are the header.
    ensures takes { IfOk result (λ header.
        ConsumesText (I.seen inlet.old) (I.seen inlet.new) (λ b. HeaderText b header)) }
    // If refused for a reason other than a failed inlet, the bytes do not start with a header, and
    // the refusal says why.
    ensures lacks { IfErr result (λ fault. UnlessFailed (wire_cause fault)
        (NoTextAtFront (I.seen inlet.old) (λ b. (header : Header) × HeaderText b header))) }
    ensures reason { IfErr result (λ fault.
        ReasonForStart (ReasonForHeader fault) (I.seen inlet.old)) }
    ensures no_memory { ¬ IsErrOf result WireFault.Memory }
    // What was read, what is left, and that a failure of the inlet was counted.
    ensures exact { ReadsAs wire_cause same header_at (I.seen inlet.old) (I.seen inlet.new) result }
    // Also if the inlet's bytes are unknown.
    ensures within { IfOk result (λ header. (header.nodes ≤ max_nodes)
        × (header.user_len ≤ max_user_state_len)) }
{
    read_whole_header(inlet)
}

fn read_whole_header<I: Inlet>(inlet: &mut I) -> Result<Header, WireFault>
    ensures exact { ReadsAs wire_cause same header_at (I.seen inlet.old) (I.seen inlet.new) result }
    ensures no_memory { ¬ IsErrOf result WireFault.Memory }
    ensures within { IfOk result (λ header. (header.nodes ≤ max_nodes)
        × (header.user_len ≤ max_user_state_len)) }
{
    match read_header_in_order(inlet) {
        Some(header) => Ok(header),
        None => read_any_header(inlet),
    }
}

/// Reads a header, whatever the encoding of its map.
fn read_any_header<I: Inlet>(inlet: &mut I) -> Result<Header, WireFault>
    ensures exact { ReadsAs wire_cause same header_at (I.seen inlet.old) (I.seen inlet.new) result }
    ensures no_memory { ¬ IsErrOf result WireFault.Memory }
    ensures within { IfOk result (λ header. (header.nodes ≤ max_nodes)
        × (header.user_len ≤ max_user_state_len)) }
{
    let found = read_type(inlet)?;
    let values = read_header_map(inlet, found)?;
    header_of(&PushPullHeader::new(&values))
}

/// Reads the map after a type byte, which must be that of a stream.
fn read_header_map<I: Inlet>(inlet: &mut I, found: u8) -> Result<Values, WireFault>
    ensures exact { ReadsAs wire_cause slots_of
        (if found == 6 then map_at header_layout else refuses (WireFault.WrongType found))
        (I.seen inlet.old) (I.seen inlet.new) result }
    ensures no_memory { ¬ IsErrOf result WireFault.Memory }
    ensures within { IfOk result (FitsEach HEADER) }
{
    if found == PUSH_PULL_MESSAGE {
        read_map(None, inlet, &HEADER)
    } else {
        Err(WireFault::WrongType { found })
    }
}

/// Reads one state record of a push/pull stream (memberlist's `pushNodeState`): state 0 is an
/// Alive, 1 a Suspect, 2 a Confirm and 3 a Leave. For the last three only the name and the
/// incarnation are kept.
///
/// # Errors
///
/// The first of these that holds: the faults of the map, as its count, its keys and values are
/// read; for the whole, `NameEmpty`; `BadState` above 3; for state 0 `BadAddress` and then
/// `BadVersions`. `Memory` comes if an allocation failed, of at most the limit of a value, and
/// never before the length of a text or bytes is read. The bytes left are a suffix of those
/// before the call.
pub fn read_state<I: Inlet>(alloc: Global, inlet: &mut I) -> Result<Claim, WireFault>
    // The consumed bytes are the record.
    ensures takes { IfOk result (λ claim.
        ConsumesText (I.seen inlet.old) (I.seen inlet.new) (λ b. StateText b claim)) }
    // If refused for a reason other than a failed inlet or memory, the bytes do not start with a
    // record, and the refusal says why. Memory is requested only after the length of a text or
    // bytes, within its limit, was read.
    ensures lacks { IfErr result (λ fault. UnlessFailed (wire_cause fault)
        (NoTextAtFront (I.seen inlet.old) (λ b. (claim : Claim) × StateText b claim))) }
    ensures reason { IfErr result (λ fault.
        ReasonForStart (ReasonForState fault) (I.seen inlet.old)) }
    // What was read, what is left, and that a failure of the inlet was counted.
    ensures exact { ReadsAs wire_cause same state_at (I.seen inlet.old) (I.seen inlet.new) result }
{
    read_whole_state(alloc, inlet)
}

fn read_whole_state<I: Inlet>(alloc: Global, inlet: &mut I) -> Result<Claim, WireFault>
    ensures exact { ReadsAs wire_cause same state_at (I.seen inlet.old) (I.seen inlet.new) result }
    ensures memory { IsErrOf result WireFault.Memory
        → ReasonForStart (MapAsks state_layout) (I.seen inlet.old) }
{
    match read_state_in_order(alloc, inlet) {
        Some(read) => read,
        None => read_any_state(alloc, inlet),
    }
}

/// Reads a state record, whatever the encoding of its map.
fn read_any_state<I: Inlet>(alloc: Global, inlet: &mut I) -> Result<Claim, WireFault>
    ensures exact { ReadsAs wire_cause same state_at (I.seen inlet.old) (I.seen inlet.new) result }
    ensures memory { IsErrOf result WireFault.Memory
        → ReasonForStart (MapAsks state_layout) (I.seen inlet.old) }
{
    let values = read_map(Some(alloc), inlet, &STATE)?;
    claim_of_state(alloc, &PushNodeState::new(&values))
}
