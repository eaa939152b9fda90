//! What the fields of a message say after it is checked as a whole: claims, packets of claims, and
//! the header of a stream.

ghost use Rattle.std.specs.Prelude.{◌≡◌, ◌≢◌, ◌≤◌, [], Ok, length, IfOk, IsErrOf};
ghost use Rattle.swim_claim.specs.Limits.{max_meta_len, max_name_len};
ghost use Rattle.swim_pack.specs.Composing.{same};
ghost use Rattle.swim_wire.specs.Limits.{max_nodes, max_user_state_len};
ghost use Rattle.swim_wire.specs.Message.{IsShortAlive, IsShortAccusation, IsShortState, slots_of_alive};
ghost use Rattle.swim_wire.specs.Message.{slots_of_accusation, slots_of_header, slots_of_state};
ghost use Rattle.swim_wire.specs.Reading.{AnswersUnlessMemory, with_name, with_details, alive_of, suspect_of, dead_of};
ghost use Rattle.swim_wire.specs.Reading.{header_of, state_of, told_of, record_of};

use crate::WireFault;
use crate::message::{Accusation, Alive, PushNodeState, PushPullHeader};
use crate::packet::Packet;
use crate::state_record::StateRecord;
use crate::stream::{Header, MAX_NODES, MAX_USER_STATE_LEN};
use std::alloc::{AllocError, Global};
use swim_claim::{Claim, Details, Name};

/// The packet of an alive message.
#[inline(always)]
pub(crate) fn packet_of_alive(alloc: Global, alive: &Alive) -> Result<Packet, WireFault>
    requires { IsShortAlive alive.now }
    ensures answers { AnswersUnlessMemory (alive_of (slots_of_alive alive.now)) result }
    ensures no_fault { ¬ IsErrOf result WireFault.Fault }
    ensures memory { IsErrOf result WireFault.Memory → alive.now.node.now ≢ [] }
{
    let name = name_of(alloc, alive.node)?;
    let inc = alive.incarnation;
    let details = details_of(alloc, alive.addr, alive.port, alive.meta, alive.vsn)?;
    Ok(Packet::new(Claim::Alive { name, inc, details }, Vec::new(alloc)))
}

/// The packet of a suspect message.
#[inline(always)]
pub(crate) fn packet_of_suspect(alloc: Global, suspect: &Accusation) -> Result<Packet, WireFault>
    requires { IsShortAccusation suspect.now }
    ensures answers { AnswersUnlessMemory (suspect_of (slots_of_accusation suspect.now)) result }
    ensures no_fault { ¬ IsErrOf result WireFault.Fault }
    ensures memory { IsErrOf result WireFault.Memory → suspect.now.node.now ≢ [] }
{
    let name = name_of(alloc, suspect.node)?;
    let inc = suspect.incarnation;
    let from = suspect.from.to_vec(alloc)?;
    Ok(Packet::new(Claim::Suspect { name, inc }, from))
}

/// The packet of a dead message. If the member says so itself, it has left.
#[inline(always)]
pub(crate) fn packet_of_dead(alloc: Global, dead: &Accusation) -> Result<Packet, WireFault>
    requires { IsShortAccusation dead.now }
    ensures answers { AnswersUnlessMemory (dead_of (slots_of_accusation dead.now)) result }
    ensures no_fault { ¬ IsErrOf result WireFault.Fault }
    ensures memory { IsErrOf result WireFault.Memory → dead.now.node.now ≢ [] }
{
    let name = name_of(alloc, dead.node)?;
    let inc = dead.incarnation;
    let from = dead.from.to_vec(alloc)?;
    let claim = if dead.from == dead.node {
        Claim::Leave { name, inc }
    } else {
        Claim::Confirm { name, inc }
    };
    Ok(Packet::new(claim, from))
}

/// The claim of a state record.
#[inline(always)]
pub(crate) fn claim_of_state(alloc: Global, state: &PushNodeState) -> Result<Claim, WireFault>
    requires { IsShortState state.now }
    ensures answers { AnswersUnlessMemory (state_of (slots_of_state state.now)) result }
    ensures memory { IsErrOf result WireFault.Memory → state.now.name.now ≢ [] }
{
    let name = name_of(alloc, state.name)?;
    let inc = state.incarnation;
    let found = state.state;
    match found {
        0 => {
            let details = details_of(alloc, state.addr, state.port, state.meta, state.vsn)?;
            Ok(Claim::Alive { name, inc, details })
        }
        1 => Ok(Claim::Suspect { name, inc }),
        2 => Ok(Claim::Confirm { name, inc }),
        3 => Ok(Claim::Leave { name, inc }),
        _ => Err(WireFault::BadState { found }),
    }
}

/// All that a state record says.
pub(crate) fn record_of_state(
    alloc: Global,
    state: &PushNodeState,
) -> Result<StateRecord, WireFault>
    requires { IsShortState state.now }
    ensures answers { AnswersUnlessMemory (record_of (slots_of_state state.now)) result }
    ensures memory { IsErrOf result WireFault.Memory → state.now.name.now ≢ [] }
{
    let claim = claim_of_state(alloc, state)?;
    let told = told_in(alloc, state)?;
    Ok(StateRecord { claim, told })
}

/// The details in a state record whose claim has none.
fn told_in(alloc: Global, state: &PushNodeState) -> Result<Option<Details>, AllocError>
    requires { IsShortState state.now }
    ensures { IfOk result (λ told. told ≡ told_of (slots_of_state state.now)) }
{
    if state.state == 0 {
        return Ok(None);
    }
    let meta = state.meta.to_vec(alloc)?;
    Ok(Details::of(state.addr, state.port, meta, state.vsn).ok())
}

/// The header of a stream.
pub(crate) fn header_of(header: &PushPullHeader) -> Result<Header, WireFault>
    ensures answers { result ≡ header_of (slots_of_header header.now) }
    ensures within { IfOk result (λ header. (header.nodes ≤ max_nodes)
        × (header.user_len ≤ max_user_state_len)) }
{
    if header.nodes > MAX_NODES {
        return Err(WireFault::TooManyNodes);
    }
    if header.user_state_len > MAX_USER_STATE_LEN {
        return Err(WireFault::UserTooLong);
    }
    Ok(Header {
        nodes: header.nodes as u32,
        user_len: header.user_state_len as u32,
        join: header.join,
    })
}

/// The name of a member.
#[inline(always)]
fn name_of(alloc: Global, bytes: &[u8]) -> Result<Name, WireFault>
    requires { length bytes.now ≤ max_name_len }
    ensures answers { AnswersUnlessMemory (with_name bytes.now (Ok bytes.now)) result }
    ensures memory { IsErrOf result WireFault.Memory → bytes.now ≢ [] }
{
    if bytes.is_empty() {
        return Err(WireFault::NameEmpty);
    }
    let named = Name::copied(alloc, bytes)?;
    Ok(named?)
}

/// The details that an Alive gives.
#[inline(always)]
fn details_of(
    alloc: Global,
    addr: &[u8],
    port: u16,
    meta: &[u8],
    vsn: &[u8],
) -> Result<Details, WireFault>
    requires { length meta.now ≤ max_meta_len }
    ensures { AnswersUnlessMemory (with_details
        (record { addr = addr.now; port = port; meta = meta.now; vsn = vsn.now }) same) result }
{
    let meta = meta.to_vec(alloc)?;
    Ok(Details::of(addr, port, meta, vsn)?)
}
