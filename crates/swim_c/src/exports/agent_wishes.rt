//! What a program wishes of an agent.

ghost use Rattle.std.specs.Prelude.{◌≡◌, ◌≤◌, length};
ghost use Rattle.std.specs.List.{All};
ghost use Rattle.swim_wire.specs.Limits.{max_user_state_len};
ghost use Rattle.swim_c.specs.AgentOuts.{IsPlace};
ghost use Rattle.swim_c.specs.Agents.{OnAgent, Said, Told, ToldIf};
ghost use Rattle.swim_c.specs.Statuses as statuses;

use crate::agent::fault::step_status;
use crate::agent::handle::AgentHandle;
use crate::agent::held::HeldAgent;
use crate::agent::place::{Place, are_sound, socket_addrs};
use crate::status::{BAD_ADDRESS, DONE, MEMORY, META_TOO_LONG, NO_NODE, USER_TOO_LONG};
use memberlist_member::Input;
use std::alloc::Global;

/// The most bytes of metadata.
const MAX_META: usize = 512;

/// The most bytes of the program's own state.
const MAX_STATE: usize = 20_971_520;

/// Wishes that the agent joins by the members at these places, and dials them again while it is
/// alone.
///
/// # Statuses
///
/// - 64 if the handle has no agent.
/// - 10 if out of memory: it is then heeded in part, as if the rest had been lost.
/// - 13 if an address does not have 4 or 16 bytes. Then nothing has changed.
#[unsafe(no_mangle)]
pub extern "C" fn swimtab_raw_agent_join(
    alloc: Global,
    agent: &mut AgentHandle,
    now: u64,
    places: &[Place],
) -> u32
    ensures { OnAgent agent.old.agent agent.new.agent (result ≡ statuses.no_node)
        (ToldIf (All IsPlace places.now) statuses.bad_address result) }
{
    let Some(mut held) = agent.take(alloc) else {
        return NO_NODE;
    };
    let status = if are_sound(places) {
        join(alloc, &mut held, now, places)
    } else {
        BAD_ADDRESS
    };
    agent.put(held);
    status
}

/// Tells the agent to join by the members at these places. Returns a status.
fn join(alloc: Global, held: &mut HeldAgent, now: u64, places: &[Place]) -> u32
    ensures { Told result held.old held.new }
{
    match socket_addrs(alloc, places) {
        Ok(seeds) => held.tell(now, Input::Join { seeds: &seeds }),
        Err(_) => MEMORY,
    }
}

/// Wishes that the agent leaves the cluster.
///
/// # Statuses
///
/// - 64 if the handle has no agent.
/// - 10 if out of memory: it is then heeded in part, as if the rest had been lost.
#[unsafe(no_mangle)]
pub extern "C" fn swimtab_raw_agent_leave(alloc: Global, agent: &mut AgentHandle, now: u64) -> u32
    ensures { OnAgent agent.old.agent agent.new.agent (result ≡ statuses.no_node) (Told result) }
{
    let Some(mut held) = agent.take(alloc) else {
        return NO_NODE;
    };
    let status = held.tell(now, Input::Leave);
    agent.put(held);
    status
}

/// Gives the member this metadata, which it tells at its next incarnation.
///
/// # Statuses
///
/// - 64 if the handle has no agent.
/// - 10 if out of memory: it is then heeded in part, as if the rest had been lost.
/// - 14 if there are more than 512 bytes. Then nothing has changed.
#[unsafe(no_mangle)]
pub extern "C" fn swimtab_raw_agent_update(
    alloc: Global,
    agent: &mut AgentHandle,
    now: u64,
    meta: &[u8],
) -> u32
    ensures { OnAgent agent.old.agent agent.new.agent (result ≡ statuses.no_node)
        (ToldIf (length meta.now ≤ 512) statuses.meta_too_long result) }
{
    let Some(mut held) = agent.take(alloc) else {
        return NO_NODE;
    };
    let status = if MAX_META < meta.len() {
        META_TOO_LONG
    } else {
        held.tell(now, Input::Update { meta })
    };
    agent.put(held);
    status
}

/// Tells this message of the program to all members.
///
/// # Statuses
///
/// - 64 if the handle has no agent.
/// - 10 if out of memory: it is then heeded in part, as if the rest had been lost.
/// - 6 if it fits no datagram. Then nothing is told.
#[unsafe(no_mangle)]
pub extern "C" fn swimtab_raw_agent_say(
    alloc: Global,
    agent: &mut AgentHandle,
    now: u64,
    bytes: &[u8],
) -> u32
    ensures { OnAgent agent.old.agent agent.new.agent (result ≡ statuses.no_node) (Said result) }
{
    let Some(mut held) = agent.take(alloc) else {
        return NO_NODE;
    };
    let status = match held.step(now, Input::Say { bytes }) {
        Ok(()) => DONE,
        Err(fault) => step_status(fault),
    };
    agent.put(held);
    status
}

/// Sends this state of the program along with tables from now on.
///
/// # Statuses
///
/// - 64 if the handle has no agent.
/// - 10 if out of memory: it is then heeded in part, as if the rest had been lost.
/// - 21 if there are more than 20,971,520 bytes. Then nothing has changed.
#[unsafe(no_mangle)]
pub extern "C" fn swimtab_raw_agent_state(
    alloc: Global,
    agent: &mut AgentHandle,
    now: u64,
    bytes: &[u8],
) -> u32
    ensures { OnAgent agent.old.agent agent.new.agent (result ≡ statuses.no_node)
        (ToldIf (length bytes.now ≤ max_user_state_len) statuses.user_too_long result) }
{
    let Some(mut held) = agent.take(alloc) else {
        return NO_NODE;
    };
    let status = if MAX_STATE < bytes.len() {
        USER_TOO_LONG
    } else {
        held.tell(now, Input::State { bytes })
    };
    agent.put(held);
    status
}
