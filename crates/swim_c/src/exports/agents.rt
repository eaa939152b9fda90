//! Agents: opened and closed, listed, and asked what they put out.

ghost use Rattle.std.specs.Prelude.{◌≡◌, ◌-◌, ◌^◌, length, None, MatchOption};
ghost use Rattle.swim_c.specs.Agents.{NextDone, OnAgent, OnSameAgent, Told};
ghost use Rattle.swim_c.specs.AgentOpening.{AgentOpened, config_of};
ghost use Rattle.swim_c.specs.Opening.{told};
ghost use Rattle.swim_c.specs.ViewMembers.{AfterDone, FindDone};
ghost use Rattle.swim_c.specs.Statuses as statuses;

use crate::agent::giving::give;
use crate::agent::handle::AgentHandle;
use crate::agent::keys::replace;
use crate::agent::opening::{Beginning, open};
use crate::agent::out::Out;
use crate::agent::settings::AgentSettings;
use crate::buffer::Buffer;
use crate::cluster_keys::ClusterKeys;
use crate::keyring::KeyringHandle;
use crate::opening::Parts;
use crate::status::{DONE, NO_NODE, NODE_THERE};
use crate::view::query::{after, find};
use crate::view::shown::Shown;
use std::alloc::Global;

/// Puts a whole member into a handle without one, as `swimtab_raw_open` a node. It knows nobody. Its
/// keys are copied; an empty handle has none. What is 0 in the settings is as in a local network.
///
/// # Statuses
///
/// If the status is not 0, the handle is unchanged. The keyring does not change.
///
/// - 65 if the handle has an agent.
/// - 11 or 12 for the name, else 13 for the address, else 14 for the metadata, else 15 for the
///   versions, else 51 for the label, else 75 for a multiplier, else 76 for the datagrams.
/// - 77 if all bytes of the seed are 0.
/// - 10 if out of memory.
#[unsafe(no_mangle)]
pub extern "C" fn swimtab_raw_agent_open(
    alloc: Global,
    agent: &mut AgentHandle,
    now: u64,
    name: &[u8],
    addr: &[u8],
    port: u16,
    meta: &[u8],
    vsn: &[u8],
    inc: u32,
    label: &[u8],
    keyring: &mut KeyringHandle,
    settings: &AgentSettings,
    seed: &[u8; 32],
) -> u32
    ensures opens { AgentOpened name.now (told addr.now port meta.now vsn.now) label.now
        (config_of settings.now) seed.now agent.old.agent agent.new.agent result }
    ensures stays { keyring.new.keys ≡ keyring.old.keys }
{
    if let Some(held) = agent.take(alloc) {
        agent.put(held);
        return NODE_THERE;
    }
    let own = Parts {
        name,
        addr,
        port,
        meta,
        vsn,
    };
    let beginning = Beginning {
        inc,
        settings: *settings,
        seed: *seed,
        now,
    };
    let keys = keyring.take(alloc);
    let made = match &keys {
        Some(keys) => open(alloc, own, label, keys, &beginning),
        None => open(alloc, own, label, &ClusterKeys::none(alloc), &beginning),
    };
    if let Some(keys) = keys {
        keyring.put(keys);
    }
    match made {
        Ok(made) => {
            agent.put(made);
            DONE
        }
        Err(fault) => fault.number(),
    }
}

/// Frees the agent of a handle, which is then empty.
///
/// # Statuses
///
/// 64 if the handle has no agent.
#[unsafe(no_mangle)]
pub extern "C" fn swimtab_raw_agent_close(alloc: Global, agent: &mut AgentHandle) -> u32
    ensures none { agent.new.agent ≡ None }
    ensures status { MatchOption agent.old.agent (result ≡ statuses.no_node) (λ _. result ≡ 0) }
{
    match agent.take(alloc) {
        Some(_) => DONE,
        None => NO_NODE,
    }
}

/// Gives the agent copies of these keys in place of its own.
///
/// # Statuses
///
/// If the status is not 0, its keys are unchanged.
///
/// - 64 if the handle has no agent.
/// - 10 if out of memory.
#[unsafe(no_mangle)]
pub extern "C" fn swimtab_raw_agent_keys(
    alloc: Global,
    agent: &mut AgentHandle,
    keyring: &mut KeyringHandle,
) -> u32
    ensures told { OnAgent agent.old.agent agent.new.agent (result ≡ statuses.no_node) (Told result) }
    ensures stays { keyring.new.keys ≡ keyring.old.keys }
{
    let Some(mut held) = agent.take(alloc) else {
        return NO_NODE;
    };
    let status = match keyring.take(alloc) {
        Some(keys) => {
            let status = replace(alloc, &mut held, &keys);
            keyring.put(keys);
            status
        }
        None => replace(alloc, &mut held, &ClusterKeys::none(alloc)),
    };
    agent.put(held);
    status
}

/// Gives the first of what the agent put out and did not give yet: what it is, and in the buffer its
/// bytes. Frees what the buffer kept before.
///
/// # Statuses
///
/// If the status is not 0, `out` and the buffer are unchanged.
///
/// - 64 if the handle has no agent.
/// - 71 if all was given.
/// - 10 if out of memory. The same is then given by the next call.
#[unsafe(no_mangle)]
pub extern "C" fn swimtab_raw_agent_next(
    alloc: Global,
    agent: &mut AgentHandle,
    out: &mut Out,
    buffer: &mut Buffer,
) -> u32
    ensures { OnAgent agent.old.agent agent.new.agent
        ((result ≡ statuses.no_node) × (out.new ≡ out.old) × (buffer.new ≡ buffer.old))
        (NextDone result out.old out.new buffer.old buffer.new) }
{
    let Some(mut held) = agent.take(alloc) else {
        return NO_NODE;
    };
    let status = give(alloc, &mut held, out, buffer);
    agent.put(held);
    status
}

/// When the agent wants to be told the time next, or the greatest number if the handle has no agent.
#[unsafe(no_mangle)]
pub extern "C" fn swimtab_raw_agent_wake(alloc: Global, agent: &mut AgentHandle) -> u64
    ensures same { agent.new.agent ≡ agent.old.agent }
    ensures none { agent.old.agent ≡ None → result ≡ 2 ^ 64 - 1 }
{
    match agent.take(alloc) {
        Some(held) => {
            let wake = held.member.wake();
            agent.put(held);
            wake
        }
        None => u64::MAX,
    }
}

/// How many members the agent shows, itself included, or 0 if the handle has no agent.
#[unsafe(no_mangle)]
pub extern "C" fn swimtab_raw_agent_count(alloc: Global, agent: &mut AgentHandle) -> usize
    ensures { OnSameAgent agent.old.agent agent.new.agent (result ≡ 0)
        (λ held. result ≡ length held.member.view.entries) }
{
    match agent.take(alloc) {
        Some(held) => {
            let count = held.member.view().len();
            agent.put(held);
            count
        }
        None => 0,
    }
}

/// Copies what the agent shows of the member of this name, as `swimtab_raw_view_find` does.
///
/// # Statuses
///
/// Those of `swimtab_raw_view_find`; 64 if the handle has no agent.
#[unsafe(no_mangle)]
pub extern "C" fn swimtab_raw_agent_find(
    alloc: Global,
    agent: &mut AgentHandle,
    name: &[u8],
    member: &mut Shown,
) -> u32
    ensures { OnSameAgent agent.old.agent agent.new.agent
        ((result ≡ statuses.no_node) × (member.new ≡ member.old))
        (λ held. FindDone held.member.view name.now result member.old member.new) }
{
    let Some(held) = agent.take(alloc) else {
        return NO_NODE;
    };
    let status = find(alloc, held.member.view(), name, member);
    agent.put(held);
    status
}

/// Copies what the agent shows of the member of the first name above this one, as
/// `swimtab_raw_view_after` does.
///
/// # Statuses
///
/// Those of `swimtab_raw_view_after`; 64 if the handle has no agent.
#[unsafe(no_mangle)]
pub extern "C" fn swimtab_raw_agent_after(
    alloc: Global,
    agent: &mut AgentHandle,
    name: &[u8],
    member: &mut Shown,
) -> u32
    ensures { OnSameAgent agent.old.agent agent.new.agent
        ((result ≡ statuses.no_node) × (member.new ≡ member.old))
        (λ held. AfterDone held.member.view name.now result member.old member.new) }
{
    let Some(held) = agent.take(alloc) else {
        return NO_NODE;
    };
    let status = after(alloc, held.member.view(), name, member);
    agent.put(held);
    status
}
