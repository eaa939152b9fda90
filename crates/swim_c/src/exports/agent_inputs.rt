//! What an agent is told: the datagrams and streams that came, and the time.

ghost use Rattle.std.specs.Prelude.{◌≡◌};
ghost use Rattle.swim_c.specs.AgentOuts.{IsPlace};
ghost use Rattle.swim_c.specs.Agents.{AcceptDone, OnAgent, Told, ToldIf};
ghost use Rattle.swim_c.specs.Statuses as statuses;

use crate::agent::handle::AgentHandle;
use crate::agent::place::Place;
use crate::status::{BAD_ADDRESS, NO_NODE};
use memberlist_member::Input;
use std::alloc::Global;

/// Tells the agent that this datagram came from there.
///
/// # Statuses
///
/// - 64 if the handle has no agent.
/// - 10 if out of memory: it is then heeded in part, as if the rest had been lost.
/// - 13 if the address does not have 4 or 16 bytes. Then nothing has changed.
#[unsafe(no_mangle)]
pub extern "C" fn swimtab_raw_agent_packet(
    alloc: Global,
    agent: &mut AgentHandle,
    now: u64,
    from: &Place,
    bytes: &[u8],
) -> u32
    ensures { OnAgent agent.old.agent agent.new.agent (result ≡ statuses.no_node)
        (ToldIf (IsPlace from.now) statuses.bad_address result) }
{
    let Some(mut held) = agent.take(alloc) else {
        return NO_NODE;
    };
    let status = match from.socket_addr() {
        Some(from) => held.tell(now, Input::Datagram { from, bytes }),
        None => BAD_ADDRESS,
    };
    agent.put(held);
    status
}

/// Tells the agent that another member opened a stream, and gives the stream's number.
///
/// # Statuses
///
/// - 64 if the handle has no agent.
/// - 10 if out of memory: it is then heeded in part, as if the rest had been lost.
/// - 3 if 2^62 streams were accepted.
///
/// If the status is not 0, `stream` is unchanged.
#[unsafe(no_mangle)]
pub extern "C" fn swimtab_raw_agent_accepted(
    alloc: Global,
    agent: &mut AgentHandle,
    now: u64,
    stream: &mut u64,
) -> u32
    ensures { OnAgent agent.old.agent agent.new.agent
        ((result ≡ statuses.no_node) × (stream.new ≡ stream.old))
        (AcceptDone result stream.old stream.new) }
{
    let Some(mut held) = agent.take(alloc) else {
        return NO_NODE;
    };
    let status = held.accept(now, stream);
    agent.put(held);
    status
}

/// Tells the agent that a stream that it dialled is open now.
///
/// # Statuses
///
/// - 64 if the handle has no agent.
/// - 10 if out of memory: it is then heeded in part, as if the rest had been lost.
#[unsafe(no_mangle)]
pub extern "C" fn swimtab_raw_agent_connected(
    alloc: Global,
    agent: &mut AgentHandle,
    now: u64,
    stream: u64,
) -> u32
    ensures { OnAgent agent.old.agent agent.new.agent (result ≡ statuses.no_node) (Told result) }
{
    let Some(mut held) = agent.take(alloc) else {
        return NO_NODE;
    };
    let status = held.tell(now, Input::Connected { conn: stream });
    agent.put(held);
    status
}

/// Tells the agent that these bytes came over the stream.
///
/// # Statuses
///
/// - 64 if the handle has no agent.
/// - 10 if out of memory: it is then heeded in part, as if the rest had been lost.
#[unsafe(no_mangle)]
pub extern "C" fn swimtab_raw_agent_received(
    alloc: Global,
    agent: &mut AgentHandle,
    now: u64,
    stream: u64,
    bytes: &[u8],
) -> u32
    ensures { OnAgent agent.old.agent agent.new.agent (result ≡ statuses.no_node) (Told result) }
{
    let Some(mut held) = agent.take(alloc) else {
        return NO_NODE;
    };
    let status = held.tell(
        now,
        Input::Received {
            conn: stream,
            bytes,
        },
    );
    agent.put(held);
    status
}

/// Tells the agent that the other side closed the stream, or that it could not be opened.
///
/// # Statuses
///
/// - 64 if the handle has no agent.
/// - 10 if out of memory: it is then heeded in part, as if the rest had been lost.
#[unsafe(no_mangle)]
pub extern "C" fn swimtab_raw_agent_closed(
    alloc: Global,
    agent: &mut AgentHandle,
    now: u64,
    stream: u64,
) -> u32
    ensures { OnAgent agent.old.agent agent.new.agent (result ≡ statuses.no_node) (Told result) }
{
    let Some(mut held) = agent.take(alloc) else {
        return NO_NODE;
    };
    let status = held.tell(now, Input::Closed { conn: stream });
    agent.put(held);
    status
}

/// Tells the agent the time.
///
/// # Statuses
///
/// - 64 if the handle has no agent.
/// - 10 if out of memory: it is then heeded in part, as if the rest had been lost.
#[unsafe(no_mangle)]
pub extern "C" fn swimtab_raw_agent_tick(alloc: Global, agent: &mut AgentHandle, now: u64) -> u32
    ensures { OnAgent agent.old.agent agent.new.agent (result ≡ statuses.no_node) (Told result) }
{
    let Some(mut held) = agent.take(alloc) else {
        return NO_NODE;
    };
    let status = held.tell(now, Input::Tick);
    agent.put(held);
    status
}
