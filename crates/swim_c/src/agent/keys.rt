//! The keys of an agent.

ghost use Rattle.std.specs.Prelude.{◌≡◌, ◌<◌, ◌+◌, IfOk, OnOk, length, take};
ghost use Rattle.swim_c.specs.Agents.{Told};

use crate::agent::held::HeldAgent;
use crate::cluster_keys::ClusterKeys;
use crate::status::{DONE, MEMORY};
use memberlist_keyring::Keyring;
use std::alloc::{AllocError, Global};

/// A copy of these keys.
pub fn copied(alloc: Global, keys: &Keyring) -> Result<Keyring, AllocError>
    ensures { IfOk result (λ made. made ≡ keys.now) }
{
    let mut made = Keyring::new(alloc);
    for i in 0..keys.len() {
        add_copy(alloc, &mut made, keys, i)?;
    }
    Ok(made)
}

/// Adds a copy of the i-th of these keys to copies of those before it.
fn add_copy(alloc: Global, made: &mut Keyring, keys: &Keyring, i: usize) -> Result<(), AllocError>
    requires { i < length keys.now }
    ensures { OnOk result (made.old ≡ take i keys.now → made.new ≡ take (i + 1) keys.now) }
{
    let Some(key) = keys.get(i) else {
        unreachable!()
    };
    match made.add(alloc, key) {
        Ok(()) => Ok(()),
        Err(_) => Err(AllocError),
    }
}

/// Gives the agent copies of these keys in place of those that it had. Returns a status.
pub fn replace(alloc: Global, held: &mut HeldAgent, keys: &ClusterKeys) -> u32
    ensures { Told result held.old held.new }
{
    let Ok(keyring) = copied(alloc, &keys.keyring) else {
        return MEMORY;
    };
    if held.settle().is_err() {
        return MEMORY;
    }
    let cover = held.member.cover_mut();
    cover.keys = keyring;
    cover.clear = keys.clear;
    DONE
}
