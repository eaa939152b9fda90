//! The keys of a keyring: added, listed, chosen and removed; and what becomes of what is in the
//! clear.

ghost use Rattle.std.specs.Prelude.{◌≡◌, ◌∷◌, [], length, None, MatchOption, IfOk, IfErr, OnOk};
ghost use Rattle.memberlist_cipher.specs.Encryption.{IsKey};
ghost use Rattle.memberlist_cipher.specs.Refusal.{KeyCause};
ghost use Rattle.memberlist_transport.specs.declared.in_the_clear.InTheClear.TheVariants.{Refused};
ghost use Rattle.swim_c.specs.Keyring.{keys_of, KeyAdded, KeyGiven, KeyUsed, KeyRemoved, ClearAccepted};
ghost use Rattle.swim_c.specs.Statuses as statuses;

use crate::cluster_keys::ClusterKeys;
use crate::copy::Written;
use crate::fault::cipher_status;
use crate::keyring::KeyringHandle;
use crate::keys::{key_out, remove_key, use_key};
use crate::status::{DONE, NO_ITEM, NO_NODE};
use memberlist_cipher::CipherFault;
use std::alloc::Global;

/// Adds a key of 16, 24 or 32 bytes to a keyring, after those that are there. A handle without a
/// keyring gets one. The first key encrypts; to decrypt, all are tried in order. What is in the
/// clear is refused once there is a key, unless [`swimtab_raw_keyring_accept_clear`] accepts it.
///
/// # Statuses
///
/// If the status is not 0, the handle is unchanged.
///
/// - 50 if the key has another length.
/// - 10 if out of memory.
#[unsafe(no_mangle)]
pub extern "C" fn swimtab_raw_keyring_add(
    alloc: Global,
    keyring: &mut KeyringHandle,
    key: &[u8],
) -> u32
    ensures { KeyAdded key.now result keyring.old.keys keyring.new.keys }
{
    let Some(mut held) = keyring.take(alloc) else {
        return start_keyring(alloc, keyring, key);
    };
    let added = held.add(alloc, key);
    keyring.put(held);
    match added {
        Ok(()) => DONE,
        Err(fault) => cipher_status(fault),
    }
}

/// Puts a keyring with this key into a handle without one.
fn start_keyring(alloc: Global, keyring: &mut KeyringHandle, key: &[u8]) -> u32
    requires { keyring.old.keys ≡ None }
    ensures { KeyAdded key.now result None keyring.new.keys }
{
    match keyring_of(alloc, key) {
        Ok(made) => {
            keyring.put(made);
            DONE
        }
        Err(fault) => cipher_status(fault),
    }
}

/// The keyring with only this key.
fn keyring_of(alloc: Global, key: &[u8]) -> Result<Box<ClusterKeys>, CipherFault>
    ensures keys { IfOk result (λ keys. keys.value
        ≡ record { keyring = key.now ∷ []; clear = Refused }) }
    ensures good { OnOk result (IsKey key.now) }
    ensures refuses { IfErr result (λ fault. KeyCause fault key.now) }
{
    let mut keys = ClusterKeys::none(alloc);
    keys.add(alloc, key)?;
    let made = Box::new(alloc, keys)?;
    Ok(made)
}

/// How many keys a keyring has, or 0 if the handle has no keyring.
#[unsafe(no_mangle)]
pub extern "C" fn swimtab_raw_keyring_count(alloc: Global, keyring: &mut KeyringHandle) -> usize
    ensures stays { keyring.new.keys ≡ keyring.old.keys }
    ensures count { result ≡ length (keys_of keyring.old.keys).keyring }
{
    match keyring.take(alloc) {
        Some(held) => {
            let count = held.keyring.len();
            keyring.put(held);
            count
        }
        None => 0,
    }
}

/// Writes the key at this index, from 0, to the buffer. The keyring does not change.
///
/// # Statuses
///
/// If the status is not 0, the buffer is unchanged.
///
/// - 71 if there is no such key.
/// - 66 if the buffer is too small. The length is then that of the key.
#[unsafe(no_mangle)]
pub extern "C" fn swimtab_raw_keyring_key(
    alloc: Global,
    keyring: &mut KeyringHandle,
    i: usize,
    out: &mut [u8],
) -> Written
    ensures stays { keyring.new.keys ≡ keyring.old.keys }
    ensures gives { KeyGiven (keys_of keyring.old.keys).keyring i
        out.old out.new result.status result.len }
{
    let Some(held) = keyring.take(alloc) else {
        return Written::refused(NO_ITEM);
    };
    let written = key_out(&held, i, out);
    keyring.put(held);
    written
}

/// From now on the key at this index, from 0, encrypts: it and the first one change places
/// (memberlist's `UseKey`, keyring.go).
///
/// # Statuses
///
/// 71 if there is no such key. The keyring is then unchanged.
#[unsafe(no_mangle)]
pub extern "C" fn swimtab_raw_keyring_use(
    alloc: Global,
    keyring: &mut KeyringHandle,
    i: usize,
) -> u32
    ensures { KeyUsed i result keyring.old.keys keyring.new.keys }
{
    let Some(mut held) = keyring.take(alloc) else {
        return NO_ITEM;
    };
    let status = use_key(&mut held, i);
    keyring.put(held);
    status
}

/// Removes the key at this index, from 0, and overwrites it; the later ones move up (memberlist's
/// `RemoveKey`, keyring.go).
///
/// # Statuses
///
/// If the status is not 0, the keyring is unchanged.
///
/// - 71 if there is no such key.
/// - 72 if it is the first one, which encrypts.
#[unsafe(no_mangle)]
pub extern "C" fn swimtab_raw_keyring_remove(
    alloc: Global,
    keyring: &mut KeyringHandle,
    i: usize,
) -> u32
    ensures { KeyRemoved i result keyring.old.keys keyring.new.keys }
{
    let Some(mut held) = keyring.take(alloc) else {
        return NO_ITEM;
    };
    let status = remove_key(&mut held, i);
    keyring.put(held);
    status
}

/// From now on, packets and streams in the clear are unwrapped too, in a cluster that begins or ends
/// to encrypt. Without this call a keyring refuses them, as memberlist does by default
/// (`GossipVerifyIncoming` in its config.go). Freeing the keyring ends it.
///
/// # Statuses
///
/// 64 if the handle has no keyring.
#[unsafe(no_mangle)]
pub extern "C" fn swimtab_raw_keyring_accept_clear(
    alloc: Global,
    keyring: &mut KeyringHandle,
) -> u32
    ensures { ClearAccepted result keyring.old.keys keyring.new.keys }
{
    let Some(mut held) = keyring.take(alloc) else {
        return NO_NODE;
    };
    held.accept_clear();
    keyring.put(held);
    DONE
}

/// Overwrites the keys of a keyring and frees it. The handle is then empty.
///
/// # Statuses
///
/// 64 if the handle has no keyring.
#[unsafe(no_mangle)]
pub extern "C" fn swimtab_raw_keyring_close(alloc: Global, keyring: &mut KeyringHandle) -> u32
    ensures none { keyring.new.keys ≡ None }
    ensures status { MatchOption keyring.old.keys (result ≡ statuses.no_node) (λ _. result ≡ 0) }
{
    match keyring.take(alloc) {
        Some(_) => DONE,
        None => NO_NODE,
    }
}
