//! The keys of a keyring, by index.

ghost use Rattle.std.specs.List.{remove, swap};
ghost use Rattle.std.specs.Prelude.{◌≡◌, ◌<◌, ◌≤◌, ◌⊎◌, length};
ghost use Rattle.swim_c.specs.Keyring.{KeyGiven};
ghost use Rattle.swim_c.specs.Statuses as statuses;

use crate::cluster_keys::ClusterKeys;
use crate::copy::{Written, copy_out};
use crate::status::{DONE, KEY_IN_USE, NO_ITEM};

/// Writes the key at this index to the buffer.
pub fn key_out(keys: &ClusterKeys, i: usize, out: &mut [u8]) -> Written
    ensures { KeyGiven keys.now.keyring i out.old out.new result.status result.len }
{
    match keys.keyring.get(i) {
        Some(key) => copy_out(key, out),
        None => Written::refused(NO_ITEM),
    }
}

/// The key at this index and the first one change places. Returns a status.
pub fn use_key(keys: &mut ClusterKeys, i: usize) -> u32
    ensures clear { keys.new.clear ≡ keys.old.clear }
    ensures uses { ((result ≡ 0) × (i < length keys.old.keyring)
        × (keys.new.keyring ≡ swap keys.old.keyring 0 i))
        ⊎ ((result ≡ statuses.no_item) × (length keys.old.keyring ≤ i)
        × (keys.new.keyring ≡ keys.old.keyring)) }
{
    if keys.keyring.use_key(i) {
        DONE
    } else {
        NO_ITEM
    }
}

/// Removes the key at this index, but not the first one. Returns a status.
pub fn remove_key(keys: &mut ClusterKeys, i: usize) -> u32
    ensures clear { keys.new.clear ≡ keys.old.clear }
    ensures removes { ((result ≡ 0) × (0 < i) × (i < length keys.old.keyring)
        × (keys.new.keyring ≡ remove keys.old.keyring i))
        ⊎ ((result ≡ statuses.no_item) × (length keys.old.keyring ≤ i)
        × (keys.new.keyring ≡ keys.old.keyring))
        ⊎ ((result ≡ statuses.key_in_use) × (i ≡ 0) × (0 < length keys.old.keyring)
        × (keys.new.keyring ≡ keys.old.keyring)) }
{
    if keys.keyring.remove(i) {
        return DONE;
    }
    if i == 0 && !keys.keyring.is_empty() {
        KEY_IN_USE
    } else {
        NO_ITEM
    }
}
