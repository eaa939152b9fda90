//! The request that makes a member send its table.

ghost use Rattle.std.specs.Prelude.{◌≡◌, ◌≢◌, ◌∷◌, [], ℕ, List, IfOk};
ghost use Rattle.swimwatch.specs.Asking.{empty_offer, AsksInClear, AsksEncrypted};

use memberlist_cipher::{CipherFault, MAX_LABEL_LEN};
use memberlist_keyring::{Keyring, behind_label};
use std::alloc::{AllocError, Global};
use swim_wire::{Header, write_header};

/// A push/pull stream without members, which does not join (memberlist's net.go, `sendLocalState`),
/// after the label, if there is one. It is encrypted with the first key, if there is one. Never use
/// a nonce twice with one key.
///
/// # Errors
///
/// `TooLong` if the label has more than 255 bytes, and otherwise `Memory` if out of memory.
pub(crate) fn request(
    alloc: Global,
    keys: &Keyring,
    nonce: &[u8; 12],
    label: &[u8],
) -> Result<Vec<u8>, CipherFault>
    ensures clear { IfOk result (λ sent. keys.now ≡ [] → AsksInClear label.now sent.items) }
    ensures encrypted { IfOk result (λ sent. keys.now ≢ []
        → AsksEncrypted keys.now nonce.now label.now sent.items) }
{
    if label.len() > MAX_LABEL_LEN {
        return Err(CipherFault::TooLong);
    }
    let offer = empty_offer(alloc)?;
    match keys.encrypt_stream(alloc, nonce, label, &offer)? {
        Some(sent) => Ok(sent),
        None => Ok(behind_label(alloc, label, offer)?),
    }
}

/// The header of a stream without records, user state or the join flag.
fn empty_offer(alloc: Global) -> Result<Vec<u8>, AllocError>
    ensures offer { IfOk result (λ bytes. bytes.items ≡ empty_offer) }
    ensures bare { IfOk result (λ bytes. (more : List ℕ) → bytes.items ≢ 244 ∷ more) }
{
    let mut bytes = Vec::new(alloc);
    let header = Header {
        nodes: 0,
        user_len: 0,
        join: false,
    };
    write_header(&mut bytes, &header)?;
    Ok(bytes)
}
