//! Keys tried in order.

ghost use Rattle.std.specs.Prelude.{◌≡◌, ◌≢◌, ℕ, List, IfOk, IfErr, IsErrOf};
ghost use Rattle.std.specs.List.{Contains};
ghost use Rattle.memberlist_cipher.specs.declared.fault.CipherFault.{CipherFault};
ghost use Rattle.memberlist_cipher.specs.declared.fault.CipherFault.TheVariants.{Memory};
ghost use Rattle.memberlist_cipher.specs.Encryption.{Encryption, StreamEncryption};
ghost use Rattle.memberlist_cipher.specs.Refusal.{PacketCause, StreamCause};
ghost use Rattle.memberlist_keyring.specs.Cutting.{IsFaultOfKeys};
ghost use Rattle.memberlist_keyring.specs.Opening.{IsFirst};

use memberlist_cipher::{CipherFault, Key};
use std::alloc::Global;

/// What is encrypted: packets or streams.
pub(crate) trait Encrypted {
    /// Under the key and with the label, the bytes are an encryption of the message.
    ghost encrypts: { List ℕ → List ℕ → List ℕ → List ℕ → Type 0 };

    /// Why the bytes are refused, under the key and with the label.
    ghost causes: { CipherFault → List ℕ → List ℕ → List ℕ → Type 0 };

    /// The message of the bytes after the label.
    fn decrypt(alloc: Global, key: &Key, label: &[u8], bytes: &[u8]) -> Result<Vec<u8>, CipherFault>
        ensures opens { IfOk result (λ message.
            encrypts key.now label.now bytes.now message.items) }
        ensures lacks { IfErr result (λ fault. fault ≢ Memory → (message : List ℕ)
            → ¬ encrypts key.now label.now bytes.now message) }
        ensures refuses { IfErr result (λ fault. causes fault key.now label.now bytes.now) };
}

pub(crate) struct OfPacket;

impl Encrypted for OfPacket {
    ghost encrypts = { Encryption };

    ghost causes = { PacketCause };

    fn decrypt(
        alloc: Global,
        key: &Key,
        label: &[u8],
        bytes: &[u8],
    ) -> Result<Vec<u8>, CipherFault> {
        key.decrypt(alloc, label, bytes)
    }
}

pub(crate) struct OfStream;

impl Encrypted for OfStream {
    ghost encrypts = { StreamEncryption };

    ghost causes = { StreamCause };

    fn decrypt(
        alloc: Global,
        key: &Key,
        label: &[u8],
        bytes: &[u8],
    ) -> Result<Vec<u8>, CipherFault> {
        key.decrypt_stream(alloc, label, bytes)
    }
}

/// The message of what is encrypted under one of the keys, the first that decrypts it.
pub(crate) fn try_keys<E: Encrypted>(
    alloc: Global,
    keys: &[Key],
    label: &[u8],
    rest: &[u8],
) -> Result<Vec<u8>, CipherFault>
    ensures opens { IfOk result (λ message.
        IsFirst (λ key m. E.encrypts key label.now rest.now m) keys.now message.items) }
    ensures lacks { IfErr result (λ fault. fault ≢ Memory → (key : List ℕ) → Contains keys.now key
        → (message : List ℕ) → ¬ E.encrypts key label.now rest.now message) }
    ensures reason { IfErr result (λ fault. fault ≢ Memory
        → IsFaultOfKeys (λ f key. E.causes f key label.now rest.now) keys.now fault) }
    ensures memory { IsErrOf result Memory → (key : List ℕ) × Contains keys.now key
        × E.causes Memory key label.now rest.now }
{
    let mut last = CipherFault::WrongTag;
    for key in keys {
        match E::decrypt(alloc, key, label, rest) {
            Ok(message) => return Ok(message),
            Err(fault) => match fault {
                CipherFault::Memory => return Err(fault),
                _ => last = fault,
            },
        }
    }
    Err(last)
}
