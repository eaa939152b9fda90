//! A cluster's keys.

ghost use Rattle.std.specs.Prelude.{◌≡◌, ◌≢◌, ◌∷◌, ◌++◌, ℕ, List, [], MatchBool, IfOk, IfErr, IsErrOf, OnOk, OnErr};
ghost use Rattle.memberlist_cipher.specs.declared.fault.CipherFault.TheVariants.{Memory as CipherMemory};
ghost use Rattle.memberlist_cipher.specs.Encryption.{IsKey};
ghost use Rattle.memberlist_cipher.specs.Refusal.{KeyCause, PacketCause, StreamCause};
ghost use Rattle.memberlist_keyring.specs.Cutting.{IsRefused, AsksMemory};
ghost use Rattle.memberlist_keyring.specs.KeyFile.{IsKeyFile, KeyFileCause};
ghost use Rattle.memberlist_keyring.specs.Opening.{Opens, OpensStream, OpensFirst, OpensStreamFirst};

use crate::KeyFileFault;
use crate::key_file::keys_of;
use crate::label::cut_label;
use crate::trial::{OfPacket, OfStream, try_keys};
use memberlist_cipher::{CipherFault, Key};
use std::alloc::Global;
use std::marker::Model;

/// A cluster's keys, in the order in which they are tried; the first encrypts. Contracts see it as
/// the list of the keys' bytes.
#[derive(Drop)]
pub struct Keyring {
    pub(crate) keys: Vec<Key>,
}

impl Model for Keyring {
    ghost Value = { List (List ℕ) };

    ghost view = { λ keyring. keyring.keys.items };
}

impl Keyring {
    /// No keys.
    pub fn new(alloc: Global) -> Keyring
        ensures { result ≡ [] }
    {
        Keyring {
            keys: Vec::new(alloc),
        }
    }

    /// Whether there is no key.
    pub fn is_empty(&self) -> bool
        ensures { MatchBool result (self.now ≡ []) (self.now ≢ []) }
    {
        self.keys.is_empty()
    }

    /// Adds a key of 16, 24 or 32 bytes, after those that are there.
    ///
    /// # Errors
    ///
    /// `BadKey` if there are more or fewer bytes; otherwise `Memory` if out of memory. The keyring is
    /// then unchanged.
    ///
    /// Source: memberlist's keyring.go.
    pub fn add(&mut self, alloc: Global, key: &[u8]) -> Result<(), CipherFault>
        ensures adds { OnOk result (self.new ≡ self.old ++ key.now ∷ []) }
        ensures good { OnOk result (IsKey key.now) }
        ensures stays { OnErr result (self.new ≡ self.old) }
        ensures refuses { IfErr result (λ fault. KeyCause fault key.now) }
    {
        let key = Key::new(alloc, key)?;
        self.keys.push(key)?;
        Ok(())
    }

    /// Adds the keys of a key file, after those that are there.
    ///
    /// A file whose first byte after spaces, tabs, line feeds and carriage returns is `[` is a
    /// JSON list of texts, each the base64 of a key of 16, 24 or 32 bytes. Any other file consists
    /// of lines: an empty line has no key, any other line is the base64 of a key, with nothing
    /// around it except one carriage return at its end.
    ///
    /// # Errors
    ///
    /// `Line` with the first line that is not a key. `NotList` if what starts like a list is not a
    /// JSON list. For the first item of a list that is not a key, `Item` if it is a text, and
    /// otherwise `NotList`. `Memory` if out of memory; for lines only after valid ones, at a line
    /// with as many characters as a key. The keyring is then unchanged.
    ///
    /// Source: what `consul keygen` and `serf keygen` print, and serf's keyring files; what may
    /// surround a key is this project's rule.
    pub fn add_file(&mut self, alloc: Global, text: &[u8]) -> Result<(), KeyFileFault>
        ensures adds { OnOk result ((keys : List (List ℕ)) × IsKeyFile text.now keys
            × (self.new ≡ self.old ++ keys)) }
        ensures stays { OnErr result (self.new ≡ self.old) }
        ensures refuses { IfErr result (λ fault. fault ≢ KeyFileFault.Memory
            → (keys : List (List ℕ)) → ¬ IsKeyFile text.now keys) }
        ensures reason { IfErr result (λ fault. KeyFileCause fault text.now) }
    {
        let mut keys = keys_of(alloc, text)?;
        self.keys.append(&mut keys)?;
        Ok(())
    }

    /// The message of a packet that was encrypted under one of the keys; they are tried in order.
    ///
    /// A label may precede the encrypted bytes: 244, its length of at least 1, and that many bytes.
    /// It is authenticated with them. If it is empty or incomplete, no key decrypts the packet.
    ///
    /// # Errors
    ///
    /// `WrongTag` if there is no key; `Memory` if out of memory, which is requested only if the bytes
    /// after the label have all their parts; otherwise what [`memberlist_cipher::decrypt`] returns
    /// for the last key.
    ///
    /// Source: memberlist's net.go, label.go and security.go; which fault is returned is this
    /// project's rule.
    pub fn open(&self, alloc: Global, bytes: &[u8]) -> Result<Vec<u8>, CipherFault>
        ensures opens { IfOk result (λ message. Opens self.now bytes.now message.items) }
        ensures first { IfOk result (λ message. OpensFirst self.now bytes.now message.items) }
        ensures lacks { IfErr result (λ fault. fault ≢ CipherMemory
            → (message : List ℕ) → ¬ Opens self.now bytes.now message) }
        ensures reason { IfErr result (λ fault. fault ≢ CipherMemory
            → IsRefused PacketCause self.now bytes.now fault) }
        ensures memory { IsErrOf result CipherMemory
            → AsksMemory PacketCause self.now bytes.now }
    {
        let (label, rest) = cut_label(bytes);
        try_keys::<OfPacket>(alloc, &self.keys, label, rest)
    }

    /// The message of a stream that was encrypted under one of the keys; they are tried in order.
    /// A label may precede it, as in a packet.
    ///
    /// # Errors
    ///
    /// `WrongTag` if there is no key; `Memory` if out of memory, which is requested only if the bytes
    /// after the label have all their parts; otherwise what [`memberlist_cipher::decrypt_stream`]
    /// returns for the last key.
    ///
    /// Source: memberlist's net.go, label.go and security.go; which fault is returned is this
    /// project's rule.
    pub fn open_stream(&self, alloc: Global, bytes: &[u8]) -> Result<Vec<u8>, CipherFault>
        ensures opens { IfOk result (λ message. OpensStream self.now bytes.now message.items) }
        ensures first { IfOk result (λ message. OpensStreamFirst self.now bytes.now message.items) }
        ensures lacks { IfErr result (λ fault. fault ≢ CipherMemory
            → (message : List ℕ) → ¬ OpensStream self.now bytes.now message) }
        ensures reason { IfErr result (λ fault. fault ≢ CipherMemory
            → IsRefused StreamCause self.now bytes.now fault) }
        ensures memory { IsErrOf result CipherMemory
            → AsksMemory StreamCause self.now bytes.now }
    {
        let (label, rest) = cut_label(bytes);
        try_keys::<OfStream>(alloc, &self.keys, label, rest)
    }
}
