//! The keys of a cluster, and what becomes of what is in the clear.

ghost use Rattle.std.specs.Prelude.{◌≡◌, ◌∷◌, ◌++◌, [], IfErr, OnOk, OnErr};
ghost use Rattle.memberlist_cipher.specs.Encryption.{IsKey};
ghost use Rattle.memberlist_cipher.specs.Refusal.{KeyCause};
ghost use Rattle.memberlist_transport.specs.declared.in_the_clear.InTheClear.TheVariants.{Refused, Accepted};

use memberlist_cipher::CipherFault;
use memberlist_keyring::Keyring;
use memberlist_transport::InTheClear;
use std::alloc::Global;

/// The keys of a cluster, and what becomes of packets and streams in the clear if there are keys.
#[derive(Drop)]
pub struct ClusterKeys {
    pub keyring: Keyring,
    pub clear: InTheClear,
}

impl ClusterKeys {
    /// No keys. Once there are some, what is in the clear is refused.
    pub fn none(alloc: Global) -> ClusterKeys
        ensures { result ≡ record { keyring = []; clear = Refused } }
    {
        ClusterKeys {
            keyring: Keyring::new(alloc),
            clear: InTheClear::Refused,
        }
    }

    /// Adds a key of 16, 24 or 32 bytes, after those that are there.
    ///
    /// # Errors
    ///
    /// `BadKey` if it has another length; `Memory` if out of memory. The keys are then unchanged.
    pub fn add(&mut self, alloc: Global, key: &[u8]) -> Result<(), CipherFault>
        ensures adds { OnOk result
            (self.new ≡ record self.old { keyring = self.old.keyring ++ key.now ∷ [] }) }
        ensures good { OnOk result (IsKey key.now) }
        ensures stays { OnErr result (self.new ≡ self.old) }
        ensures refuses { IfErr result (λ fault. KeyCause fault key.now) }
    {
        self.keyring.add(alloc, key)
    }

    /// From now on what is in the clear is read too.
    pub fn accept_clear(&mut self)
        ensures { self.new ≡ record self.old { clear = Accepted } }
    {
        self.clear = InTheClear::Accepted;
    }
}
