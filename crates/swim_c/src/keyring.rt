//! The handle by which a program in another language holds the keys of a cluster.

ghost use Rattle.std.specs.Prelude.{◌≡◌, Option, Some, None, MatchOption};
ghost use Rattle.swim_c.specs.contracts.cluster_keys.ClusterKeys.{the_row};
ghost use Rattle.swim_c.specs.Keyring.{keyring_owns, keyring_coded};

use crate::cluster_keys::ClusterKeys;
use std::alloc::Global;
use std::marker::Model;
use std::mem;

/// Keys, or nothing. A handle with all bytes zero is empty.
#[repr(C)]
#[derive(Drop)]
pub struct KeyringHandle {
    at: *mut u8,
    held: bool,
    pub ghost keys: { Option the_row.Denot } by { keyring_coded },
}

impl Model for KeyringHandle {
    ghost also_owns = { λ h. keyring_owns h.at h.held h.keys };
}

impl KeyringHandle {
    /// The empty handle.
    pub fn none() -> KeyringHandle
        ensures { result.keys ≡ None }
    {
        KeyringHandle {
            at: std::ptr::null_mut(),
            held: false,
        }
    }

    fn of(keys: Box<ClusterKeys>) -> KeyringHandle
        ensures { result.keys ≡ Some keys.value }
    {
        let at = Box::into_raw(keys);
        KeyringHandle {
            at: at as *mut u8,
            held: true,
        }
    }

    fn into_keys(self, alloc: Global) -> Option<Box<ClusterKeys>>
        ensures { MatchOption result (self.keys ≡ None) (λ keys. self.keys ≡ Some keys.value) }
    {
        let KeyringHandle { at, held } = self;
        if !held {
            return None;
        }
        Some(unsafe { Box::from_raw(alloc, at as *mut ClusterKeys) })
    }

    /// Takes the keys out.
    pub fn take(&mut self, alloc: Global) -> Option<Box<ClusterKeys>>
        ensures left { self.new.keys ≡ None }
        ensures taken { MatchOption result (self.old.keys ≡ None)
            (λ keys. self.old.keys ≡ Some keys.value) }
    {
        let handle = mem::replace(self, KeyringHandle::none());
        handle.into_keys(alloc)
    }

    /// Puts keys in.
    pub fn put(&mut self, keys: Box<ClusterKeys>)
        requires { self.old.keys ≡ None }
        ensures { self.new.keys ≡ Some keys.value }
    {
        *self = KeyringHandle::of(keys);
    }
}

unsafe impl Send for KeyringHandle {}
