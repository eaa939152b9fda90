//! When each address of a name was last heard.

use crate::text::endpoint::endpoint;
use std::alloc::{AllocError, Global};
use std::collections::BTreeMap;
use std::net::SocketAddr;
use swim_claim::Claim;

/// The most names and addresses that are noted (own).
const MAX_PLACES: usize = 65_536;

/// The addresses that Alives gave for each name, and when each was last heard.
#[derive(Drop)]
pub(crate) struct Places {
    alloc: Global,
    /// Whether anything is noted.
    is_asked: bool,
    heard: BTreeMap<(Vec<u8>, SocketAddr), u64>,
}

impl Places {
    /// Notes addresses if they are shown.
    pub(crate) fn new(alloc: Global, is_asked: bool) -> Places {
        Places {
            alloc,
            is_asked,
            heard: BTreeMap::new(alloc),
        }
    }

    /// Notes the address of an Alive.
    pub(crate) fn note(&mut self, claim: &Claim, time: u64) -> Result<(), AllocError> {
        if !self.is_asked {
            return Ok(());
        }
        let Claim::Alive { name, details, .. } = claim else {
            return Ok(());
        };
        let Some(end) = endpoint(details.addr(), details.port()) else {
            return Ok(());
        };
        let key = (name.bytes().to_vec(self.alloc)?, end);
        if let Some(last) = self.heard.get_mut(&key) {
            *last = time.max(*last);
            return Ok(());
        }
        if self.heard.len() < MAX_PLACES {
            self.heard.insert(key, time)?;
        }
        Ok(())
    }

    /// When this address of the name was last heard, in microseconds since the start of 1970.
    pub(crate) fn last(&self, name: &[u8], end: SocketAddr) -> Result<Option<u64>, AllocError> {
        let key = (name.to_vec(self.alloc)?, end);
        Ok(self.heard.get(&key).copied())
    }
}
