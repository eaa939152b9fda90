//! Who is connected with whom.

use std::alloc::{AllocError, Global};
use std::collections::BTreeMap;

/// One end of a connection.
#[derive(Clone, Copy, Debug, PartialEq, Eq)]
pub(crate) struct End {
    pub(crate) host: u32,
    pub(crate) conn: u64,
}

/// The other end of each end of a connection.
#[derive(Drop)]
pub(crate) struct Links {
    ends: BTreeMap<(u32, u64), End>,
    count: u64,
}

impl Links {
    pub(crate) fn new(alloc: Global) -> Links {
        Links {
            ends: BTreeMap::new(alloc),
            count: 1,
        }
    }

    /// Connects this end with a new one of another member, whose number is odd.
    pub(crate) fn connect(&mut self, one: End, host: u32) -> Result<End, AllocError> {
        self.count = self.count.wrapping_add(2);
        let other = End {
            host,
            conn: self.count,
        };
        self.link(one, other)?;
        self.link(other, one)?;
        Ok(other)
    }

    fn link(&mut self, one: End, other: End) -> Result<(), AllocError> {
        match self.ends.insert((one.host, one.conn), other) {
            Ok(_) => Ok(()),
            Err(_) => Err(AllocError),
        }
    }

    /// The other end.
    pub(crate) fn other(&self, one: End) -> Option<End> {
        self.ends.get(&(one.host, one.conn)).copied()
    }

    /// Forgets that this end leads to the other one.
    pub(crate) fn forget(&mut self, one: End) {
        let _ = self.ends.remove(&(one.host, one.conn));
    }

    /// Forgets all connections of a member.
    pub(crate) fn forget_all(&mut self, host: u32) {
        self.ends
            .retain(|one, other| one.0 != host && other.host != host);
    }
}
