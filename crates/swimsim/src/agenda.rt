//! What will happen.

use crate::scenario::Act;
use std::alloc::{AllocError, Global};
use std::collections::BTreeMap;

/// Something that will happen.
#[derive(Drop)]
pub(crate) enum Happening {
    /// Something is done to a member.
    Done(Act),
    /// A member is told something.
    Told { host: u32, what: What },
    /// A connection that a member dials is accepted, or not.
    Dialled { from: u32, conn: u64, to: u32 },
}

/// What a member is told.
#[derive(Drop)]
pub(crate) enum What {
    /// The time.
    Wake,
    Datagram { from: u32, bytes: Vec<u8> },
    Accepted { conn: u64 },
    Opened { conn: u64 },
    Bytes { conn: u64, bytes: Vec<u8> },
    Closed { conn: u64 },
}

/// What will happen, in the order of time; at the same time what was added first is first.
#[derive(Drop)]
pub(crate) struct Agenda {
    list: BTreeMap<(u64, u64), Happening>,
    count: u64,
}

impl Agenda {
    pub(crate) fn new(alloc: Global) -> Agenda {
        Agenda {
            list: BTreeMap::new(alloc),
            count: 0,
        }
    }

    /// Adds something, at this time in microseconds.
    pub(crate) fn add(&mut self, time: u64, happening: Happening) -> Result<(), AllocError> {
        self.count = self.count.saturating_add(1);
        match self.list.insert((time, self.count), happening) {
            Ok(_) => Ok(()),
            Err(_) => Err(AllocError),
        }
    }

    /// What happens next, and when.
    pub(crate) fn next(&mut self) -> Option<(u64, Happening)> {
        let (at, happening) = self.list.pop_first()?;
        Some((at.0, happening))
    }
}
