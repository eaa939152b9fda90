//! How long something took, many times.

use std::alloc::{AllocError, Global};
use std::collections::BTreeMap;

/// Times below this, in microseconds, are told apart. Longer ones are told apart by their seven
/// highest bits (own), so that memory does not grow with their number: the class of a time begins at
/// most 1/64 below it.
const EXACT: u64 = 128;

/// The place of the lowest of seven bits below the highest.
const KEPT: u32 = 6;

/// How often something took how long. Times are in microseconds.
#[derive(Drop)]
pub struct Delays {
    /// How many times are in each class.
    counts: BTreeMap<u64, u64>,
    total: u64,
    greatest: u64,
}

impl Delays {
    /// None yet.
    pub fn new(alloc: Global) -> Delays {
        Delays {
            counts: BTreeMap::new(alloc),
            total: 0,
            greatest: 0,
        }
    }

    /// Adds one.
    ///
    /// # Errors
    ///
    /// `AllocError` if out of memory.
    pub fn note(&mut self, delay: u64) -> Result<(), AllocError> {
        let class = class_of(delay);
        let before = self.counts.get(&class).copied().unwrap_or(0);
        self.counts.insert(class, before.saturating_add(1))?;
        self.total = self.total.saturating_add(1);
        self.greatest = self.greatest.max(delay);
        Ok(())
    }

    /// How many there are.
    pub fn len(&self) -> u64 {
        self.total
    }

    /// Whether there are none.
    pub fn is_empty(&self) -> bool {
        self.total == 0
    }

    /// The greatest, if there are any.
    pub fn greatest(&self) -> Option<u64> {
        if self.is_empty() {
            None
        } else {
            Some(self.greatest)
        }
    }

    /// The least time that so many percent of all do not exceed, to its class.
    pub fn percentile(&self, percent: u8) -> Option<u64> {
        let rank = rank_of(self.total, percent);
        let mut below = 0u64;
        for (class, count) in &self.counts {
            below = below.saturating_add(*count);
            if rank <= below {
                return Some(*class);
            }
        }
        None
    }
}

/// How many of so many are this percentage, rounded up.
pub fn rank_of(total: u64, percent: u8) -> u64 {
    (total / 100)
        .saturating_mul(u64::from(percent))
        .saturating_add((total % 100 * u64::from(percent)).div_ceil(100))
}

/// The least time of the class that a time belongs to.
fn class_of(delay: u64) -> u64 {
    if delay < EXACT {
        return delay;
    }
    let shift = delay.ilog2().saturating_sub(KEPT);
    delay >> shift << shift
}
