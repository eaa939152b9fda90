//! One reading of the clock over one measurement.

use crate::failure::Failure;
use std::alloc::{AllocError, Global};
use std::time::{CpuClock, Duration};

/// The processor time that the process had used when a measurement started.
#[derive(Clone, Copy, Debug)]
pub(crate) struct Watch {
    begun: Duration,
}

impl Watch {
    /// Starts now.
    pub(crate) fn start(rt: &impl CpuClock) -> Result<Watch, Failure> {
        Ok(Watch {
            begun: rt.process_cpu_time()?,
        })
    }

    /// The nanoseconds since the start, or 0 if the clock went back.
    pub(crate) fn nanoseconds(&self, rt: &impl CpuClock) -> Result<u128, Failure> {
        let now = rt.process_cpu_time()?;
        Ok(now.saturating_sub(self.begun).as_nanos())
    }
}

/// The readings of the runs of one measurement.
#[derive(Debug, Drop)]
pub(crate) struct Readings {
    nanoseconds: Vec<u128>,
}

impl Readings {
    pub(crate) fn new(alloc: Global) -> Readings {
        Readings {
            nanoseconds: Vec::new(alloc),
        }
    }

    /// Adds a run.
    pub(crate) fn add(&mut self, nanoseconds: u128) -> Result<(), AllocError> {
        self.nanoseconds.push(nanoseconds)?;
        Ok(())
    }

    /// How many runs there are.
    pub(crate) fn runs(&self) -> usize {
        self.nanoseconds.len()
    }

    /// The least of the runs and their median, or 0 if there are none.
    pub(crate) fn least_and_median(&mut self) -> (u128, u128) {
        self.nanoseconds.as_mut_slice().sort_unstable();
        let sorted = self.nanoseconds.as_slice();
        let least = sorted.first().copied().unwrap_or(0);
        let median = sorted.get(sorted.len() / 2).copied().unwrap_or(0);
        (least, median)
    }
}
