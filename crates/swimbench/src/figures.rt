//! The rows of the table of times.

use crate::failure::Failure;
use crate::order::Order;
use crate::reading::{Readings, Watch};
use crate::timing::run_once;
use crate::work::Work;
use std::fmt;

/// The most runs of one measurement.
const RUNS: usize = 7;

/// After this many nanoseconds, preparation included, no run starts.
const PATIENCE: u128 = 4_000_000_000;

/// A row of the table: nanoseconds per record.
#[derive(Clone, Copy, Debug)]
pub(crate) struct Figures {
    work: Work,
    order: Order,
    size: u32,
    runs: usize,
    least: u128,
    median: u128,
}

impl Figures {
    /// Measures several runs, of `size` records each.
    pub(crate) fn of(
        rt: &HostRuntime,
        work: Work,
        order: Order,
        size: u32,
    ) -> Result<Figures, Failure> {
        let mut readings = Readings::new(rt.alloc());
        let watch = Watch::start(rt)?;
        for _ in 0..RUNS {
            readings.add(run_once(rt, work, order, size)?)?;
            if watch.nanoseconds(rt)? > PATIENCE {
                break;
            }
        }
        let runs = readings.runs();
        let records = u128::from(work.records(size).max(1));
        let (least, median) = readings.least_and_median();
        Ok(Figures {
            work,
            order,
            size,
            runs,
            least: least / records,
            median: median / records,
        })
    }
}

impl fmt::Display for Figures {
    fn fmt<W: fmt::Write>(&self, f: &mut fmt::Formatter<W>) -> fmt::Result {
        write!(
            f,
            "{:<24} {:<10} {:>7} {:>4} {:>8} {:>8}",
            self.work, self.order, self.size, self.runs, self.least, self.median
        )
    }
}
