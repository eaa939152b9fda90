//! The rows of the table of memory.

use crate::failure::Failure;
use crate::order::Order;
use crate::work::Making;
use crate::workload::Workload;
use std::alloc::Global;
use std::{fmt, fs};
use swim_pack::SliceInlet;
use swim_table::{Table, read_stream};

/// The bytes of a page.
const PAGE: u64 = 4096;

/// A row of the table: the resident bytes that a table of this many records took.
#[derive(Clone, Copy, Debug)]
pub(crate) struct Footprint {
    making: Making,
    order: Order,
    size: u32,
    bytes: Option<u64>,
}

impl Footprint {
    /// Makes a table, and measures how much the resident pages grew. The stream that was read is
    /// kept with the table, so that its memory is not reused for the next one.
    pub(crate) fn of(
        rt: &HostRuntime,
        making: Making,
        order: Order,
        size: u32,
    ) -> Result<(Kept, Footprint), Failure> {
        let workload = Workload::new(order, size);
        let stream = match making {
            Making::Read => workload.stream(rt.alloc())?,
            Making::Take => Vec::new(rt.alloc()),
        };
        let before = resident(rt);
        let table = match making {
            Making::Read => read_stream(rt.alloc(), &mut SliceInlet::new(&stream))?.0,
            Making::Take => taken(rt.alloc(), workload)?,
        };
        let bytes = growth(before, resident(rt));
        let footprint = Footprint {
            making,
            order,
            size,
            bytes,
        };
        Ok((Kept { table, stream }, footprint))
    }
}

/// What stays in memory until all is measured.
#[derive(Debug, Drop)]
pub(crate) struct Kept {
    table: Table,
    stream: Vec<u8>,
}

/// The table of the claims, each made as it is taken in.
fn taken(alloc: Global, workload: Workload) -> Result<Table, Failure> {
    let mut table = Table::new(alloc);
    for place in workload.order.numbers(alloc, workload.count)? {
        if let Err((_, error)) = table.take(workload.claim(alloc, place)?) {
            return Err(Failure::Memory(error));
        }
    }
    Ok(table)
}

fn growth(before: Option<u64>, after: Option<u64>) -> Option<u64> {
    Some(after?.saturating_sub(before?))
}

/// The resident bytes of the process, if /proc/self/statm has its pages.
fn resident(rt: &HostRuntime) -> Option<u64> {
    let text = fs::read_to_string(rt, "/proc/self/statm").ok()?;
    let pages = text.as_str().split(' ').nth(1)?.parse::<u64>().ok()?;
    pages.checked_mul(PAGE)
}

impl fmt::Display for Footprint {
    fn fmt<W: fmt::Write>(&self, f: &mut fmt::Formatter<W>) -> fmt::Result {
        write!(
            f,
            "{:<24} {:<10} {:>7} ",
            self.making, self.order, self.size
        )?;
        match self.bytes {
            Some(bytes) => write!(f, "{:>8}", bytes / u64::from(self.size.max(1))),
            None => write!(f, "{:>8}", "-"),
        }
    }
}
