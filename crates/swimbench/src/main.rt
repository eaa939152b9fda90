//! A program that measures the table: nanoseconds and bytes per record, by size and by order of the
//! names.
//!
//! | module | subject |
//! |---|---|
//! | `order`, `workload` | the orders of names; claims, packets and streams in them |
//! | `tables` | tables of workloads |
//! | `work` | what is measured |
//! | `timing`, `reading` | one run of each measurement; its reading of the clock |
//! | `figures`, `memory` | the rows of the table of times, and of the table of memory |
//! | `agreement` | checks that the measurements agree with each other |
//! | `failure` | why the program stops |
#![tactic(auto)]

mod agreement;
mod failure;
mod figures;
mod memory;
mod order;
mod reading;
mod tables;
mod timing;
mod work;
mod workload;

use agreement::check;
use failure::Failure;
use figures::Figures;
use memory::{Footprint, Kept};
use order::Order;
use std::alloc::AllocError;
use std::env;
use std::process::ExitCode;
use work::{Making, Work};

/// How many records a measurement has.
const SIZES: [u32; 3] = [1_000, 10_000, 100_000];

/// How many records each measurement has with the argument `check`.
const FEW: u32 = 100;

/// How the program is called.
const USAGE: &str =
    "swimbench: expects no argument, or check, or a number of records from 1 to 100000";

/// What the arguments ask for.
#[derive(Clone, Copy, Debug, PartialEq, Eq)]
enum Wish {
    /// The whole table.
    All,
    /// The rows of one size.
    One(u32),
    /// Check that the measurements agree with each other.
    Check,
}

fn main(rt: HostRuntime) -> ExitCode {
    match run(&rt) {
        Ok(()) => ExitCode::SUCCESS,
        Err(failure) => {
            let _ = rt.eprintln(failure);
            ExitCode::FAILURE
        }
    }
}

fn run(rt: &HostRuntime) -> Result<(), Failure> {
    match wished(rt)? {
        Wish::All => print_all(rt, &SIZES),
        Wish::One(size) => print_all(rt, &[size]),
        Wish::Check => check(rt, FEW),
    }
}

/// What the arguments ask for.
fn wished(rt: &HostRuntime) -> Result<Wish, Failure> {
    let words = env::args(rt)?.skip(1).collect::<Vec<String>>(rt.alloc())?;
    match words.as_slice() {
        [] => Ok(Wish::All),
        [word] if word.as_str() == "check" => Ok(Wish::Check),
        [word] => match word.parse::<u32>() {
            Ok(size) if 0 < size && size <= 100_000 => Ok(Wish::One(size)),
            _ => Err(Failure::Words(USAGE)),
        },
        _ => Err(Failure::Words(USAGE)),
    }
}

fn print_all(rt: &HostRuntime, sizes: &[u32]) -> Result<(), Failure> {
    print_footprints(rt, sizes)?;
    print_times(rt, sizes)
}

/// Prints the bytes per record. The tables are kept until all are measured, so that none reuses the
/// memory that another one freed.
fn print_footprints(rt: &HostRuntime, sizes: &[u32]) -> Result<(), Failure> {
    println!(rt;
        "bytes per record: growth of the resident pages in /proc/self/statm, of 4,096 bytes each"
    )?;
    println!(rt;
        "{:<24} {:<10} {:>7} {:>8}",
        "table made by", "order", "records", "bytes"
    )?;
    let mut all_kept: Vec<Kept> = Vec::new(rt.alloc());
    for &size in sizes {
        for order in Order::ALL {
            for making in Making::ALL {
                let (kept, footprint) = Footprint::of(rt, making, order, size)?;
                println!(rt; "{footprint}")?;
                all_kept.push(kept).map_err(AllocError::from)?;
            }
        }
    }
    Ok(())
}

/// Prints the nanoseconds per record.
fn print_times(rt: &HostRuntime, sizes: &[u32]) -> Result<(), Failure> {
    println!(rt; "nanoseconds per record: processor time, the least and the median of the runs")?;
    println!(rt;
        "{:<24} {:<10} {:>7} {:>4} {:>8} {:>8}",
        "measured", "order", "records", "runs", "least", "median"
    )?;
    for &size in sizes {
        for work in Work::ALL {
            for order in Order::ALL {
                let figures = Figures::of(rt, work, order, size)?;
                println!(rt; "{figures}")?;
            }
        }
    }
    Ok(())
}
