//! Runs a memberlist cluster in virtual time over a lossy network, and prints how it behaves.
//!
//! | module | subject |
//! |---|---|
//! | `arguments`, `scenario` | what is wished; what happens when |
//! | `naming`, `host` | numbers, names and places; one member |
//! | `agenda`, `links` | what will happen; who is connected with whom |
//! | `world` | all members, and what happens to them |
//! | `measured`, `spread`, `laws` | what is measured, and what must never happen |
//! | `formulas`, `row` | what theory says; what is printed |
//! | `failure` | why the program stops |
#![tactic(auto)]

mod agenda;
mod arguments;
mod failure;
mod formulas;
mod host;
mod laws;
mod links;
mod measured;
mod naming;
mod row;
mod scenario;
mod spread;
mod world;

use arguments::{Run, Wish, wished};
use failure::Failure;
use formulas::Formulas;
use row::{HEAD, Row};
use std::env;
use std::process::ExitCode;
use world::World;

fn main(rt: HostRuntime) -> ExitCode {
    match run(&rt) {
        Ok(()) => ExitCode::SUCCESS,
        Err(failure) => {
            let _ = rt.eprintln(failure);
            ExitCode::FAILURE
        }
    }
}

/// Runs what is wished, and prints a row for each run and the formulas for each size.
fn run(rt: &HostRuntime) -> Result<(), Failure> {
    let words = env::args(rt)?.skip(1).collect::<Vec<String>>(rt.alloc())?;
    let wish = wished(rt.alloc(), &words)?;
    println!(rt; "{HEAD}")?;
    let mut broken = 0u64;
    for size in &wish.sizes {
        broken = broken.saturating_add(run_once(rt, wish.run(*size))?);
    }
    println!(rt; "")?;
    print_formulas(rt, &wish)?;
    if 0 < broken {
        return Err(Failure::Broken(broken));
    }
    Ok(())
}

/// Prints what theory says of each size.
fn print_formulas(rt: &HostRuntime, wish: &Wish) -> Result<(), Failure> {
    for size in &wish.sizes {
        let formulas = Formulas::of(*size);
        println!(rt; "{formulas}")?;
    }
    Ok(())
}

/// Prints the row of one run, and the laws that were broken in it. Returns how often they were.
fn run_once(rt: &HostRuntime, run: Run) -> Result<u64, Failure> {
    let mut world = World::new(rt.alloc(), run)?;
    world.run()?;
    let row = Row {
        run,
        measured: world.measured(),
    };
    println!(rt; "{row}")?;
    let laws = world.laws();
    let broken = laws.broken();
    if 0 < broken {
        println!(rt; "{laws}")?;
    }
    Ok(broken)
}
