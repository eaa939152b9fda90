//! The orders in which names come.

ghost use Rattle.std.specs.Prelude.{◌≡◌, IsPermutation, IfOk};
ghost use Rattle.std.specs.List.{range_with_len};

use rand::seq::SliceRandom;
use rand_pcg::Pcg32;
use std::alloc::{AllocError, Global};
use std::fmt;

/// The seed of the random order: the state and the stream of PCG's own demonstration.
const SEED: (u64, u64) = (42, 54);

/// The order of the names of a measurement.
#[derive(Clone, Copy, Debug, PartialEq, Eq)]
pub(crate) enum Order {
    /// Each name after the ones below it.
    Ascending,
    /// The same shuffle of the names in each run.
    Random,
    /// Each name before the ones below it.
    Descending,
}

impl Order {
    /// All orders, as in the table.
    pub(crate) const ALL: [Order; 3] = [Order::Ascending, Order::Random, Order::Descending];

    /// The numbers below the count, in this order.
    pub(crate) fn numbers(self, alloc: Global, count: u32) -> Result<Vec<u32>, AllocError>
        ensures { IfOk result (λ numbers. IsPermutation (range_with_len 0 count) numbers.items) }
    {
        let mut numbers = ascending(alloc, count)?;
        match self {
            Order::Ascending => {}
            Order::Random => {
                let (state, stream) = SEED;
                numbers
                    .as_mut_slice()
                    .shuffle(&mut Pcg32::new(state, stream));
            }
            Order::Descending => numbers.as_mut_slice().reverse(),
        }
        Ok(numbers)
    }
}

/// The numbers below the count, from 0.
fn ascending(alloc: Global, count: u32) -> Result<Vec<u32>, AllocError>
    ensures { IfOk result (λ numbers. numbers.items ≡ range_with_len 0 count) }
{
    (0..count).collect(alloc)
}

impl fmt::Display for Order {
    fn fmt<W: fmt::Write>(&self, f: &mut fmt::Formatter<W>) -> fmt::Result {
        f.pad(match self {
            Order::Ascending => "ascending",
            Order::Random => "random",
            Order::Descending => "descending",
        })
    }
}
