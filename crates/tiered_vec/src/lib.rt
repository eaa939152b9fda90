//! A vector in blocks, in which an insertion or a removal in the middle is cheap: it moves the
//! elements of one block. To its callers it is one list.
//!
//! | module | subject |
//! |---|---|
//! | `tiered_vec` | the vector, as its callers see it |
//! | `place` | where an element is among the blocks |
//! | `blocks` | operations on the vectors that hold the blocks |
//! | `iter` | the iterators |
#![tactic(auto)]

mod blocks;
mod iter;
mod place;
mod tiered_vec;

pub use iter::{IntoIter, Iter};
pub use place::Place;
pub use tiered_vec::TieredVec;
