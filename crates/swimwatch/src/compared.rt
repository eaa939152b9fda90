//! Comparing two captures, streams or members.
//!
//! | module | subject |
//! |---|---|
//! | `diff` | `diff` |
//! | `side` | one side of it |

pub(crate) mod diff;
pub(crate) mod side;
