//! Why the program stops.

use std::alloc::AllocError;
use std::io;
use swim_claim::ClaimFault;
use swim_sync::{Stop, SyncFault};
use swim_table::EncodeFault;
use swim_wire::WireFault;
use thiserror::Error;

/// Why the program stops before its end.
#[derive(Debug, Drop, Error)]
pub(crate) enum Failure {
    /// The arguments are invalid.
    #[error("{0}")]
    Words(&'static str),
    /// Two measurements that have to agree do not.
    #[error("swimbench: the results differ: {0}")]
    Differs(&'static str),
    /// The clock or the output failed.
    #[error("swimbench: {0}")]
    Device(#[from] io::Error),
    /// Out of memory.
    #[error("swimbench: out of memory")]
    Memory(#[from] AllocError),
    /// What was written was refused when it was read.
    #[error("swimbench: {0}")]
    Wire(#[from] WireFault),
    /// A name or details were refused.
    #[error("swimbench: {0}")]
    Claim(#[from] ClaimFault),
    /// A dump was refused.
    #[error("swimbench: {0}")]
    Encode(#[from] EncodeFault),
    /// An exchange was refused.
    #[error("swimbench: {0}")]
    Sync(#[from] SyncFault),
    /// A run stopped.
    #[error("swimbench: {0}")]
    Stopped(#[from] Stop),
}
