//! Why the program stops.

use memberlist_member::{ConfigFault, StepFault};
use std::alloc::AllocError;
use std::io;
use swim_claim::ClaimFault;
use thiserror::Error;

/// Why the program stops before its end, or with an error.
#[derive(Debug, Drop, Error)]
pub(crate) enum Failure {
    /// The arguments are not understood.
    #[error("usage: swimsim [--seconds S] [--seed N] [--loss PERCENT] [--delay MILLISECONDS] [calm|kill|cut|pause|restart|mute|oneway|leave|silent] MEMBERS..")]
    Usage,
    /// The output failed.
    #[error("swimsim: {0}")]
    Device(#[from] io::Error),
    /// Out of memory.
    #[error("swimsim: out of memory")]
    Memory(#[from] AllocError),
    /// A name or details were refused.
    #[error("swimsim: {0}")]
    Claim(#[from] ClaimFault),
    /// The configuration was refused.
    #[error("swimsim: {0}")]
    Config(#[from] ConfigFault),
    /// A member refused what it was told.
    #[error("swimsim: {0}")]
    Step(#[from] StepFault),
    /// Laws were broken.
    #[error("swimsim: laws were broken {0} times")]
    Broken(u64),
}
