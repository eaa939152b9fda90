//! Ending the program with a message of its own.

use crate::NAME;
use std::alloc::{AllocError, Global};
use swim_program::{Failure, Place, What};

/// The failure that ends the program with this message on standard error and this status.
pub(crate) fn said(text: Result<String, AllocError>, status: u8) -> Failure {
    match text {
        Ok(text) => Failure::Refused { text, status },
        Err(AllocError) => Failure::Memory,
    }
}

/// The failure for an argument with an invalid value.
pub(crate) fn misused(alloc: Global, what: &str) -> Failure {
    said(format!(in alloc; "{NAME}: {what}"), 2)
}

/// The failure if the output could not be written or made.
pub(crate) fn output_fails(alloc: Global, what: What) -> Failure {
    Failure::refused(alloc, NAME, &what.at(Place::Output), &[])
}
