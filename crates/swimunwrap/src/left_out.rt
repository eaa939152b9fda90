//! The message about lines that were left out.

use crate::NAME;
use crate::cause::{Cause, PLACES};
use std::alloc::{AllocError, Global};

/// How many lines were left out of how many, and the number for each cause, in the order in which
/// the causes came: `swimunwrap: 3 of 217 lines left out: 2 not hexadecimal, 1 wrong checksum`.
pub fn left_out_text(alloc: Global, causes: &[Cause], input: &[u8]) -> Result<String, AllocError> {
    let mut counts = counts_of(causes);
    let mut text = format!(in alloc;
        "{NAME}: {} of {} lines left out",
        causes.len(),
        lines_in(input)
    )?;
    let mut between = ": ";
    for cause in causes {
        let place = cause.place();
        let count = counts[place];
        counts[place] = 0;
        if count > 0 {
            let part = format!(in alloc; "{between}{count} {cause}")?;
            text.push_str(&part)?;
            between = ", ";
        }
    }
    Ok(text)
}

/// How often each cause came.
fn counts_of(causes: &[Cause]) -> [usize; PLACES] {
    let mut counts = [0usize; PLACES];
    for cause in causes {
        let place = cause.place();
        counts[place] = counts[place].saturating_add(1);
    }
    counts
}

/// How many lines the input has. A line feed ends each line, except perhaps the last.
fn lines_in(input: &[u8]) -> usize {
    let feeds = input.iter().filter(|byte| **byte == b'\n').count();
    match input.last() {
        None | Some(b'\n') => feeds,
        Some(_) => feeds.saturating_add(1),
    }
}
