//! The times on the axis, with a line below each.

ghost use Rattle.std.specs.Prelude.{◌<◌};

use crate::chart::span::{DAY, Span};
use std::alloc::{AllocError, Global};

const MILLISECOND: u64 = 1_000;

const SECOND: u64 = 1_000_000;

const MINUTE: u64 = 60 * SECOND;

const HOUR: u64 = 60 * MINUTE;

/// One less than the most times on an axis.
const MAX_TICKS: u64 = 9;

/// The possible steps between round times, in microseconds.
const STEPS: [u64; 59] = [
    1,
    2,
    5,
    10,
    20,
    50,
    100,
    200,
    500,
    MILLISECOND,
    2 * MILLISECOND,
    5 * MILLISECOND,
    10 * MILLISECOND,
    20 * MILLISECOND,
    50 * MILLISECOND,
    100 * MILLISECOND,
    200 * MILLISECOND,
    500 * MILLISECOND,
    SECOND,
    2 * SECOND,
    5 * SECOND,
    10 * SECOND,
    15 * SECOND,
    30 * SECOND,
    MINUTE,
    2 * MINUTE,
    5 * MINUTE,
    10 * MINUTE,
    15 * MINUTE,
    30 * MINUTE,
    HOUR,
    2 * HOUR,
    3 * HOUR,
    6 * HOUR,
    12 * HOUR,
    DAY,
    2 * DAY,
    5 * DAY,
    10 * DAY,
    20 * DAY,
    50 * DAY,
    100 * DAY,
    200 * DAY,
    500 * DAY,
    1_000 * DAY,
    2_000 * DAY,
    5_000 * DAY,
    10_000 * DAY,
    20_000 * DAY,
    50_000 * DAY,
    100_000 * DAY,
    200_000 * DAY,
    500_000 * DAY,
    1_000_000 * DAY,
    2_000_000 * DAY,
    5_000_000 * DAY,
    10_000_000 * DAY,
    20_000_000 * DAY,
    50_000_000 * DAY,
];

/// Round times in a span.
#[derive(Drop)]
pub(crate) struct Ticks {
    step: u64,
    pub(crate) times: Vec<u64>,
}

impl Ticks {
    /// The multiples of the smallest step for which the span contains at most ten.
    pub(crate) fn of(alloc: Global, span: Span) -> Result<Ticks, AllocError> {
        let step = step_of(span.micros());
        let mut times = Vec::new(alloc);
        let mut tick = match span.first % step {
            0 => Some(span.first),
            over => span.first.checked_add(step.saturating_sub(over)),
        };
        for _ in 0..=MAX_TICKS {
            let Some(time) = tick.filter(|time| *time <= span.last) else {
                break;
            };
            times.push(time)?;
            tick = time.checked_add(step);
        }
        Ok(Ticks { step, times })
    }

    /// The format of a time on the axis: the date if a day begins, and otherwise the part of the
    /// time of day that changes between steps.
    pub(crate) fn format(&self, time: u64) -> &'static str {
        if time % DAY == 0 {
            "%Y-%m-%d"
        } else if MINUTE <= self.step {
            "%H:%M"
        } else if SECOND <= self.step {
            "%H:%M:%S"
        } else if MILLISECOND <= self.step {
            "%H:%M:%S.%3f"
        } else {
            "%S.%6f"
        }
    }
}

/// The smallest step that has at most ten multiples in this many microseconds.
fn step_of(micros: u64) -> u64
    ensures { 0 < result }
{
    for step in &STEPS {
        if micros <= step.saturating_mul(MAX_TICKS) {
            return (*step).max(1);
        }
    }
    u64::MAX
}
