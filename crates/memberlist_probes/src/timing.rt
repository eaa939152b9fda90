//! How a cluster is set up, read off the wire.

ghost use Rattle.std.specs.Prelude.{◌<◌, ◌≡◌, ℕ, Some};

use crate::Delays;
use std::alloc::{AllocError, Global};

/// memberlist's `ProbeTimeout` in a local network (config.go), in microseconds.
const LAN_TIMEOUT: u64 = 500_000;

/// memberlist's `ProbeInterval` in a local network.
const LAN_INTERVAL: u64 = 1_000_000;

/// With fewer waits than this that the captures show, the timeout is that of a local network at least
/// (own): a capture on a busy host may have had a ping late.
const FEW: u64 = 5;

/// How many intervals a prober whose own health is bad waits (memberlist's
/// `AwarenessMaxMultiplier`).
const MAX_SCALE: u64 = 8;

/// The timeout and the interval of probes, as the captures show them.
#[derive(Drop)]
pub struct Timing {
    /// From pings to the first indirect pings.
    asked: Delays,
    /// From a ping that was answered to the prober's next one.
    gaps: Delays,
    /// As they were given, if they were.
    timeout: Option<u64>,
    interval: Option<u64>,
}

impl Timing {
    /// With the timeout and the interval that are known from elsewhere.
    pub fn new(alloc: Global, timeout: Option<u64>, interval: Option<u64>) -> Timing {
        Timing {
            asked: Delays::new(alloc),
            gaps: Delays::new(alloc),
            timeout,
            interval,
        }
    }

    /// Notes how long after a ping the prober asked others.
    ///
    /// # Errors
    ///
    /// `AllocError` if out of memory.
    pub fn note_asked(&mut self, after: u64) -> Result<(), AllocError> {
        self.asked.note(after)
    }

    /// Notes how long after a ping for which nobody else was asked the prober sent the next one.
    ///
    /// # Errors
    ///
    /// `AllocError` if out of memory.
    pub fn note_gap(&mut self, gap: u64) -> Result<(), AllocError> {
        self.gaps.note(gap)
    }

    /// How long a prober waits for an ack before it asks others: the time that was given, or else the
    /// median, to a tenth of a second.
    pub fn timeout(&self) -> u64
        ensures given { (timeout : ℕ) → self.now.timeout ≡ Some timeout → result ≡ timeout }
    {
        match (self.timeout, self.asked.percentile(50)) {
            (Some(timeout), _) => timeout,
            (None, Some(median)) if FEW <= self.asked.len() => rounded(median, 100_000),
            (None, Some(median)) => rounded(median, 100_000).max(LAN_TIMEOUT),
            (None, None) => LAN_TIMEOUT,
        }
    }

    /// How long a prober waits from one probe to the next: the time that was given, or else the median,
    /// to a fifth of a second.
    pub fn interval(&self) -> u64
        ensures given { (interval : ℕ) → self.now.interval ≡ Some interval → result ≡ interval }
    {
        match (self.interval, self.gaps.percentile(50)) {
            (Some(interval), _) => interval,
            (None, Some(median)) => rounded(median, 200_000),
            (None, None) => LAN_INTERVAL,
        }
    }

    /// The longest that a prober waits for anything of a probe.
    pub fn longest(&self) -> u64 {
        self.interval().saturating_mul(MAX_SCALE)
    }
}

/// The nearest multiple of a step that is not 0.
fn rounded(time: u64, step: u64) -> u64
    requires { 0 < step }
{
    let half = step / 2;
    (time.saturating_add(half) / step)
        .max(1)
        .saturating_mul(step)
}
