//! How long memberlist suspects a member at most before it declares it dead.

use std::num::{nearest_u64_to_f64, saturating_f64_to_u64};

/// memberlist's `SuspicionMaxTimeoutMult`.
const MAX_TIMEOUT_MULT: u64 = 6;

/// memberlist's `ProbeInterval` in a local network, in microseconds.
const PROBE_INTERVAL: u64 = 1_000_000;

/// The longest time in microseconds for which a member of a cluster of `nodes` members suspects
/// another one (memberlist's `suspicionTimeout` in util.go, `suspectNode` in state.go): `mult` probe
/// intervals times the logarithm of `nodes` to base 10, which counts as 1 at least, and six times
/// that if there are enough members to confirm the suspicion.
pub(crate) fn longest(nodes: usize, mult: u64) -> u64 {
    let scale = nearest_u64_to_f64(nodes as u64).max(1.0).log10().max(1.0);
    let thousandths = saturating_f64_to_u64(scale * 1000.0);
    let least = mult
        .saturating_mul(thousandths)
        .saturating_mul(PROBE_INTERVAL)
        / 1000;
    let confirmations = (mult as usize).saturating_sub(2);
    if nodes.saturating_sub(2) < confirmations {
        least
    } else {
        least.saturating_mul(MAX_TIMEOUT_MULT)
    }
}
