//! How memberlist's times and transmissions grow with the number of members (`util.go`). memberlist
//! computes with floating point; these rules have whole numbers, and the same results for all clusters
//! of up to 100,000 members.

ghost use Rattle.std.specs.Prelude.{◌≡◌, ◌+◌, ◌*◌, ◌^◌, ◌<◌, ◌≤◌, ℕ, length, max};
ghost use Rattle.std.specs.List.{AllWithin};
ghost use Rattle.std.specs.List.Sorted.{IsNonDecreasingBy};
ghost use Rattle.memberlist_member.specs.Scales.{IsLeast, IsMilliLog};

use crate::powers::POWERS;

/// The decimal logarithm of a number above 0 in thousandths, rounded down: 0 for 1, 301 for 2, 1,000
/// for 10.
pub fn milli_log(n: u32) -> u32
    requires { 0 < n }
    ensures is { IsMilliLog n result }
    ensures bound { result < 10000 }
{
    let whole = n.ilog10();
    let scaled = u64::from(n) * 10u64.pow(10 - whole);
    let place = count_below(&POWERS, scaled + 1);
    whole * 1000 + place as u32 - 1
}

/// How many of these numbers, which rise, are below this one.
fn count_below(rising: &[u64], end: u64) -> usize
    requires { IsNonDecreasingBy (λ p. p) rising.now }
    ensures bound { result ≤ length rising.now }
    ensures low { AllWithin (λ p. p < end) rising.now 0 result }
    ensures high { AllWithin (λ p. end ≤ p) rising.now result (length rising.now) }
{
    rising.partition_point(|number| *number < end)
}

/// For how many microseconds a member of a cluster of so many members is suspected at least
/// (`suspicionTimeout`): `SuspicionMult` probe intervals, in milliseconds, times the decimal
/// logarithm of the number of members, which counts as 1 at least.
pub fn suspicion_timeout(mult: u16, members: u32, interval: u32) -> u64
    ensures { (r : ℕ) × IsMilliLog (max 1 members) r × (r < 10000)
        × (result ≡ mult * max 1000 r * interval) }
{
    let scale = milli_log(members.max(1)).max(1000);
    u64::from(mult) * u64::from(scale) * u64::from(interval)
}

/// How often a broadcast is sent in a cluster of so many members (`retransmitLimit`): `RetransmitMult`
/// times the decimal logarithm of one more than their number, rounded up.
pub fn retransmit_limit(mult: u16, members: u32) -> u32
    ensures { (m : ℕ) × IsLeast (λ k. members < 10 ^ k) m × (result ≡ mult * m) }
{
    u32::from(mult) * digits(members)
}

/// How many decimal digits a number has; none if it is 0.
fn digits(n: u32) -> u32
    ensures least { IsLeast (λ k. n < 10 ^ k) result }
    ensures bound { result ≤ 10 }
{
    if n == 0 { 0 } else { n.ilog10() + 1 }
}

/// How many intervals lie between two exchanges of whole tables in a cluster of so many members
/// (`pushPullScale`): one up to 32 members, and one more each time that their number doubles.
pub fn push_pull_scale(members: u32) -> u32
    ensures { IsLeast (λ k. (1 ≤ k) × (members ≤ 2 ^ (k + 4))) result }
{
    if members <= 32 {
        1
    } else {
        (members - 1).ilog2() - 3
    }
}
