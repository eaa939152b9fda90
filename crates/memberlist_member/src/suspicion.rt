//! How long a member is suspected (`suspicion.go`, `state.go`; Lifeguard, section IV.B: dynamic
//! suspicion timeouts). memberlist computes it with floating point. Here it is computed in whole
//! numbers, to the exact millisecond.

ghost use Rattle.std.specs.Prelude.{◌≡◌, ◌+◌, ◌-◌, ◌*◌, ◌/◌, ◌^◌, ◌<◌, ◌≤◌, ℕ, max, min};
ghost use Rattle.memberlist_member.specs.Scales.{IsMilliLog};
ghost use Rattle.memberlist_member.specs.Suspicions.{IsDue, IsShare, Lasts, confirmations_wanted};

use crate::scale::suspicion_timeout;
use std::marker::Model;

/// How long a suspicion of a member lasts, settled when it begins: the longest time at first, and
/// less with each further member that suspects it too, down to the least time.
#[derive(Clone, Copy)]
pub struct Suspicion {
    /// How many further members must confirm it until it lasts the least time.
    k: u32,
    /// The least time, in milliseconds.
    min: u64,
    /// The longest time, in milliseconds.
    max: u64,
}

impl Model for Suspicion {
    ghost use Rattle.std.specs.Prelude.{◌<◌, ◌≤◌, ◌^◌};
    ghost use Rattle.memberlist_member.specs.Suspicions.{Span};

    ghost Value = { Span };

    ghost view = { λ s. record { wanted = s.k; least = s.min; most = s.max } };

    ghost invariant = { λ s. (s.k ≤ 4) × (s.min ≤ s.max) × (s.max < 2 ^ 54) };

    ghost inverse = { λ v. record { k = v.wanted; min = v.least; max = v.most } };
}

impl Suspicion {
    /// A suspicion that begins in a cluster of so many members (`suspectNode`), with
    /// `SuspicionMult`, `SuspicionMaxTimeoutMult` and the probe interval in milliseconds. Dead
    /// members that are not forgotten yet count too.
    ///
    /// A multiplier of 3 to 6 wants 1 to 4 confirmations, but none where, beside the accuser and
    /// the accused, there are fewer members than that. If none is wanted it lasts the least time
    /// from the start.
    ///
    /// The least time is rounded down to whole milliseconds. memberlist keeps the rest, which there
    /// is only where the interval is no multiple of a second.
    pub fn begun(mult: u16, max_mult: u16, interval: u32, members: u32) -> Suspicion
        requires mult { mult ≤ 6 }
        requires max_mult { 1 ≤ max_mult }
        ensures wanted { result.wanted ≡ confirmations_wanted mult members }
        ensures least { (r : ℕ) × IsMilliLog (max 1 members) r × (r < 10000)
            × (result.least ≡ mult * max 1000 r * interval / 1000) }
        ensures most { result.most ≡ max_mult * result.least }
    {
        let wanted = u32::from(mult.saturating_sub(2));
        let min = suspicion_timeout(mult, members, interval) / 1000;
        Suspicion {
            k: if members < wanted + 2 { 0 } else { wanted },
            min,
            max: u64::from(max_mult) * min,
        }
    }

    /// How many further members must confirm it until it lasts the least time, at most 4.
    pub fn wanted(&self) -> u32
        ensures wanted { result ≡ self.now.wanted }
        ensures few { result ≤ 4 }
    {
        self.k
    }

    /// When it ends, if it began at this time and so many members suspect the member, the first
    /// one included; 0 counts as 1. Times are in microseconds; one too late for a `u64` is
    /// `u64::MAX`.
    pub fn due(&self, start: u64, accusers: usize) -> u64
        ensures exact { IsDue self.now accusers start result }
        ensures early { min (start + 1000 * self.now.least) (2 ^ 64 - 1) ≤ result }
        ensures late { result ≤ start + 1000 * self.now.most }
    {
        let more = accusers.saturating_sub(1).min(self.k as usize) as u32;
        start.saturating_add(1000 * timeout(self.k, more, self.min, self.max))
    }
}

/// For how many milliseconds a member is suspected, once so many of the `k` confirmations that are
/// wanted have come (`remainingSuspicionTime`): from the longest time down to the least one, by
/// less with each confirmation.
fn timeout(k: u32, confirmed: u32, min: u64, max: u64) -> u64
    requires few { k ≤ 4 }
    requires confirmed { confirmed ≤ k }
    requires ordered { min ≤ max }
    requires bound { max < 2 ^ 54 }
    ensures lasts { Lasts k confirmed min max result }
    ensures least { min ≤ result }
    ensures most { result ≤ max }
{
    if k == 0 {
        return min;
    }
    let (part, whole) = share(k, confirmed);
    let less = (u128::from(max - min) * u128::from(part)).div_ceil(u128::from(whole));
    max - less as u64
}

/// A fraction in place of log(c + 1) / log(k + 1), where c of k confirmations have come: that
/// number, or so little above it that no fraction with a denominator below 2^54 lies between.
fn share(k: u32, confirmed: u32) -> (u64, u64)
    requires some { 1 ≤ k }
    requires few { k ≤ 4 }
    requires confirmed { confirmed ≤ k }
    ensures is { IsShare k confirmed result.0 result.1 }
    ensures proper { result.0 ≤ result.1 }
    ensures bound { result.1 < 2 ^ 58 }
    ensures positive { 0 < result.1 }
{
    match (k, confirmed) {
        (_, 0) => (0, 1),
        (2, 1) => (6_234_549_927_241_963, 9_881_527_843_552_324),
        (3, 1) => (1, 2),
        (3, 2) => (206_745_572_560_704_147, 260_883_866_295_429_880),
        (4, 1) => (30_387_805_924_728_145, 70_558_300_318_610_924),
        (4, 2) => (74_091_334_972_018_705, 108_541_843_848_649_526),
        (4, 3) => (30_387_805_924_728_145, 35_279_150_159_305_462),
        _ => (1, 1),
    }
}
