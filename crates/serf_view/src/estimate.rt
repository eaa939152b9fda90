//! How long the way to a member and back takes, by the coordinates of both (Serf's
//! `coordinate/coordinate.go`).

ghost use Rattle.std.specs.Prelude.{◌≡◌, length, from_bits};
ghost use Rattle.std.specs.List.{list_all};
ghost use Rattle.std.specs.Float.{binary64};
ghost use Rattle.std.specs.Float.Ieee.{mul};
ghost use Rattle.serf_message.specs.Coordinates.{coordinate_value};
ghost use Rattle.serf_view.specs.RoundTrip.{number, is_valid, is_valid_number, are_comparable, magnitude, distance};
ghost use Rattle.serf_view.specs.RoundTrip.{a_billion, whole_of, round_trip_of};

use serf_message::Coordinate;
use std::num::{f64_from_bits_with_nan, saturating_f64_to_u64};

/// How many nanoseconds a second has (Serf's `secondsToNanoseconds`).
const NANOSECONDS: f64 = 1e9;

/// The least number that has more than 64 bits.
const TWO_TO_64: f64 = 18446744073709551616.0;

/// The time in nanoseconds that Serf expects a message from one member to the other and back to
/// take (`DistanceTo`): the Euclidean distance of the two places, and both heights; and both
/// adjustments too if the time with them is longer than nothing. It is cut to a whole number, as in
/// Go.
///
/// `None` if the two have different numbers of dimensions, if a number of either is a NaN or an
/// infinity (`IsValid`), or if the time has more than 64 bits, or is a nanosecond or more below
/// nothing. Serf never makes such coordinates, but others may send them.
pub fn round_trip(one: &Coordinate, other: &Coordinate) -> Option<u64>
    ensures { result ≡ round_trip_of (coordinate_value one.now) (coordinate_value other.now) }
{
    let alike = one.vec.len() == other.vec.len();
    let comparable = alike & is_valid(one) & is_valid(other);
    if comparable {
        nanoseconds(distance(one, other))
    } else {
        None
    }
}

/// Whether each number of the coordinate is finite (`IsValid`).
fn is_valid(c: &Coordinate) -> bool
    ensures { result ≡ is_valid (coordinate_value c.now) }
{
    let others = is_finite(c.error) & is_finite(c.adjustment) & is_finite(c.height);
    are_finite(&c.vec) & others
}

fn are_finite(numbers: &[u64]) -> bool
    ensures { result ≡ list_all is_valid_number numbers.now }
{
    numbers.iter().all(|bits| is_finite(*bits))
}

fn is_finite(bits: u64) -> bool
    ensures { result ≡ is_valid_number bits }
{
    number(bits).is_finite()
}

/// The number with these bits.
fn number(bits: u64) -> f64
    ensures { result ≡ number bits }
{
    f64_from_bits_with_nan(bits)
}

/// The distance in seconds (`DistanceTo`, `rawDistanceTo`).
fn distance(one: &Coordinate, other: &Coordinate) -> f64
    ensures { result ≡ distance (coordinate_value one.now) (coordinate_value other.now) }
{
    let raw = magnitude(&one.vec, &other.vec) + number(one.height) + number(other.height);
    let adjusted = raw + number(one.adjustment) + number(other.adjustment);
    if 0.0 < adjusted { adjusted } else { raw }
}

/// The length of the way from one place to the other (`diff`, `magnitude`).
fn magnitude(one: &[u64], other: &[u64]) -> f64
    ensures { result ≡ magnitude one.now other.now }
{
    let mut sum = 0.0;
    for (x, y) in one.iter().zip(other.iter()) {
        let difference = number(*x) - number(*y);
        sum += difference * difference;
    }
    sum.sqrt()
}

/// These seconds in whole nanoseconds.
fn nanoseconds(seconds: f64) -> Option<u64>
    ensures { result ≡ whole_of (mul binary64 seconds a_billion) }
{
    let count = seconds * NANOSECONDS;
    let fits = (-1.0 < count) & (count < TWO_TO_64);
    if fits {
        Some(saturating_f64_to_u64(count))
    } else {
        None
    }
}
