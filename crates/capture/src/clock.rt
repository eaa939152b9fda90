//! How an interface of a pcapng capture counts time.

ghost use Rattle.std.specs.Prelude.{◌≡◌, ◌+◌, ◌≤◌, ◌<◌, ◌*◌, ◌^◌};
ghost use Rattle.capture.specs.Clock.{moved, nanos_of, time_of, with_option, clock_of};

use crate::order::Order;

/// The code of the option for the resolution of times.
const RESOLUTION: u16 = 9;

/// The code of the option for seconds that are added to times.
const OFFSET: u16 = 14;

/// From here on, an offset in two's complement is negative.
const NEGATIVE: u64 = 9_223_372_036_854_775_808;

/// What two's complement with 64 bits adds to a negative number.
const WRAPPED: u128 = 18_446_744_073_709_551_616;

/// How an interface counts time.
#[derive(Clone, Copy, PartialEq, Eq)]
pub(crate) struct Clock {
    /// The power of ten, or of two if the highest bit is set, by which a second is divided.
    pub(crate) resolution: u8,
    /// Seconds that are added, in two's complement.
    pub(crate) offset: u64,
}

impl Clock {
    /// The time in nanoseconds since 1970 at this count.
    pub(crate) fn time(self, count: u64) -> u64
        ensures { result ≡ time_of self count }
    {
        let nanos = self.unshifted(count);
        let later = moved(nanos, self.offset);
        let most = u128::from(u64::MAX);
        later.min(most) as u64
    }

    /// Nanoseconds at this count, before seconds are added.
    fn unshifted(self, count: u64) -> u128
        ensures is { result ≡ nanos_of self.resolution count }
        ensures bound { result < 2 ^ 64 * 1000000000 }
    {
        let mut nanos = u128::from(count) * 1_000_000_000;
        if self.resolution >= 128 {
            return nanos >> (self.resolution - 128);
        }
        for _ in 0..self.resolution {
            nanos /= 10;
        }
        nanos
    }

    /// The clock with this option.
    fn with(self, order: Order, code: u16, value: &[u8]) -> Clock
        ensures { result ≡ with_option order code value.now self }
    {
        if code == RESOLUTION && value.len() == 1 {
            return Clock {
                resolution: value[0],
                ..self
            };
        }
        if code == OFFSET && value.len() == 8 {
            return Clock {
                offset: order.u64_at(value, 0),
                ..self
            };
        }
        self
    }
}

/// The time with this many seconds added, in two's complement, or 0 if that is before 1970.
fn moved(nanos: u128, offset: u64) -> u128
    requires { nanos < 2 ^ 64 * 1000000000 }
    ensures { result ≡ moved offset nanos }
{
    let seconds = u128::from(offset);
    if offset < NEGATIVE {
        return nanos + seconds * 1_000_000_000;
    }
    nanos.saturating_sub((WRAPPED - seconds) * 1_000_000_000)
}

/// The clock given by the options of an interface. `None` if an option does not fit.
pub(crate) fn clock_of(order: Order, options: &[u8]) -> Option<Clock>
    ensures { result ≡ clock_of order options.now }
{
    let mut clock = Clock {
        resolution: 6,
        offset: 0,
    };
    let mut rest = options;
    while rest.len() >= 4 {
        let code = order.u16_at(rest, 0);
        if code == 0 {
            return Some(clock);
        }
        let claimed = order.u16_at(rest, 2);
        let size = usize::from(claimed);
        let whole = 4 + (size + 3) / 4 * 4;
        if rest.len() < whole {
            return None;
        }
        clock = clock.with(order, code, &rest[4..4 + size]);
        rest = &rest[whole..];
    }
    Some(clock)
}
