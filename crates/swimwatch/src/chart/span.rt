//! The period that a picture shows, and where its moments are drawn.

ghost use Rattle.std.specs.Prelude.{◌≡◌, ◌<◌, ◌≤◌, ◌-◌, ◌*◌, ◌/◌, ◌+◌};
ghost use Rattle.swimwatch.specs.Chart.{place_of};

/// A day, in microseconds.
pub(crate) const DAY: u64 = 86_400_000_000;

/// The width of the rows, in pixels.
pub(crate) const WIDTH: u64 = 1_000;

/// A period from a first to a last moment, in microseconds since the start of 1970.
#[derive(Clone, Copy, PartialEq, Eq)]
pub(crate) struct Span {
    pub(crate) first: u64,
    pub(crate) last: u64,
}

impl Span {
    /// A single moment.
    pub(crate) fn at(time: u64) -> Span {
        Span {
            first: time,
            last: time,
        }
    }

    /// The period, extended to include this moment.
    pub(crate) fn with(self, time: u64) -> Span {
        Span {
            first: self.first.min(time),
            last: self.last.max(time),
        }
    }

    /// Whether the whole period is in one day.
    pub(crate) fn is_of_one_day(self) -> bool {
        self.first / DAY == self.last / DAY
    }

    /// The length in microseconds.
    pub(crate) fn micros(self) -> u64
        ensures { result ≡ self.last - self.first }
    {
        self.last.saturating_sub(self.first)
    }

    /// How many pixels to the right of the first moment this one is drawn: 0 if it is the first or
    /// earlier, and the whole width if it is the last or later.
    pub(crate) fn place(self, time: u64) -> u64
        ensures exact { result ≡ place_of self.first self.last time }
        ensures within { result ≤ 1000 }
        ensures start { time ≤ self.first → result ≡ 0 }
        ensures end { self.first < self.last → self.last ≤ time → result ≡ 1000 }
    {
        let whole = self.micros();
        if whole == 0 {
            return 0;
        }
        share(time.min(self.last).saturating_sub(self.first), whole)
    }

    /// From where to where a bar between two moments is drawn, after one that ends at this edge: at
    /// least one pixel wide, and at most one pixel right of its place.
    pub(crate) fn stretch(self, since: u64, until: u64, edge: u64) -> (u64, u64)
        ensures wide { result.0 < result.1 }
        ensures within { result.1 ≤ 1002 }
        ensures begin { let place = place_of self.first self.last since in
            (edge ≤ place → result.0 ≡ place) × (place < edge → result.0 ≡ place + 1) }
        ensures end { let place = place_of self.first self.last until in
            (result.0 < place → result.1 ≡ place) × (place ≤ result.0 → result.1 ≡ result.0 + 1) }
    {
        let place = self.place(since);
        let begin = place.max(edge.min(place + 1));
        let end = self.place(until).max(begin + 1);
        (begin, end)
    }
}

/// The share of the width that a part has of the whole.
fn share(part: u64, whole: u64) -> u64
    requires whole { 0 < whole }
    requires part { part ≤ whole }
    ensures within { result ≤ 1000 }
    ensures value { result ≡ part * 1000 / whole }
    ensures all { part ≡ whole → result ≡ 1000 }
{
    (u128::from(part) * u128::from(WIDTH) / u128::from(whole)) as u64
}
