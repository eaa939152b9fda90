//! How something becomes known.

/// How something becomes known to the members; times are in microseconds.
#[derive(Clone, Copy, Debug)]
pub(crate) struct Spread {
    /// How many are to know it, and how many do.
    expected: u32,
    pub(crate) count: u32,
    /// When the first one, half of them, 99 of 100, and all of them knew it.
    pub(crate) first: Option<u64>,
    pub(crate) half: Option<u64>,
    pub(crate) most: Option<u64>,
    pub(crate) all: Option<u64>,
    /// When the last one that knows it came to know it.
    pub(crate) last: Option<u64>,
}

impl Spread {
    /// Nobody knows it yet, and so many are to.
    pub(crate) fn among(expected: u32) -> Spread {
        Spread {
            expected,
            count: 0,
            first: None,
            half: None,
            most: None,
            all: None,
            last: None,
        }
    }

    pub(crate) fn expect(&mut self, expected: u32) {
        self.expected = expected;
    }

    /// One more knows it, so long after it happened.
    pub(crate) fn add(&mut self, after: u64) {
        self.count = self.count.saturating_add(1);
        let (is_half, is_most) = (self.is_share(50), self.is_share(99));
        let is_all = self.is_share(100);
        note(&mut self.first, after, true);
        note(&mut self.half, after, is_half);
        note(&mut self.most, after, is_most);
        note(&mut self.all, after, is_all);
        self.last = Some(after);
    }

    /// Whether at least so many of a hundred know it.
    fn is_share(&self, percent: u64) -> bool {
        u64::from(self.expected).saturating_mul(percent)
            <= u64::from(self.count).saturating_mul(100)
    }
}

/// Notes the time if something holds and no time was noted yet.
pub(crate) fn note(place: &mut Option<u64>, time: u64, holds: bool) {
    if holds && place.is_none() {
        *place = Some(time);
    }
}
