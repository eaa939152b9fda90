//! The time of captures that is shown.

ghost use Rattle.std.specs.Prelude.{◌≤◌, not, Decides, IfSome};

use crate::text::moment::When;

/// What the words say about the time that is shown.
#[derive(Clone, Copy, Default)]
pub(crate) struct Times {
    /// From when on.
    pub(crate) from: Option<When>,
    /// Until when.
    pub(crate) to: Option<When>,
    /// For how many microseconds from the first record on.
    pub(crate) span: Option<u64>,
}

/// The time of captures that is shown.
#[derive(Clone, Copy)]
pub(crate) struct Window {
    /// When the first record was captured.
    pub(crate) begun: u64,
    pub(crate) from: Option<u64>,
    pub(crate) until: Option<u64>,
    /// When listening ends.
    pub(crate) end: Option<u64>,
}

impl Window {
    /// The time that is shown of captures whose first record was captured at this time.
    pub(crate) fn of(times: &Times, begun: u64) -> Window {
        Window {
            begun,
            from: times.from.map(|from| from.in_capture(begun)),
            until: times.to.map(|to| to.in_capture(begun)),
            end: times.span.map(|span| begun.saturating_add(span)),
        }
    }

    /// Whether what was captured at this time is shown.
    pub(crate) fn shows(&self, time: u64) -> bool
        ensures { Decides result (IfSome self.now.from (λ from. from ≤ time)
            × IfSome self.now.until (λ until. time ≤ until)) }
    {
        self.from.is_none_or(|from| from <= time) && self.until.is_none_or(|until| time <= until)
    }

    /// Whether listening is over at this time.
    pub(crate) fn is_over(&self, time: u64) -> bool
        ensures { Decides (not result) (IfSome self.now.end (λ end. time ≤ end)) }
    {
        self.end.is_some_and(|end| end < time)
    }
}
