//! Which frames are heard.

ghost use Rattle.std.specs.Prelude.{◌≡◌, ◌≤◌, Decides, IfSome};
ghost use Rattle.swimwatch.specs.Filtered.{takes};

use crate::heard::carriage::Opening;

/// Which records are heard, and how what they carry is opened.
#[derive(Clone, Copy)]
pub(crate) struct Filter<'a> {
    pub(crate) opening: Opening<'a>,
    /// The moment after which records are left out, in microseconds since the start of 1970.
    pub(crate) until: Option<u64>,
    /// The ports whose traffic is heard; all if there are none.
    pub(crate) ports: &'a [u16],
}

impl<'a> Filter<'a> {
    /// Whether what was captured at this microsecond is heard.
    pub(crate) fn is_timely(self, time: u64) -> bool
        ensures { Decides result (IfSome self.entry.until (λ until. time ≤ until)) }
    {
        self.until.is_none_or(|until| time <= until)
    }

    /// Whether what was sent between these ports is heard.
    pub(crate) fn takes(self, source: u16, destination: u16) -> bool
        ensures { result ≡ takes self.entry.ports.now source destination }
    {
        self.ports.is_empty() || self.ports.contains(&source) || self.ports.contains(&destination)
    }
}
