//! What all views have in common.

ghost use Rattle.std.specs.Prelude.{◌≡◌};
ghost use Rattle.swimwatch.specs.Filtered.{choice_of};
ghost use Rattle.swimwatch.specs.Seated.{is_merged};
ghost use Rattle.swimwatch.specs.Viewed.{choice_in};

use crate::arguments::chosen::Chosen;
use crate::heard::carriage::Opening;
use crate::listening::filter::Filter;
use crate::text::window::Window;
use memberlist_keyring::Keyring;
use swim_claim::Claim;

/// What all views have in common.
#[derive(Clone, Copy)]
pub(crate) struct Setting<'a> {
    pub(crate) keys: &'a Keyring,
    pub(crate) chosen: &'a Chosen,
    /// The time that is shown.
    pub(crate) window: Window,
    /// The records of the table to begin with.
    pub(crate) start: &'a [Claim],
}

impl<'a> Setting<'a> {
    /// The setting for captures whose first record was captured at this microsecond.
    pub(crate) fn new(
        keys: &'a Keyring,
        chosen: &'a Chosen,
        start: &'a [Claim],
        begun: u64,
    ) -> Setting<'a> {
        Setting {
            keys,
            chosen,
            window: Window::of(&chosen.times, begun),
            start,
        }
    }

    /// Which records are heard.
    pub(crate) fn filter(self) -> Filter<'a>
        ensures { choice_of result ≡ choice_in self.entry }
    {
        Filter {
            opening: Opening {
                keys: self.keys,
                clear: self.chosen.asking.clear,
                label: &self.chosen.asking.label,
            },
            until: self.window.until,
            ports: &self.chosen.ports,
        }
    }

    /// Whether all captures are one view.
    pub(crate) fn is_merged(self) -> bool
        ensures { result ≡ is_merged self.entry }
    {
        self.chosen.merge || !self.chosen.verb.has_views()
    }
}
