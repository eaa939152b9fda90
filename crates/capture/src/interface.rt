//! An interface that a section of a pcapng capture describes.

ghost use Rattle.std.specs.Prelude.{◌≡◌};
ghost use Rattle.capture.specs.Pcapng.{snapped};

use crate::clock::Clock;

/// An interface that packets were captured on.
#[derive(Clone, Copy, PartialEq, Eq)]
pub(crate) struct Interface {
    /// The number of the link.
    pub(crate) link: u32,
    /// The most bytes of a packet that were captured. 0 means no limit.
    pub(crate) snap: u32,
    /// How its times are counted.
    pub(crate) clock: Clock,
}

impl Interface {
    /// How many bytes of a packet of this length are captured.
    pub(crate) fn snapped(&self, original: u32) -> u32
        ensures { result ≡ snapped self.now.snap original }
    {
        if self.snap == 0 {
            original
        } else {
            original.min(self.snap)
        }
    }
}
