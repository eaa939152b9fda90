//! What a section of a pcapng capture has described so far.

ghost use Rattle.std.specs.Prelude.{◌≡◌, [], length, slice_get};
ghost use Rattle.std.specs.Option.{option_copied};
ghost use Rattle.swim_pack.specs.Composing.{ReadsAs, same};
ghost use Rattle.swim_pack.specs.Ends.{Source};
ghost use Rattle.capture.specs.Blocks.{section_text};
ghost use Rattle.capture.specs.Pcapng.{described};
ghost use Rattle.capture.specs.Taking.{stop_cause};

use crate::CaptureFault;
use crate::interface::Interface;
use crate::order::Order;
use crate::stop::Stop;
use std::alloc::Global;

/// What a section has described so far.
#[derive(Drop)]
pub(crate) struct Section {
    pub(crate) order: Order,
    pub(crate) interfaces: Vec<Interface>,
}

impl Section {
    /// A section that has described nothing yet.
    pub(crate) fn new(alloc: Global, order: Order) -> Section
        ensures { section_text result ≡ record { order = order; interfaces = [] } }
    {
        Section {
            order,
            interfaces: Vec::new(alloc),
        }
    }

    /// How many interfaces the section has described.
    pub(crate) fn count(&self) -> usize
        ensures { result ≡ length self.now.interfaces.items }
    {
        self.interfaces.len()
    }

    /// The interface with this number, if the section has described it.
    fn interface(&self, number: u32) -> Option<&Interface>
        ensures { option_copied result ≡ slice_get self.now.interfaces.items number }
    {
        self.interfaces.get(number as usize)
    }

    /// The interface with this number, which the section has to have described.
    pub(crate) fn described(&self, interface: u32) -> Result<Interface, Stop>
        ensures { (at : Source) → ReadsAs stop_cause same
            (described (section_text self.now) interface) at at result }
    {
        match self.interface(interface) {
            Some(found) => Ok(*found),
            None => Err(Stop::Fault(CaptureFault::UnknownInterface { interface })),
        }
    }
}
