//! A view, and the captures that it hears.

ghost use Rattle.std.specs.Prelude.{◌++◌, ◌∷◌, [], List, IfOk, OnOk};
ghost use Rattle.capture.specs.Pcap.{RecordText};
ghost use Rattle.memberlist_view.specs.Told.{ViewValue};
ghost use Rattle.swimwatch.specs.Viewed.{HasEnded, HasHeard, choice_in, first_view};

use crate::listening::setting::Setting;
use crate::listening::traffic::Traffic;
use crate::listening::watch::Watch;
use capture::Record;
use std::alloc::{AllocError, Global};

/// A view, and the captures that it hears.
#[derive(Drop)]
pub(crate) struct Seat {
    pub(crate) watch: Watch,
    traffic: Traffic,
}

impl Seat {
    /// A view with this name, which heard no records yet.
    pub(crate) fn new(
        alloc: Global,
        setting: Setting,
        name: Option<String>,
    ) -> Result<Seat, AllocError>
        ensures { IfOk result (HasHeard (choice_in setting.entry) (first_view setting.entry) []) }
    {
        let watch = Watch::new(alloc, setting, name)?;
        Ok(Seat {
            watch,
            traffic: Traffic::new(alloc),
        })
    }

    /// Hears a record of the capture at this index.
    pub(crate) fn hear(
        &mut self,
        setting: Setting,
        place: usize,
        record: Record,
        bytes: &[u8],
    ) -> Result<(), AllocError>
        ensures { (first : ViewValue) (records : List RecordText)
            → HasHeard (choice_in setting.entry) first records self.old
            → OnOk result (HasHeard (choice_in setting.entry) first
            (records ++ («record», bytes.now) ∷ []) self.new) }
    {
        self.watch.notes.capture = place;
        self.traffic
            .record(&mut self.watch, setting.filter(), record, bytes)
    }

    /// Hears what the connections carried that are open at the end.
    pub(crate) fn end(&mut self, setting: Setting) -> Result<(), AllocError>
        ensures { (first : ViewValue) (records : List RecordText)
            → HasHeard (choice_in setting.entry) first records self.old
            → OnOk result (HasEnded (choice_in setting.entry) first records self.new) }
    {
        self.traffic
            .finish(&mut self.watch, setting.filter().opening)
    }
}
