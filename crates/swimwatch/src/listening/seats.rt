//! Which view hears which record.

ghost use Rattle.std.specs.Prelude.{◌≡◌, ◌+◌, ◌<◌, ◌++◌, ◌∷◌, [], List, Some, false, true, IfOk, OnOk};
ghost use Rattle.capture.specs.Pcap.{RecordText};
ghost use Rattle.swimwatch.specs.Seated.{AreAlike, EachHas, EachEnded, HasView, at_least_one, is_merged, put};
ghost use Rattle.swimwatch.specs.Seating.{view_at};
ghost use Rattle.swimwatch.specs.Viewed.{choice_in, first_view};

use crate::listening::detecting::Detected;
use crate::listening::printer::Printer;
use crate::listening::seat::Seat;
use crate::listening::seating::Seating;
use crate::listening::setting::Setting;
use crate::text::names::escaped_name;
use crate::view::view_name::ViewNames;
use capture::Record;
use std::alloc::{AllocError, Global};

/// The views of captures, in the order in which they began.
#[derive(Drop)]
pub(crate) struct Seats<'a> {
    alloc: Global,
    pub(crate) setting: Setting<'a>,
    pub(crate) seats: Vec<Seat>,
    seating: Seating,
    names: ViewNames<'a>,
}

impl<'a> Seats<'a> {
    /// No views yet.
    pub(crate) fn new(alloc: Global, setting: Setting<'a>) -> Seats<'a>
        ensures seats { result.seats.items ≡ [] }
        ensures setting { result.setting ≡ setting.entry }
    {
        Seats {
            alloc,
            setting,
            seats: Vec::new(alloc),
            seating: Seating::new(alloc),
            names: ViewNames::new(alloc, &setting.chosen.inputs),
        }
    }

    /// Has a record of the capture at this index, which this word names, heard by one view, and
    /// returns its index. If all captures are one view, that is the first one.
    pub(crate) fn hear(
        &mut self,
        place: usize,
        word: &str,
        record: Record,
        bytes: &[u8],
    ) -> Result<usize, AllocError>
        ensures hears { (heard : List (List RecordText)) → EachHas (choice_in self.old.setting)
            (first_view self.old.setting) heard self.old.seats.items
            → IfOk result (λ view. EachHas (choice_in self.old.setting)
            (first_view self.old.setting) (put heard view («record», bytes.now))
            self.new.seats.items) }
        ensures merged { is_merged self.old.setting ≡ true → IfOk result (λ view. view ≡ 0) }
        ensures setting { self.new.setting ≡ self.old.setting }
    {
        let view = self.view_of(place, word)?;
        match self.seats.get_mut(view) {
            Some(seat) => seat.hear(self.setting, place, record, bytes)?,
            None => unreachable!(),
        }
        Ok(view)
    }

    /// The index of the view of the capture at this index, which this word names. If there is none
    /// yet, it begins.
    fn view_of(&mut self, place: usize, word: &str) -> Result<usize, AllocError>
        ensures has { (heard : List (List RecordText)) → EachHas (choice_in self.old.setting)
            (first_view self.old.setting) heard self.old.seats.items
            → IfOk result (λ view. HasView (choice_in self.old.setting)
            (first_view self.old.setting) heard view self.new.seats.items) }
        ensures known { IfOk result (λ view. view < self.new.seats.len) }
        ensures merged { is_merged self.old.setting ≡ true → IfOk result (λ view. view ≡ 0) }
        ensures setting { self.new.setting ≡ self.old.setting }
    {
        let view = self.place_of(place, word)?;
        let count = self.seats.len();
        if view < count {
            return Ok(view);
        }
        self.begin(word)?;
        Ok(count)
    }

    /// The index at which the view of a capture is, or would be.
    fn place_of(&mut self, place: usize, word: &str) -> Result<usize, AllocError>
        ensures merged { is_merged self.old.setting ≡ true → IfOk result (λ view. view ≡ 0) }
        ensures seated { is_merged self.old.setting ≡ false → IfOk result (λ view.
            view_at self.new.seating place ≡ Some view) }
        ensures seats { self.new.seats ≡ self.old.seats }
        ensures setting { self.new.setting ≡ self.old.setting }
    {
        if self.setting.is_merged() {
            return Ok(0);
        }
        self.seating.view_of(place, word)
    }

    /// Begins one more view, whose first capture this word names.
    fn begin(&mut self, word: &str) -> Result<(), AllocError>
        ensures begins { (heard : List (List RecordText)) → EachHas (choice_in self.old.setting)
            (first_view self.old.setting) heard self.old.seats.items → OnOk result (EachHas
            (choice_in self.old.setting) (first_view self.old.setting) (heard ++ [] ∷ [])
            self.new.seats.items) }
        ensures len { OnOk result (self.new.seats.len ≡ self.old.seats.len + 1) }
        ensures setting { self.new.setting ≡ self.old.setting }
    {
        let name = self.name(word)?;
        let seat = Seat::new(self.alloc, self.setting, name)?;
        self.seats.push(seat)?;
        Ok(())
    }

    /// The name of the view that begins with the capture that this word names, if there may be
    /// several.
    fn name(&mut self, word: &str) -> Result<Option<String>, AllocError>
        ensures seats { self.new.seats ≡ self.old.seats }
        ensures setting { self.new.setting ≡ self.old.setting }
    {
        if self.setting.is_merged() || self.setting.chosen.inputs.len() < 2 {
            return Ok(None);
        }
        let name = escaped_name(self.alloc, self.names.name(word)?.as_bytes())?;
        Ok(Some(name))
    }

    /// Prints what the view at this index has to print.
    pub(crate) fn print(&mut self, view: usize, printer: &mut Printer) -> Result<(), AllocError>
        ensures alike { OnOk result (AreAlike self.old.seats.items self.new.seats.items) }
        ensures setting { self.new.setting ≡ self.old.setting }
    {
        match self.seats.get_mut(view) {
            Some(seat) => printer.collect(&mut seat.watch, self.setting.chosen),
            None => Ok(()),
        }
    }

    /// Prints what all views have to print.
    pub(crate) fn print_all(&mut self, printer: &mut Printer) -> Result<(), AllocError>
        ensures alike { OnOk result (AreAlike self.old.seats.items self.new.seats.items) }
        ensures setting { self.new.setting ≡ self.old.setting }
    {
        for view in 0..self.seats.len() {
            self.print(view, printer)?;
        }
        Ok(())
    }

    /// Adds a line to the report of the first view.
    pub(crate) fn report(&mut self, line: &str) -> Result<(), AllocError>
        ensures alike { OnOk result (AreAlike self.old.seats.items self.new.seats.items) }
        ensures setting { self.new.setting ≡ self.old.setting }
    {
        match self.seats.get_mut(0) {
            Some(seat) => seat.watch.report_line(line),
            None => Ok(()),
        }
    }

    /// Has the view at this index show what is shown only at the end.
    pub(crate) fn finish(&mut self, view: usize, detected: &Detected) -> Result<(), AllocError>
        ensures alike { OnOk result (AreAlike self.old.seats.items self.new.seats.items) }
        ensures setting { self.new.setting ≡ self.old.setting }
    {
        match self.seats.get_mut(view) {
            Some(seat) => seat.watch.finish(detected),
            None => Ok(()),
        }
    }

    /// Notes that the capture at this index has no records left.
    pub(crate) fn end_capture(&mut self, place: usize)
        ensures seats { self.new.seats ≡ self.old.seats }
        ensures setting { self.new.setting ≡ self.old.setting }
    {
        self.seating.end(place);
    }

    /// Has each view hear what the connections carried that are open at the end. There is one view
    /// if no record came.
    pub(crate) fn end(&mut self) -> Result<(), AllocError>
        ensures { (heard : List (List RecordText)) → EachHas (choice_in self.old.setting)
            (first_view self.old.setting) heard self.old.seats.items → OnOk result (EachEnded
            (choice_in self.old.setting) (first_view self.old.setting) (at_least_one heard)
            self.new.seats.items) }
    {
        if self.seats.is_empty() {
            self.begin("")?;
        }
        self.end_each()
    }

    /// Has each view hear what is left.
    fn end_each(&mut self) -> Result<(), AllocError>
        ensures { (heard : List (List RecordText)) → EachHas (choice_in self.old.setting)
            (first_view self.old.setting) heard self.old.seats.items → OnOk result (EachEnded
            (choice_in self.old.setting) (first_view self.old.setting) heard
            self.new.seats.items) }
    {
        for index in 0..self.seats.len() {
            match self.seats.get_mut(index) {
                Some(seat) => seat.end(self.setting)?,
                None => break,
            }
        }
        Ok(())
    }
}
