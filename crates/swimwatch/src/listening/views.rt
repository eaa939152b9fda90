//! What each capture shows: a view of its own, or one of all.

ghost use Rattle.std.specs.Prelude.{◌≡◌, [], ℕ, List, Decides, OnOk};
ghost use Rattle.capture.specs.Pcap.{RecordText};
ghost use Rattle.swimwatch.specs.Seated.{AreAlike, EachHas, EachEnded, at_least_one, put};
ghost use Rattle.swimwatch.specs.Viewed.{choice_in, first_view};
ghost use Rattle.swimwatch.specs.Yielded.{IsOver};

use crate::arguments::chosen::Verb;
use crate::heard::counts::Counts;
use crate::heard::serf::queries::Tally;
use crate::listening::printer::Printer;
use crate::listening::seats::Seats;
use crate::listening::setting::Setting;
use crate::listening::watch::Watch;
use crate::shown::agent_log::AgentLog;
use crate::shown::joint::Joint;
use crate::shown::serf_lines::write_tally;
use crate::shown::serf_objects::write_tally_object;
use crate::text::written::Text;
use capture::Record;
use std::alloc::{AllocError, Global};

/// The views of captures, and what they print.
#[derive(Drop)]
pub(crate) struct Views<'a> {
    alloc: Global,
    seats: Seats<'a>,
    pub(crate) printer: Printer,
}

impl<'a> Views<'a> {
    /// No views yet. The logs of agents are held against what is heard.
    pub(crate) fn new(alloc: Global, setting: Setting<'a>, logs: Vec<AgentLog>) -> Views<'a>
        ensures seats { result.seats.seats.items ≡ [] }
        ensures setting { result.seats.setting ≡ setting.entry }
    {
        Views {
            alloc,
            seats: Seats::new(alloc, setting),
            printer: Printer::new(alloc, setting, logs),
        }
    }

    /// Takes in a record of the capture at this index, which this word names.
    pub(crate) fn record(
        &mut self,
        place: usize,
        word: &str,
        record: Record,
        bytes: &[u8],
    ) -> Result<(), AllocError>
        ensures hears { (heard : List (List RecordText)) → EachHas (choice_in self.old.seats.setting)
            (first_view self.old.seats.setting) heard self.old.seats.seats.items → OnOk result
            ((view : ℕ) × EachHas (choice_in self.old.seats.setting)
            (first_view self.old.seats.setting) (put heard view («record», bytes.now))
            self.new.seats.seats.items) }
        ensures setting { self.new.seats.setting ≡ self.old.seats.setting }
    {
        if let Some(nanos) = record.time {
            self.tell_queries(nanos / 1000, false)?;
        }
        let view = self.seats.hear(place, word, record, bytes)?;
        self.seats.print(view, &mut self.printer)
    }

    /// Whether listening is over, so that this record and those after it are left out.
    pub(crate) fn is_over(&self, record: &Record) -> bool
        ensures { Decides result (IsOver self.now.seats.setting.window «record».now) }
    {
        match record.time {
            Some(nanos) => self.seats.setting.window.is_over(nanos / 1000),
            None => false,
        }
    }

    /// Notes that the capture at this index has no records left.
    pub(crate) fn end(&mut self, place: usize)
        ensures seats { self.new.seats.seats ≡ self.old.seats.seats }
        ensures setting { self.new.seats.setting ≡ self.old.seats.setting }
    {
        self.seats.end_capture(place);
    }

    /// Tells what came of the queries whose time is over at this time, or of all that are left.
    fn tell_queries(&mut self, time: u64, is_end: bool) -> Result<(), AllocError>
        ensures alike { OnOk result (AreAlike self.old.seats.seats.items
            self.new.seats.seats.items) }
        ensures setting { self.new.seats.setting ≡ self.old.seats.setting }
    {
        let now = time.min(self.seats.setting.window.until.unwrap_or(u64::MAX));
        for _ in 0..self.printer.queries() {
            match self.printer.tally(now, is_end) {
                Some(tally) => self.tell_query(&tally)?,
                None => break,
            }
        }
        Ok(())
    }

    /// Tells what came of a query.
    fn tell_query(&mut self, tally: &Tally) -> Result<(), AllocError>
        ensures alike { OnOk result (AreAlike self.old.seats.seats.items
            self.new.seats.seats.items) }
        ensures setting { self.new.seats.setting ≡ self.old.seats.setting }
    {
        let mut line = Text::new(self.alloc);
        let chosen = self.seats.setting.chosen;
        if chosen.json || chosen.verb.gathers() {
            write_tally_object(&mut line, tally);
        } else {
            write_tally(&mut line, tally);
        }
        if chosen.verb.gathers() && !self.seats.seats.is_empty() {
            return self.seats.report(line.as_str()?);
        }
        self.printer.out.push_text(&line);
        Ok(())
    }

    /// Shows what is shown only at the end.
    pub(crate) fn finish(&mut self) -> Result<(), AllocError>
        ensures ended { (heard : List (List RecordText)) → EachHas (choice_in self.old.seats.setting)
            (first_view self.old.seats.setting) heard self.old.seats.seats.items → OnOk result
            (EachEnded (choice_in self.old.seats.setting) (first_view self.old.seats.setting)
            (at_least_one heard) self.new.seats.seats.items) }
    {
        self.seats.end()?;
        self.show_end()
    }

    /// Shows what is shown once all was heard.
    fn show_end(&mut self) -> Result<(), AllocError>
        ensures { OnOk result (AreAlike self.old.seats.seats.items self.new.seats.seats.items) }
    {
        self.seats.print_all(&mut self.printer)?;
        self.tell_queries(self.now(), true)?;
        if self.seats.setting.chosen.verb == Verb::Members && self.seats.seats.len() > 1 {
            return self.finish_members();
        }
        self.finish_view(0)
    }

    /// Shows what the view at this index shows only at the end.
    fn finish_view(&mut self, view: usize) -> Result<(), AllocError>
        ensures { OnOk result (AreAlike self.old.seats.seats.items self.new.seats.seats.items) }
    {
        let detected = self.printer.finish(self.seats.setting.chosen)?;
        self.seats.finish(view, &detected)?;
        self.seats.print_all(&mut self.printer)
    }

    /// Shows the members of several views.
    fn finish_members(&mut self) -> Result<(), AllocError>
        ensures { OnOk result (AreAlike self.old.seats.seats.items self.new.seats.seats.items) }
    {
        match self.joint()? {
            Joint::View(view) => self.finish_view(view),
            Joint::Text(text) => {
                self.printer.out.push_text(&text);
                Ok(())
            }
        }
    }

    /// How the members of several views are shown.
    fn joint(&self) -> Result<Joint, AllocError> {
        let mut shown = Vec::new(self.alloc);
        for seat in &self.seats.seats {
            shown.push((seat.watch.name()?, seat.watch.roster()?))?;
        }
        Joint::of(self.alloc, &shown, self.seats.setting.chosen.json)
    }

    /// The last moment at which something was captured.
    fn now(&self) -> u64 {
        let mut now = 0;
        for seat in &self.seats.seats {
            now = seat.watch.now().max(now);
        }
        now
    }

    /// What was read and left out, in all views.
    pub(crate) fn counts(&self) -> Counts {
        let mut counts = Counts::default();
        for seat in &self.seats.seats {
            counts.add(&seat.watch.counts);
        }
        counts
    }

    /// The view of all captures, if they are one.
    pub(crate) fn only(&self) -> Option<&Watch> {
        match self.seats.seats.as_slice() {
            [seat] => Some(&seat.watch),
            _ => None,
        }
    }

    /// Whether no view heard of the only member to show.
    pub(crate) fn lacks_member(&self) -> Result<bool, AllocError> {
        for seat in &self.seats.seats {
            if !seat.watch.lacks_member()? {
                return Ok(false);
            }
        }
        let chosen = self.seats.setting.chosen;
        let is_pair = chosen.verb == Verb::Distances && chosen.probing.target.is_some();
        Ok(is_pair || chosen.member.is_some())
    }
}
