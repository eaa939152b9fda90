//! Showing all of it in one page.

ghost use Rattle.std.specs.Prelude.{◌≡◌};

use super::Watch;
use crate::heard::sent::Sent;
use crate::listening::detecting::Detected;
use crate::shown::deadline::Deadline;
use crate::shown::members::write_member_objects;
use crate::shown::report::Report;
use crate::text::json::{List, Object};
use crate::text::texts::moment_text;
use crate::text::written::Text;
use crate::view::change::Change;
use std::alloc::AllocError;

impl Watch {
    /// Takes in a change, for the chart and for the timeline.
    pub(super) fn report_event(&mut self, sent: &Sent, change: &Change) -> Result<(), AllocError>
        ensures { self.new.listener ≡ self.old.listener }
    {
        self.chart.take(&self.listener, sent, change)?;
        if self.is_timely(sent.time) {
            self.show_event(sent, change)?;
        }
        Ok(())
    }

    /// Adds the object of an event to the timeline.
    pub(crate) fn report_line(&mut self, line: &str) -> Result<(), AllocError>
        ensures listener { self.new.listener ≡ self.old.listener }
        ensures serf { self.new.serf ≡ self.old.serf }
    {
        self.gathered.timeline.push_str(line);
        Ok(())
    }

    /// Writes the report. It has all members, also those whose state began before `--from`.
    pub(super) fn write_report(
        &mut self,
        deadline: Deadline,
        detected: &Detected,
    ) -> Result<(), AllocError>
        ensures { self.new.listener ≡ self.old.listener }
    {
        let mut picture = Text::new(self.alloc);
        self.chart.write(&mut picture)?;
        let mut members = Text::new(self.alloc);
        let deadline = Deadline {
            from: None,
            ..deadline
        };
        write_member_objects(&mut members, self.cluster(deadline));
        let report = Report {
            about: self.about()?,
            picture: picture.end()?,
            members: members.end()?,
            probes: &detected.probes,
            episodes: &detected.episodes,
            timeline: self.gathered.timeline.as_str()?,
        };
        report.write(&mut self.out);
        Ok(())
    }

    /// The object about the captures: their files, the first and the last moment that is shown, and
    /// what was read.
    fn about(&self) -> Result<String, AllocError> {
        let alloc = self.alloc;
        let mut object = Object::new(alloc);
        let mut captures = List::new(alloc);
        for word in &self.gathered.captures {
            captures.word(word);
        }
        object.list("captures", captures);
        if let Some(span) = self.chart.span() {
            object.text("first", moment_text(alloc, span.first));
            object.text("last", moment_text(alloc, span.last));
        }
        object.text("read", self.counts.text(alloc, self.has_keys));
        let mut text = Text::new(alloc);
        object.write(&mut text);
        text.end()
    }
}
