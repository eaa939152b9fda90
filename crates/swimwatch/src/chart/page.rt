//! What surrounds the rows.

use crate::chart::axis::Ticks;
use crate::chart::span::{Span, WIDTH};
use crate::chart::style::{MARKS, STATES, STYLE, shape};
use crate::text::moment::{write_as, write_moment};
use crate::text::texts::event_words;
use crate::text::written::Text;

/// Where the first row begins, in pixels from the top.
const TOP: u64 = 92;

/// The height of a row, in pixels.
const ROW: u64 = 22;

/// From this number of rows on, the axis is also drawn below them.
const MANY: usize = 20;

/// The format of a time with its date, and without it.
const DATED: &str = "%Y-%m-%d %H:%M:%S.%6f";

const OF_THE_DAY: &str = "%H:%M:%S.%6f";

/// A picture: the period that it shows, its number of rows, and where they begin.
#[derive(Clone, Copy)]
pub(crate) struct Page {
    span: Option<Span>,
    count: usize,
    left: u64,
}

impl Page {
    /// A picture with this many rows, and names at most this many pixels wide.
    pub(crate) fn new(span: Option<Span>, count: usize, names: u64) -> Page {
        Page {
            span,
            count,
            left: names.saturating_add(26),
        }
    }

    /// The period that it shows.
    pub(crate) fn span(&self) -> Span {
        match self.span {
            Some(span) => span,
            None => Span::at(0),
        }
    }

    /// Where the rows begin, in pixels from the left.
    pub(crate) fn left(&self) -> u64 {
        self.left
    }

    /// Where the first row begins, in pixels from the top.
    pub(crate) fn top(&self) -> u64 {
        TOP
    }

    /// Where the row after one begins.
    pub(crate) fn below(&self, top: u64) -> u64 {
        top.saturating_add(ROW)
    }

    /// Where the last row ends.
    fn bottom(&self) -> u64 {
        (self.count as u64).saturating_mul(ROW).saturating_add(TOP)
    }

    /// Adds a time, without its date if the title has it.
    pub(crate) fn write_time(&self, text: &mut Text, time: u64) {
        let is_of_one_day = self.span().is_of_one_day();
        write_as(text, time, if is_of_one_day { OF_THE_DAY } else { DATED })
    }

    /// Adds all that comes before the rows.
    pub(crate) fn write_head(&self, text: &mut Text) {
        let width = self.left.saturating_add(WIDTH).saturating_add(40);
        let below = if self.count < MANY { 16 } else { 36 };
        let height = self.bottom().saturating_add(below);
        write!(
            text,
            "<svg xmlns=\"http://www.w3.org/2000/svg\" version=\"1.1\" role=\"img\" \
             width=\"{width}\" height=\"{height}\" viewBox=\"0 0 {width} {height}\">\n<title>"
        );
        self.write_what(text);
        self.write_range(text);
        text.push_str(
            "</title>\n<desc>A row for each member, by name. A bar shows since when and until when \
             it was alive, suspect, dead or left; a mark shows a conflict, a refutation or a \
             return.</desc>\n",
        );
        text.push_str(STYLE);
        text.push_str("<rect class=\"page\" width=\"100%\" height=\"100%\"/>\n");
        self.write_title(text);
        if self.count == 0 {
            return;
        }
        write_legend(text);
        self.write_axis(text)
    }

    /// Adds the number of members shown.
    fn write_what(&self, text: &mut Text) {
        match self.count {
            0 => text.push_str("No members"),
            1 => text.push_str("1 member"),
            count => write!(text, "{count} members"),
        }
    }

    /// Adds the start and the end, if something was sent.
    fn write_range(&self, text: &mut Text) {
        let Some(span) = self.span else {
            return;
        };
        text.push_str(" from ");
        write_moment(text, span.first);
        text.push_str(" to ");
        write_moment(text, span.last)
    }

    /// Adds the visible title.
    fn write_title(&self, text: &mut Text) {
        text.push_str("<text class=\"title\" x=\"16\" y=\"28\">");
        self.write_what(text);
        if let Some(span) = self.span {
            text.push_str(", ");
            write_as(text, span.first, DATED);
            text.push_str(" to ");
            self.write_time(text, span.last);
            text.push_str(" UTC");
        }
        text.push_str("</text>\n")
    }

    /// Adds round times above the rows, and also below them if there are many, with lines through
    /// them.
    fn write_axis(&self, text: &mut Text) {
        let bottom = self.bottom();
        let Some(ticks) = text.made(Ticks::of(text.alloc(), self.span())) else {
            return;
        };
        for time in &ticks.times {
            let x = self.left.saturating_add(self.span().place(*time));
            write!(text, "<path class=\"grid\" d=\"M{x} {TOP}V{bottom}\"/>\n");
            write_tick(text, x, TOP.saturating_sub(6), *time, &ticks);
            if MANY <= self.count {
                write_tick(text, x, bottom.saturating_add(16), *time, &ticks);
            }
        }
    }
}

fn write_tick(text: &mut Text, x: u64, y: u64, time: u64, ticks: &Ticks) {
    write!(text, "<text class=\"tick\" x=\"{x}\" y=\"{y}\">");
    write_as(text, time, ticks.format(time));
    text.push_str("</text>\n")
}

/// Adds what the bars and the marks mean.
fn write_legend(text: &mut Text) {
    for (word, x) in &STATES {
        let behind = x.saturating_add(30);
        write!(
            text,
            "<rect class=\"{word}\" x=\"{x}\" y=\"44\" width=\"24\" height=\"14\"/>\
             <text x=\"{behind}\" y=\"55\">{word}</text>\n"
        );
    }
    for (event, x) in &MARKS {
        let behind = x.saturating_add(12);
        write!(
            text,
            "<path class=\"mark\" d=\"M{x} 51{}\"/><text x=\"{behind}\" y=\"55\">{}</text>\n",
            shape(*event),
            event_words(*event)
        );
    }
}
