//! Moments in the format of RFC 3339.

use crate::text::written::Text;
use jiff::Timestamp;
use std::alloc::{AllocError, Global};

/// RFC 3339, in UTC, with six fractional digits of the second.
const FORMAT: &str = "%Y-%m-%dT%H:%M:%S.%6fZ";

/// Adds a moment in microseconds since the start of 1970, in UTC and the format of RFC 3339:
/// `2026-11-25T02:01:22.006000Z`. From the last two days of the year 9999 on, which `jiff` cannot
/// represent, it is `after 9999`.
pub(crate) fn write_moment(text: &mut Text, micros: u64) {
    write_as(text, micros, FORMAT);
}

/// The format of a moment up to the fraction of its second.
const SECOND_FORMAT: &str = "%Y-%m-%dT%H:%M:%S.";

/// Writes moments in the format of [`write_moment`], one after the other. Those in one second share
/// what is written of it.
#[derive(Drop)]
pub(crate) struct Clock {
    /// The second whose text is there, in seconds since the start of 1970.
    second: Option<u64>,
    text: Text,
}

impl Clock {
    pub(crate) fn new(alloc: Global) -> Clock {
        Clock {
            second: None,
            text: Text::new(alloc),
        }
    }

    /// Adds a moment, as [`write_moment`] does.
    pub(crate) fn write(&mut self, text: &mut Text, micros: u64) {
        if timestamp(micros).is_none() {
            return write_moment(text, micros);
        }
        let second = micros / SECOND;
        if self.second != Some(second) {
            self.text.clear();
            write_as(&mut self.text, second * SECOND, SECOND_FORMAT);
            self.second = if self.text.as_str().is_ok() {
                Some(second)
            } else {
                None
            };
        }
        text.push_text(&self.text);
        write!(text, "{:06}Z", micros % SECOND);
    }
}

/// Adds a moment in the same way, in a format of `strftime` in UTC.
pub(crate) fn write_as(text: &mut Text, micros: u64, format: &str) {
    let Some(moment) = timestamp(micros) else {
        return text.push_str("after 9999");
    };
    match moment.strftime(text.alloc(), format) {
        Ok(shown) => text.push_str(&shown),
        Err(_) => text.refuse(),
    }
}

/// The moment this many microseconds after the start of 1970, if `jiff` can represent it.
fn timestamp(micros: u64) -> Option<Timestamp> {
    let micros = i64::try_from(micros).ok()?;
    Timestamp::from_microsecond(micros).ok()
}

/// The moment that a text in RFC 3339 names, in microseconds since the start of 1970. None if it
/// names none, or one before that.
pub(crate) fn moment_of(text: &str) -> Option<u64> {
    match text.parse::<Timestamp>() {
        Ok(moment) => u64::try_from(moment.as_microsecond()).ok(),
        Err(_) => None,
    }
}

/// A moment that a word names: a time in RFC 3339, or a time of the day on which a capture begins.
#[derive(Clone, Copy, PartialEq, Eq)]
pub(crate) enum When {
    /// Microseconds since the start of 1970.
    Moment(u64),
    /// Microseconds since the start of the day.
    Clock(u64),
}

/// The microseconds of a second.
const SECOND: u64 = 1_000_000;

/// The microseconds of a day.
const DAY: u64 = 86_400_000_000;

impl When {
    /// The moment that a word names: `2026-11-25T21:13:50Z`, `21:13:50` or `21:13`.
    pub(crate) fn of(alloc: Global, word: &str) -> Result<Option<When>, AllocError> {
        if let Some(moment) = moment_of(word) {
            return Ok(Some(When::Moment(moment)));
        }
        let seconds = if word.len() == 5 { ":00" } else { "" };
        let clock = format!(in alloc; "1970-01-01T{word}{seconds}Z")?;
        Ok(moment_of(&clock).map(|clock| When::Clock(clock)))
    }

    /// The moment in a capture that begins at this time: a time of the day is on its day, or on the
    /// next one if it would be more than half a day before the capture.
    pub(crate) fn in_capture(self, begun: u64) -> u64 {
        match self {
            When::Moment(moment) => moment,
            When::Clock(clock) => {
                let moment = (begun - begun % DAY).saturating_add(clock);
                if moment.saturating_add(DAY / 2) < begun {
                    moment.saturating_add(DAY)
                } else {
                    moment
                }
            }
        }
    }
}
