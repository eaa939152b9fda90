//! Which lines of the logs of agents the captures confirm.

use super::{AgentLog, Says};
use crate::text::json::Object;
use crate::text::moment::write_as;
use crate::text::names::write_name;
use crate::text::texts::moment_text;
use crate::text::written::Text;
use std::alloc::Global;

/// The format of the time of a line.
const FORMAT: &str = "%Y-%m-%dT%H:%M:%SZ";

impl Says {
    /// A few words.
    fn words(self) -> &'static str {
        match self {
            Says::FailedPing => "failed ping",
            Says::Suspect => "suspect",
            Says::Failed => "marked as failed",
            Says::Connected => "connected over TCP",
        }
    }
}

/// Writes each line of the logs that can be confirmed, and whether it is.
pub(crate) fn write_logs(text: &mut Text, logs: &[AgentLog]) {
    for log in logs {
        for line in &log.lines {
            write_name(text, log.word.as_bytes());
            write!(text, ":{}: ", line.number);
            write_as(text, line.time, FORMAT);
            write!(text, " {} ", line.says.words());
            write_name(text, &line.name);
            text.push_str(if line.is_confirmed {
                ": captured\n"
            } else {
                ": not captured\n"
            });
        }
    }
}

/// Writes an object for each.
pub(crate) fn write_log_objects(alloc: Global, text: &mut Text, logs: &[AgentLog]) {
    for log in logs {
        for line in &log.lines {
            let mut object = Object::new(alloc);
            object.escaped("log", log.word.as_bytes());
            object.number("line", line.number);
            object.text("time", moment_text(alloc, line.time));
            object.word("says", line.says.words());
            object.escaped("name", &line.name);
            object.bool("captured", line.is_confirmed);
            object.write(text);
        }
    }
}
