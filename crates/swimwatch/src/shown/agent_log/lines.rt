//! Lines of the log of an agent.

use super::Says;
use crate::text::moment::moment_of;
use std::alloc::{AllocError, Global};

/// A line that can be confirmed.
#[derive(Drop)]
pub(crate) struct Line {
    pub(crate) number: u64,
    /// In microseconds since the start of 1970, to the second or better.
    pub(crate) time: u64,
    pub(crate) says: Says,
    /// Of whom.
    pub(crate) name: Vec<u8>,
    pub(crate) is_confirmed: bool,
}

/// What stands before and after the name of a member in a line, and what the line says (memberlist's
/// state.go, of several versions).
const PHRASES: [(&str, &str, Says); 6] = [
    ("Failed ping: ", " (timeout", Says::FailedPing),
    ("Failed UDP ping: ", " (timeout", Says::FailedPing),
    ("Suspect ", " has failed, no acks", Says::Suspect),
    ("Marking ", " as failed", Says::Failed),
    (
        "Was able to connect to ",
        " but other probes",
        Says::Connected,
    ),
    (
        "Was able to connect to ",
        " over TCP but UDP",
        Says::Connected,
    ),
];

/// What stands before the name of a member that joins. The first is the agent itself.
const JOINS: &str = "EventMemberJoin: ";

/// The line with this number, if it says something that captures can confirm.
pub(crate) fn line_of(alloc: Global, number: u64, text: &str) -> Result<Option<Line>, AllocError> {
    let Some(time) = time_of(alloc, text)? else {
        return Ok(None);
    };
    for (before, after, says) in PHRASES {
        let Some((_, rest)) = text.split_once(before) else {
            continue;
        };
        if let Some((name, _)) = rest.split_once(after) {
            return Ok(Some(Line {
                number,
                time,
                says,
                name: name.as_bytes().to_vec(alloc)?,
                is_confirmed: false,
            }));
        }
    }
    Ok(None)
}

/// The name of the agent, if it joins in this line.
pub(crate) fn name_of_agent(alloc: Global, text: &str) -> Result<Option<Vec<u8>>, AllocError> {
    let Some((_, rest)) = text.split_once(JOINS) else {
        return Ok(None);
    };
    match rest.split(' ').next() {
        Some(name) => Ok(Some(name.as_bytes().to_vec(alloc)?)),
        None => Ok(None),
    }
}

/// When a line was written: a time in RFC 3339, or a date and a time as Go's log writes them, in UTC.
fn time_of(alloc: Global, text: &str) -> Result<Option<u64>, AllocError> {
    let mut words = text.trim_start().split(' ');
    let (Some(date), Some(clock)) = (words.next(), words.next()) else {
        return Ok(None);
    };
    if let Some(time) = moment_of(date) {
        return Ok(Some(time));
    }
    let mut parts = date.split('/');
    let (Some(year), Some(month), Some(day)) = (parts.next(), parts.next(), parts.next()) else {
        return Ok(None);
    };
    let moment = format!(in alloc; "{year}-{month}-{day}T{clock}Z")?;
    Ok(moment_of(&moment))
}
