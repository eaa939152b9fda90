//! Why a member that was asked has no table to show.

use crate::NAME;
use crate::asked::answer::NoAnswer;
use crate::asked::connection::NoReply;
use crate::heard::carriage::{MAX_STREAM_LEN, NoStream};
use std::alloc::{AllocError, Global};
use std::io::{Error, ErrorKind};
use swim_program::fault_name;

/// A member without an answer.
#[derive(Drop)]
pub(crate) struct Silence {
    /// The member that was asked, as `10.20.1.11:7946`.
    pub(crate) host: String,
    pub(crate) cause: Cause,
}

/// Why it has none.
#[derive(Drop)]
pub(crate) enum Cause {
    /// Nothing was received to its end.
    NoReply(NoReply),
    /// The connection was closed after no byte.
    Closed,
    /// What was received contains no table.
    NoTable(NoAnswer),
}

impl Silence {
    /// The cause in a few words: `connection refused`.
    pub(crate) fn words(&self, alloc: Global, is_keyless: bool) -> Result<String, AllocError> {
        match &self.cause {
            Cause::NoReply(cause) => reply_words(alloc, cause),
            Cause::Closed => String::from_str(alloc, "closed without an answer"),
            Cause::NoTable(NoAnswer::Error(words)) => format!(in alloc; "error: \"{words}\""),
            Cause::NoTable(NoAnswer::NoStream(cause)) => {
                String::from_str(alloc, stream_words(*cause, is_keyless))
            }
        }
    }

    /// The message for standard error, with the next step.
    pub(crate) fn message(
        &self,
        alloc: Global,
        is_keyless: bool,
        timeout: u64,
    ) -> Result<String, AllocError> {
        let host = &self.host;
        let text = match &self.cause {
            Cause::NoReply(cause) => return reply_message(alloc, host, cause, timeout),
            Cause::NoTable(NoAnswer::Error(words)) => {
                return format!(in alloc;
                    "{NAME}: {host}: the member answered with an error: \"{words}\""
                );
            }
            Cause::Closed => "the member closed the connection without an answer; \
                 its cluster may need a key (--key-file) or a label (--label)",
            Cause::NoTable(NoAnswer::NoStream(NoStream::Closed)) if is_keyless =>
                "the answer is encrypted; give the cluster's keys with --key-file",
            Cause::NoTable(NoAnswer::NoStream(NoStream::Closed)) =>
                "no key decrypts the answer; check the keys (--key-file) and the label (--label)",
            Cause::NoTable(NoAnswer::NoStream(NoStream::Cut)) =>
                "the answer ends in the middle of a stream",
            Cause::NoTable(NoAnswer::NoStream(NoStream::Unencrypted)) =>
                "the answer is not encrypted; --accept-clear believes it",
            Cause::NoTable(NoAnswer::NoStream(NoStream::Invalid(fault))) => {
                let number = fault.number();
                let name = fault_name(number);
                return format!(in alloc;
                    "{NAME}: {host}: the answer has an invalid record: fault {number} {name}"
                );
            }
            Cause::NoTable(NoAnswer::NoStream(_)) =>
                "the answer is not a push/pull stream of memberlist",
        };
        format!(in alloc; "{NAME}: {host}: {text}")
    }

    /// The exit status of a program that shows this member alone: 3 if it answered something that is
    /// not a table, 4 if it did not answer.
    pub(crate) fn status(&self) -> u8 {
        match &self.cause {
            Cause::NoReply(NoReply::TooLong) | Cause::Closed | Cause::NoTable(_) => 3,
            Cause::NoReply(_) => 4,
        }
    }
}

fn reply_words(alloc: Global, cause: &NoReply) -> Result<String, AllocError> {
    let words = match cause {
        NoReply::NoAddress(_) => "no address for that name",
        NoReply::TooLong => return format!(in alloc; "more than {MAX_STREAM_LEN} bytes"),
        NoReply::Late(_) => "timed out",
        NoReply::Memory => return Err(AllocError),
        NoReply::NoConnection(error) | NoReply::Broken(error) => match error_words(error) {
            Some(words) => words,
            None => return format!(in alloc; "{error}"),
        },
    };
    String::from_str(alloc, words)
}

/// The usual words for an error of a connection, if there are some.
fn error_words(error: &Error) -> Option<&'static str> {
    match error.kind() {
        ErrorKind::ConnectionRefused => Some("connection refused"),
        ErrorKind::TimedOut => Some("timed out"),
        ErrorKind::HostUnreachable | ErrorKind::NetworkUnreachable | ErrorKind::NetworkDown => {
            Some("no route")
        }
        ErrorKind::ConnectionReset | ErrorKind::ConnectionAborted | ErrorKind::BrokenPipe => {
            Some("connection reset")
        }
        _ => None,
    }
}

fn stream_words(cause: NoStream, is_keyless: bool) -> &'static str {
    match cause {
        NoStream::Closed if is_keyless => "encrypted, and no key given",
        NoStream::Closed => "no key decrypts it",
        NoStream::Unencrypted => "not encrypted",
        NoStream::Invalid(_) => "an invalid record",
        NoStream::Cut => "ends in the middle of a stream",
        _ => "not a push/pull stream",
    }
}

fn reply_message(
    alloc: Global,
    host: &str,
    cause: &NoReply,
    timeout: u64,
) -> Result<String, AllocError> {
    match cause {
        NoReply::NoAddress(error) => format!(in alloc;
            "{NAME}: {host}: cannot find an address for this name ({error})"
        ),
        NoReply::NoConnection(error) => format!(in alloc;
            "{NAME}: {host}: cannot connect ({error}); is a member listening there?"
        ),
        NoReply::Broken(error) => format!(in alloc;
            "{NAME}: {host}: the connection failed ({error})"
        ),
        NoReply::TooLong => format!(in alloc;
            "{NAME}: {host}: the answer has more than {MAX_STREAM_LEN} bytes"
        ),
        NoReply::Late(len) => format!(in alloc;
            "{NAME}: {host}: no complete answer within {timeout} s ({len} bytes received); \
             try a longer --timeout"
        ),
        NoReply::Memory => Err(AllocError),
    }
}
