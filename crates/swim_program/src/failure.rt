//! How a program ends if it has nothing to print.

ghost use Rattle.std.specs.Prelude.{length};
ghost use Rattle.swim_program.specs.Report.{IsAmong};

use crate::report::OUT_OF_MEMORY;
use crate::{Report, WordFault, report_text, status};
use std::alloc::{AllocError, Global};
use std::io;
use std::process::ExitCode;

/// Why a program ends without its output.
#[derive(Drop)]
pub enum Failure {
    /// The words were refused, or ask for help.
    Words(clap::Error),
    /// A word is not text.
    UnreadableWords,
    /// The run was refused: the message, and the exit status.
    Refused { text: String, status: u8 },
    /// Nobody reads the output any more, as when `head` has enough.
    Closed,
    /// Memory ran out.
    Memory,
}

impl From<WordFault> for Failure {
    fn from(fault: WordFault) -> Failure {
        match fault {
            WordFault::Words(error) => Failure::Words(error),
            WordFault::Memory => Failure::Memory,
        }
    }
}

impl From<AllocError> for Failure {
    fn from(_error: AllocError) -> Failure {
        Failure::Memory
    }
}

/// An error from reading the words.
impl From<io::Error> for Failure {
    fn from(error: io::Error) -> Failure {
        match error.kind() {
            io::ErrorKind::OutOfMemory => Failure::Memory,
            _ => Failure::UnreadableWords,
        }
    }
}

impl Failure {
    /// The failure of a refused run of this program. `files` are the words that name its files.
    pub fn refused(alloc: Global, program: &str, report: &Report, files: &[String]) -> Failure
        requires { IsAmong report.now.place (length files.now) }
    {
        match report_text(alloc, program, report, files) {
            Ok(text) => Failure::Refused {
                text,
                status: status(report),
            },
            Err(AllocError) => Failure::Memory,
        }
    }

    /// The failure of a file, or of a standard stream, with the system's cause:
    /// `swimunwrap: keys: device fault (No such file or directory (os error 2))`.
    pub fn device(alloc: Global, program: &str, place: &str, error: &io::Error) -> Failure {
        if error.kind() == io::ErrorKind::OutOfMemory {
            return Failure::Memory;
        }
        match format!(in alloc; "{program}: {place}: device fault ({error})") {
            Ok(text) => Failure::Refused { text, status: 4 },
            Err(AllocError) => Failure::Memory,
        }
    }

    /// The same failure, which prints a further line on standard error if the run was refused.
    pub fn with_line(self, alloc: Global, line: &str) -> Failure {
        match self {
            Failure::Refused { text, status } => match format!(in alloc; "{text}\n{line}") {
                Ok(text) => Failure::Refused { text, status },
                Err(AllocError) => Failure::Memory,
            },
            failure => failure,
        }
    }

    /// Prints on standard error why this program ends, and returns its exit status. If nobody reads
    /// the output any more, it prints nothing, and the status is 0.
    pub fn tell(&self, rt: &HostRuntime, program: &str) -> ExitCode {
        match self {
            Failure::Words(error) => {
                let _ = rt.eprint(error);
                ExitCode::from(2)
            }
            Failure::UnreadableWords => {
                let _ = eprintln!(rt; "{program}: an argument is not valid UTF-8");
                ExitCode::from(2)
            }
            Failure::Refused { text, status } => {
                let _ = rt.eprintln(text);
                ExitCode::from(*status)
            }
            Failure::Closed => ExitCode::SUCCESS,
            Failure::Memory => {
                let _ = eprintln!(rt; "{program}: {OUT_OF_MEMORY}");
                ExitCode::from(5)
            }
        }
    }
}
