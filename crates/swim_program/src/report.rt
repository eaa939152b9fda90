//! How a refused run is reported, and its exit status.

ghost use Rattle.std.specs.Prelude.{◌≡◌, None, length};
ghost use Rattle.swim_claim.specs.Fault.{claim_number};
ghost use Rattle.swim_program.specs.declared.report.What.TheVariants.{Refused, Memory};
ghost use Rattle.swim_program.specs.Report.{IsAmong, status_of, what_of, what_of_hex};

use hex::FromHexError;
use std::alloc::{AllocError, Global};
use swim_claim::ClaimFault;
use swim_wire::WireFault;

/// Where a run was refused.
#[derive(Clone, Copy, Debug, PartialEq, Eq)]
pub enum Place {
    /// A line of standard input, from 1.
    Line(u64),
    /// A file, by its index among the files on the command line, from 0.
    File(usize),
    /// Standard input as a whole.
    Input,
    /// Standard output.
    Output,
    /// The socket, or what was read from it.
    Loop,
}

/// Why a run was refused.
#[derive(Clone, Copy, Debug, PartialEq, Eq)]
pub enum What {
    /// The input is wrong: the number of the fault, and the value that was found if the fault has
    /// one.
    Refused { number: u32, found: Option<u64> },
    /// A file, a socket or a standard stream failed.
    Device,
    /// Out of memory.
    Memory,
}

/// Why a run was refused, and where.
#[derive(Clone, Copy, Debug, PartialEq, Eq)]
pub struct Report {
    pub place: Place,
    pub what: What,
}

impl What {
    /// A line that is not hexadecimal.
    pub fn bad_hex() -> What
        ensures { result ≡ Refused 30 None }
    {
        What::refused(30)
    }

    /// A line that is not a line of a script, or not allowed at its position.
    pub fn bad_script() -> What
        ensures { result ≡ Refused 31 None }
    {
        What::refused(31)
    }

    /// An input that exceeds its limit.
    pub fn input_too_long() -> What
        ensures { result ≡ Refused 32 None }
    {
        What::refused(32)
    }

    /// A table that has more records than a dump may have.
    pub fn too_many_records() -> What
        ensures { result ≡ Refused 23 None }
    {
        What::refused(23)
    }

    /// A table whose canonical dump is too long for `loop`.
    pub fn too_large_for_loop() -> What
        ensures { result ≡ Refused 28 None }
    {
        What::refused(28)
    }

    fn refused(number: u32) -> What
        ensures { result ≡ Refused number None }
    {
        What::Refused {
            number,
            found: None,
        }
    }

    /// The report of this at a place.
    pub fn at(self, place: Place) -> Report
        ensures { result ≡ record { place = place; what = self } }
    {
        Report { place, what: self }
    }
}

impl From<AllocError> for What {
    ghost from_gives = { λ _ what. what ≡ Memory };

    fn from(_error: AllocError) -> What {
        What::Memory
    }
}

/// A text that is not hexadecimal.
impl From<FromHexError> for What {
    ghost from_gives = { λ error what. what ≡ what_of_hex error };

    fn from(error: FromHexError) -> What {
        match error {
            FromHexError::OutOfMemory => What::Memory,
            _ => What::bad_hex(),
        }
    }
}

impl From<ClaimFault> for What {
    ghost from_gives = { λ fault what. what ≡ Refused (claim_number fault) None };

    fn from(fault: ClaimFault) -> What {
        What::refused(fault.number())
    }
}

impl From<WireFault> for What {
    ghost from_gives = { λ fault what. what ≡ what_of fault };

    fn from(fault: WireFault) -> What {
        match fault {
            WireFault::Memory => What::Memory,
            WireFault::Fault => What::Device,
            WireFault::WrongType { found } => What::Refused {
                number: fault.number(),
                found: Some(u64::from(found)),
            },
            WireFault::BadState { found } => What::Refused {
                number: fault.number(),
                found: Some(found),
            },
            _ => What::refused(fault.number()),
        }
    }
}

/// The text for running out of memory.
pub(crate) const OUT_OF_MEMORY: &str = "out of memory";

/// The line that this program prints on standard error, without its line feed. A file is named as in
/// `files`. It fails only if out of memory for the text.
pub fn report_text(
    alloc: Global,
    program: &str,
    report: &Report,
    files: &[String],
) -> Result<String, AllocError>
    requires { IsAmong report.now.place (length files.now) }
{
    let what = match report.what {
        What::Refused { number, found } => fault_text(alloc, number, found)?,
        What::Device => String::from_str(alloc, "device fault")?,
        What::Memory => return format!(in alloc; "{program}: {OUT_OF_MEMORY}"),
    };
    let place = match report.place {
        Place::Line(line) => format!(in alloc; "line {line}")?,
        Place::File(file) => files[file].clone()?,
        Place::Input => String::from_str(alloc, "input")?,
        Place::Output => String::from_str(alloc, "output")?,
        Place::Loop => String::from_str(alloc, "loop")?,
    };
    format!(in alloc; "{program}: {place}: {what}")
}

/// The text for a fault of this number, with the value that was found if it has one.
fn fault_text(alloc: Global, number: u32, found: Option<u64>) -> Result<String, AllocError> {
    let name = fault_name(number);
    match found {
        Some(found) => format!(in alloc; "fault {number} {name} {found}"),
        None => format!(in alloc; "fault {number} {name}"),
    }
}

/// The exit status of a refused run: 3 if the input is wrong, 4 if a file, a socket or a standard
/// stream failed, and 5 if out of memory.
pub fn status(report: &Report) -> u8
    ensures { result ≡ status_of report.now.what }
{
    match report.what {
        What::Refused { .. } => 3,
        What::Device => 4,
        What::Memory => 5,
    }
}

/// The name of a fault by its number, as docs/faults.md lists them. Faults that no program reports
/// are included, so that the list is complete.
pub fn fault_name(number: u32) -> &'static str {
    match number {
        1 => "Ended",
        2 => "NotUnsigned",
        3 => "OutOfRange",
        4 => "NotBool",
        5 => "NotRaw",
        6 => "TooLong",
        7 => "NotMap",
        8 => "MapCount",
        9 => "Fault",
        10 => "Memory",
        11 => "NameEmpty",
        12 => "NameTooLong",
        13 => "BadAddress",
        14 => "MetaTooLong",
        15 => "BadVersions",
        16 => "WrongType",
        17 => "UnknownKey",
        18 => "DuplicateKey",
        19 => "BadState",
        20 => "TooManyNodes",
        21 => "UserTooLong",
        22 => "Trailing",
        23 => "TooManyRecords",
        24 => "Exhausted",
        25 => "Gone",
        26 => "NoSuchNode",
        27 => "SameNode",
        28 => "TooLargeForLoop",
        29 => "Push",
        30 => "BadHex",
        31 => "BadScript",
        32 => "InputTooLong",
        40 => "Ended",
        41 => "Trailing",
        42 => "BadCode",
        43 => "BadChecksum",
        44 => "BadMap",
        45 => "BadAlgo",
        46 => "BadLabel",
        47 => "TooLarge",
        48 => "TooDeep",
        49 => "Memory",
        50 => "BadKey",
        51 => "TooLong",
        52 => "TooShort",
        53 => "WrongVersion",
        54 => "WrongTag",
        55 => "BadPadding",
        56 => "NotEncrypted",
        57 => "Trailing",
        58 => "Memory",
        59 => "Unencrypted",
        _ => "Unknown",
    }
}
