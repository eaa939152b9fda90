//! What to do next, where a user begins with the wrong word or the wrong file.

use clap::error::ErrorKind;
use swim_program::Failure;

/// Printed after the fault of an input that is a capture.
pub const READS_NO_CAPTURE: &str =
    "swimtab: the input is a capture; swimwatch reads captures: swimwatch members FILE";

/// Printed after an unknown word.
pub const READS_INPUT: &str = "swimtab: packets are read from standard input: swimtab < FILE";

/// Whether the program ends because its first word is no command. It may be the name of a file.
pub fn is_unknown_word(failure: &Failure) -> bool {
    match failure {
        Failure::Words(error) => error.kind() == ErrorKind::InvalidSubcommand,
        _ => false,
    }
}
