//! What programs over membership tables share: words, input to its bound, output, lines, and
//! reports.
//!
//! | module | subject |
//! |---|---|
//! | `words` | the words after a program's name |
//! | `device` | input and files up to their bound, and output |
//! | `cause` | the same, where a failure is told with the system's cause |
//! | `until` | readers and writers of a connection with a common deadline |
//! | `lines` | lines of input |
//! | `magic` | what a file is by its first bytes |
//! | `report` | the message about a refused run, and its exit status |
//! | `failure` | how a program ends if it has nothing to print |
#![tactic(auto)]

mod cause;
mod device;
mod failure;
mod lines;
mod magic;
mod report;
mod until;
mod words;

pub use cause::{file_bytes, input_bytes, print_bytes};
pub use device::{
    MAX_INPUT_LEN, open_file, read_bytes, read_file, read_input, read_piece, read_to_bound,
    write_out,
};
pub use failure::Failure;
pub use lines::{Lines, lines_of, without_return};
pub use magic::begins_as_capture;
pub use report::{Place, Report, What, fault_name, report_text, status};
pub use until::Until;
pub use words::{WordFault, texts_of, words_of};
