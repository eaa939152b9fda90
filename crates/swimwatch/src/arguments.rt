//! The command-line arguments.
//!
//! | module | subject |
//! |---|---|
//! | `chosen` | what was asked for |
//! | `command_line` | the arguments and their meaning |
//! | `pages` | the help page of each command |
//! | `help` | what `--help` and `--version` print |

pub(crate) mod chosen;
pub(crate) mod command_line;
pub(crate) mod help;
pub(crate) mod pages;
