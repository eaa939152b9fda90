//! Scripts: which nodes a cluster has and what happens in it, read from the lines of an input.
//!
//! | module | subject |
//! |---|---|
//! | `keyword` | the first words of lines |
//! | `script_word` | the other words: numbers, bytes and names |
//! | `script_line` | one line: a node, an event, or the levelling of all nodes |
//! | `script` | all lines of an input, and the plan that they describe |
#![tactic(auto)]

mod keyword;
mod script;
mod script_line;
mod script_word;

pub use script::{Plan, read_script};
