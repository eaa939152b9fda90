//! Who is in a memberlist cluster, and who said what when, from captured traffic or from members.
//!
//! | module | subject |
//! |---|---|
//! | `text` | how it is written |
//! | `arguments` | the command-line arguments |
//! | `heard` | what crossed the network, and what it says about members |
//! | `view` | what is believed about members |
//! | `chart` | what is drawn |
//! | `shown` | what each command shows |
//! | `listening` | hearing what captures have, and showing what was asked for |
//! | `asked` | asking members for their tables |
//! | `input` | reading several captures together |
//! | `compared` | comparing two captures, streams or members |
//!
//! Each uses only those above it. `laws` has facts about the definitions, independent of any code.
#![tactic(auto)]

mod arguments;
mod asked;
mod chart;
mod compared;
mod heard;
mod input;
mod laws;
mod listening;
mod shown;
mod text;
mod view;

use arguments::chosen::Verb;
use arguments::command_line::{Refusal, chosen};
use asked::pull::pull;
use compared::diff::diff;
use input::captures::{show_captures, take_name};
use std::process::ExitCode;
use swim_program::{Failure, words_of};
use text::said::misused;

/// The program's name, with which its messages on standard error begin.
const NAME: &str = "swimwatch";

fn main(rt: HostRuntime) -> ExitCode {
    match run(&rt) {
        Ok(code) => code,
        Err(failure) => failure.tell(&rt, NAME),
    }
}

fn run(rt: &HostRuntime) -> Result<ExitCode, Failure> {
    let alloc = rt.alloc();
    let words = words_of(rt)?;
    let mut chosen = match chosen(alloc, words.as_slice()) {
        Ok(chosen) => chosen,
        Err(Refusal::Words(fault)) => return Err(Failure::from(fault)),
        Err(Refusal::Value(text)) => return Err(misused(alloc, text)),
    };
    match chosen.verb {
        Verb::Pull => pull(rt, &chosen),
        Verb::Diff => diff(rt, &chosen),
        _ => {
            take_name(rt, &mut chosen)?;
            show_captures(rt, &chosen)?;
            Ok(ExitCode::SUCCESS)
        }
    }
}
