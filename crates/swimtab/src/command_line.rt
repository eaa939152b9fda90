//! The command-line arguments.

ghost use Rattle.std.specs.Prelude.{◌≡◌, true, [], map, string_bytes, IfOk, IfErr};
ghost use Rattle.clap.specs.Words.{app_of, fault_of, takes, subcommand_of, new_app};
ghost use Rattle.swim_program.specs.Words.{IsRefusal};
ghost use Rattle.swimtab.specs.Words.{program, bare, beside, files_command, pair_command, ParsesTo};

use crate::help;
use crate::verb::{Chosen, Verb};
use clap::{Arg, Command};
use std::alloc::{AllocError, Global};
use swim_program::{WordFault, texts_of};

/// The placeholders for the two files of `relate` and `loop`.
static PAIR: [&str; 2] = ["A", "B"];

/// Reads the words after the program's name: none, or `list FILE..`, `merge FILE..`, `relate A B`,
/// `loop A B` or `run`.
///
/// # Errors
///
/// `Words` if they are other words, or ask for help or the version; it has the text to print.
/// `Memory` if out of memory.
pub fn chosen(alloc: Global, words: &[String]) -> Result<Chosen, WordFault>
    // The verb and the files are those of the command that clap finds in the words.
    ensures asks { IfOk result (ParsesTo (subcommand_of program (map string_bytes words.now))) }
    // They are accepted only if clap finds no fault in them, and otherwise refused with a fault
    // that it finds.
    ensures faultless { IfOk result (λ _. fault_of program (map string_bytes words.now) ≡ []) }
    ensures faulty { IfErr result (IsRefusal (fault_of program (map string_bytes words.now))) }
    // Words that clap accepts are refused only if out of memory.
    ensures takes { IfErr result (λ fault. takes program (map string_bytes words.now) ≡ true
        → fault ≡ WordFault.Memory) }
{
    let matches = command(alloc)?.try_get_matches_from(words)?;
    match matches.subcommand() {
        Some((name, found)) => match Verb::named(name) {
            Some(verb) => Ok(Chosen::new(verb, texts_of(alloc, found, "FILE")?)),
            None => unreachable!(),
        },
        None => Ok(Chosen::new(Verb::Packets, Vec::new(alloc))),
    }
}

/// What the help says about a command.
#[derive(Clone, Copy)]
struct Page<'a> {
    name: &'a str,
    about: &'a str,
    example: &'a str,
}

/// The program's commands.
fn command<'a>(alloc: Global) -> Result<Command<'a>, AllocError>
    ensures { IfOk result (λ command. app_of command ≡ program) }
{
    let list = Page {
        name: "list",
        about: "Prints the merged table of push/pull streams",
        example: help::LIST,
    };
    let merge = Page {
        name: "merge",
        about: "Prints that table as one push/pull stream",
        example: help::MERGE,
    };
    let relate = Page {
        name: "relate",
        about: "Compares the tables of two streams: equal, behind, ahead or apart",
        example: help::RELATE,
    };
    let exchange = Page {
        name: "loop",
        about: "Exchanges the tables of two streams over a socket, and prints the first",
        example: help::LOOP,
    };
    let run = Page {
        name: "run",
        about: "Replays a script from standard input, and prints what each node knows at the end",
        example: help::RUN,
    };
    let with_list = add_files(alloc, lone_program(alloc), list)?;
    let with_merge = add_files(alloc, with_list, merge)?;
    let with_relate = add_pair(alloc, with_merge, relate)?;
    let with_loop = add_pair(alloc, with_relate, exchange)?;
    add_lone(alloc, with_loop, run)?.bin_name("swimtab")
}

/// The program without any commands.
fn lone_program<'a>(alloc: Global) -> Command<'a>
    ensures { app_of result ≡ bare }
{
    Command::new(alloc, "swimtab")
        .about("Membership tables of SWIM clusters, from the messages of memberlist")
        .after_help(help::PROGRAM)
        .version(help::VERSION)
        .no_binary_name(true)
        .disable_help_subcommand(true)
}

/// Adds a command that takes one file or more.
fn add_files<'a>(
    alloc: Global,
    command: Command<'a>,
    page: Page<'a>,
) -> Result<Command<'a>, AllocError>
    ensures { IfOk result (λ whole.
        app_of whole ≡ beside (app_of command.entry) (files_command page.entry.name.now)) }
{
    let files = Arg::new(alloc, "FILE")
        .help(help::FILE)
        .required(true)
        .num_args(1..);
    let added = Command::new(alloc, page.name)
        .about(page.about)
        .after_help(page.example)
        .arg(files)?;
    command.subcommand(added)
}

/// Adds a command that takes two files.
fn add_pair<'a>(
    alloc: Global,
    command: Command<'a>,
    page: Page<'a>,
) -> Result<Command<'a>, AllocError>
    ensures { IfOk result (λ whole.
        app_of whole ≡ beside (app_of command.entry) (pair_command page.entry.name.now)) }
{
    let pair = Arg::new(alloc, "FILE")
        .help(help::FILE)
        .required(true)
        .value_names(PAIR.as_slice());
    let added = Command::new(alloc, page.name)
        .about(page.about)
        .after_help(page.example)
        .arg(pair)?;
    command.subcommand(added)
}

/// Adds a command that takes no file.
fn add_lone<'a>(
    alloc: Global,
    command: Command<'a>,
    page: Page<'a>,
) -> Result<Command<'a>, AllocError>
    ensures { IfOk result (λ whole.
        app_of whole ≡ beside (app_of command.entry) (new_app page.entry.name.now)) }
{
    let added = Command::new(alloc, page.name)
        .about(page.about)
        .after_help(page.example);
    command.subcommand(added)
}
