//! The command line arguments.

ghost use Rattle.std.specs.Prelude.{◌≡◌, true, false, [], codes, map, string_bytes, IfOk, IfErr};
ghost use Rattle.clap.specs.Words.{app_of, fault_of, found_of, rows_of, first_of, matches_of, rule_of, takes};
ghost use Rattle.clap.specs.Words.{subcommand_of, with_subcommand};
ghost use Rattle.swim_program.specs.Words.{IsRefusal};
ghost use Rattle.swimunwrap.specs.Words.{program, bare, key_rule, clear_rule, stream_command, at_most_one, is_true};
ghost use Rattle.swimunwrap.specs.Words.{verb_of, clear_of, either, ParsesTo};

use crate::help;
use crate::verb::{Chosen, Verb};
use clap::{Arg, ArgAction, ArgMatches, Command};
use memberlist_transport::InTheClear;
use std::alloc::{AllocError, Global};
use swim_program::{WordFault, texts_of};

/// Parses the arguments: none, or `--skip`, or `stream` with or without a file; and before or after
/// `stream` `--key-file` with a file, once for each key file, and `--accept-clear`.
///
/// # Errors
///
/// `Words` if they are invalid, or ask for help or the version; it has the text to print. `Memory`
/// if out of memory.
pub fn chosen(alloc: Global, words: &[String]) -> Result<Chosen, WordFault>
    // The verb and the file are those of the command, or of the flag, that clap finds in the
    // arguments.
    ensures asks { IfOk result (ParsesTo (subcommand_of program (map string_bytes words.now))
        (matches_of program (map string_bytes words.now))) }
    // They are accepted only if clap finds no fault in them, and refused with a fault that it
    // finds.
    ensures faultless { IfOk result (λ _. fault_of program (map string_bytes words.now) ≡ []) }
    ensures faulty { IfErr result (IsRefusal (fault_of program (map string_bytes words.now))) }
    // Arguments that clap accepts are refused only if memory runs out.
    ensures takes { IfErr result (λ fault. takes program (map string_bytes words.now) ≡ true
        → fault ≡ WordFault.Memory) }
{
    let matches = command(alloc)?.try_get_matches_from(words)?;
    let mut key_files = texts_of(alloc, &matches, "key-file")?;
    let clear = clear_of(&matches);
    match matches.subcommand() {
        Some((_, found)) => {
            key_files.append(&mut texts_of(alloc, found, "key-file")?)?;
            let clear = either(clear, clear_of(found));
            Ok(Chosen::new(Verb::Stream, file_of(alloc, found)?, key_files, clear))
        }
        None => Ok(Chosen::new(verb_of(&matches), Vec::new(alloc), key_files, clear)),
    }
}

/// The program's commands.
fn command<'a>(alloc: Global) -> Result<Command<'a>, AllocError>
    ensures { IfOk result (λ command. app_of command ≡ program) }
{
    let skip = Arg::new(alloc, "skip")
        .long("skip")
        .action(ArgAction::SetTrue)
        .help(help::SKIP);
    let with_skip = lone_program(alloc).arg(skip)?;
    let with_keys = with_skip.arg(key_argument(alloc))?;
    let with_flags = with_keys.arg(clear_argument(alloc))?;
    add_stream(alloc, with_flags)?.bin_name("swimunwrap")
}

/// The program without its command and its flags.
fn lone_program<'a>(alloc: Global) -> Command<'a>
    ensures { app_of result ≡ bare }
{
    Command::new(alloc, "swimunwrap")
        .about("Removes what memberlist's transport wraps around messages")
        .after_help(help::PROGRAM)
        .version(help::VERSION)
        .no_binary_name(true)
        .disable_help_subcommand(true)
}

/// Adds the command whose argument may name a file.
fn add_stream<'a>(alloc: Global, command: Command<'a>) -> Result<Command<'a>, AllocError>
    ensures { IfOk result (λ whole.
        app_of whole ≡ with_subcommand (app_of command.entry) stream_command.top) }
{
    let file = Arg::new(alloc, "FILE").help(help::FILE);
    let stream = Command::new(alloc, "stream")
        .about("Prints the push/pull stream in one direction of a TCP connection")
        .after_help(help::STREAM)
        .arg(key_argument(alloc))?
        .arg(clear_argument(alloc))?
        .arg(file)?;
    command.subcommand(stream)
}

/// The flag before each argument that names a key file.
fn key_argument<'a>(alloc: Global) -> Arg<'a>
    ensures rule { rule_of result ≡ key_rule }
    ensures local { result.global ≡ false }
{
    Arg::new(alloc, "key-file")
        .long("key-file")
        .action(ArgAction::Append)
        .help(help::KEY_FILE)
}

/// The flag that accepts what is in the clear.
fn clear_argument<'a>(alloc: Global) -> Arg<'a>
    ensures rule { rule_of result ≡ clear_rule }
    ensures local { result.global ≡ false }
{
    Arg::new(alloc, "accept-clear")
        .long("accept-clear")
        .action(ArgAction::SetTrue)
        .help(help::ACCEPT_CLEAR)
}

/// Whether lines that cannot be read are left out.
fn verb_of(matches: &ArgMatches) -> Verb
    ensures { result ≡ verb_of (rows_of (found_of matches.now)) }
{
    if is_set(matches, "skip") {
        Verb::Skipping
    } else {
        Verb::Lines
    }
}

/// What becomes of what is in the clear if there are keys.
fn clear_of(matches: &ArgMatches) -> InTheClear
    ensures { result ≡ clear_of (rows_of (found_of matches.now)) }
{
    if is_set(matches, "accept-clear") {
        InTheClear::Accepted
    } else {
        InTheClear::Refused
    }
}

/// What is in the clear is accepted if either flag says so.
fn either(before: InTheClear, behind: InTheClear) -> InTheClear
    ensures { result ≡ either before behind }
{
    match before {
        InTheClear::Accepted => InTheClear::Accepted,
        InTheClear::Refused => behind,
    }
}

/// Whether a flag is set.
fn is_set(matches: &ArgMatches, id: &str) -> bool
    ensures { result ≡ is_true (first_of id.now (rows_of (found_of matches.now))) }
{
    match matches.get_str(id) {
        Some(word) => word == "true",
        None => false,
    }
}

/// The argument that names a file, if there is one.
fn file_of(alloc: Global, found: &ArgMatches) -> Result<Vec<String>, AllocError>
    ensures { IfOk result (λ files. map string_bytes files.items
        ≡ at_most_one (first_of (codes "FILE") (rows_of (found_of found.now)))) }
{
    let mut files = Vec::new(alloc);
    if let Some(word) = found.get_str("FILE") {
        files.push(String::from_str(alloc, word)?)?;
    }
    Ok(files)
}
