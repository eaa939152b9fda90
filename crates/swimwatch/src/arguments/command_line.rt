//! The command-line arguments.

use crate::arguments::chosen::{Asking, Chosen, Following, Probing, SUSPICION_MULT, Verb};
use crate::arguments::pages::command;
use crate::text::moment::When;
use crate::text::names::name_bytes;
use crate::text::window::Times;
use clap::ArgMatches;
use jiff::fmt::friendly::parse_unsigned_duration;
use memberlist_cipher::MAX_LABEL_LEN;
use memberlist_transport::InTheClear;
use std::alloc::{AllocError, Global};
use std::time::Duration;
use swim_program::{WordFault, texts_of};

/// memberlist's `GossipToTheDeadTime` in a local network, in seconds.
const WAIT: u64 = 30;

/// How many seconds a member may take to answer by default.
const TIMEOUT: u64 = 5;

/// The shortest period after which members are asked again, in milliseconds.
const SHORTEST: u128 = 100;

/// What is said of an `--at` that is no time.
const AT_NEEDS: &str = "--at needs a time like 2026-11-25T02:01:43Z, 02:01:43 or 02:01";

/// Why the arguments are refused.
#[derive(Drop)]
pub(crate) enum Refusal {
    /// clap refuses them, or they ask for help.
    Words(WordFault),
    /// The value of an argument is invalid.
    Value(&'static str),
}

impl From<WordFault> for Refusal {
    fn from(fault: WordFault) -> Refusal {
        Refusal::Words(fault)
    }
}

impl From<AllocError> for Refusal {
    fn from(error: AllocError) -> Refusal {
        Refusal::Words(WordFault::from(error))
    }
}

impl From<clap::Error> for Refusal {
    fn from(error: clap::Error) -> Refusal {
        Refusal::Words(WordFault::from(error))
    }
}

/// Reads the words after the program's name.
pub(crate) fn chosen(alloc: Global, words: &[String]) -> Result<Chosen, Refusal> {
    let matches = command(alloc)?.try_get_matches_from(words)?;
    match matches.subcommand() {
        Some((name, found)) => match Verb::named(name) {
            Some(verb) => chosen_of(alloc, verb, found),
            None => Err(Refusal::Value("unknown command; --help lists the commands")),
        },
        None => Err(Refusal::Value("no command given; --help lists the commands")),
    }
}

/// What the arguments of a command ask for.
fn chosen_of(alloc: Global, verb: Verb, found: &ArgMatches) -> Result<Chosen, Refusal> {
    let mut chosen = Chosen::new(alloc, verb);
    chosen.take(alloc, found)?;
    Ok(chosen)
}

impl Chosen {
    fn take(&mut self, alloc: Global, found: &ArgMatches) -> Result<(), Refusal> {
        self.take_flags(found);
        self.take_numbers(found)?;
        self.take_times(alloc, found)?;
        self.take_words(alloc, found)?;
        self.take_settings(alloc, found)
    }

    fn take_numbers(&mut self, found: &ArgMatches) -> Result<(), Refusal> {
        let Some(wait) = seconds_of(found.get_str("wait"), WAIT) else {
            return Err(Refusal::Value("--wait needs a number of seconds"));
        };
        let Some(mult) = seconds_of(found.get_str("suspicion-mult"), SUSPICION_MULT) else {
            return Err(Refusal::Value("--suspicion-mult needs a number"));
        };
        self.wait = wait.saturating_mul(1_000_000);
        self.mult = mult;
        Ok(())
    }

    /// Of a comparison, --at may be there twice, and names no time that is shown.
    fn take_times(&mut self, alloc: Global, found: &ArgMatches) -> Result<(), Refusal> {
        if self.verb == Verb::Diff {
            self.moments = moments_of(alloc, found)?;
        } else {
            self.times = times_of(alloc, found)?;
        }
        Ok(())
    }

    fn take_words(&mut self, alloc: Global, found: &ArgMatches) -> Result<(), Refusal> {
        self.member = name_of(alloc, found.get_str("member"))?;
        self.inputs = texts_of(alloc, found, "INPUT")?;
        self.key_files = texts_of(alloc, found, "key-file")?;
        self.agent_logs = texts_of(alloc, found, "agent-log")?;
        if let Some(word) = found.get_str("start") {
            self.start = Some(String::from_str(alloc, word)?);
        }
        Ok(())
    }

    fn take_settings(&mut self, alloc: Global, found: &ArgMatches) -> Result<(), Refusal> {
        self.ports = ports_of(alloc, found)?;
        self.asking = asking_of(alloc, found)?;
        self.following = following_of(alloc, found)?;
        self.probing = probing_of(alloc, found)?;
        Ok(())
    }

    fn take_flags(&mut self, found: &ArgMatches) {
        self.merge = is_set(found, "merge");
        self.json = is_set(found, "json");
        self.dump = is_set(found, "dump");
        self.events = is_set(found, "events");
    }
}

/// Which probes to show, and how their cluster is set up.
fn probing_of(alloc: Global, found: &ArgMatches) -> Result<Probing, Refusal> {
    Ok(Probing {
        prober: name_of(alloc, found.get_str("prober"))?,
        target: name_of(alloc, found.get_str("target"))?,
        timeout: micros_of(
            found.get_str("probe-timeout"),
            "--probe-timeout needs a time like 500ms",
        )?,
        interval: micros_of(
            found.get_str("probe-interval"),
            "--probe-interval needs a time like 1s",
        )?,
    })
}

/// The name that a word says, if there is a word.
fn name_of(alloc: Global, word: Option<&str>) -> Result<Option<Vec<u8>>, AllocError> {
    match word {
        None => Ok(None),
        Some(word) => Ok(Some(name_bytes(alloc, word)?)),
    }
}

/// The microseconds that a word says, at least one, if there is a word.
fn micros_of(word: Option<&str>, refusal: &'static str) -> Result<Option<u64>, Refusal> {
    match span_of(word, refusal)? {
        Some(span) => Ok(Some(u64::try_from(span.as_micros()).unwrap_or(u64::MAX))),
        None => Ok(None),
    }
}

/// The time that a word says, at least a microsecond, if there is a word.
fn span_of(word: Option<&str>, refusal: &'static str) -> Result<Option<Duration>, Refusal> {
    let Some(word) = word else {
        return Ok(None);
    };
    match parse_unsigned_duration(word.as_bytes()) {
        Ok(span) if span.as_micros() > 0 => Ok(Some(span)),
        _ => Err(Refusal::Value(refusal)),
    }
}

/// How to ask members again and again, if `--every` is there.
fn following_of(alloc: Global, found: &ArgMatches) -> Result<Option<Following>, Refusal> {
    let count = match found.get_str("count") {
        None => None,
        Some(word) => match word.parse::<u64>() {
            Ok(count) if count > 0 => Some(count),
            _ => return Err(Refusal::Value("--count needs a number, at least 1")),
        },
    };
    let metrics = match found.get_str("metrics") {
        None => None,
        Some(word) => Some(String::from_str(alloc, word)?),
    };
    let forget = span_of(found.get_str("forget"), "--forget needs a time like 24h")?;
    let Some(word) = found.get_str("every") else {
        return match (count, metrics, forget) {
            (None, None, None) => Ok(None),
            _ => Err(Refusal::Value("--count, --metrics and --forget need --every")),
        };
    };
    match parse_unsigned_duration(word.as_bytes()) {
        Ok(every) if every.as_millis() >= SHORTEST => Ok(Some(Following {
            every,
            count,
            metrics,
            forget,
        })),
        _ => Err(Refusal::Value("--every needs a time like 2s or 500ms, at least 100ms")),
    }
}

/// The time that is shown.
fn times_of(alloc: Global, found: &ArgMatches) -> Result<Times, Refusal> {
    let at = when_of(alloc, found.get_str("at"), AT_NEEDS)?;
    let from = when_of(
        alloc,
        found.get_str("from"),
        "--from needs a time like 2026-11-25T02:01:43Z, 02:01:43 or 02:01",
    )?;
    let to = when_of(
        alloc,
        found.get_str("to"),
        "--to needs a time like 2026-11-25T02:01:43Z, 02:01:43 or 02:01",
    )?;
    let span = match found.get_str("for") {
        None => None,
        Some(word) => match parse_unsigned_duration(word.as_bytes()) {
            Ok(span) => Some(u64::try_from(span.as_micros()).unwrap_or(u64::MAX)),
            Err(_) => return Err(Refusal::Value("--for needs a time like 60s or 5m")),
        },
    };
    let to = at.or(to);
    Ok(Times { from, to, span })
}

/// The times at which a capture is compared with itself.
fn moments_of(alloc: Global, found: &ArgMatches) -> Result<Vec<When>, Refusal> {
    let mut moments = Vec::new(alloc);
    for word in &texts_of(alloc, found, "at")? {
        match When::of(alloc, word)? {
            Some(when) => moments.push(when).map_err(AllocError::from)?,
            None => return Err(Refusal::Value(AT_NEEDS)),
        }
    }
    Ok(moments)
}

/// The moment that a word names, if there is a word.
fn when_of(
    alloc: Global,
    word: Option<&str>,
    refusal: &'static str,
) -> Result<Option<When>, Refusal> {
    match word {
        None => Ok(None),
        Some(word) => match When::of(alloc, word)? {
            Some(when) => Ok(Some(when)),
            None => Err(Refusal::Value(refusal)),
        },
    }
}

/// The ports whose traffic is taken in.
fn ports_of(alloc: Global, found: &ArgMatches) -> Result<Vec<u16>, Refusal> {
    let mut ports = Vec::new(alloc);
    for word in &texts_of(alloc, found, "port")? {
        match word.parse::<u16>() {
            Ok(port) => ports.push(port).map_err(AllocError::from)?,
            Err(_) => return Err(Refusal::Value("--port needs a number from 0 to 65535")),
        }
    }
    Ok(ports)
}

/// How to ask members.
fn asking_of(alloc: Global, found: &ArgMatches) -> Result<Asking, Refusal> {
    let timeout = match seconds_of(found.get_str("timeout"), TIMEOUT) {
        Some(seconds) if seconds > 0 => seconds,
        _ => return Err(Refusal::Value("--timeout needs a number of seconds, at least 1")),
    };
    let label = match found.get_str("label") {
        None => Vec::new(alloc),
        Some(word) if matches!(word.len(), 1..=MAX_LABEL_LEN) => word.as_bytes().to_vec(alloc)?,
        Some(_) => return Err(Refusal::Value("--label must have 1 to 255 bytes")),
    };
    let clear = if is_set(found, "accept-clear") {
        InTheClear::Accepted
    } else {
        InTheClear::Refused
    };
    Ok(Asking {
        timeout,
        label,
        clear,
    })
}

/// The seconds that a word says, or the default if there is no word. None if the word is not a
/// number.
fn seconds_of(word: Option<&str>, otherwise: u64) -> Option<u64> {
    match word {
        None => Some(otherwise),
        Some(word) => match word.parse::<u32>() {
            Ok(seconds) => Some(u64::from(seconds)),
            Err(_) => None,
        },
    }
}

/// Whether a flag is there.
fn is_set(found: &ArgMatches, id: &str) -> bool {
    matches!(found.get_str(id), Some("true"))
}
