//! What the command line asks for.

ghost use Rattle.std.specs.Prelude.{◌≡◌, map, string_bytes};
ghost use Rattle.swimtab.specs.Words.{verb_of};

use std::marker::Model;

/// What the program should do.
#[derive(Clone, Copy, Debug, PartialEq, Eq)]
pub enum Verb {
    /// List the table of the packets on standard input.
    Packets,
    /// List the join of the tables of dumps.
    List,
    /// Print the canonical dump of the join of the tables of dumps.
    Merge,
    /// Print how the tables of two dumps relate.
    Relate,
    /// Exchange the tables of two dumps over a socket, and list the first.
    Loop,
    /// Replay the script on standard input.
    Run,
}

impl Verb {
    /// What the command with this name asks for.
    pub(crate) fn named(name: &str) -> Option<Verb>
        ensures { result ≡ verb_of name.now }
    {
        match name {
            "list" => Some(Verb::List),
            "merge" => Some(Verb::Merge),
            "relate" => Some(Verb::Relate),
            "loop" => Some(Verb::Loop),
            "run" => Some(Verb::Run),
            _ => None,
        }
    }
}

/// What the arguments ask for: a verb, and the words that name files, in order.
#[derive(Drop)]
pub struct Chosen {
    verb: Verb,
    files: Vec<String>,
}

impl Model for Chosen {
    ghost use Rattle.std.specs.Prelude.{map, string_bytes};
    ghost use Rattle.swimtab.specs.Chosen.{Choice};

    ghost Value = { Choice };

    ghost view = { λ c. record { verb = c.verb; files = map string_bytes c.files.items } };
}

impl Chosen {
    pub(crate) fn new(verb: Verb, files: Vec<String>) -> Chosen
        ensures { result ≡ record { verb = verb; files = map string_bytes files.items } }
    {
        Chosen { verb, files }
    }

    /// What the program should do.
    pub fn verb(&self) -> Verb
        ensures { result ≡ self.now.verb }
    {
        self.verb
    }

    /// The words that name files, in order.
    pub fn files(&self) -> &[String]
        ensures { map string_bytes result.now ≡ self.now.files }
    {
        &self.files
    }
}
