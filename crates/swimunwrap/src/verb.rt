//! What the arguments ask for.

ghost use Rattle.std.specs.Prelude.{◌≡◌, map, string_bytes};

use memberlist_transport::InTheClear;
use std::marker::Model;

/// What the program is asked to do.
#[derive(Clone, Copy, Debug, PartialEq, Eq)]
pub enum Verb {
    /// Unwrap the packets on standard input, and keep lines that cannot be read as they are.
    Lines,
    /// Unwrap the packets on standard input, and leave out the lines that cannot be read.
    Skipping,
    /// Unwrap a stream.
    Stream,
}

/// What the arguments ask for: a verb, the argument that names a file, if there is one, those that
/// name key files, and what becomes of what is in the clear if there are keys.
#[derive(Drop)]
pub struct Chosen {
    verb: Verb,
    files: Vec<String>,
    key_files: Vec<String>,
    clear: InTheClear,
}

impl Model for Chosen {
    ghost use Rattle.std.specs.Prelude.{map, string_bytes};
    ghost use Rattle.swimunwrap.specs.Chosen.{Choice};

    ghost Value = { Choice };

    ghost view = { λ c. record {
      verb = c.verb;
      files = map string_bytes c.files.items;
      key_files = map string_bytes c.key_files.items;
      clear = c.clear;
    } };
}

impl Chosen {
    pub(crate) fn new(
        verb: Verb,
        files: Vec<String>,
        key_files: Vec<String>,
        clear: InTheClear,
    ) -> Chosen
        ensures { result ≡ record {
          verb = verb;
          files = map string_bytes files.items;
          key_files = map string_bytes key_files.items;
          clear = clear;
        } }
    {
        Chosen {
            verb,
            files,
            key_files,
            clear,
        }
    }

    /// What the program is asked to do.
    pub fn verb(&self) -> Verb
        ensures { result ≡ self.now.verb }
    {
        self.verb
    }

    /// The argument that names a file, if there is one.
    pub fn files(&self) -> &[String]
        ensures { map string_bytes result.now ≡ self.now.files }
    {
        &self.files
    }

    /// The arguments that name key files, in the order in which they are read.
    pub fn key_files(&self) -> &[String]
        ensures { map string_bytes result.now ≡ self.now.key_files }
    {
        &self.key_files
    }

    /// What becomes of what is in the clear if there are keys.
    pub fn clear(&self) -> InTheClear
        ensures { result ≡ self.now.clear }
    {
        self.clear
    }
}
