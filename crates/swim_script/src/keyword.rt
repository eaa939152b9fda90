//! The first words of the lines of a script.

ghost use Rattle.std.specs.Prelude.{◌≡◌, ◌≢◌, None, IfSome};
ghost use Rattle.swim_script.specs.declared.keyword.Keyword.{Keyword};
ghost use Rattle.swim_script.specs.ScriptReading.{word_of};

/// What a line of a script describes, by its first word (own).
#[derive(Clone, Copy, PartialEq, Eq)]
pub(crate) enum Keyword {
    /// A node.
    Node,
    /// A packet or a compound packet that a node hears.
    Hear,
    /// An exchange of two nodes.
    Exchange,
    /// An exchange of two nodes whose reply is lost.
    Half,
    /// A node that refutes.
    Refute,
    /// The levelling of all nodes.
    Level,
}

impl Keyword {
    /// What a line with this first word describes, or `None` if no line begins with it.
    pub(crate) fn named(word: &[u8]) -> Option<Keyword>
        ensures known { IfSome result (λ keyword. word.now ≡ word_of keyword) }
        ensures unknown { result ≡ None → (keyword : Keyword) → word.now ≢ word_of keyword }
    {
        match word {
            b"node" => Some(Keyword::Node),
            b"hear" => Some(Keyword::Hear),
            b"exchange" => Some(Keyword::Exchange),
            b"half" => Some(Keyword::Half),
            b"refute" => Some(Keyword::Refute),
            b"level" => Some(Keyword::Level),
            _ => None,
        }
    }
}
