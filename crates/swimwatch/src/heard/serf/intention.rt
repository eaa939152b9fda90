//! An intent about a member, and what it makes of the member.

/// What an intent makes of a member.
#[derive(Clone, Copy, PartialEq, Eq)]
pub(crate) enum Turn {
    /// It leaves, as it says itself, or others while it is alive.
    Leaving,
    /// It is dead, and others say that it has left (Serf's `force-leave`).
    Forced,
    /// It is dead, and a member's state has it among those that left.
    Left,
    /// It does not leave after all: it has joined since.
    Stays,
}

impl Turn {
    /// The words for it.
    pub(crate) fn words(self) -> &'static str {
        match self {
            Turn::Leaving => "leaving",
            Turn::Forced => "forced to leave",
            Turn::Left => "left",
            Turn::Stays => "stays",
        }
    }
}

/// An intent about a member.
#[derive(Clone, Copy)]
pub(crate) struct Intention<'a> {
    /// The bytes of the member's name.
    pub(crate) name: &'a [u8],
    pub(crate) turn: Turn,
    /// The Lamport time of the intent.
    pub(crate) time: u64,
    /// Whether Serf forgets the member at once.
    pub(crate) pruned: bool,
}
