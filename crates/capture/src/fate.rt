//! What became of a segment.

/// What became of a segment that a flow was given.
#[derive(Clone, Copy, Debug, PartialEq, Eq)]
pub enum Fate {
    /// It has no new byte.
    Known,
    /// The flow has more bytes without a gap.
    Joined,
    /// It waits for the bytes before it.
    Waits,
    /// It is left out: it ends more than 16,777,216 bytes after the first gap, or the flow would
    /// have more than 33,554,432 bytes.
    Beyond,
    /// It is left out: 4,096 segments wait already.
    Crowded,
}
