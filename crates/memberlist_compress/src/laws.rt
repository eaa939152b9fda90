//! What holds for the definitions, independent of any code.

ghost use Rattle.std.specs.Prelude.{◌≡◌, ℕ, List, ◌+◌, ◌≤◌, length};
ghost use Rattle.memberlist_wrap.specs.Wrapping.{UnwrapsIn};
ghost use Rattle.memberlist_compress.specs.Compressed.{IsCompression, IsSent};

/// What a message within the limit unwraps to, a compression of it unwraps to, with one wrapper
/// more, and to nothing else.
pub fn round_trip()
    ensures there { (depth limit : ℕ) (made message inner : List ℕ) → IsCompression made message
        → length message ≤ limit → UnwrapsIn depth limit message inner
        → UnwrapsIn (depth + 1) limit made inner }
    ensures back { (depth limit : ℕ) (made message inner : List ℕ) → IsCompression made message
        → UnwrapsIn (depth + 1) limit made inner → UnwrapsIn depth limit message inner }
{}

/// What a message within the limit unwraps to, what is sent for it unwraps to, with at most one
/// wrapper more, and to nothing else.
pub fn sent_round_trip()
    ensures there { (depth limit : ℕ) (message sent inner : List ℕ) → IsSent message sent
        → length message ≤ limit → UnwrapsIn depth limit message inner
        → UnwrapsIn (depth + 1) limit sent inner }
    ensures back { (depth limit : ℕ) (message sent inner : List ℕ) → IsSent message sent
        → UnwrapsIn depth limit sent inner → UnwrapsIn depth limit message inner }
{}
