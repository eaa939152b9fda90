//! What holds for the definitions, independent of any code.

ghost use Rattle.std.specs.Prelude.{◌≡◌, ℕ, List};
ghost use Rattle.memberlist_wrap.specs.Crc.{IsCrc};
ghost use Rattle.memberlist_wrap.specs.Lzw.{Lzw};
ghost use Rattle.memberlist_wrap.specs.Wrapping.{Wrapper, Wraps};

/// Bytes have one CRC-32, are a compression of one list of bytes, and wrap one message in one way,
/// whatever the limit.
pub fn one_message()
    ensures crc { (bytes : List ℕ) (c d : ℕ) → IsCrc bytes c → IsCrc bytes d → c ≡ d }
    ensures lzw { (bytes a b : List ℕ) → Lzw bytes a → Lzw bytes b → a ≡ b }
    ensures wraps { (m n : ℕ) (bytes : List ℕ) (ws vs : List Wrapper) (a b : List ℕ)
        → Wraps m ws bytes a → Wraps n vs bytes b → (ws ≡ vs) × (a ≡ b) }
{}
