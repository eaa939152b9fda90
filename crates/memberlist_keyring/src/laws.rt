//! Laws of the definitions, independent of any code. Each is the contract of a function that does
//! nothing.

ghost use Rattle.std.specs.Prelude.{◌≡◌, List, ℕ};
ghost use Rattle.memberlist_keyring.specs.KeyFile.{IsKeyText, IsKeyFile};
ghost use Rattle.memberlist_keyring.specs.Opening.{OpensFirst, OpensStreamFirst};

/// A text is that of one key, and a file holds one list of keys.
pub fn one_file()
    ensures text { (text x y : List ℕ) → IsKeyText text x → IsKeyText text y → x ≡ y }
    ensures file { (text : List ℕ) (xs ys : List (List ℕ)) → IsKeyFile text xs
        → IsKeyFile text ys → xs ≡ ys }
{}

/// Keys in one order decrypt bytes to one message.
pub fn one_message()
    ensures packet { (keys : List (List ℕ)) (bytes x y : List ℕ) → OpensFirst keys bytes x
        → OpensFirst keys bytes y → x ≡ y }
    ensures stream { (keys : List (List ℕ)) (bytes x y : List ℕ) → OpensStreamFirst keys bytes x
        → OpensStreamFirst keys bytes y → x ≡ y }
{}
