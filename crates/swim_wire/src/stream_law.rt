//! What the bytes of a push/pull stream mean, independent of any code.

ghost use Rattle.std.specs.Prelude.{◌≡◌, ℕ, Bool, List, ◌++◌};
ghost use Rattle.swim_claim.specs.declared.claim.Claim.{Claim};
ghost use Rattle.swim_wire.specs.Streams.{StreamText};

/// No push/pull stream is a proper prefix of another one, and each has one list of claims and one
/// join flag.
pub fn one_stream()
    ensures { (a b x y : List ℕ) (claims others : List Claim) (join flag : Bool)
        → StreamText a claims join → StreamText b others flag → a ++ x ≡ b ++ y
        → (a ≡ b) × (claims ≡ others) × (join ≡ flag) }
{}
