//! Which of two claims about one name overrides the other.
ghost use Rattle.std.specs.Prelude.{◌≡◌, ◌↔◌, IsTrue};
ghost use Rattle.swim_claim.specs.declared.claim.Claim.{Claim};
ghost use Rattle.swim_claim.specs.Claim.{name_of, Overrides, HasFacts, IsLegalFacts};

use crate::claim::{Claim, Facts, Kind};

/// Whether the first of two claims about one name overrides the second.
///
/// The table of the kinds is that of [`outranks`].
pub fn overrides(first: &Claim, second: &Claim) -> bool
    requires { name_of first.now ≡ name_of second.now }
    ensures { IsTrue result ↔ Overrides first.now second.now }
{
    outranks(first.facts(), second.facts())
}

/// Whether a claim with the first facts overrides one about the same name with the second.
///
/// | first | second | if | source |
/// |---|---|---|---|
/// | alive | alive | the first has the greater incarnation | SWIM paper, section 4.2, rule 1 |
/// | alive | alive | same incarnation, and the first has the greater details | own |
/// | alive | suspect | the first has the greater incarnation | SWIM paper, section 4.2, rule 1 |
/// | suspect | suspect | the first has the greater incarnation | SWIM paper, section 4.2, rule 2 |
/// | suspect | alive | the first has no smaller incarnation | SWIM paper, section 4.2, rule 2 |
/// | confirm | alive, suspect | always | SWIM paper, section 4.2, rule 3 |
/// | confirm | confirm, leave | the first has the greater incarnation | own |
/// | leave | alive, suspect | always | own |
/// | leave | leave | the first has the greater incarnation | own |
/// | leave | confirm | the first has no smaller incarnation | own |
///
/// No other claim overrides another one. Facts have details if and only if the kind is alive.
pub fn outranks(first: Facts, second: Facts) -> bool
    requires first { IsLegalFacts first }
    requires second { IsLegalFacts second }
    ensures { (c d : Claim) → HasFacts c first.entry → HasFacts d second.entry
        → (IsTrue result ↔ Overrides c d) }
{
    match (first.kind, second.kind) {
        (Kind::Alive, Kind::Alive) => {
            first.inc > second.inc || first.inc == second.inc && first.details > second.details
        }
        (Kind::Alive, Kind::Suspect) => first.inc > second.inc,
        (Kind::Suspect, Kind::Alive) => first.inc >= second.inc,
        (Kind::Suspect, Kind::Suspect) => first.inc > second.inc,
        (Kind::Confirm | Kind::Leave, Kind::Alive | Kind::Suspect) => true,
        (Kind::Confirm, Kind::Confirm | Kind::Leave) => first.inc > second.inc,
        (Kind::Leave, Kind::Confirm) => first.inc >= second.inc,
        (Kind::Leave, Kind::Leave) => first.inc > second.inc,
        (Kind::Alive | Kind::Suspect, Kind::Confirm | Kind::Leave) => false,
    }
}
