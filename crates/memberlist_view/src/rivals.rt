//! Other agents of one name.

ghost use Rattle.std.specs.Prelude.{length, nat_le, ◌≡◌, ◌∷◌, ◌++◌, [], IfOk};
ghost use Rattle.memberlist_view.specs.Rules.{is_same_place, has_place};

use std::alloc::{AllocError, Global};
use std::marker::Model;
use swim_claim::Details;

/// The most rivals of a member that are noted (own), so that a list of them is cheap to copy
/// whoever claims the name.
const MAX_RIVALS: usize = 255;

/// What other agents of a name, each at an address and port of its own, said about themselves: at
/// most 255, in the order in which they were heard.
#[derive(Drop)]
pub struct Rivals {
    details: Vec<Details>,
}

impl Model for Rivals {
    ghost use Rattle.std.specs.Prelude.{List};
    ghost use Rattle.swim_claim.specs.Details.{DetailsValue};

    ghost Value = { List DetailsValue };

    ghost view = { λ r. r.details.items };
}

/// Whether two agents have the same address and port.
pub(crate) fn is_same_place(details: &Details, other: &Details) -> bool
    ensures { result ≡ is_same_place details.now other.now }
{
    details.addr().cmp(other.addr()).is_eq() && details.port() == other.port()
}

impl Rivals {
    /// None. It takes no memory.
    pub(crate) fn new(alloc: Global) -> Rivals
        ensures { result ≡ [] }
    {
        Rivals {
            details: Vec::new(alloc),
        }
    }

    /// The details of each, in the order in which they were heard.
    pub fn details(&self) -> &[Details]
        ensures { result.now ≡ self.now }
    {
        &self.details
    }

    /// Whether one of them has the address and port of these details.
    pub(crate) fn has_place(&self, details: &Details) -> bool
        ensures { result ≡ has_place self.now details.now }
    {
        self.details
            .iter()
            .any(|rival| is_same_place(rival, details))
    }

    /// Whether no more are noted.
    pub(crate) fn is_full(&self) -> bool
        ensures { result ≡ nat_le 255 (length self.now) }
    {
        MAX_RIVALS <= self.details.len()
    }

    /// A copy.
    pub(crate) fn try_clone(&self, alloc: Global) -> Result<Rivals, AllocError>
        ensures { IfOk result (λ rivals. rivals ≡ self.now) }
    {
        let mut details = Vec::new(alloc);
        for rival in &self.details {
            details.push(rival.try_clone(alloc)?)?;
        }
        Ok(Rivals { details })
    }

    /// These, followed by one more.
    pub(crate) fn with(&self, alloc: Global, rival: &Details) -> Result<Rivals, AllocError>
        ensures { IfOk result (λ rivals. rivals ≡ self.now ++ rival.now ∷ []) }
    {
        let mut rivals = self.try_clone(alloc)?;
        rivals.details.push(rival.try_clone(alloc)?)?;
        Ok(rivals)
    }
}
