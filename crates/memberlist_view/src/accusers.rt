//! Who suspects a member.

ghost use Rattle.std.specs.Prelude.{length, nat_le, ◌≡◌, ◌∷◌, ◌++◌, [], IfOk};
ghost use Rattle.std.specs.Option.{option_copied, option_to_list};
ghost use Rattle.memberlist_view.specs.Rules.{has_name};

use crate::member_name::MemberName;
use std::alloc::{AllocError, Global};
use std::marker::Model;

/// The most accusers of a member that are noted (own), so that a list of them is cheap to copy
/// whoever accuses.
const MAX_ACCUSERS: usize = 255;

/// Who suspects a member, at most 255, in the order in which they were heard.
#[derive(Drop)]
pub struct Accusers {
    names: Vec<MemberName>,
}

impl Model for Accusers {
    ghost use Rattle.std.specs.Prelude.{ℕ, List};

    ghost Value = { List (List ℕ) };

    ghost view = { λ a. a.names.items };
}

impl Accusers {
    /// The given one, if there is one.
    pub(crate) fn new(alloc: Global, first: Option<&MemberName>) -> Result<Accusers, AllocError>
        ensures { IfOk result (λ accusers. accusers ≡ option_to_list (option_copied first.entry)) }
    {
        let mut names = Vec::new(alloc);
        if let Some(name) = first {
            names.push(name.try_clone(alloc)?)?;
        }
        Ok(Accusers { names })
    }

    /// Their names, in the order in which they were heard.
    pub fn names(&self) -> &[MemberName]
        ensures { result.now ≡ self.now }
    {
        &self.names
    }

    /// Whether the name is among them.
    pub fn contains(&self, name: &MemberName) -> bool
        ensures { result ≡ has_name name.now self.now }
    {
        self.names.iter().any(|accuser| *accuser == *name)
    }

    /// Whether no more are noted.
    pub(crate) fn is_full(&self) -> bool
        ensures { result ≡ nat_le 255 (length self.now) }
    {
        MAX_ACCUSERS <= self.names.len()
    }

    /// A copy.
    pub(crate) fn try_clone(&self, alloc: Global) -> Result<Accusers, AllocError>
        ensures { IfOk result (λ accusers. accusers ≡ self.now) }
    {
        let mut names = Vec::new(alloc);
        for name in &self.names {
            names.push(name.try_clone(alloc)?)?;
        }
        Ok(Accusers { names })
    }

    /// These, followed by one more.
    pub(crate) fn with(&self, alloc: Global, name: &MemberName) -> Result<Accusers, AllocError>
        ensures { IfOk result (λ accusers. accusers ≡ self.now ++ name.now ∷ []) }
    {
        let mut accusers = self.try_clone(alloc)?;
        accusers.names.push(name.try_clone(alloc)?)?;
        Ok(accusers)
    }
}
