//! Which captures each view follows.

ghost use Rattle.std.specs.Prelude.{◌-◌, ◌≡◌, ◌≢◌, ◌⊎◌, ◌<◌, ℕ, [], None, Some, IfOk, IfSome, IfNone, OnOk, length};
ghost use Rattle.std.specs.Option.{option_map};
ghost use Rattle.swimwatch.specs.Seating.{IsFree, open_at, view_at};
ghost use Rattle.swimwatch.specs.declared.listening.seating.Seating.{Seating};

use std::alloc::{AllocError, Global};
use std::collections::BTreeMap;

/// The captures that a view follows.
#[derive(Drop)]
struct Followed {
    /// How many of them have records left.
    open: usize,
    /// The file of the newest one.
    word: String,
}

/// Which captures each view follows, if they are not one. Captures whose times overlap were taken at
/// different places, and each is a view of its own. A capture that begins after another one ended
/// goes on with its view, as the files do that `tcpdump -G` writes.
#[derive(Drop)]
pub(crate) struct Seating {
    alloc: Global,
    views: Vec<Followed>,
    /// The index of the view of each capture whose records came.
    view_of: BTreeMap<usize, usize>,
}

impl Seating {
    /// No views.
    pub(crate) fn new(alloc: Global) -> Seating {
        Seating {
            alloc,
            views: Vec::new(alloc),
            view_of: BTreeMap::new(alloc),
        }
    }

    /// The index of the view of the capture at this index, which this word names.
    pub(crate) fn view_of(&mut self, place: usize, word: &str) -> Result<usize, AllocError>
        // A capture keeps its view. A new one goes on with a view whose captures have ended, if
        // there is one, and else it has the next view.
        ensures known { IfSome (view_at self.old place) (λ view. self.new ≡ self.old
            × IfOk result (λ its. its ≡ view)) }
        ensures begins { (view_at self.old place ≡ None) → IfOk result (λ view.
            IsFree self.old view ⊎ ((view ≡ length self.old.views.items)
            × ((other : ℕ) → ¬ IsFree self.old other))) }
        ensures noted { IfOk result (λ view. (view_at self.new place ≡ Some view)
            × ((view_at self.old place ≡ None) → open_at self.new view ≡ Some 1)) }
        ensures others { OnOk result ((other : ℕ) → other ≢ place
            → view_at self.new other ≡ view_at self.old other) }
    {
        if let Some(view) = self.view_of.get(&place) {
            return Ok(*view);
        }
        let newest = Followed {
            open: 1,
            word: String::from_str(self.alloc, word)?,
        };
        let view = self.free(word).unwrap_or(self.views.len());
        match self.views.get_mut(view) {
            Some(followed) => *followed = newest,
            None => self.views.push(newest)?,
        }
        self.view_of.insert(place, view)?;
        Ok(view)
    }

    /// The index of the view that a new capture goes on with: of those whose captures ended, the one
    /// whose last file has the most like name.
    fn free(&self, word: &str) -> Option<usize>
        ensures some { IfSome result (IsFree self.now) }
        ensures none { IfNone result ((other : ℕ) → ¬ IsFree self.now other) }
    {
        let mut best = None;
        let mut most = 0;
        for (index, followed) in self.views.iter().enumerate() {
            if followed.open != 0 {
                continue;
            }
            let alike = common(&followed.word, word);
            if best.is_none() || most < alike {
                best = Some(index);
                most = alike;
            }
        }
        best
    }

    /// Notes that the capture at this index has no records left.
    pub(crate) fn end(&mut self, place: usize)
        ensures views { self.new.view_of ≡ self.old.view_of }
        ensures ends { IfSome (view_at self.old place) (λ view. open_at self.new view
            ≡ option_map (λ left. left - 1) (open_at self.old view)) }
        ensures others { (other : ℕ) → view_at self.old place ≢ Some other
            → open_at self.new other ≡ open_at self.old other }
    {
        let Some(view) = self.view_of.get(&place) else {
            return;
        };
        if let Some(followed) = self.views.get_mut(*view) {
            followed.open = followed.open.saturating_sub(1);
        }
    }
}

/// How many bytes two names have in common at their start.
fn common(one: &str, other: &str) -> usize {
    one.as_bytes()
        .iter()
        .zip(other.as_bytes())
        .take_while(|(a, b)| **a == **b)
        .count()
}
