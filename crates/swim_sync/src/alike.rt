//! Which nodes of a cluster are known to have one table.

ghost use Rattle.std.specs.Prelude.{◌≡◌, ◌⊎◌, [], IsTrue, replicate, set};
ghost use Rattle.swim_sync.specs.Alike.{Forgets, IsPair, PairsOnly};

use std::alloc::Global;
use std::marker::Model;

/// A mark for each node: nodes with the same one have the same table, and 0 says nothing. So the
/// exchange of two nodes that exchanged before and heard nothing since compares no tables.
#[derive(Drop)]
pub(crate) struct Alike {
    alloc: Global,
    marks: Vec<u64>,
    // above all marks
    next: u64,
}

impl Model for Alike {
    ghost use Rattle.std.specs.Prelude.{List, ℕ};
    ghost use Rattle.swim_sync.specs.Alike.{AreBelow};

    ghost Value = { List ℕ };

    ghost view = { λ a. a.marks.items };

    ghost invariant = { λ a. AreBelow a.marks.items a.next };
}

impl Alike {
    /// No marks. It takes no memory.
    pub(crate) fn new(alloc: Global) -> Alike
        ensures { result ≡ [] }
    {
        Alike {
            alloc,
            marks: Vec::new(alloc),
            next: 1,
        }
    }

    /// Whether the two nodes are known to have one table.
    pub(crate) fn are(&self, j: usize, k: usize) -> bool
        ensures { IsTrue result → IsPair self.now j k }
    {
        match (self.marks.get(j), self.marks.get(k)) {
            (Some(one), Some(other)) => *one > 0 && *one == *other,
            _ => false,
        }
    }

    /// Notes that node k may change.
    pub(crate) fn forget(&mut self, k: usize)
        ensures { Forgets self.old self.new k }
    {
        put(&mut self.marks, k, 0);
    }

    /// Notes that nodes j and k of n have one table. If there is no memory for the marks, nothing is
    /// noted.
    pub(crate) fn pair(&mut self, n: usize, j: usize, k: usize)
        ensures { PairsOnly self.old self.new j k }
    {
        reach(self.alloc, &mut self.marks, n);
        match self.next.checked_add(1) {
            Some(next) => {
                put(&mut self.marks, j, self.next);
                put(&mut self.marks, k, self.next);
                self.next = next;
            }
            None => {
                put(&mut self.marks, j, 0);
                put(&mut self.marks, k, 0);
            }
        }
    }
}

/// Gives node k this mark, if there are marks for it.
fn put(marks: &mut Vec<u64>, k: usize, mark: u64)
    ensures { marks.new.items ≡ set marks.old.items k mark }
{
    if let Some(own) = marks.get_mut(k) {
        *own = mark;
    }
}

/// Starts with a mark of 0 for each of n nodes if there are none yet and there is memory for them.
fn reach(alloc: Global, marks: &mut Vec<u64>, n: usize)
    ensures { (marks.new.items ≡ marks.old.items) ⊎ (marks.new.items ≡ replicate n 0) }
{
    if marks.len() == n {
        return;
    }
    let mut fresh = Vec::new(alloc);
    match fresh.resize(n, 0) {
        Ok(()) => *marks = fresh,
        Err(_) => {}
    }
}
