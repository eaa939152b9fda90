//! Members that died, and are dialled again. memberlist leaves that to Serf (serf.go, `reconnect`);
//! without it two parts of a split cluster never meet again, since each forgets the other.

ghost use Rattle.std.specs.Prelude.{◌≡◌, ◌≤◌, ◌∷◌, ◌++◌, [], Any, IfNone, IfSome, OnErr, OnOk, length};
ghost use Rattle.std.specs.Prelude.{position};
ghost use Rattle.memberlist_member.specs.Lists.{newest, past_all, without_first};
ghost use Rattle.memberlist_member.specs.Losing.{is_given_up, is_lost};

use memberlist_view::MemberName;
use rand::RngExt;
use rand_core::Rng;
use std::alloc::{AllocError, Global};
use std::net::SocketAddr;

/// The most members that are dialled again (own).
const MAX_LOST: usize = 1024;

/// A member that died.
#[derive(Drop)]
struct Lost {
    name: MemberName,
    place: SocketAddr,
    until: u64,
}

/// Members that died and did not come back, oldest first.
#[derive(Drop)]
pub(crate) struct LostMembers {
    list: Vec<Lost>,
    ghost few: { length list.items ≤ 1024 },
}

impl LostMembers {
    /// None.
    pub(crate) fn new(alloc: Global) -> LostMembers
        ensures { result.list.items ≡ [] }
    {
        LostMembers {
            list: Vec::new(alloc),
        }
    }

    /// Adds one, to be dialled until this time; if there are too many the oldest is given up.
    ///
    /// # Errors
    ///
    /// `AllocError` if out of memory: it is not added, nor is it there any more.
    pub(crate) fn add(
        &mut self,
        name: MemberName,
        place: SocketAddr,
        until: u64,
    ) -> Result<(), AllocError>
        ensures added { OnOk result (self.new.list.items
            ≡ newest 1023 (without_first (is_lost name) self.old.list.items)
            ++ record { name = name; place = place; until = until } ∷ []) }
        ensures refused { OnErr result (self.new.list.items
            ≡ newest 1023 (without_first (is_lost name) self.old.list.items)) }
        ensures few { length self.new.list.items ≤ 1024 }
    {
        self.remove(&name);
        if MAX_LOST <= self.list.len() {
            let _ = self.list.remove(0);
        }
        self.list.push(Lost { name, place, until })?;
        Ok(())
    }

    /// The member with this name is back, or has left.
    pub(crate) fn remove(&mut self, name: &MemberName)
        ensures { self.new.list.items ≡ without_first (is_lost name.now) self.old.list.items }
    {
        if let Some(place) = self.place_of(name) {
            let _ = self.list.remove(place);
        }
    }

    fn place_of(&self, name: &MemberName) -> Option<usize>
        ensures { result ≡ position (is_lost name.now) self.now.list.items }
    {
        self.list.iter().position(|lost| lost.name == *name)
    }

    /// Where one of them was, at random; those whose time is over are given up.
    pub(crate) fn any<R: Rng>(&mut self, now: u64, rng: &mut R) -> Option<SocketAddr>
        ensures left { self.new.list.items ≡ past_all (is_given_up now) self.old.list.items }
        ensures some { IfSome result (λ place.
            Any (λ lost. lost.place ≡ place) self.new.list.items) }
        ensures none { IfNone result (self.new.list.items ≡ []) }
    {
        self.give_up(now);
        if self.list.is_empty() {
            return None;
        }
        let index = rng.random_range(0..self.list.len());
        Some(self.list[index].place)
    }

    fn give_up(&mut self, now: u64)
        ensures { self.new.list.items ≡ past_all (is_given_up now) self.old.list.items }
    {
        for _ in 0..self.list.len() {
            match self.list.first() {
                Some(first) if first.until <= now => {}
                _ => return,
            }
            let _ = self.list.remove(0);
        }
    }
}
