//! The handle by which a program in another language holds a node.

ghost use Rattle.std.specs.Prelude.{◌≡◌, Option, Some, None, MatchOption};
ghost use Rattle.swim_c.specs.Handle.{handle_owns, node_coded, changes_coded};
ghost use Rattle.swim_table.specs.Node.{NodeValue};
ghost use Rattle.swim_table.specs.Table.{Entries};

use crate::watching::Watched;
use std::alloc::Global;
use std::marker::Model;
use std::mem;

/// A node and the names that it noted, or nothing. A handle with all bytes zero is empty.
#[repr(C)]
#[derive(Drop)]
pub struct Handle {
    at: *mut u8,
    held: bool,
    pub ghost node: { Option NodeValue } by { node_coded },
    pub ghost changes: { Option Entries } by { changes_coded },
}

impl Model for Handle {
    ghost also_owns = { λ h. handle_owns h.at h.held h.node h.changes };
}

impl Handle {
    /// The empty handle.
    pub fn none() -> Handle
        ensures { (result.node ≡ None) × (result.changes ≡ None) }
    {
        Handle {
            at: std::ptr::null_mut(),
            held: false,
        }
    }

    fn of(watched: Box<Watched>) -> Handle
        ensures { (result.node ≡ Some watched.value.node)
            × (result.changes ≡ watched.value.changes) }
    {
        let at = Box::into_raw(watched);
        Handle {
            at: at as *mut u8,
            held: true,
        }
    }

    fn into_node(self, alloc: Global) -> Option<Box<Watched>>
        ensures { MatchOption result ((self.node ≡ None) × (self.changes ≡ None))
            (λ watched. (self.node ≡ Some watched.value.node)
            × (self.changes ≡ watched.value.changes)) }
    {
        let Handle { at, held } = self;
        if !held {
            return None;
        }
        Some(unsafe { Box::from_raw(alloc, at as *mut Watched) })
    }

    /// Takes the node out.
    pub fn take(&mut self, alloc: Global) -> Option<Box<Watched>>
        ensures left { (self.new.node ≡ None) × (self.new.changes ≡ None) }
        ensures taken { MatchOption result (self.old.node ≡ None)
            (λ watched. self.old.node ≡ Some watched.value.node) }
        ensures changes { MatchOption result (self.old.changes ≡ None)
            (λ watched. self.old.changes ≡ watched.value.changes) }
    {
        let handle = mem::replace(self, Handle::none());
        handle.into_node(alloc)
    }

    /// Puts a node in.
    pub fn put(&mut self, watched: Box<Watched>)
        requires { self.old.node ≡ None }
        ensures node { self.new.node ≡ Some watched.value.node }
        ensures changes { self.new.changes ≡ watched.value.changes }
    {
        *self = Handle::of(watched);
    }
}

unsafe impl Send for Handle {}
