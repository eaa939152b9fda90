//! The handle by which a program in another language holds a view.

ghost use Rattle.std.specs.Prelude.{◌≡◌, Option, Some, None, MatchOption};
ghost use Rattle.swim_c.specs.contracts.view.held.HeldView.{the_row};
ghost use Rattle.swim_c.specs.Views.{view_owns, view_coded};

use crate::view::held::HeldView;
use std::alloc::Global;
use std::marker::Model;
use std::mem;

/// A view, or nothing. A handle with all bytes zero is empty.
#[repr(C)]
#[derive(Drop)]
pub struct ViewHandle {
    at: *mut u8,
    held: bool,
    pub ghost view: { Option the_row.Denot } by { view_coded },
}

impl Model for ViewHandle {
    ghost also_owns = { λ h. view_owns h.at h.held h.view };
}

impl ViewHandle {
    /// The empty handle.
    pub fn none() -> ViewHandle
        ensures { result.view ≡ None }
    {
        ViewHandle {
            at: std::ptr::null_mut(),
            held: false,
        }
    }

    fn of(view: Box<HeldView>) -> ViewHandle
        ensures { result.view ≡ Some view.value }
    {
        let at = Box::into_raw(view);
        ViewHandle {
            at: at as *mut u8,
            held: true,
        }
    }

    fn into_view(self, alloc: Global) -> Option<Box<HeldView>>
        ensures { MatchOption result (self.view ≡ None) (λ view. self.view ≡ Some view.value) }
    {
        let ViewHandle { at, held } = self;
        if !held {
            return None;
        }
        Some(unsafe { Box::from_raw(alloc, at as *mut HeldView) })
    }

    /// Takes the view out.
    pub fn take(&mut self, alloc: Global) -> Option<Box<HeldView>>
        ensures left { self.new.view ≡ None }
        ensures taken { MatchOption result (self.old.view ≡ None)
            (λ view. self.old.view ≡ Some view.value) }
    {
        let handle = mem::replace(self, ViewHandle::none());
        handle.into_view(alloc)
    }

    /// Puts a view in.
    pub fn put(&mut self, view: Box<HeldView>)
        requires { self.old.view ≡ None }
        ensures { self.new.view ≡ Some view.value }
    {
        *self = ViewHandle::of(view);
    }
}

unsafe impl Send for ViewHandle {}
