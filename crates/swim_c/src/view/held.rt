//! A view as a handle holds it.

ghost use Rattle.std.specs.Prelude.{◌≡◌, [], IfOk};

use memberlist_view::View;
use std::alloc::{AllocError, Global};

/// A view as a handle holds it.
#[derive(Drop)]
pub struct HeldView {
    pub view: View,
}

impl HeldView {
    /// The view of a member that heard nothing, and that forgets a member that is gone after this
    /// wait in microseconds.
    pub fn boxed(alloc: Global, wait: u64) -> Result<Box<HeldView>, AllocError>
        ensures { IfOk result (λ held. held.value.view ≡ record { wait = wait; entries = [] }) }
    {
        let view = View::new(alloc, wait);
        match Box::new(alloc, HeldView { view }) {
            Ok(held) => Ok(held),
            Err(_) => Err(AllocError),
        }
    }
}
