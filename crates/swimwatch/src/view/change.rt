//! What a message changed about a member.

use memberlist_view::{Event, MemberName};

/// What a message changed in a view.
#[derive(Clone, Copy)]
pub(crate) struct Change<'a> {
    pub(crate) member: &'a MemberName,
    /// Who says so; empty if nobody is named.
    pub(crate) from: &'a [u8],
    pub(crate) event: Event,
}

impl<'a> Change<'a> {
    /// The bytes of the member's name.
    pub(crate) fn name(&self) -> &'a [u8] {
        self.member.name().bytes()
    }
}
