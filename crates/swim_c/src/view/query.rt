//! What a view shows: its members, and who accuses them.

ghost use Rattle.std.specs.Prelude.{◌≡◌, slice_get};
ghost use Rattle.std.specs.Option.{option_copied, option_map};
ghost use Rattle.memberlist_view.specs.Told.{entry_of};
ghost use Rattle.swim_c.specs.ViewMembers.{accusers, Accuses, AccuserDone, AfterDone, FindDone, Finds, named};

use crate::copy::{Written, copy_out};
use crate::status::{DONE, MEMORY, NAME_TOO_LONG, NO_ITEM, NO_MEMBER};
use crate::view::shown::{Shown, accusers};
use memberlist_view::{Entry, MemberName, State, View};
use std::alloc::Global;
use swim_claim::Name;

/// Copies what the view shows of the member of this name. Returns a status.
pub fn find(alloc: Global, view: &View, name: &[u8], member: &mut Shown) -> u32
    ensures { FindDone view.now name.now result member.old member.new }
{
    match Name::copied(alloc, name) {
        Ok(Ok(name)) => copy_named(view, &MemberName::new(name), member),
        Ok(Err(_)) => NO_MEMBER,
        Err(_) => MEMORY,
    }
}

/// Copies what the view shows for the name. Returns a status.
pub fn copy_named(view: &View, name: &MemberName, member: &mut Shown) -> u32
    ensures { Finds (named name.now (entry_of view.now name.now)) result member.old member.new }
{
    match view.get(name) {
        Some(entry) => {
            member.fill(name, entry);
            DONE
        }
        None => NO_MEMBER,
    }
}

/// Copies what the view shows of the member of the first name above this one. Returns a status.
pub fn after(alloc: Global, view: &View, name: &[u8], member: &mut Shown) -> u32
    ensures { AfterDone view.now name.now result member.old member.new }
{
    if name.is_empty() {
        let mut all = view.iter();
        return copy_next(all.next(), member);
    }
    match Name::copied(alloc, name) {
        Ok(Ok(name)) => copy_next(view.after(&MemberName::new(name)), member),
        Ok(Err(_)) => NAME_TOO_LONG,
        Err(_) => MEMORY,
    }
}

/// Copies a member, if there is one. Returns a status.
fn copy_next(next: Option<(&MemberName, &Entry)>, member: &mut Shown) -> u32
    ensures { Finds (option_map (λ p. (p.0.now, p.1.now)) next.entry) result member.old member.new }
{
    match next {
        Some((name, entry)) => {
            member.fill(name, entry);
            DONE
        }
        None => NO_MEMBER,
    }
}

/// Copies the name of the i-th of those that suspect the member of this name.
pub fn accuser_out(alloc: Global, view: &View, name: &[u8], i: usize, out: &mut [u8]) -> Written
    ensures { AccuserDone view.now name.now i out.old out.new result.status result.len }
{
    let name = match Name::copied(alloc, name) {
        Ok(Ok(name)) => MemberName::new(name),
        Ok(Err(_)) => return Written::refused(NO_MEMBER),
        Err(_) => return Written::refused(MEMORY),
    };
    match view.get(&name) {
        Some(entry) => copy_accuser(&entry.state, i, out),
        None => Written::refused(NO_MEMBER),
    }
}

fn copy_accuser(state: &State, i: usize, out: &mut [u8]) -> Written
    ensures { Accuses (accusers state.now) i out.old out.new result.status result.len }
{
    match name_at(accusers(state), i) {
        Some(name) => copy_out(name.name().bytes(), out),
        None => Written::refused(NO_ITEM),
    }
}

/// The i-th of these names.
fn name_at(names: &[MemberName], i: usize) -> Option<&MemberName>
    ensures { option_copied result ≡ slice_get names.now i }
{
    names.get(i)
}
