//! A member as a view shows it, in the caller's memory.

ghost use Rattle.std.specs.Prelude.{◌≡◌, ◌≤◌, ◌<◌, ◌^◌, length, min, take};
ghost use Rattle.std.specs.Option.{option_copied};
ghost use Rattle.swim_c.specs.ViewMembers.{IsNamed, IsShown, accusers, blamed, number_of};

use crate::copy::copy_front;
use memberlist_view::{Entry, MemberName, State};

/// What a view shows of a member, with room for the longest values.
#[repr(C)]
#[derive(Drop)]
pub struct Shown {
    /// When the state began.
    pub since: u64,
    /// 0 alive, 1 suspect, 2 dead, 3 left, 4 noted.
    pub state: u32,
    pub inc: u32,
    pub port: u16,
    pub name_len: u16,
    pub meta_len: u16,
    pub by_len: u16,
    /// How many members that are named suspect it.
    pub accusers: u8,
    /// How many other addresses claimed its name.
    pub rivals: u8,
    pub addr_len: u8,
    pub vsn_len: u8,
    pub addr: [u8; 16],
    pub vsn: [u8; 6],
    pub meta: [u8; 512],
    pub name: [u8; 1024],
    /// The last of its accusers, or who declared it dead.
    pub by: [u8; 1024],
    /// Zeros, for later versions.
    pub reserved: [u8; 32],
}

impl Shown {
    /// Copies an entry.
    pub fn fill(&mut self, name: &MemberName, entry: &Entry)
        ensures { IsShown name.now entry.now self.new }
    {
        self.name_len = copy_name(Some(name), &mut self.name);
        self.state = number_of(&entry.state);
        self.inc = entry.inc;
        self.since = entry.since;
        self.accusers = few(accusers(&entry.state).len());
        self.by_len = copy_name(blamed(&entry.state), &mut self.by);
        self.rivals = few(entry.rivals.details().len());
        self.reserved = [0; 32];
        match &entry.details {
            Some(details) => {
                self.port = details.port();
                self.addr_len = details.addr().len() as u8;
                copy_front(details.addr(), &mut self.addr);
                self.meta_len = details.meta().len() as u16;
                copy_front(details.meta(), &mut self.meta);
                self.vsn_len = details.vsn().len() as u8;
                copy_front(details.vsn(), &mut self.vsn);
            }
            None => {
                self.port = 0;
                self.addr_len = 0;
                self.meta_len = 0;
                self.vsn_len = 0;
            }
        }
    }
}

/// Copies a name, if there is one, to the start of the room. Returns its length, or 0.
pub fn copy_name(name: Option<&MemberName>, room: &mut [u8; 1024]) -> u16
    ensures { IsNamed (option_copied name.entry) result room.new }
{
    match name {
        Some(name) => {
            let bytes = name.name().bytes();
            copy_front(bytes, room);
            bytes.len() as u16
        }
        None => 0,
    }
}

/// How many these are, up to 255.
fn few(count: usize) -> u8
    ensures { result ≡ min count 255 }
{
    count.min(255) as u8
}

fn number_of(state: &State) -> u32
    ensures { result ≡ number_of state.now }
{
    match state {
        State::Seen | State::Alive => 0,
        State::Suspect { .. } => 1,
        State::Dead { .. } => 2,
        State::Left => 3,
        State::Noted => 4,
    }
}

/// Who suspects a member in this state.
pub fn accusers(state: &State) -> &[MemberName]
    ensures { result.now ≡ accusers state.now }
{
    match state {
        State::Suspect { by } => by.names(),
        State::Noted | State::Seen | State::Alive | State::Dead { .. } | State::Left => &[],
    }
}

/// The last of its accusers, or who declared it dead.
fn blamed(state: &State) -> Option<&MemberName>
    ensures { option_copied result ≡ blamed state.now }
{
    match state {
        State::Suspect { by } => by.names().last(),
        State::Dead { by } => by.as_ref(),
        State::Noted | State::Seen | State::Alive | State::Left => None,
    }
}
