//! A member as a table has it, in the caller's memory.

ghost use Rattle.std.specs.Prelude.{◌≡◌, ◌≤◌, ◌↔◌, length, IsTrue};
ghost use Rattle.swim_wire.specs.Pairs.{state_number};
ghost use Rattle.swim_c.specs.Members.{CameBack, IsMember, IsDetails, IsNoHome, KeepsName};

use crate::copy::copy_front;
use swim_claim::{Details, Kind};
use swim_table::Entry;

/// What a table keeps for a name, with room for the longest values.
#[repr(C)]
#[derive(Drop)]
pub struct Member {
    /// 0 alive, 1 suspect, 2 confirm, 3 leave.
    pub state: u32,
    pub inc: u32,
    /// Whether an Alive was ever seen. The fields below are those of the newest, except the name.
    pub has_home: bool,
    /// Whether that Alive has a greater incarnation than the member's state.
    pub came_back: bool,
    pub home_inc: u32,
    pub port: u16,
    pub name_len: u16,
    pub meta_len: u16,
    pub addr_len: u8,
    pub vsn_len: u8,
    pub addr: [u8; 16],
    pub vsn: [u8; 6],
    pub meta: [u8; 512],
    pub name: [u8; 1024],
    /// Zeros, for later versions.
    pub reserved: [u8; 32],
}

impl Member {
    /// Copies an entry.
    pub fn fill(&mut self, entry: &Entry)
        ensures { IsMember entry.now self.new }
    {
        let name = entry.name().bytes();
        self.state = number_of(entry.kind());
        self.inc = entry.inc();
        self.name_len = name.len() as u16;
        copy_front(name, &mut self.name);
        self.came_back = came_back(entry);
        self.reserved = [0; 32];
        match (entry.home_inc(), entry.home_details()) {
            (Some(inc), Some(details)) => {
                self.has_home = true;
                self.home_inc = inc;
                self.fill_details(details);
            }
            _ => self.clear_home(),
        }
    }

    fn fill_details(&mut self, details: &Details)
        ensures keeps { KeepsName self.old self.new }
        ensures has_home { self.new.has_home ≡ self.old.has_home }
        ensures home_inc { self.new.home_inc ≡ self.old.home_inc }
        ensures details { IsDetails details.now self.new }
    {
        self.port = details.port();
        self.addr_len = details.addr().len() as u8;
        copy_front(details.addr(), &mut self.addr);
        self.meta_len = details.meta().len() as u16;
        copy_front(details.meta(), &mut self.meta);
        self.vsn_len = details.vsn().len() as u8;
        copy_front(details.vsn(), &mut self.vsn);
    }

    fn clear_home(&mut self)
        ensures keeps { KeepsName self.old self.new }
        ensures none { IsNoHome self.new }
    {
        self.has_home = false;
        self.home_inc = 0;
        self.port = 0;
        self.addr_len = 0;
        self.meta_len = 0;
        self.vsn_len = 0;
    }
}

/// Whether there is an Alive with a greater incarnation than the member's state.
fn came_back(entry: &Entry) -> bool
    ensures { IsTrue result ↔ CameBack entry.now }
{
    match entry.home_inc() {
        Some(inc) => inc > entry.inc(),
        None => false,
    }
}

fn number_of(kind: Kind) -> u32
    ensures { result ≡ state_number kind }
{
    match kind {
        Kind::Alive => 0,
        Kind::Suspect => 1,
        Kind::Confirm => 2,
        Kind::Leave => 3,
    }
}
