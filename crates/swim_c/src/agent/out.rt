//! One output of an agent, in the caller's memory.

ghost use Rattle.std.specs.Prelude.{◌≡◌, None, Some};
ghost use Rattle.std.specs.Option.{option_copied, option_map};
ghost use Rattle.swim_c.specs.AgentOuts.{IsPlaceOf, IsWritten, bytes_of};
ghost use Rattle.swim_c.specs.ViewMembers.{IsNamed};

use crate::agent::place::Place;
use crate::view::hearing::number_of;
use crate::view::shown::copy_name;
use memberlist_member::Output;
use memberlist_view::MemberName;
use std::net::SocketAddr;

const SEND: u32 = 1;

const DIAL: u32 = 2;

const WRITE: u32 = 3;

const CLOSE: u32 = 4;

const CHANGED: u32 = 5;

const UNANSWERED: u32 = 6;

const UNTOLD: u32 = 7;

const REFUTED: u32 = 8;

const EXHAUSTED: u32 = 9;

const FORGOTTEN: u32 = 10;

const DEPARTED: u32 = 11;

const USER: u32 = 12;

const USER_STATE: u32 = 13;

const INCOMPATIBLE: u32 = 14;

/// One output, without its bytes. What it has not is 0.
#[repr(C)]
#[derive(Drop)]
pub struct Out {
    pub stream: u64,
    /// How many members were forgotten.
    pub count: usize,
    pub kind: u32,
    /// The number of what changed.
    pub event: u32,
    pub inc: u32,
    /// Of a probe without an answer.
    pub seq: u32,
    pub expected: u32,
    pub nacks: u32,
    pub to: Place,
    pub name_len: u16,
    pub by_len: u16,
    /// Whether the sender of a program's state joins.
    pub join: bool,
    pub name: [u8; 1024],
    pub by: [u8; 1024],
    /// Zeros, for later versions.
    pub reserved: [u8; 32],
}

impl Out {
    /// Writes an output. Returns its bytes, if it has any.
    pub fn fill(&mut self, output: Output) -> Option<Vec<u8>>
        ensures written { IsWritten output self.new }
        ensures bytes { option_map (λ bytes. bytes.items) result ≡ bytes_of output }
    {
        match output {
            Output::Send { to, bytes } => self.fill_datagram(to, bytes),
            Output::Dial { conn, to } => self.fill_dial(conn, to),
            Output::Write { conn, bytes } => self.fill_stream(WRITE, conn, Some(bytes)),
            Output::Close { conn } => self.fill_stream(CLOSE, conn, None),
            Output::Changed {
                name,
                event,
                inc,
                by,
            } => self.fill_change(&name, number_of(event), inc, by.as_ref()),
            Output::Unanswered {
                name,
                seq,
                expected,
                nacks,
            } => self.fill_probe(&name, seq, expected, nacks),
            Output::Untold { name } => self.fill_name(UNTOLD, &name),
            Output::Refuted { inc } => self.fill_inc(inc),
            Output::Exhausted => self.fill_kind(EXHAUSTED, None),
            Output::Forgotten { count } => self.fill_count(count),
            Output::Departed => self.fill_kind(DEPARTED, None),
            Output::Incompatible { conn } => self.fill_stream(INCOMPATIBLE, conn, None),
            Output::User { bytes } => self.fill_kind(USER, Some(bytes)),
            Output::UserState { bytes, join } => self.fill_state(bytes, join),
        }
    }

    /// Begins one of this kind, that has nothing yet.
    fn begin(&mut self, kind: u32)
        ensures { self.new.kind ≡ kind }
    {
        self.stream = 0;
        self.count = 0;
        self.kind = kind;
        self.event = 0;
        self.inc = 0;
        self.seq = 0;
        self.expected = 0;
        self.nacks = 0;
        self.to = Place::none();
        self.name_len = 0;
        self.by_len = 0;
        self.join = false;
        self.reserved = [0; 32];
    }

    fn fill_kind(&mut self, kind: u32, bytes: Option<Vec<u8>>) -> Option<Vec<u8>>
        ensures kind { self.new.kind ≡ kind }
        ensures bytes { result ≡ bytes }
    {
        self.begin(kind);
        bytes
    }

    fn fill_datagram(&mut self, to: SocketAddr, bytes: Vec<u8>) -> Option<Vec<u8>>
        ensures written { (self.new.kind ≡ 1) × IsPlaceOf to self.new.to }
        ensures bytes { result ≡ Some bytes }
    {
        self.begin(SEND);
        self.to = Place::of(&to);
        Some(bytes)
    }

    fn fill_dial(&mut self, stream: u64, to: SocketAddr) -> Option<Vec<u8>>
        ensures written { (self.new.kind ≡ 2) × (self.new.stream ≡ stream) × IsPlaceOf to self.new.to }
        ensures bytes { result ≡ None }
    {
        self.begin(DIAL);
        self.stream = stream;
        self.to = Place::of(&to);
        None
    }

    fn fill_stream(&mut self, kind: u32, stream: u64, bytes: Option<Vec<u8>>) -> Option<Vec<u8>>
        ensures written { (self.new.kind ≡ kind) × (self.new.stream ≡ stream) }
        ensures bytes { result ≡ bytes }
    {
        self.begin(kind);
        self.stream = stream;
        bytes
    }

    fn fill_change(
        &mut self,
        name: &MemberName,
        event: u32,
        inc: u32,
        by: Option<&MemberName>,
    ) -> Option<Vec<u8>>
        ensures written { (self.new.kind ≡ 5) × IsNamed (Some name.now) self.new.name_len self.new.name
            × (self.new.event ≡ event) × (self.new.inc ≡ inc)
            × IsNamed (option_copied by.entry) self.new.by_len self.new.by }
        ensures bytes { result ≡ None }
    {
        self.begin(CHANGED);
        self.event = event;
        self.inc = inc;
        self.name_len = copy_name(Some(name), &mut self.name);
        self.by_len = copy_name(by, &mut self.by);
        None
    }

    fn fill_probe(
        &mut self,
        name: &MemberName,
        seq: u32,
        expected: u32,
        nacks: u32,
    ) -> Option<Vec<u8>>
        ensures written { (self.new.kind ≡ 6) × IsNamed (Some name.now) self.new.name_len self.new.name
            × (self.new.seq ≡ seq) × (self.new.expected ≡ expected) × (self.new.nacks ≡ nacks) }
        ensures bytes { result ≡ None }
    {
        self.begin(UNANSWERED);
        self.name_len = copy_name(Some(name), &mut self.name);
        self.seq = seq;
        self.expected = expected;
        self.nacks = nacks;
        None
    }

    fn fill_name(&mut self, kind: u32, name: &MemberName) -> Option<Vec<u8>>
        ensures written { (self.new.kind ≡ kind) × IsNamed (Some name.now) self.new.name_len self.new.name }
        ensures bytes { result ≡ None }
    {
        self.begin(kind);
        self.name_len = copy_name(Some(name), &mut self.name);
        None
    }

    fn fill_inc(&mut self, inc: u32) -> Option<Vec<u8>>
        ensures written { (self.new.kind ≡ 8) × (self.new.inc ≡ inc) }
        ensures bytes { result ≡ None }
    {
        self.begin(REFUTED);
        self.inc = inc;
        None
    }

    fn fill_count(&mut self, count: usize) -> Option<Vec<u8>>
        ensures written { (self.new.kind ≡ 10) × (self.new.count ≡ count) }
        ensures bytes { result ≡ None }
    {
        self.begin(FORGOTTEN);
        self.count = count;
        None
    }

    fn fill_state(&mut self, bytes: Vec<u8>, join: bool) -> Option<Vec<u8>>
        ensures written { (self.new.kind ≡ 13) × (self.new.join ≡ join) }
        ensures bytes { result ≡ Some bytes }
    {
        self.begin(USER_STATE);
        self.join = join;
        Some(bytes)
    }
}
