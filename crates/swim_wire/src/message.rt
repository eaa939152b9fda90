//! The fields of messages, with memberlist's names, before the message is checked as a whole.

ghost use Rattle.swim_wire.specs.Message.{HasAliveFields, HasAccusationFields, HasHeaderFields, HasStateFields};
ghost use Rattle.swim_wire.specs.Message.{IsShortAlive, IsShortAccusation, IsShortState};
ghost use Rattle.swim_wire.specs.Slots.{FitsEach, slots_of};

use crate::layout::{ACCUSATION, ALIVE, HEADER, STATE};
use crate::map::{Values, flag, raw, uint};

/// The first byte of a suspect message, as in memberlist's `net.go`.
pub const SUSPECT_MESSAGE: u8 = 3;

/// The first byte of an alive message.
pub const ALIVE_MESSAGE: u8 = 4;

/// The first byte of a dead message.
pub const DEAD_MESSAGE: u8 = 5;

/// The first byte of a push/pull stream.
pub const PUSH_PULL_MESSAGE: u8 = 6;

/// The first byte of a compound packet.
pub const COMPOUND_MESSAGE: u8 = 7;

/// memberlist's `alive`.
#[derive(Clone, Copy)]
pub(crate) struct Alive<'a> {
    pub(crate) addr: &'a [u8],
    pub(crate) incarnation: u32,
    pub(crate) meta: &'a [u8],
    pub(crate) node: &'a [u8],
    pub(crate) port: u16,
    pub(crate) vsn: &'a [u8],
}

/// memberlist's `suspect` and `dead`.
#[derive(Clone, Copy)]
pub(crate) struct Accusation<'a> {
    pub(crate) from: &'a [u8],
    pub(crate) incarnation: u32,
    pub(crate) node: &'a [u8],
}

/// memberlist's `pushPullHeader`.
#[derive(Clone, Copy)]
pub(crate) struct PushPullHeader {
    pub(crate) join: bool,
    pub(crate) nodes: u64,
    pub(crate) user_state_len: u64,
}

/// memberlist's `pushNodeState`.
#[derive(Clone, Copy)]
pub(crate) struct PushNodeState<'a> {
    pub(crate) addr: &'a [u8],
    pub(crate) incarnation: u32,
    pub(crate) meta: &'a [u8],
    pub(crate) name: &'a [u8],
    pub(crate) port: u16,
    pub(crate) state: u64,
    pub(crate) vsn: &'a [u8],
}

impl<'a> Alive<'a> {
    pub(crate) fn new(values: &'a Values) -> Alive<'a>
        requires { FitsEach ALIVE values.now }
        ensures says { HasAliveFields (slots_of values.now) result }
        ensures short { IsShortAlive result }
    {
        let [addr, incarnation, meta, node, port, vsn, ..] = values;
        Alive {
            addr: raw(addr),
            incarnation: uint(incarnation) as u32,
            meta: raw(meta),
            node: raw(node),
            port: uint(port) as u16,
            vsn: raw(vsn),
        }
    }
}

impl<'a> Accusation<'a> {
    pub(crate) fn new(values: &'a Values) -> Accusation<'a>
        requires { FitsEach ACCUSATION values.now }
        ensures says { HasAccusationFields (slots_of values.now) result }
        ensures short { IsShortAccusation result }
    {
        let [from, incarnation, node, ..] = values;
        Accusation {
            from: raw(from),
            incarnation: uint(incarnation) as u32,
            node: raw(node),
        }
    }
}

impl PushPullHeader {
    pub(crate) fn new(values: &Values) -> PushPullHeader
        requires { FitsEach HEADER values.now }
        ensures { HasHeaderFields (slots_of values.now) result }
    {
        let [join, nodes, user_state_len, ..] = values;
        PushPullHeader {
            join: flag(join),
            nodes: uint(nodes),
            user_state_len: uint(user_state_len),
        }
    }
}

impl<'a> PushNodeState<'a> {
    pub(crate) fn new(values: &'a Values) -> PushNodeState<'a>
        requires { FitsEach STATE values.now }
        ensures says { HasStateFields (slots_of values.now) result }
        ensures short { IsShortState result }
    {
        let [addr, incarnation, meta, name, port, state, vsn, _] = values;
        PushNodeState {
            addr: raw(addr),
            incarnation: uint(incarnation) as u32,
            meta: raw(meta),
            name: raw(name),
            port: uint(port) as u16,
            state: uint(state),
            vsn: raw(vsn),
        }
    }
}
