//! The keys of each map, the kinds of their values, and their limits.

ghost use Rattle.std.specs.Prelude.{◌≡◌};
ghost use Rattle.swim_wire.specs.Keys.{key_text};

/// A key of a map, by memberlist's names of fields.
#[derive(Clone, Copy)]
pub(crate) enum Key {
    Addr,
    Algo,
    Buf,
    Error,
    From,
    Incarnation,
    Join,
    Meta,
    Nack,
    Name,
    Node,
    Nodes,
    Payload,
    Port,
    SeqNo,
    SourceAddr,
    SourceNode,
    SourcePort,
    State,
    Target,
    UserStateLen,
    Vsn,
}

/// The kind of a key's value, and how large or how long it may be.
#[derive(Clone, Copy)]
pub(crate) enum Limit {
    /// A number up to this one.
    Number(u64),
    /// Text or bytes up to this length.
    Raw(usize),
    /// A truth value.
    Flag,
}

/// A key of a layout, and the limit of its value.
#[derive(Clone, Copy)]
pub(crate) struct Field {
    pub(crate) key: Key,
    pub(crate) limit: Limit,
}

/// The maximum length of an address in bytes, that of IPv6.
pub(crate) const MAX_ADDRESS_LEN: usize = 16;

/// The maximum length of metadata in bytes, as in memberlist.
pub(crate) const MAX_META_LEN: usize = 512;

/// The maximum length of a member's name in bytes.
pub(crate) const MAX_NAME_LEN: usize = 1024;

/// The versions of memberlist's protocol and of its user's, three bytes each.
pub(crate) const MAX_VERSIONS_LEN: usize = 6;

/// memberlist's `alive`.
pub(crate) const ALIVE: [Field; 6] = [
    Field {
        key: Key::Addr,
        limit: Limit::Raw(MAX_ADDRESS_LEN),
    },
    Field {
        key: Key::Incarnation,
        limit: Limit::Number(u32::MAX as u64),
    },
    Field {
        key: Key::Meta,
        limit: Limit::Raw(MAX_META_LEN),
    },
    Field {
        key: Key::Node,
        limit: Limit::Raw(MAX_NAME_LEN),
    },
    Field {
        key: Key::Port,
        limit: Limit::Number(u16::MAX as u64),
    },
    Field {
        key: Key::Vsn,
        limit: Limit::Raw(MAX_VERSIONS_LEN),
    },
];

/// memberlist's `suspect` and `dead`.
pub(crate) const ACCUSATION: [Field; 3] = [
    Field {
        key: Key::From,
        limit: Limit::Raw(MAX_NAME_LEN),
    },
    Field {
        key: Key::Incarnation,
        limit: Limit::Number(u32::MAX as u64),
    },
    Field {
        key: Key::Node,
        limit: Limit::Raw(MAX_NAME_LEN),
    },
];

/// memberlist's `pushPullHeader`. Its numbers are checked after the map is read.
pub(crate) const HEADER: [Field; 3] = [
    Field {
        key: Key::Join,
        limit: Limit::Flag,
    },
    Field {
        key: Key::Nodes,
        limit: Limit::Number(u64::MAX),
    },
    Field {
        key: Key::UserStateLen,
        limit: Limit::Number(u64::MAX),
    },
];

/// memberlist's `pushNodeState`. Its state is checked after the map is read.
pub(crate) const STATE: [Field; 7] = [
    Field {
        key: Key::Addr,
        limit: Limit::Raw(MAX_ADDRESS_LEN),
    },
    Field {
        key: Key::Incarnation,
        limit: Limit::Number(u32::MAX as u64),
    },
    Field {
        key: Key::Meta,
        limit: Limit::Raw(MAX_META_LEN),
    },
    Field {
        key: Key::Name,
        limit: Limit::Raw(MAX_NAME_LEN),
    },
    Field {
        key: Key::Port,
        limit: Limit::Number(u16::MAX as u64),
    },
    Field {
        key: Key::State,
        limit: Limit::Number(u64::MAX),
    },
    Field {
        key: Key::Vsn,
        limit: Limit::Raw(MAX_VERSIONS_LEN),
    },
];

/// memberlist's `ping`.
pub(crate) const PING: [Field; 5] = [
    Field {
        key: Key::Node,
        limit: Limit::Raw(MAX_NAME_LEN),
    },
    Field {
        key: Key::SeqNo,
        limit: Limit::Number(u32::MAX as u64),
    },
    Field {
        key: Key::SourceAddr,
        limit: Limit::Raw(MAX_ADDRESS_LEN),
    },
    Field {
        key: Key::SourceNode,
        limit: Limit::Raw(MAX_NAME_LEN),
    },
    Field {
        key: Key::SourcePort,
        limit: Limit::Number(u16::MAX as u64),
    },
];

/// memberlist's `indirectPingReq`.
pub(crate) const INDIRECT_PING: [Field; 8] = [
    Field {
        key: Key::Nack,
        limit: Limit::Flag,
    },
    Field {
        key: Key::Node,
        limit: Limit::Raw(MAX_NAME_LEN),
    },
    Field {
        key: Key::Port,
        limit: Limit::Number(u16::MAX as u64),
    },
    Field {
        key: Key::SeqNo,
        limit: Limit::Number(u32::MAX as u64),
    },
    Field {
        key: Key::SourceAddr,
        limit: Limit::Raw(MAX_ADDRESS_LEN),
    },
    Field {
        key: Key::SourceNode,
        limit: Limit::Raw(MAX_NAME_LEN),
    },
    Field {
        key: Key::SourcePort,
        limit: Limit::Number(u16::MAX as u64),
    },
    Field {
        key: Key::Target,
        limit: Limit::Raw(MAX_ADDRESS_LEN),
    },
];

/// memberlist's `nackResp`.
pub(crate) const NACK: [Field; 1] = [Field {
    key: Key::SeqNo,
    limit: Limit::Number(u32::MAX as u64),
}];

impl Key {
    /// The key's text in a map.
    pub(crate) fn text(self) -> &'static [u8]
        ensures { result.now ≡ key_text self }
    {
        match self {
            Key::Addr => b"Addr",
            Key::Algo => b"Algo",
            Key::Buf => b"Buf",
            Key::Error => b"Error",
            Key::From => b"From",
            Key::Incarnation => b"Incarnation",
            Key::Join => b"Join",
            Key::Meta => b"Meta",
            Key::Nack => b"Nack",
            Key::Name => b"Name",
            Key::Node => b"Node",
            Key::Nodes => b"Nodes",
            Key::Payload => b"Payload",
            Key::Port => b"Port",
            Key::SeqNo => b"SeqNo",
            Key::SourceAddr => b"SourceAddr",
            Key::SourceNode => b"SourceNode",
            Key::SourcePort => b"SourcePort",
            Key::State => b"State",
            Key::Target => b"Target",
            Key::UserStateLen => b"UserStateLen",
            Key::Vsn => b"Vsn",
        }
    }
}
