//! The fields of each message, in the order in which Serf's structs declare them (messages.go,
//! serf.go, keymanager.go, internal_query.go, coordinate.go).

ghost use Rattle.std.specs.Prelude.{◌≡◌};
ghost use Rattle.serf_message.specs.Keys.{key_text};

/// A field, by the name that its key has.
#[derive(Clone, Copy)]
pub(crate) enum Key {
    Addr,
    Adjustment,
    Coalesce,
    DestAddr,
    DestName,
    Error,
    EventTime,
    Events,
    Filters,
    Flags,
    From,
    Height,
    Id,
    Ip,
    Key,
    Keys,
    LeftMembers,
    Message,
    Name,
    Node,
    Payload,
    Port,
    PrimaryKey,
    Prune,
    QueryTime,
    RelayFactor,
    Result,
    SourceNode,
    StatusTimes,
    Time,
    Timeout,
    Vec,
    Zone,
}

/// The type of a field.
#[derive(Clone, Copy)]
pub(crate) enum Kind {
    /// Go's `uint64`.
    Uint64,
    /// Go's `uint32`.
    Uint32,
    /// Go's `uint16`.
    Uint16,
    /// Go's `uint8`.
    Uint8,
    /// Go's `int64`.
    Int64,
    /// Go's `float64`: its bits.
    Float,
    /// Go's `string`.
    Text,
    /// Go's `[]byte`.
    Bytes,
    /// Go's `bool`.
    Flag,
    /// A list, a map or a struct: the bytes of the value, which are read afterwards.
    Whole,
}

/// A field and its type.
#[derive(Clone, Copy)]
pub(crate) struct Field {
    pub(crate) key: Key,
    pub(crate) kind: Kind,
}

/// Serf's `messageLeave`.
pub(crate) const LEAVE: [Field; 3] = [
    Field {
        key: Key::Time,
        kind: Kind::Uint64,
    },
    Field {
        key: Key::Node,
        kind: Kind::Text,
    },
    Field {
        key: Key::Prune,
        kind: Kind::Flag,
    },
];

/// Serf's `messageJoin`.
pub(crate) const JOIN: [Field; 2] = [
    Field {
        key: Key::Time,
        kind: Kind::Uint64,
    },
    Field {
        key: Key::Node,
        kind: Kind::Text,
    },
];

/// Serf's `messageUserEvent`.
pub(crate) const EVENT: [Field; 4] = [
    Field {
        key: Key::Time,
        kind: Kind::Uint64,
    },
    Field {
        key: Key::Name,
        kind: Kind::Text,
    },
    Field {
        key: Key::Payload,
        kind: Kind::Bytes,
    },
    Field {
        key: Key::Coalesce,
        kind: Kind::Flag,
    },
];

/// Serf's `messageQuery`.
pub(crate) const QUERY: [Field; 11] = [
    Field {
        key: Key::Time,
        kind: Kind::Uint64,
    },
    Field {
        key: Key::Id,
        kind: Kind::Uint32,
    },
    Field {
        key: Key::Addr,
        kind: Kind::Bytes,
    },
    Field {
        key: Key::Port,
        kind: Kind::Uint16,
    },
    Field {
        key: Key::SourceNode,
        kind: Kind::Text,
    },
    Field {
        key: Key::Filters,
        kind: Kind::Whole,
    },
    Field {
        key: Key::Flags,
        kind: Kind::Uint32,
    },
    Field {
        key: Key::RelayFactor,
        kind: Kind::Uint8,
    },
    Field {
        key: Key::Timeout,
        kind: Kind::Int64,
    },
    Field {
        key: Key::Name,
        kind: Kind::Text,
    },
    Field {
        key: Key::Payload,
        kind: Kind::Bytes,
    },
];

/// Serf's `messageQueryResponse`.
pub(crate) const RESPONSE: [Field; 5] = [
    Field {
        key: Key::Time,
        kind: Kind::Uint64,
    },
    Field {
        key: Key::Id,
        kind: Kind::Uint32,
    },
    Field {
        key: Key::From,
        kind: Kind::Text,
    },
    Field {
        key: Key::Flags,
        kind: Kind::Uint32,
    },
    Field {
        key: Key::Payload,
        kind: Kind::Bytes,
    },
];

/// Serf's `relayHeader`.
pub(crate) const RELAY: [Field; 2] = [
    Field {
        key: Key::DestAddr,
        kind: Kind::Whole,
    },
    Field {
        key: Key::DestName,
        kind: Kind::Text,
    },
];

/// Go's `net.UDPAddr`.
pub(crate) const ADDRESS: [Field; 3] = [
    Field {
        key: Key::Ip,
        kind: Kind::Bytes,
    },
    Field {
        key: Key::Port,
        kind: Kind::Uint16,
    },
    Field {
        key: Key::Zone,
        kind: Kind::Text,
    },
];

/// Serf's `coordinate.Coordinate`.
pub(crate) const COORDINATE: [Field; 4] = [
    Field {
        key: Key::Vec,
        kind: Kind::Whole,
    },
    Field {
        key: Key::Error,
        kind: Kind::Float,
    },
    Field {
        key: Key::Adjustment,
        kind: Kind::Float,
    },
    Field {
        key: Key::Height,
        kind: Kind::Float,
    },
];

/// Serf's `messagePushPull`.
pub(crate) const STATE: [Field; 6] = [
    Field {
        key: Key::Time,
        kind: Kind::Uint64,
    },
    Field {
        key: Key::StatusTimes,
        kind: Kind::Whole,
    },
    Field {
        key: Key::LeftMembers,
        kind: Kind::Whole,
    },
    Field {
        key: Key::EventTime,
        kind: Kind::Uint64,
    },
    Field {
        key: Key::Events,
        kind: Kind::Whole,
    },
    Field {
        key: Key::QueryTime,
        kind: Kind::Uint64,
    },
];

/// Serf's `userEvents`.
pub(crate) const GROUP: [Field; 2] = [
    Field {
        key: Key::Time,
        kind: Kind::Uint64,
    },
    Field {
        key: Key::Events,
        kind: Kind::Whole,
    },
];

/// Serf's `userEvent`.
pub(crate) const GROUPED: [Field; 2] = [
    Field {
        key: Key::Name,
        kind: Kind::Text,
    },
    Field {
        key: Key::Payload,
        kind: Kind::Bytes,
    },
];

/// Serf's `keyRequest`.
pub(crate) const KEY_REQUEST: [Field; 1] = [Field {
    key: Key::Key,
    kind: Kind::Bytes,
}];

/// Serf's `nodeKeyResponse`.
pub(crate) const KEY_RESPONSE: [Field; 4] = [
    Field {
        key: Key::Result,
        kind: Kind::Flag,
    },
    Field {
        key: Key::Message,
        kind: Kind::Text,
    },
    Field {
        key: Key::Keys,
        kind: Kind::Whole,
    },
    Field {
        key: Key::PrimaryKey,
        kind: Kind::Text,
    },
];

impl Key {
    /// The key's text in a map.
    pub(crate) fn text(self) -> &'static [u8]
        ensures { result.now ≡ key_text self }
    {
        match self {
            Key::Addr => b"Addr",
            Key::Adjustment => b"Adjustment",
            Key::Coalesce => b"CC",
            Key::DestAddr => b"DestAddr",
            Key::DestName => b"DestName",
            Key::Error => b"Error",
            Key::EventTime => b"EventLTime",
            Key::Events => b"Events",
            Key::Filters => b"Filters",
            Key::Flags => b"Flags",
            Key::From => b"From",
            Key::Height => b"Height",
            Key::Id => b"ID",
            Key::Ip => b"IP",
            Key::Key => b"Key",
            Key::Keys => b"Keys",
            Key::LeftMembers => b"LeftMembers",
            Key::Message => b"Message",
            Key::Name => b"Name",
            Key::Node => b"Node",
            Key::Payload => b"Payload",
            Key::Port => b"Port",
            Key::PrimaryKey => b"PrimaryKey",
            Key::Prune => b"Prune",
            Key::QueryTime => b"QueryLTime",
            Key::RelayFactor => b"RelayFactor",
            Key::Result => b"Result",
            Key::SourceNode => b"SourceNode",
            Key::StatusTimes => b"StatusLTimes",
            Key::Time => b"LTime",
            Key::Timeout => b"Timeout",
            Key::Vec => b"Vec",
            Key::Zone => b"Zone",
        }
    }
}
