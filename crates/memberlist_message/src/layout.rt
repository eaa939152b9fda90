//! The fields of each message, in the order in which memberlist's net.go declares them.

ghost use Rattle.std.specs.Prelude.{◌≡◌};
ghost use Rattle.memberlist_message.specs.Keys.{key_text};

/// A field, by memberlist's name.
#[derive(Clone, Copy)]
pub(crate) enum Key {
    Addr,
    Error,
    From,
    Incarnation,
    Meta,
    Nack,
    Node,
    Payload,
    Port,
    SeqNo,
    SourceAddr,
    SourceNode,
    SourcePort,
    Target,
    Vsn,
}

/// The type of a field.
#[derive(Clone, Copy)]
pub(crate) enum Kind {
    /// Go's `uint32`.
    Uint32,
    /// Go's `uint16`.
    Uint16,
    /// Go's `string`.
    Text,
    /// Go's `[]byte`.
    Bytes,
    /// Go's `bool`.
    Flag,
}

/// A field and its type.
#[derive(Clone, Copy)]
pub(crate) struct Field {
    pub(crate) key: Key,
    pub(crate) kind: Kind,
}

/// memberlist's `ping`.
pub(crate) const PING: [Field; 5] = [
    Field {
        key: Key::SeqNo,
        kind: Kind::Uint32,
    },
    Field {
        key: Key::Node,
        kind: Kind::Text,
    },
    Field {
        key: Key::SourceAddr,
        kind: Kind::Bytes,
    },
    Field {
        key: Key::SourcePort,
        kind: Kind::Uint16,
    },
    Field {
        key: Key::SourceNode,
        kind: Kind::Text,
    },
];

/// memberlist's `indirectPingReq`.
pub(crate) const INDIRECT_PING: [Field; 8] = [
    Field {
        key: Key::SeqNo,
        kind: Kind::Uint32,
    },
    Field {
        key: Key::Target,
        kind: Kind::Bytes,
    },
    Field {
        key: Key::Port,
        kind: Kind::Uint16,
    },
    Field {
        key: Key::Node,
        kind: Kind::Text,
    },
    Field {
        key: Key::Nack,
        kind: Kind::Flag,
    },
    Field {
        key: Key::SourceAddr,
        kind: Kind::Bytes,
    },
    Field {
        key: Key::SourcePort,
        kind: Kind::Uint16,
    },
    Field {
        key: Key::SourceNode,
        kind: Kind::Text,
    },
];

/// memberlist's `ackResp`.
pub(crate) const ACK: [Field; 2] = [
    Field {
        key: Key::SeqNo,
        kind: Kind::Uint32,
    },
    Field {
        key: Key::Payload,
        kind: Kind::Bytes,
    },
];

/// memberlist's `nackResp`.
pub(crate) const NACK: [Field; 1] = [Field {
    key: Key::SeqNo,
    kind: Kind::Uint32,
}];

/// memberlist's `errResp`.
pub(crate) const ERROR: [Field; 1] = [Field {
    key: Key::Error,
    kind: Kind::Text,
}];

/// memberlist's `suspect` and `dead`.
pub(crate) const ACCUSATION: [Field; 3] = [
    Field {
        key: Key::Incarnation,
        kind: Kind::Uint32,
    },
    Field {
        key: Key::Node,
        kind: Kind::Text,
    },
    Field {
        key: Key::From,
        kind: Kind::Text,
    },
];

/// memberlist's `alive`.
pub(crate) const ALIVE: [Field; 6] = [
    Field {
        key: Key::Incarnation,
        kind: Kind::Uint32,
    },
    Field {
        key: Key::Node,
        kind: Kind::Text,
    },
    Field {
        key: Key::Addr,
        kind: Kind::Bytes,
    },
    Field {
        key: Key::Port,
        kind: Kind::Uint16,
    },
    Field {
        key: Key::Meta,
        kind: Kind::Bytes,
    },
    Field {
        key: Key::Vsn,
        kind: Kind::Bytes,
    },
];

impl Key {
    /// The key's text in a map.
    pub(crate) fn text(self) -> &'static [u8]
        ensures { result.now ≡ key_text self }
    {
        match self {
            Key::Addr => b"Addr",
            Key::Error => b"Error",
            Key::From => b"From",
            Key::Incarnation => b"Incarnation",
            Key::Meta => b"Meta",
            Key::Nack => b"Nack",
            Key::Node => b"Node",
            Key::Payload => b"Payload",
            Key::Port => b"Port",
            Key::SeqNo => b"SeqNo",
            Key::SourceAddr => b"SourceAddr",
            Key::SourceNode => b"SourceNode",
            Key::SourcePort => b"SourcePort",
            Key::Target => b"Target",
            Key::Vsn => b"Vsn",
        }
    }
}
