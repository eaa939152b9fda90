//! Messages, and their fields. Names and texts are bytes, and need not be text.

/// One message that Serf sends as a user message of memberlist.
#[derive(Drop, Debug)]
pub enum Message {
    /// A member leaves.
    Leave(Leave),
    /// A member has joined.
    Join(Join),
    /// An event of a user.
    Event(UserEvent),
    /// A question to the members.
    Query(Query),
    /// A member's answer to a query, or its receipt.
    Response(QueryResponse),
    /// A message that a member is to pass on.
    Relay(Relay),
}

/// Serf's `messageLeave` (messages.go).
#[derive(Drop, Debug)]
pub struct Leave {
    /// The Lamport time of the intent.
    pub time: u64,
    /// The name of the member that leaves.
    pub node: Vec<u8>,
    /// Whether the others forget it at once.
    pub prune: bool,
}

/// Serf's `messageJoin` (messages.go).
#[derive(Drop, Debug)]
pub struct Join {
    /// The Lamport time of the intent.
    pub time: u64,
    /// The name of the member that has joined.
    pub node: Vec<u8>,
}

/// Serf's `messageUserEvent` (messages.go).
#[derive(Drop, Debug)]
pub struct UserEvent {
    /// The Lamport time of the event.
    pub time: u64,
    /// The name of the event.
    pub name: Vec<u8>,
    /// What the event carries, or nothing.
    pub payload: Vec<u8>,
    /// Whether events of this name may be told as one (Serf's `CC`).
    pub coalesce: bool,
}

/// Serf's `messageQuery` (messages.go).
#[derive(Drop, Debug)]
pub struct Query {
    /// The Lamport time of the query.
    pub time: u64,
    /// The number that the answers repeat.
    pub id: u32,
    /// The address of the member that asks.
    pub addr: Vec<u8>,
    /// The port of the member that asks.
    pub port: u16,
    /// The name of the member that asks, or empty.
    pub source_node: Vec<u8>,
    /// Whom the query is for, each as Serf encodes it. None: all members.
    pub filters: Vec<Vec<u8>>,
    /// 1: a receipt is wanted; 2: it is not passed on.
    pub flags: u32,
    /// Through how many members each answer comes once more.
    pub relay_factor: u8,
    /// How long answers are taken, in nanoseconds.
    pub timeout: i64,
    /// The name of the query.
    pub name: Vec<u8>,
    /// What the query carries, or nothing.
    pub payload: Vec<u8>,
}

/// Serf's `messageQueryResponse` (messages.go).
#[derive(Drop, Debug)]
pub struct QueryResponse {
    /// The Lamport time of the query.
    pub time: u64,
    /// The number of the query.
    pub id: u32,
    /// The name of the member that answers.
    pub from: Vec<u8>,
    /// 1: it is a receipt.
    pub flags: u32,
    /// The answer, or nothing.
    pub payload: Vec<u8>,
}

/// Serf's `relayHeader` (messages.go), and the message behind it.
#[derive(Drop, Debug)]
pub struct Relay {
    /// The address that the message is for.
    pub addr: Vec<u8>,
    /// The port that the message is for.
    pub port: u16,
    /// The zone of an IPv6 address, or empty.
    pub zone: Vec<u8>,
    /// The name of the member that the message is for, or empty.
    pub name: Vec<u8>,
    /// The bytes of the message, which need not be one.
    pub message: Vec<u8>,
}
