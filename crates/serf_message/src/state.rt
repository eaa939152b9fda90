//! The state that Serf's push/pulls carry.

/// Serf's `messagePushPull` (messages.go).
#[derive(Drop, Debug)]
pub struct State {
    /// The Lamport time of the member.
    pub time: u64,
    /// The Lamport time of the status of each member that it knows, in the order of the map. A name
    /// that comes twice is given twice, and Serf keeps the last.
    pub status_times: Vec<StatusTime>,
    /// The names of the members that have left.
    pub left_members: Vec<Vec<u8>>,
    /// The Lamport time of events.
    pub event_time: u64,
    /// Recent events, at the places of a ring. Some places may be empty.
    pub events: Vec<Option<EventGroup>>,
    /// The Lamport time of queries.
    pub query_time: u64,
}

/// The Lamport time of a member's status.
#[derive(Drop, Debug)]
pub struct StatusTime {
    /// The name of the member.
    pub node: Vec<u8>,
    /// The time.
    pub time: u64,
}

/// Serf's `userEvents` (serf.go): the events of one Lamport time.
#[derive(Drop, Debug)]
pub struct EventGroup {
    /// The time.
    pub time: u64,
    /// The events.
    pub events: Vec<GroupedEvent>,
}

/// Serf's `userEvent` (serf.go).
#[derive(Drop, Debug)]
pub struct GroupedEvent {
    /// The name of the event.
    pub name: Vec<u8>,
    /// What the event carries, or nothing.
    pub payload: Vec<u8>,
}
