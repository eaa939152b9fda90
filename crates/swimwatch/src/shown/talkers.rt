//! What each sender sent, by kind.

ghost use Rattle.std.specs.Prelude.{◌≡◌, ◌<◌};
ghost use Rattle.swimwatch.specs.Counted.{kind_of_claim, kind_of_message};

use crate::heard::counts::count;
use crate::text::columns::Rows;
use crate::text::endpoint::endpoint;
use crate::text::json::Object;
use crate::text::written::Text;
use crate::view::listener::Listener;
use memberlist_message::Message;
use memberlist_view::Said;
use std::alloc::{AllocError, Global};
use std::collections::BTreeMap;
use std::net::SocketAddr;

/// A kind of message.
#[derive(Clone, Copy, PartialEq, Eq)]
pub(crate) enum Kind {
    Ping,
    IndirectPing,
    Ack,
    Nack,
    Suspect,
    Alive,
    Dead,
    Left,
    User,
    Stream,
    /// A ping, an ack, a user message or an error over TCP.
    Message,
    Unread,
}

/// How many kinds there are.
const KINDS: usize = 12;

/// The column header and the name in JSON of each kind.
const HEADS: [(&str, &str); KINDS] = [
    ("PING", "pings"),
    ("PING-REQ", "indirect_pings"),
    ("ACK", "acks"),
    ("NACK", "nacks"),
    ("SUSPECT", "suspicions"),
    ("ALIVE", "alives"),
    ("DEAD", "deaths"),
    ("LEFT", "leaves"),
    ("USER", "user_messages"),
    ("STREAM", "streams"),
    ("TCP", "tcp_messages"),
    ("UNREAD", "unread"),
];

impl Kind {
    /// The kind of a message.
    pub(crate) fn of_message(message: &Message) -> Kind
        ensures { result ≡ kind_of_message message.now }
    {
        match message {
            Message::Ping(_) => Kind::Ping,
            Message::IndirectPing(_) => Kind::IndirectPing,
            Message::Ack(_) => Kind::Ack,
            Message::Nack(_) => Kind::Nack,
            Message::User(_) => Kind::User,
            Message::Error(_) => Kind::Unread,
            Message::Claim(packet) => Kind::of_claim(packet.claim().kind()),
        }
    }

    /// The kind of a packet with a claim of this kind.
    pub(crate) fn of_claim(kind: swim_claim::Kind) -> Kind
        ensures { result ≡ kind_of_claim kind }
    {
        match kind {
            swim_claim::Kind::Alive => Kind::Alive,
            swim_claim::Kind::Suspect => Kind::Suspect,
            swim_claim::Kind::Confirm => Kind::Dead,
            swim_claim::Kind::Leave => Kind::Left,
        }
    }

    /// Its index among the columns.
    fn place(self) -> usize
        ensures { result < 12 }
    {
        match self {
            Kind::Ping => 0,
            Kind::IndirectPing => 1,
            Kind::Ack => 2,
            Kind::Nack => 3,
            Kind::Suspect => 4,
            Kind::Alive => 5,
            Kind::Dead => 6,
            Kind::Left => 7,
            Kind::User => 8,
            Kind::Stream => 9,
            Kind::Message => 10,
            Kind::Unread => 11,
        }
    }
}

/// What one sender sent.
#[derive(Clone, Copy, Default)]
struct Tally {
    counts: [u64; KINDS],
    bytes: u64,
}

impl Tally {
    /// Adds what another sender sent.
    fn add(&mut self, other: &Tally) {
        for (count, more) in self.counts.iter_mut().zip(&other.counts) {
            *count = count.saturating_add(*more);
        }
        self.bytes = self.bytes.saturating_add(other.bytes);
    }
}

/// The most senders that are counted apart: some 10 MiB of memory.
const MAX_SENDERS: usize = 65_536;

/// What each sender sent.
#[derive(Drop)]
pub(crate) struct Talkers {
    /// Whether anything is counted.
    is_asked: bool,
    tallies: BTreeMap<SocketAddr, Tally>,
    /// What members sent from ends that they have left, by their names.
    settled: BTreeMap<String, Tally>,
    /// What all others sent, after the first 65,536 senders.
    others: Option<Tally>,
}

impl Talkers {
    /// Counts what senders send if that is asked for.
    pub(crate) fn new(alloc: Global, is_asked: bool) -> Talkers {
        Talkers {
            is_asked,
            tallies: BTreeMap::new(alloc),
            settled: BTreeMap::new(alloc),
            others: None,
        }
    }

    /// Counts a message from a sender.
    pub(crate) fn said(&mut self, sender: SocketAddr, kind: Kind) -> Result<(), AllocError> {
        let mut one = Tally::default();
        count(&mut one.counts[kind.place()]);
        self.add(sender, &one)
    }

    /// Counts bytes from a sender.
    pub(crate) fn sent(&mut self, sender: SocketAddr, bytes: usize) -> Result<(), AllocError> {
        let mut more = Tally::default();
        more.bytes = bytes as u64;
        self.add(sender, &more)
    }

    fn add(&mut self, sender: SocketAddr, more: &Tally) -> Result<(), AllocError> {
        if !self.is_asked {
            return Ok(());
        }
        if let Some(tally) = self.tallies.get_mut(&sender) {
            tally.add(more);
        } else if self.tallies.len() < MAX_SENDERS {
            let _ = self.tallies.insert(sender, *more)?;
        } else {
            self.add_other(more);
        }
        Ok(())
    }

    /// Adds what a sender sent that is not counted apart.
    fn add_other(&mut self, more: &Tally) {
        let mut others = self.others.unwrap_or_default();
        others.add(more);
        self.others = Some(others);
    }

    /// Before this is heard: if it moves a member, what was sent so far from the ends that the
    /// member leaves or takes is counted as sent by the members that are there now.
    pub(crate) fn settle(&mut self, listener: &Listener, said: &Said) -> Result<(), AllocError> {
        if !self.is_asked {
            return Ok(());
        }
        for end in ends_moved(listener, said) {
            if let Some(end) = end {
                self.name_now(listener, end)?;
            }
        }
        Ok(())
    }

    /// Counts what was sent from an end as sent by the member that is there, if one is.
    fn name_now(&mut self, listener: &Listener, end: SocketAddr) -> Result<(), AllocError> {
        let Some(tally) = self.tallies.get(&end).copied() else {
            return Ok(());
        };
        let Some(name) = listener.name_at(end)? else {
            return Ok(());
        };
        if let Some(settled) = self.settled.get_mut(&name) {
            settled.add(&tally);
        } else if self.settled.len() < MAX_SENDERS {
            let _ = self.settled.insert(name, tally)?;
        } else {
            self.add_other(&tally);
        }
        let _ = self.tallies.remove(&end);
        Ok(())
    }

    /// What each sender sent, by the text that identifies it: the name of a member, with all its
    /// connections, and the address of another sender.
    fn by_text(
        &self,
        alloc: Global,
        listener: &Listener,
    ) -> Result<BTreeMap<String, Tally>, AllocError> {
        let mut tallies: BTreeMap<String, Tally> = BTreeMap::new(alloc);
        for (name, tally) in self.settled.iter() {
            add_to(&mut tallies, name.clone()?, tally)?;
        }
        for (sender, tally) in self.tallies.iter() {
            add_to(&mut tallies, listener.end_text(*sender)?, tally)?;
        }
        if let Some(others) = &self.others {
            add_to(&mut tallies, String::from_str(alloc, "others")?, others)?;
        }
        Ok(tallies)
    }

    /// Adds a row for each sender, in the order of their texts.
    pub(crate) fn write(&self, text: &mut Text, listener: &Listener) {
        let alloc = text.alloc();
        let Some(tallies) = text.made(self.by_text(alloc, listener)) else {
            return;
        };
        let mut rows = Rows::below(alloc, &heads());
        for (sender, tally) in tallies.iter() {
            rows.word(sender);
            for number in &tally.counts {
                rows.number(*number);
            }
            rows.number(tally.bytes);
            rows.end_row();
        }
        rows.write(text);
    }

    /// Adds an object for each sender.
    pub(crate) fn write_objects(&self, text: &mut Text, listener: &Listener) {
        let alloc = text.alloc();
        let Some(tallies) = text.made(self.by_text(alloc, listener)) else {
            return;
        };
        for (sender, tally) in tallies.iter() {
            let mut object = Object::new(alloc);
            object.word("sender", sender);
            for (number, head) in tally.counts.iter().zip(&HEADS) {
                object.number(head.1, *number);
            }
            object.number("bytes", tally.bytes);
            object.write(text);
        }
    }
}

/// Adds what the sender with this text sent.
fn add_to(
    tallies: &mut BTreeMap<String, Tally>,
    text: String,
    more: &Tally,
) -> Result<(), AllocError> {
    if let Some(tally) = tallies.get_mut(&text) {
        tally.add(more);
    } else {
        let _ = tallies.insert(text, *more)?;
    }
    Ok(())
}

/// The ends that a member leaves and takes if what is said moves it, and their hosts.
pub(crate) fn ends_moved(listener: &Listener, said: &Said) -> [Option<SocketAddr>; 4] {
    let from = listener.place(said.name());
    let to = end_in(said);
    if to.is_none() || from == to {
        return [None; 4];
    }
    [
        from,
        from.map(|end| host_of(end)),
        to,
        to.map(|end| host_of(end)),
    ]
}

/// Where a member is by what is said, if that is said.
fn end_in(said: &Said) -> Option<SocketAddr> {
    match said {
        Said::Alive { details, .. } => endpoint(details.addr(), details.port()),
        Said::Seen { place, .. } => endpoint(place.addr(), place.port()),
        Said::Suspect { .. } | Said::Dead { .. } | Said::Left { .. } => None,
    }
}

/// The headers of the columns.
fn heads() -> [&'static str; KINDS + 2] {
    let mut heads = ["SENDER"; KINDS + 2];
    for (head, kind) in heads.iter_mut().skip(1).zip(&HEADS) {
        *head = kind.0;
    }
    heads[KINDS + 1] = "BYTES";
    heads
}

/// The endpoint without its port, since a connection comes from a port of its own.
pub(crate) fn host_of(end: SocketAddr) -> SocketAddr {
    SocketAddr::new(end.ip(), 0)
}
