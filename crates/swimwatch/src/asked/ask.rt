//! Asking members for their tables, all at the same time.

use crate::NAME;
use crate::arguments::chosen::Asking;
use crate::asked::connection::Exchange;
use crate::asked::host::Host;
use crate::asked::inquiry::Inquiry;
use crate::asked::request::request;
use crate::asked::ring::Ring;
use crate::asked::silence::Silence;
use crate::asked::unlisted::Unlisted;
use crate::heard::serf_state::UserEvents;
use crate::text::said::{misused, said};
use crate::view::roster::Roster;
use memberlist_cipher::CipherFault;
use memberlist_transport::InTheClear;
use mio::net::TcpStream;
use mio::{Events, Poll, Registry, Token};
use std::alloc::{AllocError, Global};
use std::io::{self, Error, ErrorKind};
use std::net::SocketAddr;
use std::random::RandomSource;
use std::time::{Clock, Duration, Instant};
use swim_program::Failure;

/// How many connections are reported at once.
const MAX_EVENTS: usize = 64;

/// What a member knows.
#[derive(Drop)]
pub(crate) struct Answer {
    /// The member that was asked, as `10.20.1.11:7946`.
    pub(crate) host: String,
    /// The push/pull stream that it sent, without its wrappers.
    pub(crate) stream: Vec<u8>,
    /// What the stream says.
    pub(crate) roster: Roster,
    /// What it says about names that the roster does not have.
    pub(crate) unlisted: Unlisted,
    /// The user events in Serf's state, if the stream has one.
    pub(crate) events: UserEvents,
    /// When it was there.
    pub(crate) at: Instant,
    /// How it was given.
    pub(crate) way: Way,
}

/// How an answer was given.
#[derive(Clone, Copy, PartialEq, Eq)]
pub(crate) struct Way {
    /// How many bytes were received.
    pub(crate) len: usize,
    /// From the beginning of the connection to its end.
    pub(crate) took: Duration,
    /// The place of the key under which the member was asked.
    pub(crate) key: usize,
}

/// What came of asking a member.
pub(crate) type Asked = Result<Answer, Silence>;

/// A member to ask, and the place of the key with which to begin.
#[derive(Clone, Copy)]
pub(crate) struct Target<'a> {
    pub(crate) host: Host<'a>,
    pub(crate) key: usize,
}

/// The members that the words name.
///
/// # Errors
///
/// The message for the first word that does not name a host, with status 2.
pub(crate) fn targets_of<'a>(
    alloc: Global,
    words: &'a [String],
) -> Result<Vec<Target<'a>>, Failure> {
    let mut targets = Vec::new(alloc);
    for word in words {
        match Host::parse(word) {
            Some(host) => targets
                .push(Target { host, key: 0 })
                .map_err(AllocError::from)?,
            None => return Err(no_host(alloc, word)),
        }
    }
    Ok(targets)
}

/// Asks these members for their tables, all at the same time. What came of it is in their order.
///
/// # Errors
///
/// The message to print, and the exit status: 4 if the system refuses connections in general, or
/// random bytes for encryption.
pub(crate) fn ask_all(
    rt: &HostRuntime,
    ring: &mut Ring,
    asking: &Asking,
    targets: &[Target],
) -> Result<Vec<Asked>, Failure> {
    let alloc = rt.alloc();
    let mut inquiries = Vec::new(alloc);
    for target in targets {
        inquiries
            .push(Inquiry::of(rt, target)?)
            .map_err(AllocError::from)?;
    }
    // the time begins when all names have been looked up
    let mut round = Round::begin(rt, ring, asking)?;
    for (number, inquiry) in inquiries.iter_mut().enumerate() {
        inquiry.connect(&mut round, Token(number))?;
    }
    round.run(&mut inquiries)?;
    let mut all = Vec::new(alloc);
    for inquiry in inquiries {
        all.push(inquiry.into_asked()?).map_err(AllocError::from)?;
    }
    Ok(all)
}

/// Members that are asked at the same time.
#[derive(Drop)]
pub(crate) struct Round<'a> {
    rt: &'a HostRuntime,
    ring: &'a mut Ring,
    asking: &'a Asking,
    poll: Poll,
    /// When the time of all of them is over.
    pub(crate) end: Instant,
}

impl<'a> Round<'a> {
    fn begin(
        rt: &'a HostRuntime,
        ring: &'a mut Ring,
        asking: &'a Asking,
    ) -> Result<Round<'a>, Failure> {
        let timeout = Duration::from_secs(asking.timeout);
        match (Poll::new(rt), end_of(rt, timeout)) {
            (Ok(poll), Ok(end)) => Ok(Round {
                rt,
                ring,
                asking,
                poll,
                end,
            }),
            (Err(error), _) | (_, Err(error)) => Err(no_network(rt.alloc(), error)),
        }
    }

    /// Goes on until nothing is left to ask.
    fn run(&mut self, inquiries: &mut [Inquiry]) -> Result<(), Failure> {
        let mut events = Events::with_capacity(self.rt.alloc(), MAX_EVENTS)?;
        for _turn in 0..u64::MAX {
            let now = self.now()?;
            let mut next = None;
            for (number, inquiry) in inquiries.iter_mut().enumerate() {
                inquiry.give_up(self, Token(number), now)?;
                next = sooner(next, inquiry.until());
            }
            let Some(next) = next else {
                return Ok(());
            };
            if let Err(error) = self.poll.poll(&mut events, Some(wait_until(now, next))) {
                return Err(no_network(self.alloc(), error));
            }
            for event in events.iter() {
                if let Some(inquiry) = inquiries.get_mut(event.token().0) {
                    inquiry.go_on(self, event.token())?;
                }
            }
        }
        Ok(())
    }

    /// A request to this address under the key at this place. None of its bytes has been sent.
    pub(crate) fn exchange(
        &mut self,
        address: SocketAddr,
        key: usize,
        token: Token,
    ) -> Result<io::Result<Exchange>, Failure> {
        let request = self.request(key)?;
        let stream = match TcpStream::connect(self.rt, address) {
            Ok(stream) => stream,
            Err(error) => return Ok(Err(error)),
        };
        let mut exchange = Exchange::new(stream, request);
        match exchange.watch(self.poll.registry(), token) {
            Ok(()) => Ok(Ok(exchange)),
            Err(error) => Ok(Err(error)),
        }
    }

    /// A request under the key at this place, with a nonce from the operating system's generator.
    fn request(&mut self, key: usize) -> Result<Vec<u8>, Failure> {
        let alloc = self.alloc();
        self.ring.turn_to(key);
        let mut nonce = [0; 12];
        if self.rt.fill_bytes(&mut nonce).is_err() {
            let text = format!(in alloc; "{NAME}: cannot read random bytes from the system");
            return Err(said(text, 4));
        }
        match request(alloc, self.ring.keys(), &nonce, &self.asking.label) {
            Ok(request) => Ok(request),
            Err(CipherFault::Memory) => Err(Failure::Memory),
            Err(_) => Err(misused(alloc, "--label must have 1 to 255 bytes")),
        }
    }

    pub(crate) fn alloc(&self) -> Global {
        self.rt.alloc()
    }

    pub(crate) fn ring(&self) -> &Ring {
        self.ring
    }

    pub(crate) fn clear(&self) -> InTheClear {
        self.asking.clear
    }

    pub(crate) fn label(&self) -> &[u8] {
        &self.asking.label
    }

    pub(crate) fn registry(&self) -> &Registry {
        self.poll.registry()
    }

    pub(crate) fn now(&self) -> Result<Instant, Failure> {
        match Instant::now(self.rt) {
            Ok(now) => Ok(now),
            Err(error) => Err(no_network(self.alloc(), error)),
        }
    }
}

/// When a period that begins now is over.
fn end_of<C: Clock>(clock: &C, timeout: Duration) -> io::Result<Instant> {
    match Instant::now(clock)?.checked_add(timeout) {
        Some(end) => Ok(end),
        None => Err(Error::from(ErrorKind::InvalidInput)),
    }
}

/// The sooner of two moments, of which there may be none.
fn sooner(one: Option<Instant>, other: Option<Instant>) -> Option<Instant> {
    match (one, other) {
        (Some(one), Some(other)) => Some(if other < one { other } else { one }),
        (one, other) => one.or(other),
    }
}

/// How long to wait for a moment. It is a millisecond more, the unit in which the system waits.
fn wait_until(now: Instant, moment: Instant) -> Duration {
    moment
        .duration_since(now)
        .saturating_add(Duration::from_millis(1))
}

fn no_host(alloc: Global, word: &str) -> Failure {
    said(
        format!(in alloc;
            "{NAME}: {word}: invalid host; give a name or an address, with or without a port: \
             web-1, 10.20.1.11:7946, [fe80::1%eth0]:7946"
        ),
        2,
    )
}

fn no_network(alloc: Global, error: Error) -> Failure {
    if error.kind() == ErrorKind::OutOfMemory {
        return Failure::Memory;
    }
    said(
        format!(in alloc; "{NAME}: cannot wait for connections ({error})"),
        4,
    )
}
