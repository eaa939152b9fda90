//! One member that is asked: its addresses and the keys, one after the other, until it answers.

use crate::asked::answer::{NoAnswer, stream_in};
use crate::asked::ask::{Answer, Asked, Round, Target, Way};
use crate::asked::connection::{Exchange, NoReply, Step};
use crate::asked::silence::{Cause, Silence};
use crate::asked::unlisted::Unlisted;
use crate::heard::carriage::NoStream;
use crate::heard::serf_state::UserEvents;
use crate::view::roster::Roster;
use mio::Token;
use std::alloc::AllocError;
use std::io::{self, Error, ErrorKind};
use std::net::{SocketAddr, ToSocketAddrs};
use std::time::{Duration, Instant};
use swim_program::Failure;

/// A member that is asked.
#[derive(Drop)]
pub(crate) struct Inquiry {
    host: String,
    addresses: Vec<SocketAddr>,
    /// The place of the address in use.
    place: usize,
    /// The place of the key in use, and how many keys were tried before.
    key: usize,
    tried: usize,
    state: State,
}

#[derive(Drop)]
enum State {
    /// An exchange, when it began, and when it is given up.
    Asking(Exchange, Instant, Instant),
    /// The member answered.
    Answered(Answer),
    /// It has no answer.
    Silent(Cause),
}

impl Inquiry {
    /// Looks up the addresses of a member.
    pub(crate) fn of(rt: &HostRuntime, target: &Target) -> Result<Inquiry, Failure> {
        let alloc = rt.alloc();
        let (addresses, cause) = match addresses_of(rt, target) {
            Ok(addresses) => (addresses, Error::from(ErrorKind::NotFound)),
            Err(error) if error.kind() == ErrorKind::OutOfMemory => return Err(Failure::Memory),
            Err(error) => (Vec::new(alloc), error),
        };
        Ok(Inquiry {
            host: target.host.text(alloc)?,
            addresses,
            place: 0,
            key: target.key,
            tried: 0,
            state: State::Silent(Cause::NoReply(NoReply::NoAddress(cause))),
        })
    }

    /// When to look after it again, if it is not done.
    pub(crate) fn until(&self) -> Option<Instant> {
        match &self.state {
            State::Asking(_, _, until) => Some(*until),
            State::Answered(_) | State::Silent(_) => None,
        }
    }

    /// What came of it.
    pub(crate) fn into_asked(self) -> Result<Asked, AllocError> {
        let Inquiry { host, state, .. } = self;
        let cause = match state {
            State::Answered(answer) => return Ok(Ok(answer)),
            State::Silent(cause) => cause,
            State::Asking(exchange, _, _) => {
                Cause::NoReply(NoReply::Late(exchange.into_received().len()))
            }
        };
        Ok(Err(Silence { host, cause }))
    }

    /// Begins a connection to the address in use, or to the next one to which one can be begun.
    pub(crate) fn connect(&mut self, round: &mut Round, token: Token) -> Result<(), Failure> {
        for place in self.place..self.addresses.len() {
            let now = round.now()?;
            self.place = place;
            match round.exchange(self.addresses[place], self.key, token)? {
                Ok(exchange) => {
                    let left = self.addresses.len().saturating_sub(place);
                    let until = share_until(now, round.end, left);
                    self.state = State::Asking(exchange, now, until);
                    return Ok(());
                }
                Err(error) => self.state = not_connected(error),
            }
        }
        Ok(())
    }

    /// Goes on after the connection was reported.
    pub(crate) fn go_on(&mut self, round: &mut Round, token: Token) -> Result<(), Failure> {
        let State::Asking(exchange, _, until) = &mut self.state else {
            return Ok(());
        };
        let step = exchange.step(round.registry(), token);
        if exchange.is_connected() {
            *until = round.end;
        }
        match step {
            Ok(Step::Ended) => self.conclude(round, token, None),
            Ok(Step::Sends | Step::Receives) => Ok(()),
            Err(NoReply::Memory) => Err(Failure::Memory),
            Err(NoReply::NoConnection(error)) => self.next_address(round, token, error),
            Err(cause) => self.conclude(round, token, Some(cause)),
        }
    }

    /// Gives up an exchange whose time is over.
    pub(crate) fn give_up(
        &mut self,
        round: &mut Round,
        token: Token,
        now: Instant,
    ) -> Result<(), Failure> {
        let State::Asking(exchange, _, until) = &self.state else {
            return Ok(());
        };
        if now < *until {
            return Ok(());
        }
        if exchange.is_connected() {
            return self.conclude(round, token, Some(NoReply::Late(0)));
        }
        self.next_address(round, token, Error::from(ErrorKind::TimedOut))
    }

    /// Tries the next address, if there is one.
    fn next_address(
        &mut self,
        round: &mut Round,
        token: Token,
        error: Error,
    ) -> Result<(), Failure> {
        self.state = not_connected(error);
        self.place = self.place.saturating_add(1);
        self.connect(round, token)
    }

    /// Takes what was received as the answer. If it is none, tries the next key.
    fn conclude(
        &mut self,
        round: &mut Round,
        token: Token,
        broken: Option<NoReply>,
    ) -> Result<(), Failure> {
        let failed = State::Silent(Cause::Closed);
        let State::Asking(exchange, begun, _) = std::mem::replace(&mut self.state, failed) else {
            return Ok(());
        };
        let received = exchange.into_received();
        let len = received.len();
        let now = round.now()?;
        let cause = match table_in(round, received)? {
            Ok(table) => {
                let way = Way {
                    len,
                    took: now.duration_since(begun),
                    key: self.key,
                };
                return self.take(round, table, way, now);
            }
            Err(found) => cause_of(found, broken, len),
        };
        let may_try = !matches!(&cause, Cause::NoReply(NoReply::Late(_) | NoReply::TooLong));
        self.tried = self.tried.saturating_add(1);
        self.state = State::Silent(cause);
        if may_try && self.tried < round.ring().requests() && now < round.end {
            self.key = round.ring().place_after(self.key);
            return self.connect(round, token);
        }
        Ok(())
    }

    /// Takes an answer that was there at this moment.
    fn take(
        &mut self,
        round: &Round,
        table: (Vec<u8>, Roster, UserEvents),
        way: Way,
        at: Instant,
    ) -> Result<(), Failure> {
        let alloc = round.alloc();
        let (stream, roster, events) = table;
        let unlisted = Unlisted::of_stream(alloc, &stream, &roster, at)?;
        self.state = State::Answered(Answer {
            host: String::from_str(alloc, &self.host)?,
            stream,
            roster,
            unlisted,
            events,
            at,
            way,
        });
        Ok(())
    }
}

/// The addresses of a member, in the system's order.
fn addresses_of(rt: &HostRuntime, target: &Target) -> io::Result<Vec<SocketAddr>> {
    let found = (target.host.name, target.host.port).to_socket_addrs(rt)?;
    let mut addresses = Vec::new(rt.alloc());
    for address in found {
        addresses.push(address)?;
    }
    Ok(addresses)
}

/// The stream in what was received, what it says about members, and the user events in it.
fn table_in(
    round: &Round,
    received: Vec<u8>,
) -> Result<Result<(Vec<u8>, Roster, UserEvents), NoAnswer>, Failure> {
    let alloc = round.alloc();
    match stream_in(
        alloc,
        round.ring().keys(),
        round.clear(),
        round.label(),
        received,
    ) {
        Ok(stream) => match Roster::with_events(alloc, &stream)? {
            Some((roster, events)) => Ok(Ok((stream, roster, events))),
            None => Ok(Err(NoAnswer::NoStream(NoStream::Cut))),
        },
        Err(NoAnswer::NoStream(NoStream::Memory)) => Err(Failure::Memory),
        Err(cause) => Ok(Err(cause)),
    }
}

/// Why a member has no answer of which this many bytes were received: its own words, what broke off
/// the connection, or what is wrong with the bytes.
fn cause_of(found: NoAnswer, broken: Option<NoReply>, len: usize) -> Cause {
    match (found, broken) {
        (NoAnswer::Error(words), _) => Cause::NoTable(NoAnswer::Error(words)),
        (_, Some(NoReply::Late(_))) => Cause::NoReply(NoReply::Late(len)),
        (_, Some(cause)) => Cause::NoReply(cause),
        (_, None) if len == 0 => Cause::Closed,
        (found, None) => Cause::NoTable(found),
    }
}

fn not_connected(error: Error) -> State {
    State::Silent(Cause::NoReply(NoReply::NoConnection(error)))
}

/// When a connection is given up, for one of this many addresses that are left to try: each gets an
/// equal share of the time.
fn share_until(now: Instant, end: Instant, left: usize) -> Instant {
    let left = u32::try_from(left).unwrap_or(u32::MAX).max(1);
    let share: Duration = end.duration_since(now) / left;
    match now.checked_add(share) {
        Some(until) => until,
        None => end,
    }
}
