//! A connection to a member, used for one request.

ghost use Rattle.std.specs.Prelude.{◌≡◌, ◌++◌, ◌≤◌, ◌-◌, List, ℕ, length, take, drop, IfOk, OnOk};
ghost use Rattle.std.specs.Io.KnownBytes.{Appends, Consumes};

use crate::heard::carriage::MAX_STREAM_LEN;
use mio::net::TcpStream;
use mio::{Interest, Registry, Token};
use std::alloc::AllocError;
use std::io::{self, Error, ErrorKind, Read, Write};

/// How many bytes are requested at once.
const PIECE: usize = 65_536;

/// Why a member's answer was not received to its end.
#[derive(Drop)]
pub(crate) enum NoReply {
    /// The name has no address.
    NoAddress(Error),
    /// None of its addresses accepts a connection.
    NoConnection(Error),
    /// The connection failed.
    Broken(Error),
    /// The answer is too long.
    TooLong,
    /// The time was over when this many bytes had been received.
    Late(usize),
    /// Out of memory for the answer.
    Memory,
}

impl From<AllocError> for NoReply {
    fn from(_error: AllocError) -> NoReply {
        NoReply::Memory
    }
}

/// What a connection waits for.
#[derive(Clone, Copy, PartialEq, Eq)]
pub(crate) enum Step {
    /// To be established, or to take more of the request.
    Sends,
    /// More of the answer.
    Receives,
    /// Nothing: the member closed it.
    Ended,
}

/// A request to a member, and as much of its answer as was received.
#[derive(Drop)]
pub(crate) struct Exchange {
    stream: TcpStream,
    is_connected: bool,
    request: Vec<u8>,
    sent: usize,
    received: Vec<u8>,
}

impl Exchange {
    /// The exchange over a connection that was begun.
    pub(crate) fn new(stream: TcpStream, request: Vec<u8>) -> Exchange {
        let received = Vec::new(*request.allocator());
        Exchange {
            stream,
            is_connected: false,
            request,
            sent: 0,
            received,
        }
    }

    /// Whether the member accepted the connection.
    pub(crate) fn is_connected(&self) -> bool {
        self.is_connected
    }

    /// What was received.
    pub(crate) fn into_received(self) -> Vec<u8> {
        self.received
    }

    /// Has the connection reported when it can go on.
    ///
    /// # Errors
    ///
    /// If the system refuses to.
    pub(crate) fn watch(&mut self, registry: &Registry, token: Token) -> io::Result<()> {
        registry.register(&mut self.stream, token, Interest::WRITABLE)
    }

    /// Goes on by at most one write or one read, and has the connection reported again.
    ///
    /// # Errors
    ///
    /// See [`NoReply`]; never `NoAddress` or `Late`.
    pub(crate) fn step(&mut self, registry: &Registry, token: Token) -> Result<Step, NoReply> {
        let step = self.go_on()?;
        let interest = match step {
            Step::Sends => Interest::WRITABLE,
            Step::Receives => Interest::READABLE,
            Step::Ended => return Ok(step),
        };
        match registry.reregister(&mut self.stream, token, interest) {
            Ok(()) => Ok(step),
            Err(error) => Err(NoReply::Broken(error)),
        }
    }

    fn go_on(&mut self) -> Result<Step, NoReply> {
        if !self.is_connected {
            self.is_connected = is_connected(&self.stream)?;
        }
        if !self.is_connected {
            return Ok(Step::Sends);
        }
        if self.sent >= self.request.len() {
            return receive(&mut self.stream, &mut self.received);
        }
        match send(&mut self.stream, &self.request, self.sent) {
            Ok(sent) => self.sent = sent,
            Err(error) if is_for_now(&error) => return Ok(Step::Sends),
            Err(error) => return Err(NoReply::Broken(error)),
        }
        if self.sent < self.request.len() {
            return Ok(Step::Sends);
        }
        Ok(Step::Receives)
    }
}

/// Whether a connection that was begun is established.
fn is_connected(stream: &TcpStream) -> Result<bool, NoReply> {
    match stream.take_error() {
        Ok(None) => {}
        Ok(Some(error)) | Err(error) => return Err(NoReply::NoConnection(error)),
    }
    match stream.peer_addr() {
        Ok(_) => Ok(true),
        Err(error) if error.kind() == ErrorKind::NotConnected => Ok(false),
        Err(error) => Err(NoReply::NoConnection(error)),
    }
}

/// Whether a read or a write may succeed later.
fn is_for_now(error: &Error) -> bool {
    matches!(error.kind(), ErrorKind::WouldBlock | ErrorKind::Interrupted)
}

/// Writes what the writer takes of the request, after the bytes that were sent. Returns how many
/// bytes have then been sent.
///
/// # Errors
///
/// That of the write.
fn send<W: Write>(writer: &mut W, request: &[u8], sent: usize) -> io::Result<usize>
    requires { sent ≤ length request.now }
    ensures within { IfOk result (λ now. now ≤ length request.now) }
    // If the writer's bytes are known, it took the next ones of the request.
    ensures next { IfOk result (λ now. Appends (W.contents writer.old) (W.contents writer.new)
        (take (now - sent) (drop sent request.now))) }
{
    let count = writer.write(&request[sent..])?;
    Ok(sent + count)
}

/// Reads the next bytes of an answer.
///
/// # Errors
///
/// `Broken` if the read fails and would fail again, `TooLong` if more bytes than the limit were
/// received, `Memory` if out of memory for them.
pub(crate) fn receive<R: Read>(reader: &mut R, received: &mut Vec<u8>) -> Result<Step, NoReply>
    // If the reader's bytes are known, those received grow by the next ones.
    ensures { OnOk result ((piece : List ℕ) × (received.new.items ≡ received.old.items ++ piece)
        × Consumes (R.remaining reader.old) (R.remaining reader.new) piece) }
{
    let mut piece = [0; PIECE];
    match reader.read(&mut piece) {
        Ok(0) => return Ok(Step::Ended),
        Ok(count) => received.extend_from_slice(&piece[..count])?,
        Err(error) if is_for_now(&error) => return Ok(Step::Receives),
        Err(error) => return Err(NoReply::Broken(error)),
    }
    if received.len() > MAX_STREAM_LEN {
        return Err(NoReply::TooLong);
    }
    Ok(Step::Receives)
}
