//! What goes over connections.

ghost use Rattle.memberlist_member.specs.Staying.{Adds, BeginsNoProbe, ShowsTheSame, Stays};
ghost use Rattle.memberlist_member.specs.Staying.{StaysButProbe};
ghost use Rattle.memberlist_member.specs.Showing.{GoesByBytes, GoesByLine, GoesByLines};
ghost use Rattle.memberlist_member.specs.Showing.{GoesOn, GrowsLine, KeepsLines};

use crate::config::micros;
use crate::connections::{Connection, MAX_CONNECTIONS, Purpose};
use crate::cover::Opened;
use crate::member::Member;
use crate::output::Output;
use memberlist_message::{Message, Ping, decode_message};
use rand_core::Rng;
use std::alloc::AllocError;
use std::net::SocketAddr;
use swim_wire::{PUSH_PULL_MESSAGE, WireFault};

impl Member {
    /// Opens a connection, over which this message is sent. Returns its number; none if there are too
    /// many.
    pub(crate) fn dial<R: Rng>(
        &mut self,
        to: SocketAddr,
        purpose: Purpose,
        message: Vec<u8>,
        due: u64,
        rng: &mut R,
    ) -> Result<Option<u64>, AllocError>
        ensures adds { Adds 0 1 0 self.old self.new }
        ensures stays { Stays self.old self.new }
        ensures goes { GoesOn self.old self.new }
        ensures lines { KeepsLines self.old self.new }
    {
        if self.connections.is_full() {
            return Ok(None);
        }
        let Some(first) = self
            .cover
            .close_stream(self.alloc, self.compressed(message)?, false, rng)?
        else {
            return Ok(None);
        };
        let conn = self.next_conn();
        self.connections
            .add(Connection::new(self.alloc, conn, purpose, first, due))?;
        self.put(Output::Dial { conn, to })?;
        Ok(Some(conn))
    }

    /// The number of a new connection: even ones are of connections that it opens.
    fn next_conn(&mut self) -> u64
        ensures adds { Adds 0 0 0 self.old self.new }
        ensures stays { Stays self.old self.new }
        ensures goes { GoesOn self.old self.new }
        ensures lines { KeepsLines self.old self.new }
    {
        self.conn = self.conn.wrapping_add(2);
        self.conn & !1
    }

    /// Another member opened a connection.
    pub(crate) fn take_connection(&mut self, conn: u64) -> Result<(), AllocError>
        ensures adds { Adds 0 0 0 self.old self.new }
        ensures stays { Stays self.old self.new }
        ensures goes { GoesOn self.old self.new }
        ensures lines { KeepsLines self.old self.new }
    {
        if self.connections.is_full() {
            return self.put(Output::Close { conn });
        }
        let due = self.time.saturating_add(micros(self.config().tcp_timeout));
        let first = Vec::new(self.alloc);
        self.connections.add(Connection::new(self.alloc, conn, Purpose::Theirs, first, due))
    }

    /// Writes what is to be sent over a connection that is open now.
    pub(crate) fn write_first(&mut self, conn: u64) -> Result<(), AllocError>
        ensures adds { Adds 0 0 1 self.old self.new }
        ensures stays { Stays self.old self.new }
        ensures goes { GoesOn self.old self.new }
        ensures lines { KeepsLines self.old self.new }
    {
        let empty = Vec::new(self.alloc);
        let Some(index) = self.connections.index_of(conn) else {
            return Ok(());
        };
        let connection = &mut self.connections.list[index];
        let bytes = std::mem::replace(&mut connection.first, empty);
        if bytes.is_empty() {
            return Ok(());
        }
        self.put(Output::Write { conn, bytes })
    }

    /// Takes in bytes that came over a connection.
    pub(crate) fn take_bytes<R: Rng>(
        &mut self,
        conn: u64,
        bytes: &[u8],
        rng: &mut R,
    ) -> Result<(), AllocError>
        ensures adds { Adds 0 0 1 self.old self.new }
        ensures stays { StaysButProbe self.old self.new }
        ensures probes { BeginsNoProbe self.old self.new }
        ensures goes { GoesByBytes conn bytes.now self.old self.new }
        ensures grows { GrowsLine conn bytes.now self.old self.new }
    {
        let Some(looks) = self.keep_bytes(conn, bytes)? else {
            self.refuse();
            return self.hang_up(conn);
        };
        if !looks {
            return Ok(());
        }
        self.look(conn, rng)
    }

    /// Keeps bytes that came over a connection, if there is one. Returns whether they are looked at
    /// now; none if there are too many.
    fn keep_bytes(&mut self, conn: u64, bytes: &[u8]) -> Result<Option<bool>, AllocError>
        ensures adds { Adds 0 0 0 self.old self.new }
        ensures stays { Stays self.old self.new }
        ensures goes { GoesOn self.old self.new }
        ensures grows { GrowsLine conn bytes.now self.old self.new }
    {
        let Some(index) = self.connections.index_of(conn) else {
            return Ok(Some(false));
        };
        let connection = &mut self.connections.list[index];
        if crate::cover::MAX_STREAM < connection.came.len().saturating_add(bytes.len()) {
            return Ok(None);
        }
        Ok(Some(connection.take(self.time, bytes)?))
    }

    /// Looks at what came over connections on which no more comes.
    pub(crate) fn look_again<R: Rng>(&mut self, rng: &mut R) -> Result<(), AllocError>
        ensures adds { Adds 0 0 128 self.old self.new }
        ensures stays { StaysButProbe self.old self.new }
        ensures goes { GoesByLines self.old self.new }
        ensures probes { BeginsNoProbe self.old self.new }
        ensures lines { KeepsLines self.old self.new }
    {
        for _ in 0..MAX_CONNECTIONS {
            let Some(conn) = self.connections.to_look_at(self.time) else {
                break;
            };
            self.look(conn, rng)?;
        }
        Ok(())
    }

    /// The other side closed the connection.
    pub(crate) fn end_connection<R: Rng>(
        &mut self,
        conn: u64,
        rng: &mut R,
    ) -> Result<(), AllocError>
        ensures adds { Adds 0 0 1 self.old self.new }
        ensures stays { StaysButProbe self.old self.new }
        ensures probes { BeginsNoProbe self.old self.new }
        ensures goes { GoesByLine conn self.old self.new }
        ensures lines { KeepsLines self.old self.new }
    {
        self.look(conn, rng)?;
        let _ = self.connections.remove(conn);
        Ok(())
    }

    /// Looks at what came over a connection, and does what it says once it is whole.
    fn look<R: Rng>(&mut self, conn: u64, rng: &mut R) -> Result<(), AllocError>
        ensures adds { Adds 0 0 1 self.old self.new }
        ensures stays { StaysButProbe self.old self.new }
        ensures goes { GoesByLine conn self.old self.new }
        ensures lines { KeepsLines self.old self.new }
        ensures probes { BeginsNoProbe self.old self.new }
    {
        let Some(index) = self.connections.index_of(conn) else {
            return Ok(());
        };
        let connection = &self.connections.list[index];
        if connection.came.is_empty() {
            return Ok(());
        }
        let purpose = connection.purpose;
        let is_reply = purpose != Purpose::Theirs;
        let Opened::Message(message) = self
            .cover
            .open_stream(self.alloc, &connection.came, is_reply)?
        else {
            return Ok(());
        };
        match message.first() {
            Some(&PUSH_PULL_MESSAGE) => self.take_table(conn, purpose, &message, rng),
            Some(_) => self.take_stream_message(conn, purpose, &message, rng),
            None => Ok(()),
        }
    }

    /// Writes an answer to a connection.
    pub(crate) fn answer<R: Rng>(
        &mut self,
        conn: u64,
        message: Vec<u8>,
        rng: &mut R,
    ) -> Result<(), AllocError>
        ensures adds { Adds 0 0 1 self.old self.new }
        ensures stays { Stays self.old self.new }
        ensures goes { GoesOn self.old self.new }
        ensures lines { KeepsLines self.old self.new }
        ensures shown { ShowsTheSame self.old self.new }
    {
        match self
            .cover
            .close_stream(self.alloc, self.compressed(message)?, true, rng)?
        {
            Some(bytes) => self.put(Output::Write { conn, bytes }),
            None => Ok(()),
        }
    }

    /// Takes in another message of a stream: a ping, or the answer to one.
    fn take_stream_message<R: Rng>(
        &mut self,
        conn: u64,
        purpose: Purpose,
        message: &[u8],
        rng: &mut R,
    ) -> Result<(), AllocError>
        ensures adds { Adds 0 0 1 self.old self.new }
        ensures stays { StaysButProbe self.old self.new }
        ensures goes { GoesOn self.old self.new }
        ensures probes { BeginsNoProbe self.old self.new }
        ensures lines { KeepsLines self.old self.new }
    {
        match decode_message(self.alloc, message) {
            Ok(Message::Ping(ping)) => self.answer_stream_ping(conn, purpose, &ping, rng),
            Ok(Message::Ack(ack)) => self.take_stream_ack(conn, purpose, ack.seq_no),
            Ok(_) => self.hang_up(conn),
            Err(WireFault::Memory) => Err(AllocError),
            Err(WireFault::Ended) => Ok(()),
            Err(_) => {
                self.refuse();
                self.hang_up(conn)
            }
        }
    }

    /// Answers a ping that is for this member, and closes the connection.
    fn answer_stream_ping<R: Rng>(
        &mut self,
        conn: u64,
        purpose: Purpose,
        ping: &Ping,
        rng: &mut R,
    ) -> Result<(), AllocError>
        ensures adds { Adds 0 0 1 self.old self.new }
        ensures stays { Stays self.old self.new }
        ensures goes { GoesOn self.old self.new }
        ensures lines { KeepsLines self.old self.new }
    {
        if purpose != Purpose::Theirs || !self.is_own(&ping.node) {
            return self.hang_up(conn);
        }
        let ack = self.ack(ping.seq_no)?;
        self.answer(conn, ack, rng)?;
        self.hang_up(conn)
    }

    /// Takes in an ack that came over a connection, if that is a ping's with its number.
    fn take_stream_ack(&mut self, conn: u64, purpose: Purpose, seq: u32) -> Result<(), AllocError>
        ensures adds { Adds 0 0 0 self.old self.new }
        ensures stays { StaysButProbe self.old self.new }
        ensures goes { GoesOn self.old self.new }
        ensures probes { BeginsNoProbe self.old self.new }
        ensures lines { KeepsLines self.old self.new }
    {
        self.hang_up(conn)?;
        if purpose != (Purpose::Ping { seq }) {
            return Ok(());
        }
        self.answer_probe(seq)
    }

    /// Closes a connection.
    pub(crate) fn hang_up(&mut self, conn: u64) -> Result<(), AllocError>
        ensures adds { Adds 0 0 0 self.old self.new }
        ensures stays { Stays self.old self.new }
        ensures goes { GoesOn self.old self.new }
        ensures lines { KeepsLines self.old self.new }
        ensures shown { ShowsTheSame self.old self.new }
    {
        match self.connections.remove(conn) {
            Some(_) => self.put(Output::Close { conn }),
            None => Ok(()),
        }
    }
}
