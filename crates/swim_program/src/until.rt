//! Readers and writers of a connection with a common deadline.

ghost use Rattle.std.specs.Prelude.{◌≤◌, length, IfOk};

use std::io;
use std::io::{Error, ErrorKind, Read, Write};
use std::net::TcpStream;
use std::time::{Clock, Duration, Instant};

/// A reader and writer of a connection whose reads and writes wait until one deadline, however many
/// there are. After it each is refused as timed out.
#[derive(Drop)]
pub struct Until<'a, C: Clock> {
    stream: &'a TcpStream,
    clock: &'a C,
    end: Instant,
}

impl<'a, C: Clock> Until<'a, C> {
    /// The stream with this moment of the clock as its deadline.
    pub fn new(stream: &'a TcpStream, clock: &'a C, end: Instant) -> Until<'a, C> {
        Until { stream, clock, end }
    }

    /// The same stream again.
    pub fn again(&self) -> Until<'a, C> {
        Until::new(self.stream, self.clock, self.end)
    }

    /// How long the next read or write may wait.
    fn left(&self) -> io::Result<Duration> {
        let left = self.end.duration_since(Instant::now(self.clock)?);
        if left.is_zero() {
            return Err(Error::from(ErrorKind::TimedOut));
        }
        Ok(left)
    }
}

impl<C: Clock> Read for Until<'_, C> {
    fn read(&mut self, buf: &mut [u8]) -> io::Result<usize> {
        let mut stream = self.stream;
        stream.set_read_timeout(Some(self.left()?))?;
        stream.read(buf)
    }
}

impl<C: Clock> Write for Until<'_, C> {
    fn write(&mut self, buf: &[u8]) -> io::Result<usize> {
        let mut stream = self.stream;
        stream.set_write_timeout(Some(self.left()?))?;
        stream.write(buf)
    }

    fn flush(&mut self) -> io::Result<()> {
        Ok(())
    }
}
