//! A reader and a writer for the tests.

use std::io;
use std::io::{Error, ErrorKind, Read, Write};

/// Returns its bytes, at most `most` in each read.
#[derive(Drop)]
pub struct Pieces<'a> {
    pub bytes: &'a [u8],
    pub most: usize,
}

impl Read for Pieces<'_> {
    fn read(&mut self, buf: &mut [u8]) -> io::Result<usize> {
        let count = self.most.min(buf.len()).min(self.bytes.len());
        let (front, rest) = self.bytes.split_at(count);
        buf[..count].copy_from_slice(front);
        self.bytes = rest;
        Ok(count)
    }
}

/// Takes one byte in each write, and 80 in all.
#[derive(Drop)]
pub struct Taker {
    pub taken: [u8; 80],
    pub len: usize,
    /// The write of this number, counted from 1, fails.
    pub fails_at: usize,
}

impl Taker {
    pub fn new(fails_at: usize) -> Taker {
        Taker {
            taken: [0; 80],
            len: 0,
            fails_at,
        }
    }

    /// The bytes that were taken.
    pub fn taken(&self) -> &[u8] {
        &self.taken[..self.len.min(80)]
    }
}

impl Write for Taker {
    fn write(&mut self, buf: &[u8]) -> io::Result<usize> {
        if self.len >= 80 || self.len + 1 >= self.fails_at {
            return Err(Error::from(ErrorKind::ConnectionReset));
        }
        let Some(first) = buf.first() else {
            return Ok(0);
        };
        self.taken[self.len] = *first;
        self.len += 1;
        Ok(1)
    }

    fn flush(&mut self) -> io::Result<()> {
        Ok(())
    }
}
