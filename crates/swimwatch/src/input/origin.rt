//! Where the bytes of captures come from.

ghost use Rattle.std.specs.Prelude.{◌≡◌, ◌≤◌, length};

use crate::NAME;
use crate::input::limit::{Limit, Waiter};
use std::fs::File;
use std::io::{self, IsTerminal, Read, Stdin};
use std::os::fd::AsRawFd;
use swim_pack::{Inlet, PullFault};

/// How many bytes tell what an input is.
const HEAD_LEN: usize = 4;

/// What a capture is read from.
#[derive(Drop)]
enum Origin {
    Stdin(Stdin),
    File(File),
}

/// The first bytes of an input that were looked at, and are not read yet.
#[derive(Clone, Copy, Default)]
struct Head {
    bytes: [u8; HEAD_LEN],
    from: usize,
    to: usize,
}

impl Head {
    /// Gives the bytes that are left, as many as there is room for.
    fn give(&mut self, buf: &mut [u8]) -> usize
        ensures { result ≤ length buf.new }
    {
        let bytes = self.bytes;
        let left = bytes.get(self.from..self.to).unwrap_or(&[]);
        let count = left.len().min(buf.len());
        buf[..count].copy_from_slice(&left[..count]);
        self.from = self.from.saturating_add(count);
        count
    }
}

/// A reader of a capture: standard input or a file. It ends when listening does.
#[derive(Drop)]
pub(crate) struct Input<'a> {
    origin: Origin,
    waiter: Option<Waiter<'a>>,
    head: Head,
}

impl<'a> Input<'a> {
    /// What the word names: standard input if it is `-`, and otherwise a file. A note says if that is
    /// a terminal.
    pub(crate) fn open(limit: Limit<'a>, word: &str) -> io::Result<Input<'a>> {
        if word == "-" {
            let stdin = limit.rt.stdin();
            if stdin.is_terminal() {
                let _ = eprintln!(limit.rt;
                    "{NAME}: reading a capture from the terminal; Ctrl-D ends the input"
                );
            }
            return Ok(Input {
                waiter: Waiter::of(limit, stdin.as_raw_fd())?,
                origin: Origin::Stdin(stdin),
                head: Head::default(),
            });
        }
        let file = File::open(limit.rt, word)?;
        if file.metadata()?.is_dir() {
            return Err(io::Error::from(io::ErrorKind::IsADirectory));
        }
        Ok(Input {
            waiter: Waiter::of(limit, file.as_raw_fd())?,
            origin: Origin::File(file),
            head: Head::default(),
        })
    }

    /// The first bytes, up to four; the next read gives them again.
    pub(crate) fn peek(&mut self) -> io::Result<&[u8]> {
        let mut bytes = [0; HEAD_LEN];
        let mut to = 0usize;
        for _ in 0..HEAD_LEN {
            let Some(room) = bytes.get_mut(to..) else {
                break;
            };
            let count = self.read(room)?;
            to = to.saturating_add(count);
            if count == 0 || to >= HEAD_LEN {
                break;
            }
        }
        self.head = Head { bytes, from: 0, to };
        Ok(self.head.bytes.get(..to).unwrap_or(&[]))
    }

    /// Whether opening it again reads the same bytes from the start: it is a file, and no pipe.
    pub(crate) fn can_open_again(&self) -> bool {
        match &self.origin {
            Origin::Stdin(_) => false,
            Origin::File(file) => match file.metadata() {
                Ok(data) => data.is_file(),
                Err(_) => false,
            },
        }
    }
}

impl Read for Input<'_> {
    fn read(&mut self, buf: &mut [u8]) -> io::Result<usize> {
        let given = self.head.give(buf);
        if given > 0 {
            return Ok(given);
        }
        if let Some(waiter) = &mut self.waiter {
            if !waiter.wait()? {
                return Ok(0);
            }
        }
        match &mut self.origin {
            Origin::Stdin(stdin) => stdin.read(buf),
            Origin::File(file) => file.read(buf),
        }
    }
}

/// An inlet that counts the bytes pulled from it.
#[derive(Drop)]
pub(crate) struct Counted<I: Inlet> {
    inlet: I,
    count: u64,
}

impl<I: Inlet> Counted<I> {
    pub(crate) fn new(inlet: I) -> Counted<I>
        ensures { result.inlet ≡ inlet }
    {
        Counted { inlet, count: 0 }
    }

    /// How many bytes were pulled.
    pub(crate) fn count(&self) -> u64 {
        self.count
    }
}

impl<I: Inlet> Inlet for Counted<I> {
    ghost seen = { λ counted. I.seen counted.inlet };

    fn pull(&mut self, buf: &mut [u8]) -> Result<(), PullFault> {
        self.inlet.pull(buf)?;
        self.count = self.count.saturating_add(buf.len() as u64);
        Ok(())
    }
}
