//! A reader and a writer with scripted behavior.

use std::io;
use std::io::{Error, ErrorKind, Read, Write};

/// Every kind of error except an interruption, the only one that is retried.
pub(crate) const BROKEN: [ErrorKind; 41] = [
    ErrorKind::NotFound,
    ErrorKind::PermissionDenied,
    ErrorKind::ConnectionRefused,
    ErrorKind::ConnectionReset,
    ErrorKind::HostUnreachable,
    ErrorKind::NetworkUnreachable,
    ErrorKind::ConnectionAborted,
    ErrorKind::NotConnected,
    ErrorKind::AddrInUse,
    ErrorKind::AddrNotAvailable,
    ErrorKind::NetworkDown,
    ErrorKind::BrokenPipe,
    ErrorKind::AlreadyExists,
    ErrorKind::WouldBlock,
    ErrorKind::NotADirectory,
    ErrorKind::IsADirectory,
    ErrorKind::DirectoryNotEmpty,
    ErrorKind::ReadOnlyFilesystem,
    ErrorKind::FilesystemLoop,
    ErrorKind::StaleNetworkFileHandle,
    ErrorKind::InvalidInput,
    ErrorKind::InvalidData,
    ErrorKind::TimedOut,
    ErrorKind::WriteZero,
    ErrorKind::StorageFull,
    ErrorKind::NotSeekable,
    ErrorKind::QuotaExceeded,
    ErrorKind::FileTooLarge,
    ErrorKind::ResourceBusy,
    ErrorKind::ExecutableFileBusy,
    ErrorKind::Deadlock,
    ErrorKind::CrossesDevices,
    ErrorKind::TooManyLinks,
    ErrorKind::InvalidFilename,
    ErrorKind::ArgumentListTooLong,
    ErrorKind::Unsupported,
    ErrorKind::UnexpectedEof,
    ErrorKind::OutOfMemory,
    ErrorKind::InProgress,
    ErrorKind::Other,
    ErrorKind::Uncategorized,
];

/// Returns its bytes, at most `most` in each read. The first read is interrupted `interruptions`
/// times before, and each further read `again` times.
#[derive(Drop)]
pub(crate) struct Pieces<'a> {
    pub(crate) bytes: &'a [u8],
    pub(crate) most: usize,
    pub(crate) interruptions: u32,
    pub(crate) again: u32,
    /// After its bytes it fails with this error, and does not end.
    pub(crate) fails: Option<ErrorKind>,
    /// How often it was read.
    pub(crate) reads: u32,
}

impl<'a> Pieces<'a> {
    pub(crate) fn new(bytes: &'a [u8], most: usize) -> Pieces<'a> {
        Pieces {
            bytes,
            most,
            interruptions: 0,
            again: 0,
            fails: None,
            reads: 0,
        }
    }

    /// One byte in each read, after `interruptions` interruptions, and `again` before each further
    /// one.
    pub(crate) fn interrupted(bytes: &'a [u8], interruptions: u32, again: u32) -> Pieces<'a> {
        let mut pieces = Pieces::new(bytes, 1);
        (pieces.interruptions, pieces.again) = (interruptions, again);
        pieces
    }

    pub(crate) fn failing(bytes: &'a [u8], most: usize, kind: ErrorKind) -> Pieces<'a> {
        let mut pieces = Pieces::new(bytes, most);
        pieces.fails = Some(kind);
        pieces
    }
}

impl Read for Pieces<'_> {
    fn read(&mut self, buf: &mut [u8]) -> io::Result<usize> {
        self.reads = self.reads.saturating_add(1);
        if self.interruptions > 0 {
            self.interruptions -= 1;
            return Err(Error::from(ErrorKind::Interrupted));
        }
        self.interruptions = self.again;
        if let (Some(kind), true) = (self.fails, self.bytes.is_empty()) {
            return Err(Error::from(kind));
        }
        let count = self.most.min(buf.len()).min(self.bytes.len());
        let (front, rest) = self.bytes.split_at(count);
        buf[..count].copy_from_slice(front);
        self.bytes = rest;
        Ok(count)
    }
}

/// What the write does that a `Taker` refuses.
#[derive(Clone, Copy)]
pub(crate) enum Refusal {
    Nothing,
    Error(ErrorKind),
}

/// Takes up to 8 bytes, at most `most` in each write. The first write is interrupted
/// `interruptions` times before, and each further write `again` times.
#[derive(Drop)]
pub(crate) struct Taker {
    pub(crate) taken: [u8; 8],
    pub(crate) len: usize,
    pub(crate) most: usize,
    pub(crate) interruptions: u32,
    pub(crate) again: u32,
    /// It refuses the write of this number, counted from 1, and takes those after it.
    pub(crate) refuses_at: u32,
    pub(crate) refusal: Refusal,
}

impl Taker {
    pub(crate) fn new(most: usize) -> Taker {
        Taker {
            taken: [0; 8],
            len: 0,
            most,
            interruptions: 0,
            again: 0,
            refuses_at: u32::MAX,
            refusal: Refusal::Error(ErrorKind::ConnectionReset),
        }
    }

    /// One byte in each write, `good` of them, and then this refusal.
    pub(crate) fn refusing(refusal: Refusal, good: u32) -> Taker {
        let mut taker = Taker::new(1);
        taker.refuses_at = good.saturating_add(1);
        taker.refusal = refusal;
        taker
    }

    /// One byte in each write, after `interruptions` interruptions, and `again` before each further
    /// one.
    pub(crate) fn interrupted(interruptions: u32, again: u32) -> Taker {
        let mut taker = Taker::new(1);
        (taker.interruptions, taker.again) = (interruptions, again);
        taker
    }
}

impl Write for Taker {
    fn write(&mut self, buf: &[u8]) -> io::Result<usize> {
        if self.interruptions > 0 {
            self.interruptions -= 1;
            return Err(Error::from(ErrorKind::Interrupted));
        }
        self.interruptions = self.again;
        self.refuses_at = self.refuses_at.saturating_sub(1);
        if self.refuses_at == 0 {
            self.refuses_at = u32::MAX;
            return match self.refusal {
                Refusal::Nothing => Ok(0),
                Refusal::Error(kind) => Err(Error::from(kind)),
            };
        }
        let start = self.len.min(8);
        let count = self.most.min(buf.len()).min(8 - start);
        self.taken[start..start + count].copy_from_slice(&buf[..count]);
        self.len = start + count;
        Ok(count)
    }

    fn flush(&mut self) -> io::Result<()> {
        Ok(())
    }
}
