//! Listening for a limited time, by the clock.

use mio::unix::SourceFd;
use mio::{Events, Interest, Poll, Token};
use std::io::{self, Error, ErrorKind};
use std::os::fd::RawFd;
use std::time::{Duration, Instant};

/// How long is listened.
#[derive(Clone, Copy)]
pub(crate) struct Limit<'a> {
    pub(crate) rt: &'a HostRuntime,
    /// When listening ends; never before the inputs end if there is no such moment.
    end: Option<Instant>,
}

impl<'a> Limit<'a> {
    /// Listening for this long from now on, or to the ends of the inputs.
    ///
    /// # Errors
    ///
    /// If the clock cannot be read.
    pub(crate) fn from_now(rt: &'a HostRuntime, span: Option<Duration>) -> io::Result<Limit<'a>> {
        let end = match span {
            Some(span) => Instant::now(rt)?.checked_add(span),
            None => None,
        };
        Ok(Limit { rt, end })
    }

    /// Listening to the ends of the inputs.
    pub(crate) fn endless(rt: &'a HostRuntime) -> Limit<'a> {
        Limit { rt, end: None }
    }

    /// Whether listening is over.
    pub(crate) fn is_over(self) -> bool {
        match self.end {
            Some(end) => match Instant::now(self.rt) {
                Ok(now) => end <= now,
                Err(_) => true,
            },
            None => false,
        }
    }
}

/// Waits for the bytes of an input, while listening goes on.
#[derive(Drop)]
pub(crate) struct Waiter<'a> {
    rt: &'a HostRuntime,
    end: Instant,
    fd: RawFd,
    poll: Poll,
    events: Events,
}

impl<'a> Waiter<'a> {
    /// Waits for the bytes of this descriptor. None if that is not needed: listening has no end, or
    /// the descriptor is a file, whose bytes are all there.
    ///
    /// # Errors
    ///
    /// If the system refuses to wait for it.
    pub(crate) fn of(limit: Limit<'a>, fd: RawFd) -> io::Result<Option<Waiter<'a>>> {
        let Some(end) = limit.end else {
            return Ok(None);
        };
        let poll = Poll::new(limit.rt)?;
        match poll
            .registry()
            .register(&mut SourceFd(&fd), Token(0), Interest::READABLE)
        {
            Ok(()) => {}
            // epoll_ctl(2): a regular file has no readiness to wait for
            Err(error) if error.kind() == ErrorKind::PermissionDenied => return Ok(None),
            Err(error) => return Err(error),
        }
        let Ok(events) = Events::with_capacity(limit.rt.alloc(), 1) else {
            return Err(Error::from(ErrorKind::OutOfMemory));
        };
        Ok(Some(Waiter {
            rt: limit.rt,
            end,
            fd,
            poll,
            events,
        }))
    }

    /// Waits until a read does not wait: there are bytes, or the input has ended. Returns false if
    /// listening is over before that.
    ///
    /// # Errors
    ///
    /// If the clock cannot be read, or the system refuses to wait.
    pub(crate) fn wait(&mut self) -> io::Result<bool> {
        for _turn in 0..u64::MAX {
            let now = Instant::now(self.rt)?;
            if self.end <= now {
                return Ok(false);
            }
            // reported once a registration, so each wait begins with another one
            self.poll
                .registry()
                .reregister(&mut SourceFd(&self.fd), Token(0), Interest::READABLE)?;
            self.poll
                .poll(&mut self.events, Some(self.end.duration_since(now)))?;
            if self.events.iter().next().is_some() {
                return Ok(true);
            }
        }
        Ok(false)
    }
}
