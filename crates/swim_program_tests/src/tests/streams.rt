//! Standard input and output that fail, are interrupted, or are long.

ghost use Rattle.std.specs.Prelude.{◌≤◌, IfOk};

use std::alloc::Global;
use std::io;
use std::io::{Error, ErrorKind, Read, Write};
use std::process::Abort;
use std::test::Fail;
use swim_program::{MAX_INPUT_LEN, What, read_file, read_to_bound, write_out};

/// A stream that is interrupted `interruptions` times first, and `again` times before each further
/// piece. It moves up to `left` bytes in pieces, and then ends, or fails once and then ends.
#[derive(Drop)]
struct Stream {
    interruptions: u32,
    again: u32,
    left: usize,
    piece: usize,
    fails: bool,
    kind: ErrorKind,
}

impl Stream {
    fn new(interruptions: u32, left: usize, piece: usize, fails: bool) -> Stream {
        Stream {
            interruptions,
            again: 0,
            left,
            piece,
            fails,
            kind: ErrorKind::Other,
        }
    }

    /// Interrupted `interruptions` times before its first piece, and `again` times before each
    /// further one.
    fn interrupted(interruptions: u32, again: u32, left: usize) -> Stream {
        let mut stream = Stream::new(interruptions, left, 1, false);
        stream.again = again;
        stream
    }

    /// Fails with this kind of error after its bytes.
    fn failing(left: usize, kind: ErrorKind) -> Stream {
        let mut stream = Stream::new(0, left, 1, true);
        stream.kind = kind;
        stream
    }

    fn step(&mut self, room: usize) -> io::Result<usize>
        ensures { IfOk result (λ count. count ≤ room) }
    {
        if self.interruptions > 0 {
            self.interruptions -= 1;
            return Err(Error::from(ErrorKind::Interrupted));
        }
        self.interruptions = self.again;
        if self.left == 0 && self.fails {
            self.fails = false;
            return Err(Error::from(self.kind));
        }
        let moved = room.min(self.left).min(self.piece);
        self.left -= moved;
        Ok(moved)
    }
}

impl Read for Stream {
    fn read(&mut self, buf: &mut [u8]) -> io::Result<usize> {
        self.step(buf.len())
    }
}

impl Write for Stream {
    fn write(&mut self, buf: &[u8]) -> io::Result<usize> {
        self.step(buf.len())
    }

    fn flush(&mut self) -> io::Result<()> {
        Ok(())
    }
}

#[test]
fn an_input_is_read_to_its_end(rt: HostRuntime) -> Result<(), Fail> {
    let alloc = rt.alloc();
    for (mut reader, wanted) in [
        (Stream::new(0, 0, 1, false), Ok(0)),
        (Stream::new(0, 7, 3, false), Ok(7)),
        (Stream::new(1000, 7, 3, false), Ok(7)),
        (Stream::new(1001, 7, 3, false), Err(What::Device)),
        (Stream::new(0, 7, 3, true), Err(What::Device)),
    ] {
        match read_to_bound(alloc, &mut reader) {
            Ok(bytes) => assert_eq!(rt; Ok(bytes.len()), wanted),
            Err(What::Memory) => {}
            Err(what) => assert_eq!(rt; Err(what), wanted),
        }
    }
    Ok(())
}

#[test]
fn interruptions_are_counted_over_a_whole_input(rt: HostRuntime) -> Result<(), Fail> {
    for (again, wanted) in [(499, Ok(1)), (501, Err(What::Device))] {
        let mut reader = Stream::interrupted(501, again, 1);
        match read_to_bound(rt.alloc(), &mut reader) {
            Ok(bytes) => assert_eq!(rt; Ok(bytes.len()), wanted),
            Err(What::Memory) => {}
            Err(what) => assert_eq!(rt; Err(what), wanted),
        }
    }
    Ok(())
}

#[test]
fn an_output_is_written_to_its_end(rt: HostRuntime) {
    for (mut writer, wanted) in [
        (Stream::new(0, 7, 9, false), Ok(())),
        (Stream::new(1000, 7, 1, true), Ok(())),
        (Stream::new(1001, 7, 1, false), Err(What::Device)),
        (Stream::new(0, 6, 1, false), Err(What::Device)),
        (Stream::new(0, 6, 1, true), Err(What::Device)),
    ] {
        assert_eq!(rt; write_out(&mut writer, b"0123456"), wanted);
    }
}

#[test]
fn interruptions_are_counted_over_a_whole_output(rt: HostRuntime) {
    for (again, wanted) in [(499, Ok(())), (500, Err(What::Device))] {
        let mut writer = Stream::interrupted(501, again, 2);
        assert_eq!(rt; write_out(&mut writer, b"01"), wanted);
    }
}

/// What a reader may return other than an interruption.
const KINDS: [ErrorKind; 8] = [
    ErrorKind::WouldBlock,
    ErrorKind::TimedOut,
    ErrorKind::NotFound,
    ErrorKind::PermissionDenied,
    ErrorKind::BrokenPipe,
    ErrorKind::ConnectionReset,
    ErrorKind::UnexpectedEof,
    ErrorKind::Other,
];

/// Asserts that an input which fails with this error after three bytes is refused, and not read
/// again.
fn assert_input_fails(rt: &impl Abort, alloc: Global, kind: ErrorKind) {
    let what = read_to_bound(alloc, &mut Stream::failing(3, kind)).err();
    assert!(rt; what == Some(What::Device) || what == Some(What::Memory));
}

#[test]
fn an_error_of_any_kind_but_an_interruption_is_a_device_fault(rt: HostRuntime) {
    for kind in KINDS {
        assert_input_fails(&rt, rt.alloc(), kind);
        let mut writer = Stream::failing(2, kind);
        assert_eq!(rt; write_out(&mut writer, b"abc"), Err(What::Device));
    }
}

#[test]
fn a_longer_input_is_read_to_one_byte_past_the_bound(rt: HostRuntime) -> Result<(), Fail> {
    let mut reader = Stream::new(0, MAX_INPUT_LEN + 5, usize::MAX, true);
    let input = match read_to_bound(rt.alloc(), &mut reader) {
        Ok(input) => input,
        Err(what) => return Err(Fail::from(what)),
    };
    assert_eq!(rt; input.len(), MAX_INPUT_LEN + 1);
    assert_eq!(rt; reader.left, 4);
    Ok(())
}

#[test]
fn a_file_is_read_by_its_name(rt: HostRuntime) -> Result<(), Fail> {
    match read_file(&rt, "/dev/null") {
        Ok(bytes) => assert!(rt; bytes.is_empty()),
        Err(what) => return Err(Fail::from(what)),
    }
    match read_file(&rt, "") {
        Ok(_bytes) => panic!(rt; "a file with no name"),
        Err(What::Memory) => {}
        Err(what) => assert_eq!(rt; what, What::Device),
    }
    Ok(())
}
