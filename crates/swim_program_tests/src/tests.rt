//! Ends of lines; reports, failures, and streams that fail.

mod failures;
mod reports;
mod streams;

use swim_program::{lines_of, without_return};

#[test]
fn lines_end_at_line_feeds(rt: HostRuntime) {
    let mut lines = lines_of(b"a\n\nb\n");
    assert!(rt; lines.next() == Some(b"a"));
    assert!(rt; lines.next() == Some(b""));
    assert!(rt; lines.next() == Some(b"b"));
    assert!(rt; lines.next() == Some(b""));
    assert!(rt; lines.next().is_none());
}

#[test]
fn one_carriage_return_is_dropped(rt: HostRuntime) {
    assert_eq!(rt; without_return(b"a\r\r"), b"a\r".as_slice());
    assert_eq!(rt; without_return(b"\ra"), b"\ra".as_slice());
}
