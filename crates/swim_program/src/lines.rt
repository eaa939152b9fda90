//! Lines of input.

ghost use Rattle.std.specs.Prelude.{◌≡◌, ◌≤◌, ◌+◌, length};
ghost use Rattle.std.specs.Iterator.{YieldsFirstRef, item_count};
ghost use Rattle.std.specs.Str.Lines.{strip_carriage_return};
ghost use Rattle.swim_program.specs.Lines.{input_lines};

use memchr::memchr;
use std::marker::Model;

/// The lines of an input that are not yet read. Contracts see them as a list.
#[derive(Drop)]
pub struct Lines<'a> {
    // the bytes after the last line feed that was read; `None` after the last line
    rest: Option<&'a [u8]>,
}

impl<'a> Model for Lines<'a> {
    ghost use Rattle.std.specs.Prelude.{ℕ, List};
    ghost use Rattle.swim_program.specs.Lines.{lines_left};

    ghost Value = { List (List ℕ) };

    ghost view = { λ lines. lines_left lines.rest };
}

/// The lines of an input. A line feed ends one and starts the next, so there is one more line than
/// line feeds; the last is empty if the input is empty or ends with a line feed.
pub fn lines_of(input: &[u8]) -> Lines<'_>
    ensures value { result ≡ input_lines input.now }
    ensures len { length result ≤ length input.now + 1 }
{
    Lines { rest: Some(input) }
}

impl<'a> Iterator for Lines<'a> {
    type Item = &'a [u8];

    ghost next_gives = { YieldsFirstRef (λ rest. rest) };

    ghost remaining = { item_count (λ rest. rest) };

    #[inline]
    fn next(&mut self) -> Option<&'a [u8]> {
        let rest = self.rest?;
        match memchr(b'\n', rest) {
            Some(end) => {
                self.rest = Some(&rest[end + 1..]);
                Some(&rest[..end])
            }
            None => {
                self.rest = None;
                Some(rest)
            }
        }
    }
}

/// A line without the one carriage return at its end, if it has one.
pub fn without_return(line: &[u8]) -> &[u8]
    ensures { result.now ≡ strip_carriage_return line.now }
{
    match line.split_last() {
        Some((b'\r', text)) => text,
        _ => line,
    }
}
