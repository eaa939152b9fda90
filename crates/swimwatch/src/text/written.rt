//! Text that is written piece by piece.

ghost use Rattle.percent_encoding.specs.Iter.{encoded_text};
ghost use Rattle.std.specs.Prelude.{◌≡◌, ◌↔◌, ◌++◌, [], Some, None, IsTrue, IfSome, IfOk, OnErr, encode_utf8};
ghost use Rattle.std.specs.Fmt.{AppendsText};
ghost use Rattle.std.specs.String.{string_bytes};
ghost use Rattle.swimwatch.specs.Written.{written};

use crate::text::escape::write_escape;
use percent_encoding::PercentEncode;
use std::alloc::{AllocError, Global};
use std::fmt::Display;

/// A text under construction. That memory was refused for a piece of it is told once, by
/// [`Text::end`] and [`Text::as_str`]: no text is given in which a piece is missing.
#[derive(Drop)]
pub(crate) struct Text {
    text: String,
    is_refused: bool,
}

impl Text {
    /// Nothing was written.
    pub(crate) fn new(alloc: Global) -> Text
        ensures { written result ≡ Some [] }
    {
        Text {
            text: String::new(alloc),
            is_refused: false,
        }
    }

    /// What it takes memory from.
    pub(crate) fn alloc(&self) -> Global {
        *self.text.allocator()
    }

    /// How many bytes it has.
    pub(crate) fn len(&self) -> usize {
        self.text.len()
    }

    /// Whether nothing was written, and no memory was refused.
    pub(crate) fn is_empty(&self) -> bool
        ensures { IsTrue result ↔ written self.now ≡ Some [] }
    {
        self.text.is_empty() && !self.is_refused
    }

    /// Adds these characters.
    pub(crate) fn push_str(&mut self, part: &str)
        ensures bytes { IfSome (written self.new) (λ now.
            now ≡ string_bytes self.old.text ++ part.now) }
        ensures sticks { written self.old ≡ None → written self.new ≡ None }
    {
        let added = self.text.push_str(part);
        self.is_refused |= added.is_err();
    }

    /// Adds a character.
    pub(crate) fn push(&mut self, c: char)
        ensures bytes { IfSome (written self.new) (λ now.
            now ≡ string_bytes self.old.text ++ encode_utf8 c) }
        ensures sticks { written self.old ≡ None → written self.new ≡ None }
    {
        let added = self.text.push(c);
        self.is_refused |= added.is_err();
    }

    /// Adds how a value is shown: what `write!` calls.
    pub(crate) fn write_fmt<D: Display + Drop>(&mut self, value: D)
        ensures bytes { IfSome (written self.new) (λ now.
            AppendsText (string_bytes self.old.text) now (D.output value)) }
        ensures sticks { written self.old ≡ None → written self.new ≡ None }
    {
        let added = self.text.write_fmt(value);
        self.is_refused |= added.is_err();
    }

    /// Adds bytes of which some are escaped as `%XX`.
    pub(crate) fn push_encoded(&mut self, bytes: PercentEncode)
        ensures bytes { IfSome (written self.new) (λ now.
            now ≡ string_bytes self.old.text ++ encoded_text bytes.entry) }
        ensures sticks { written self.old ≡ None → written self.new ≡ None }
    {
        let added = bytes.append_to(&mut self.text);
        self.is_refused |= added.is_err();
    }

    /// Adds a character as JSON escapes it.
    pub(crate) fn push_escape(&mut self, c: char)
        ensures sticks { written self.old ≡ None → written self.new ≡ None }
    {
        let added = write_escape(&mut self.text, c as u32);
        self.is_refused |= added.is_err();
    }

    /// Adds a text that was made apart.
    pub(crate) fn add(&mut self, part: Result<String, AllocError>)
        ensures bytes { IfSome (written self.new) (λ now. IfOk part (λ part.
            now ≡ string_bytes self.old.text ++ string_bytes part)) }
        ensures refused { OnErr part (written self.new ≡ None) }
        ensures sticks { written self.old ≡ None → written self.new ≡ None }
    {
        match part {
            Ok(part) => self.push_str(&part),
            Err(_) => self.is_refused = true,
        }
    }

    /// Adds what was written to another text.
    pub(crate) fn push_text(&mut self, other: &Text)
        ensures bytes { IfSome (written self.new) (λ now.
            now ≡ string_bytes self.old.text ++ string_bytes other.now.text) }
        ensures refused { written other.now ≡ None → written self.new ≡ None }
        ensures sticks { written self.old ≡ None → written self.new ≡ None }
    {
        self.push_str(&other.text);
        self.is_refused |= other.is_refused;
    }

    /// Notes that memory was refused for a piece that was made apart.
    pub(crate) fn refuse(&mut self)
        ensures { written self.new ≡ None }
    {
        self.is_refused = true;
    }

    /// What was made for this text, unless memory for it was refused.
    pub(crate) fn made<T: Drop>(&mut self, made: Result<T, AllocError>) -> Option<T>
        ensures refused { OnErr made (written self.new ≡ None) }
        ensures sticks { written self.old ≡ None → written self.new ≡ None }
    {
        self.is_refused |= made.is_err();
        made.ok()
    }

    /// Removes all that was written, and that memory was refused.
    pub(crate) fn clear(&mut self)
        ensures { written self.new ≡ Some [] }
    {
        self.text.clear();
        self.is_refused = false;
    }

    /// All that was written so far.
    ///
    /// # Errors
    ///
    /// If memory was refused for some of it.
    pub(crate) fn as_str(&self) -> Result<&str, AllocError>
        ensures whole { IfOk result (λ text. written self.now ≡ Some text.now) }
        ensures refused { OnErr result (written self.now ≡ None) }
    {
        if self.is_refused {
            return Err(AllocError);
        }
        Ok(&self.text)
    }

    /// All that was written.
    ///
    /// # Errors
    ///
    /// If memory was refused for some of it.
    pub(crate) fn end(self) -> Result<String, AllocError>
        ensures whole { IfOk result (λ text. written self ≡ Some (string_bytes text)) }
        ensures refused { OnErr result (written self ≡ None) }
    {
        if self.is_refused {
            return Err(AllocError);
        }
        Ok(self.text)
    }
}
