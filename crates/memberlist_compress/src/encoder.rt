//! The codes of bytes.

ghost use Rattle.std.specs.Prelude.{◌≡◌, ℕ, List, [], ◌∷◌, ◌++◌, ◌+◌, ◌*◌, ◌<◌, ◌≤◌, length, IfOk, OnOk, MatchBool};
ghost use Rattle.memberlist_wrap.specs.Lzw.{Lzw, width};
ghost use Rattle.memberlist_compress.specs.Coding.{IsReady, IsFresh, Adds, Resets, Wrote, Waits};

use crate::bit_writer::BitWriter;
use crate::table::{Found, Table};
use std::alloc::{AllocError, Global};

/// The code that resets the dictionary.
const CLEAR: u32 = 256;

/// The last code.
const END: u32 = 257;

/// The first code of a word of the dictionary.
const FIRST_WORD: u32 = 258;

/// After this many words the dictionary is reset: Go's writer does not use the code 4095.
const MOST_WORDS: u32 = 3838;

/// The codes so far, which code each word has, and how many words there are since the last reset.
#[derive(Drop)]
pub(crate) struct Encoder {
    writer: BitWriter,
    table: Table,
    words: u32,
}

impl Encoder {
    /// An encoder that wrote a clear code, as Go's does.
    pub(crate) fn new(alloc: Global) -> Result<Encoder, AllocError>
        ensures { IfOk result IsFresh }
    {
        let mut writer = BitWriter::new(alloc);
        writer.add(CLEAR, width_after(0))?;
        Ok(Encoder {
            writer,
            table: Table::new(alloc)?,
            words: 0,
        })
    }

    /// Writes the codes of the bytes.
    pub(crate) fn write(&mut self, bytes: &[u8]) -> Result<(), AllocError>
        requires { IsFresh self.old }
        ensures { OnOk result (Wrote bytes.now self.new) }
    {
        let Some((first, rest)) = bytes.split_first() else {
            return Ok(());
        };
        let mut code = u32::from(*first);
        for byte in rest {
            code = self.take(code, *byte)?;
        }
        self.write_word(code)?;
        Ok(())
    }

    /// Takes the next byte, after the word of this code, which is not written yet. Returns the code
    /// of the word that is then not written yet.
    #[inline(always)]
    fn take(&mut self, code: u32, byte: u8) -> Result<u32, AllocError>
        requires ready { IsReady self.old }
        requires known { code < 258 + self.old.words }
        ensures { IfOk result (λ next. (taken coming : List ℕ)
            → Waits taken (byte ∷ coming) code self.old
            → Waits (taken ++ byte ∷ []) coming next self.new) }
    {
        match self.table.find(code, byte) {
            Found::Code(longer) => Ok(longer),
            Found::Slot(place) => {
                let longer = FIRST_WORD + self.words;
                if !self.write_word(code)? {
                    self.table.put(place, code, byte, longer);
                }
                Ok(u32::from(byte))
            }
        }
    }

    /// Writes the code of a word. Returns whether the dictionary was full and is reset.
    fn write_word(&mut self, code: u32) -> Result<bool, AllocError>
        requires ready { IsReady self.old }
        requires known { code < 258 + self.old.words }
        ensures { IfOk result (λ is_reset. MatchBool is_reset (Resets code self.old self.new)
            (Adds code self.old self.new)) }
    {
        self.writer.add(code, width_after(self.words))?;
        self.words += 1;
        if self.words < MOST_WORDS {
            return Ok(false);
        }
        self.writer.add(CLEAR, width_after(self.words))?;
        self.table.clear();
        self.words = 0;
        Ok(true)
    }

    /// The codes and the last code, in bytes.
    pub(crate) fn finish(self) -> Result<Vec<u8>, AllocError>
        requires { IsReady self }
        ensures { IfOk result (λ made. (bytes : List ℕ) → Wrote bytes self
            → Lzw made.items bytes × (length made.items ≤ 2 * length bytes + 3)) }
    {
        let Encoder {
            mut writer,
            table: _,
            words,
        } = self;
        writer.add(END, width_after(words))?;
        writer.finish()
    }
}

/// How many bits the next code has after this many words.
fn width_after(words: u32) -> u32
    ensures { result ≡ width words }
{
    if words < 255 {
        9
    } else if words < 767 {
        10
    } else if words < 1791 {
        11
    } else {
        12
    }
}
