//! The dictionary.

ghost use Rattle.std.specs.Prelude.{◌≡◌, ℕ, List, [], ◌∷◌, ◌++◌, ◌+◌, ◌-◌, ◌<◌, ◌≤◌, ◌⊎◌, length, take, drop, IfOk};
ghost use Rattle.std.specs.Prelude.{IfErr, IsErrOf, IsOkUnless, OnOk, OnErr, vec_len};
ghost use Rattle.memberlist_wrap.specs.Lzw.{kept_words, width, StandsFor};
ghost use Rattle.memberlist_wrap.specs.Dictionary.{DecoderState, decoder_state, AreKept, next_start, again, max_starts};

use crate::WrapFault;
use std::alloc::Global;
use std::marker::Model;

/// The first code of a word of the dictionary.
const FIRST_WORD: u32 = 258;

/// The most places of words: those of the 3,838 words that a code can name, of the word whose first
/// byte ends the last of them, and of what follows it.
const MAX_STARTS: usize = 3840;

/// The output so far, and where in it the words since the last clear code start.
#[derive(Drop)]
pub(crate) struct Dictionary {
    output: Vec<u8>,
    starts: Vec<usize>,
}

impl Model for Dictionary {
    ghost Value = { DecoderState };

    ghost view = { λ words. decoder_state words.output.items words.starts.items };

    ghost invariant = { λ words. AreKept (length words.output.items) words.starts.items };
}

impl Dictionary {
    /// No output, and no words.
    pub(crate) fn new(alloc: Global) -> Dictionary
        ensures { result ≡ record { output = []; words = [] } }
    {
        Dictionary {
            output: Vec::new(alloc),
            starts: Vec::new(alloc),
        }
    }

    /// How many bits the next code has.
    pub(crate) fn width(&self) -> u32
        ensures { result ≡ width (length self.now.words) }
    {
        width_after(self.starts.len())
    }

    /// Resets the dictionary.
    pub(crate) fn clear(&mut self)
        ensures { self.new ≡ record self.old { words = [] } }
    {
        self.starts.clear();
    }

    /// The output.
    pub(crate) fn into_output(self) -> Vec<u8>
        ensures { result.items ≡ self.output }
    {
        let Dictionary { output, starts: _ } = self;
        output
    }

    /// Appends the word of the code.
    pub(crate) fn append(&mut self, code: u32, limit: usize) -> Result<(), WrapFault>
        requires no_sign { (code < 256) ⊎ (258 ≤ code) }
        requires narrow { code < 4096 }
        requires short { length self.old.output ≤ limit }
        ensures appends { IfOk result (λ _. (word : List ℕ) × StandsFor self.old.words code word
            × (self.new ≡ record {
              output = self.old.output ++ word;
              words = kept_words self.old.words word;
            })) }
        ensures short { OnOk result (length self.new.output ≤ limit) }
        ensures bad { IsErrOf result WrapFault.BadCode
            → (word : List ℕ) → ¬ StandsFor self.old.words code word }
        ensures large { IsErrOf result WrapFault.TooLarge
            → (word : List ℕ) × StandsFor self.old.words code word
            × (limit < length self.old.output + length word) }
        ensures only { IfErr result (λ e. (e ≡ WrapFault.BadCode) ⊎ (e ≡ WrapFault.TooLarge)
            ⊎ (e ≡ WrapFault.Memory)) }
    {
        if code < 256 {
            self.append_byte(code as u8, limit)
        } else {
            self.append_again((code - FIRST_WORD) as usize, limit)
        }
    }

    /// Appends one byte as a word.
    fn append_byte(&mut self, byte: u8, limit: usize) -> Result<(), WrapFault>
        requires short { length self.old.output ≤ limit }
        ensures appends { OnOk result (self.new ≡ record {
          output = self.old.output ++ byte ∷ [];
          words = kept_words self.old.words (byte ∷ []);
        }) }
        ensures short { OnOk result (length self.old.output < limit) }
        ensures large { IsErrOf result WrapFault.TooLarge → limit ≤ length self.old.output }
        ensures only { IfErr result (λ e. (e ≡ WrapFault.TooLarge) ⊎ (e ≡ WrapFault.Memory)) }
    {
        let start = self.output.len();
        if start >= limit {
            return Err(WrapFault::TooLarge);
        }
        self.output.push(byte)?;
        keep_start(&mut self.starts, start)?;
        Ok(())
    }

    /// Appends the word at this place and the byte after it.
    fn append_again(&mut self, place: usize, limit: usize) -> Result<(), WrapFault>
        requires narrow { place < 3838 }
        requires short { length self.old.output ≤ limit }
        ensures appends { IfOk result (λ _. (word : List ℕ)
            × StandsFor self.old.words (258 + place) word
            × (self.new ≡ record {
              output = self.old.output ++ word;
              words = kept_words self.old.words word;
            })) }
        ensures short { OnOk result (length self.new.output ≤ limit) }
        ensures bad { IsErrOf result WrapFault.BadCode → length self.old.words ≤ place }
        ensures large { IsErrOf result WrapFault.TooLarge
            → (word : List ℕ) × StandsFor self.old.words (258 + place) word
            × (limit < length self.old.output + length word) }
        ensures only { IfErr result (λ e. (e ≡ WrapFault.BadCode) ⊎ (e ≡ WrapFault.TooLarge)
            ⊎ (e ≡ WrapFault.Memory)) }
    {
        let start = self.output.len();
        if place >= self.starts.len() {
            return Err(WrapFault::BadCode);
        }
        let from = self.starts[place];
        let to = start_after(&self.starts, place, start);
        if to - from >= limit - start {
            return Err(WrapFault::TooLarge);
        }
        copy_again(&mut self.output, from, to)?;
        keep_start(&mut self.starts, start)?;
        Ok(())
    }
}

fn width_after(words: usize) -> u32
    ensures { result ≡ width words }
{
    if words < 255 {
        9
    } else if words < 767 {
        10
    } else if words < 1791 {
        11
    } else {
        12
    }
}

/// Where the word after this place starts, or the end.
fn start_after(starts: &[usize], place: usize, end: usize) -> usize
    requires { place < length starts.now }
    ensures { result ≡ next_start end (drop (place + 1) starts.now) }
{
    match starts.get(place + 1) {
        Some(start) => *start,
        None => end,
    }
}

/// Appends a place to those that are kept, unless they are the most already.
fn keep_start(starts: &mut Vec<usize>, start: usize) -> Result<(), WrapFault>
    requires { vec_len starts.old ≤ max_starts }
    ensures ok { OnOk result (starts.new.items ≡ take max_starts (starts.old.items ++ start ∷ [])) }
    ensures err { OnErr result (starts.new.items ≡ starts.old.items) }
    ensures only { IsOkUnless result WrapFault.Memory }
{
    if starts.len() < MAX_STARTS {
        starts.push(start)?;
    }
    Ok(())
}

/// Appends a copy of a part and the byte after it.
fn copy_again(output: &mut Vec<u8>, from: usize, to: usize) -> Result<(), WrapFault>
    requires some { from < to }
    requires inside { to ≤ vec_len output.old }
    ensures ok { OnOk result
        (output.new.items ≡ output.old.items ++ again output.old.items from to) }
    ensures err { OnErr result (length output.old.items ≤ length output.new.items) }
    ensures only { IsOkUnless result WrapFault.Memory }
{
    output.extend_from_within(from..to)?;
    let next = output[to];
    output.push(next)?;
    Ok(())
}
