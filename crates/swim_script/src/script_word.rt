//! The words of a line of a script: numbers, bytes and names.

ghost use Rattle.std.specs.Prelude.{◌≡◌, ◌≢◌, ◌<◌, ℕ, List, length, map, IfOk, IfErr};
ghost use Rattle.percent_encoding.specs.Percent.{percent_decode};
ghost use Rattle.swim_script.specs.Refusals.{NoBytes, NoNumber};
ghost use Rattle.swim_script.specs.Script.{Decimal, HexBytes, words};

use percent_encoding::percent_decode;
use std::alloc::{AllocError, Global};
use swim_program::What;

/// The most words of a line: those of a node.
const MAX_WORDS: usize = 7;

/// The most digits of a number. No number of 64 bits has more.
const MAX_DIGITS: usize = 20;

/// The words of a line, separated by its spaces.
///
/// # Errors
///
/// `BadScript` if there are more than seven, as no line has that many.
pub(crate) fn split_words(alloc: Global, line: &[u8]) -> Result<Vec<&[u8]>, What>
    ensures words { IfOk result (λ list. map (λ word. word.now) list.items ≡ words line.now) }
    ensures many { IfErr result (λ what. what ≢ What.Memory → 7 < length (words line.now)) }
    ensures fault { IfErr result (λ what. what ≢ What.Memory → what ≡ What.Refused 31 None) }
{
    let words = line
        .split(|byte| *byte == b' ')
        .take(MAX_WORDS + 1)
        .collect::<Vec<&[u8]>>(alloc)?;
    if words.len() > MAX_WORDS {
        return Err(What::bad_script());
    }
    Ok(words)
}

/// The decimal number that a word is: 1 to 20 digits without a sign, and at most `most`.
///
/// # Errors
///
/// `BadScript` if the word is not such a number.
pub(crate) fn number_of(word: &[u8], most: u64) -> Result<u64, What>
    ensures reads { IfOk result (Decimal most word.now) }
    ensures tells { IfErr result (NoNumber most word.now) }
{
    // parse also accepts a plus, and a text of any length
    if word.len() > MAX_DIGITS || word.first() == Some(&b'+') {
        return Err(What::bad_script());
    }
    let Ok(text) = str::from_utf8(word) else {
        return Err(What::bad_script());
    };
    match text.parse::<u64>() {
        Ok(number) if number <= most => Ok(number),
        _ => Err(What::bad_script()),
    }
}

/// The bytes of a word: at least one in hexadecimal, or `-` for no bytes.
///
/// # Errors
///
/// `BadHex` if the word is neither.
pub(crate) fn bytes_of(alloc: Global, word: &[u8]) -> Result<Vec<u8>, What>
    ensures reads { IfOk result (λ bytes. HexBytes word.now bytes.items) }
    ensures tells { IfErr result (λ what. what ≢ What.Memory → NoBytes word.now what) }
{
    match word {
        b"-" => Ok(Vec::new(alloc)),
        [] => Err(What::bad_hex()),
        digits => Ok(hex::decode(alloc, digits)?),
    }
}

/// The bytes of a name: `%` and two hexadecimal digits are one byte, and everything else is taken
/// literally.
pub(crate) fn name_of(alloc: Global, word: &[u8]) -> Result<Vec<u8>, AllocError>
    ensures { IfOk result (λ name. name.items ≡ percent_decode word.now) }
{
    let mut name = Vec::new(alloc);
    percent_decode(word).append_to(&mut name)?;
    Ok(name)
}
