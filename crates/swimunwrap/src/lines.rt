//! Packets in hexadecimal, one per line, unwrapped.

ghost use Rattle.std.specs.Prelude.{◌≡◌, ◌≢◌, ◌↔◌, ◌⊎◌, ◌<◌, ◌≤◌, ◌++◌, ◌∷◌, [], ℕ, List, length, None, IfOk, IfErr, OnOk};
ghost use Rattle.swim_program.specs.Limits.{max_input_len};
ghost use Rattle.swim_program.specs.Lines.{input_lines};
ghost use Rattle.swim_program.specs.Report.{IsAmong};
ghost use Rattle.swimunwrap.specs.declared.cause.Cause.{Cause};
ghost use Rattle.swimunwrap.specs.Lines.{Becomes, AllBecome, BecomeTooLong};
ghost use Rattle.swimunwrap.specs.Unwrapped.{parted};

use crate::cause::Cause;
use crate::packet::{Outcome, outcome_of_line};
use memberlist_keyring::Keyring;
use memberlist_transport::InTheClear;
use memberlist_wrap::WrapFault;
use std::alloc::{AllocError, Global};
use std::marker::Model;
use swim_program::{MAX_INPUT_LEN, Place, Report, What, lines_of};

/// What became of lines: their text, and why each line that was left out was. Contracts see it as
/// these two.
#[derive(Drop)]
pub struct Unwrapped {
    text: Vec<u8>,
    left_out: Vec<Cause>,
}

impl Model for Unwrapped {
    ghost use Rattle.swimunwrap.specs.Unwrapped.{Shown};

    ghost Value = { Shown };

    ghost view = { λ u. record { text = u.text.items; causes = u.left_out.items } };
}

impl Unwrapped {
    fn new(alloc: Global) -> Unwrapped
        ensures { result ≡ record { text = []; causes = [] } }
    {
        Unwrapped {
            text: Vec::new(alloc),
            left_out: Vec::new(alloc),
        }
    }

    /// One line for each line of the input.
    pub fn text(&self) -> &[u8]
        ensures { result.now ≡ self.now.text }
    {
        &self.text
    }

    /// Why each line that was left out was, in the order of the lines.
    pub fn left_out(&self) -> &[Cause]
        ensures { result.now ≡ self.now.causes }
    {
        &self.left_out
    }

    /// Adds a line feed.
    fn end_line(&mut self) -> Result<(), AllocError>
        ensures { OnOk result (self.new ≡ record self.old { text = self.old.text ++ 10 ∷ [] }) }
    {
        self.text.push(b'\n')?;
        Ok(())
    }

    /// Adds the outcome of one more line.
    fn add(
        &mut self,
        alloc: Global,
        keys: &Keyring,
        clear: InTheClear,
        line: &[u8],
        skip: bool,
    ) -> Result<(), AllocError>
        ensures { OnOk result ((own : List ℕ) × (causes : List Cause)
            × Becomes clear keys.now skip line.now own causes × (self.new ≡ record {
              text = self.old.text ++ own;
              causes = self.old.causes ++ causes;
            })) }
    {
        match outcome_of_line(alloc, keys, clear, line)? {
            Outcome::Text(text) => self.text.extend_from_slice(text.as_bytes())?,
            Outcome::Unread(cause) => if cause.leaves_out(skip) {
                self.left_out.push(cause)?;
            } else {
                self.text.extend_from_slice(line)?;
            },
        }
        Ok(())
    }
}

/// Unwraps packets in hexadecimal, one per line, and returns one line for each line.
///
/// It is the message inside, in hexadecimal, if that makes claims (its first byte is 3, 4, 5 or 7).
/// It is empty if the message is a whole ping, indirect ping, ack, nack, user message or error, or
/// is empty. Otherwise it is the line as it was, or, with `skip`, empty, and the cause is kept.
/// Bytes that are not a message and start as an encrypted packet are first decrypted with the keys,
/// if there are any. If there are, and `clear` refuses what is in the clear, a line in the clear is
/// empty, and its cause is kept, with `skip` or without. A message has at most 1,048,576 bytes. The last line of the text has a line
/// feed if that of the input has one.
///
/// # Errors
///
/// InputTooLong at the input if it has more than 268,435,456 bytes; TooLarge at the output if the
/// text has more; Memory.
pub fn unwrap_lines(
    alloc: Global,
    keys: &Keyring,
    clear: InTheClear,
    input: &[u8],
    skip: bool,
) -> Result<Unwrapped, Report>
    // Each line becomes what the definitions say.
    ensures each { IfOk result (λ u.
        AllBecome clear keys.now skip (input_lines input.now) u.text u.causes) }
    ensures within { IfOk result (λ u. length u.text ≤ max_input_len) }

    ensures long { (max_input_len < length input.now)
        ↔ (result ≡ Err (record { place = Place.Input; what = What.Refused 32 None })) }
    // It is otherwise refused only if memory runs out, or the output is too long.
    ensures large { IfErr result (λ report. report.what ≢ What.Memory
        → length input.now ≤ max_input_len
        → (report ≡ record { place = Place.Output; what = What.Refused 47 None })
        × BecomeTooLong clear keys.now skip max_input_len (input_lines input.now)) }
    ensures place { IfErr result (λ report. IsAmong report.place 0) }
{
    if input.len() > MAX_INPUT_LEN {
        return Err(What::input_too_long().at(Place::Input));
    }
    let mut unwrapped = Unwrapped::new(alloc);
    for (index, line) in lines_of(input).enumerate() {
        if let Err(AllocError) = add_line(alloc, keys, clear, &mut unwrapped, index, line, skip) {
            return Err(What::Memory.at(Place::Line(index as u64 + 1)));
        }
        if unwrapped.text.len() > MAX_INPUT_LEN {
            return Err(too_large().at(Place::Output));
        }
    }
    Ok(unwrapped)
}

/// Adds the outcome of a line, after a line feed unless it is the first.
fn add_line(
    alloc: Global,
    keys: &Keyring,
    clear: InTheClear,
    unwrapped: &mut Unwrapped,
    index: usize,
    line: &[u8],
    skip: bool,
) -> Result<(), AllocError>
    ensures { OnOk result ((own : List ℕ) × (causes : List Cause)
        × Becomes clear keys.now skip line.now own causes × (unwrapped.new ≡ record {
          text = parted index unwrapped.old.text ++ own;
          causes = unwrapped.old.causes ++ causes;
        })) }
{
    if index > 0 {
        unwrapped.end_line()?;
    }
    unwrapped.add(alloc, keys, clear, line, skip)
}

/// The error for an output that is longer than the limit.
fn too_large() -> What
    ensures { result ≡ What.Refused 47 None }
{
    What::Refused {
        number: WrapFault::TooLarge.number(),
        found: None,
    }
}
