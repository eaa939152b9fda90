//! What an agent put out, given one by one.

ghost use Rattle.std.specs.Prelude.{◌≡◌};
ghost use Rattle.swim_c.specs.Agents.{NextDone};
ghost use Rattle.swim_c.specs.AgentOuts.{HasOutBytes, IsWritten};

use crate::agent::held::HeldAgent;
use crate::agent::out::Out;
use crate::buffer::Buffer;
use crate::kept::Kept;
use crate::status::{DONE, MEMORY, NO_ITEM};
use memberlist_member::Output;
use std::alloc::Global;

/// Gives the first output that was not given yet: its bytes are then in the buffer. Returns a status.
pub fn give(alloc: Global, held: &mut HeldAgent, out: &mut Out, buffer: &mut Buffer) -> u32
    ensures gives { NextDone result out.old out.new buffer.old buffer.new held.old held.new }
    ensures streams { held.new.accepted ≡ held.old.accepted }
{
    held.bring();
    if held.unsent.is_empty() {
        return NO_ITEM;
    }
    let Ok(room) = Kept::boxed(alloc, Vec::new(alloc)) else {
        return MEMORY;
    };
    match held.unsent.pop_front() {
        Some(output) => {
            write(alloc, output, room, out, buffer);
            DONE
        }
        None => NO_ITEM,
    }
}

/// Writes an output, and its bytes into this room. Without bytes the buffer is empty.
fn write(alloc: Global, output: Output, mut room: Box<Kept>, out: &mut Out, buffer: &mut Buffer)
    ensures written { IsWritten output out.new }
    ensures bytes { HasOutBytes output buffer.new }
{
    match out.fill(output) {
        Some(bytes) => {
            room.keep(bytes);
            buffer.fill(alloc, room);
        }
        None => buffer.free(alloc),
    }
}
