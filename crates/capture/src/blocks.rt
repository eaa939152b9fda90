//! The blocks of a pcapng capture.

ghost use Rattle.std.specs.Prelude.{◌≡◌, length};
ghost use Rattle.swim_pack.specs.Composing.{ReadsAs, same};
ghost use Rattle.capture.specs.Blocks.{block_text, section_text};
ghost use Rattle.capture.specs.Pcapng.{closed, section_at, interface_at, packet_at, timed_head, timed_packet};
ghost use Rattle.capture.specs.Pcapng.{simple_packet, other_at, block_at};
ghost use Rattle.capture.specs.Taking.{stop_cause};

use crate::Record;
use crate::checks::{
    check_place, check_total, check_version, clock_in, order_in, room_behind, room_in,
};
use crate::interface::Interface;
use crate::order::Order;
use crate::section::Section;
use crate::stop::Stop;
use crate::taking::{fill, fill_header, read_captured, skip};
use swim_pack::Inlet;

/// The type of a section header block, which is the same in both orders.
pub(crate) const SECTION_HEADER: u32 = 0x0a0d_0d0a;

/// What a block holds.
#[derive(Clone, Copy)]
pub(crate) enum Block {
    Section(Order),
    Interface(Interface),
    Packet(Record),
    Other,
}

/// The lengths of a block with a packet.
#[derive(Clone, Copy)]
struct Lengths {
    /// The total length of the block.
    total: u32,
    /// What is left of it for the captured bytes, and what follows them.
    room: u32,
    /// The length of the captured bytes.
    captured: u32,
}

/// Skips `count` bytes, and reads the total length again.
fn read_closed<I: Inlet>(inlet: &mut I, order: Order, count: u32, total: u32) -> Result<(), Stop>
    ensures { ReadsAs stop_cause (λ _. tt) (closed order count total)
        (I.seen inlet.old) (I.seen inlet.new) result }
{
    skip(inlet, count as usize)?;
    let mut tail = [0; 4];
    fill(inlet, &mut tail)?;
    let again = order.u32_at(&tail, 0);
    check_total(again, total)
}

/// Reads a section header block after its type and these bytes of its total length.
pub(crate) fn read_section<I: Inlet>(inlet: &mut I, claimed: &[u8]) -> Result<Order, Stop>
    requires { length claimed.now ≡ 4 }
    ensures { ReadsAs stop_cause same (section_at claimed.now)
        (I.seen inlet.old) (I.seen inlet.new) result }
{
    let mut bytes = [0; 4];
    fill(inlet, &mut bytes)?;
    let magic = Order::Big.u32_at(&bytes, 0);
    let order = order_in(magic)?;
    let total = order.u32_at(claimed, 0);
    let room = room_in(16, total)?;
    let mut version = [0; 12];
    fill(inlet, &mut version)?;
    let major = order.u16_at(&version, 0);
    check_version(1, major)?;
    read_closed(inlet, order, room, total)?;
    Ok(order)
}

/// Reads an interface description block after its type and its total length.
fn read_interface<I: Inlet>(
    section: &Section,
    inlet: &mut I,
    bytes: &mut Vec<u8>,
    total: u32,
) -> Result<Interface, Stop>
    ensures { ReadsAs stop_cause same (interface_at (section_text section.now) total)
        (I.seen inlet.old) (I.seen inlet.new) result }
{
    let order = section.order;
    let room = room_in(8, total)?;
    let mut fields = [0; 8];
    fill(inlet, &mut fields)?;
    read_captured(inlet, bytes, room)?;
    let options = bytes.as_slice();
    let clock = clock_in(order, options)?;
    read_closed(inlet, order, 0, total)?;
    check_place(section.count())?;
    let link = order.u16_at(&fields, 0);
    let snap = order.u32_at(&fields, 4);
    Ok(Interface {
        link: u32::from(link),
        snap,
        clock,
    })
}

/// The record in the fields of a packet with a time, on the interface with this number.
fn timed(order: Order, on: &Interface, number: u32, fields: &[u8]) -> Record
    requires { length fields.now ≡ 20 }
    ensures { result ≡ timed_head order on.now number fields.now }
{
    let upper = order.u32_at(fields, 4);
    let lower = order.u32_at(fields, 8);
    let count = u64::from(upper) * (1 << 32) + u64::from(lower);
    Record {
        time: Some(on.clock.time(count)),
        link: on.link,
        interface: Some(number),
        original: order.u32_at(fields, 16),
    }
}

/// Reads the captured bytes of a packet, and what follows them in their block.
fn read_packet<I: Inlet>(
    inlet: &mut I,
    bytes: &mut Vec<u8>,
    order: Order,
    lengths: Lengths,
    head: Record,
) -> Result<Block, Stop>
    ensures { ReadsAs stop_cause (block_text bytes.new.items)
        (packet_at order lengths.total lengths.room lengths.captured head)
        (I.seen inlet.old) (I.seen inlet.new) result }
{
    let Lengths {
        total,
        room,
        captured,
    } = lengths;
    let left = room_behind(captured, room)?;
    read_captured(inlet, bytes, captured)?;
    read_closed(inlet, order, left, total)?;
    Ok(Block::Packet(head))
}

/// Reads an enhanced packet block after its type and its total length.
fn read_enhanced<I: Inlet>(
    section: &Section,
    inlet: &mut I,
    bytes: &mut Vec<u8>,
    total: u32,
) -> Result<Block, Stop>
    ensures { ReadsAs stop_cause (block_text bytes.new.items)
        (timed_packet 4 (section_text section.now) total)
        (I.seen inlet.old) (I.seen inlet.new) result }
{
    let order = section.order;
    let room = room_in(20, total)?;
    let mut fields = [0; 20];
    fill(inlet, &mut fields)?;
    let number = order.u32_at(&fields, 0);
    let on = section.described(number)?;
    let head = timed(order, &on, number, &fields);
    let captured = order.u32_at(&fields, 12);
    let lengths = Lengths {
        total,
        room,
        captured,
    };
    read_packet(inlet, bytes, order, lengths, head)
}

/// Reads an obsolete packet block after its type and its total length.
fn read_obsolete<I: Inlet>(
    section: &Section,
    inlet: &mut I,
    bytes: &mut Vec<u8>,
    total: u32,
) -> Result<Block, Stop>
    ensures { ReadsAs stop_cause (block_text bytes.new.items)
        (timed_packet 2 (section_text section.now) total)
        (I.seen inlet.old) (I.seen inlet.new) result }
{
    let order = section.order;
    let room = room_in(20, total)?;
    let mut fields = [0; 20];
    fill(inlet, &mut fields)?;
    let half = order.u16_at(&fields, 0);
    let number = u32::from(half);
    let on = section.described(number)?;
    let head = timed(order, &on, number, &fields);
    let captured = order.u32_at(&fields, 12);
    let lengths = Lengths {
        total,
        room,
        captured,
    };
    read_packet(inlet, bytes, order, lengths, head)
}

/// Reads a simple packet block after its type and its total length.
fn read_simple<I: Inlet>(
    section: &Section,
    inlet: &mut I,
    bytes: &mut Vec<u8>,
    total: u32,
) -> Result<Block, Stop>
    ensures { ReadsAs stop_cause (block_text bytes.new.items)
        (simple_packet (section_text section.now) total)
        (I.seen inlet.old) (I.seen inlet.new) result }
{
    let order = section.order;
    let room = room_in(4, total)?;
    let mut fields = [0; 4];
    fill(inlet, &mut fields)?;
    let on = section.described(0)?;
    let original = order.u32_at(&fields, 0);
    let captured = on.snapped(original);
    let lengths = Lengths {
        total,
        room,
        captured,
    };
    let head = Record {
        time: None,
        link: on.link,
        interface: Some(0),
        original,
    };
    read_packet(inlet, bytes, order, lengths, head)
}

/// Skips another block after its type and its total length.
fn read_other<I: Inlet>(inlet: &mut I, order: Order, total: u32) -> Result<(), Stop>
    ensures { ReadsAs stop_cause (λ _. tt) (other_at order total)
        (I.seen inlet.old) (I.seen inlet.new) result }
{
    let room = room_in(0, total)?;
    read_closed(inlet, order, room, total)
}

/// Reads a block.
pub(crate) fn read_block<I: Inlet>(
    section: &Section,
    inlet: &mut I,
    bytes: &mut Vec<u8>,
) -> Result<Block, Stop>
    ensures { ReadsAs stop_cause (block_text bytes.new.items) (block_at (section_text section.now))
        (I.seen inlet.old) (I.seen inlet.new) result }
{
    let mut head = [0; 8];
    fill_header(inlet, &mut head)?;
    let order = section.order;
    let total = order.u32_at(&head, 4);
    match order.u32_at(&head, 0) {
        SECTION_HEADER => Ok(Block::Section(read_section(inlet, &head[4..])?)),
        1 => Ok(Block::Interface(read_interface(section, inlet, bytes, total)?)),
        2 => read_obsolete(section, inlet, bytes, total),
        3 => read_simple(section, inlet, bytes, total),
        6 => read_enhanced(section, inlet, bytes, total),
        _ => {
            read_other(inlet, order, total)?;
            Ok(Block::Other)
        }
    }
}
