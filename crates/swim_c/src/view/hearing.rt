//! What a view is told: messages, and records of streams.

ghost use Rattle.std.specs.Prelude.{◌≡◌, IfOk};
ghost use Rattle.memberlist_message.specs.Messages.{message_value};
ghost use Rattle.memberlist_view.specs.Heard.{accuser_of, said_in_packet};
ghost use Rattle.swim_c.specs.Views.{HearDone, Heeds, MessageTold, RecordTold, heard_in_packet, number_of};

use crate::progress::Progress;
use crate::status::{DONE, MEMORY, NO_ITEM, WRONG_TYPE};
use crate::view::query::copy_named;
use crate::view::shown::Shown;
use memberlist_message::{Message, decode_message};
use memberlist_view::{Event, Heard, Said, View};
use std::alloc::{AllocError, Global};
use swim_wire::Packet;

/// The result of telling a view something.
#[repr(C)]
#[derive(Clone, Copy)]
pub struct Told {
    pub status: u32,
    /// The number of what changed, or 0.
    pub event: u32,
}

impl Told {
    pub fn refused(status: u32) -> Told
        ensures { result ≡ record { status = status; event = 0 } }
    {
        Told { status, event: 0 }
    }
}

/// Tells the view the claim of a message that came at this time.
pub fn take_message(
    alloc: Global,
    view: &mut View,
    time: u64,
    message: &[u8],
    member: &mut Shown,
) -> Told
    ensures { MessageTold time message.now result.status result.event
        view.old view.new member.old member.new }
{
    match decode_message(alloc, message) {
        Ok(message) => tell(alloc, view, time, &message, member),
        Err(fault) => Told::refused(fault.number()),
    }
}

/// Tells the view the claim of a message.
fn tell(alloc: Global, view: &mut View, time: u64, message: &Message, member: &mut Shown) -> Told
    ensures { Heeds time (message_value message.now) result.status result.event
        view.old view.new member.old member.new }
{
    match message {
        Message::Claim(packet) => tell_claim(alloc, view, time, packet, member),
        Message::Ping(_)
        | Message::IndirectPing(_)
        | Message::Ack(_)
        | Message::Nack(_)
        | Message::User(_)
        | Message::Error(_) => Told::refused(WRONG_TYPE),
    }
}

fn tell_claim(
    alloc: Global,
    view: &mut View,
    time: u64,
    packet: &Packet,
    member: &mut Shown,
) -> Told
    ensures { HearDone (heard_in_packet time packet.now) result.status result.event
        view.old view.new member.old member.new }
{
    match said_by(alloc, packet) {
        Ok(said) => hear(view, &Heard { time, said }, member),
        Err(_) => Told::refused(MEMORY),
    }
}

/// What a packet says.
fn said_by(alloc: Global, packet: &Packet) -> Result<Said, AllocError>
    ensures { IfOk result (λ said.
        said ≡ said_in_packet packet.now.claim (accuser_of packet.now.from)) }
{
    let claim = packet.claim().try_clone(alloc)?;
    Said::of_packet(alloc, claim, packet.from_name())
}

/// Tells the view the next record of a stream that came at this time. If memory is refused for what
/// it changes, the record is still to be read.
pub fn take_record(
    alloc: Global,
    view: &mut View,
    time: u64,
    progress: &mut Progress,
    stream: &[u8],
    member: &mut Shown,
) -> Told
    ensures { RecordTold time stream.now progress.old progress.new result.status result.event
        view.old view.new member.old member.new }
{
    let before = *progress;
    let claim = match progress.next_record(alloc, stream) {
        Ok(Some(claim)) => claim,
        Ok(None) => return Told::refused(NO_ITEM),
        Err(fault) => return Told::refused(fault.number()),
    };
    let said = Said::of_record(claim, false);
    let told = hear(view, &Heard { time, said }, member);
    if told.status != DONE {
        *progress = before;
    }
    told
}

/// Tells the view something, and copies what it then shows of the member if there is an event.
fn hear(view: &mut View, heard: &Heard, member: &mut Shown) -> Told
    ensures { HearDone heard.now result.status result.event
        view.old view.new member.old member.new }
{
    match view.hear_as_member(heard) {
        Ok(Some(event)) => {
            copy_named(view, heard.said.name(), member);
            Told {
                status: DONE,
                event: number_of(event),
            }
        }
        Ok(None) => Told::refused(DONE),
        Err(_) => Told::refused(MEMORY),
    }
}

/// The number of what changed.
pub fn number_of(event: Event) -> u32
    ensures { result ≡ number_of event }
{
    match event {
        Event::Joined => 1,
        Event::Known => 2,
        Event::Back => 3,
        Event::Updated => 4,
        Event::Renewed => 5,
        Event::Refuted => 6,
        Event::Suspected => 7,
        Event::AlsoSuspected => 8,
        Event::Dead => 9,
        Event::Left => 10,
        Event::Conflict => 11,
        Event::Seen => 12,
    }
}
