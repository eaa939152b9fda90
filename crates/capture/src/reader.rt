//! The reader of captures.

ghost use Rattle.std.specs.Prelude.{◌≡◌, List, ℕ, IfOk, IfErr, OnErr};
ghost use Rattle.swim_pack.specs.Composing.{ReadsAs, same, lift};
ghost use Rattle.capture.specs.Captures.{CaptureState, state_of, begin_at, pcap_file, pcapng_file, file_of};
ghost use Rattle.capture.specs.Captures.{behind_block, step_at, step_text, fault_of, fault_cause, NextRecord};
ghost use Rattle.capture.specs.Captures.CaptureState.{pcap, pcapng};
ghost use Rattle.capture.specs.Blocks.{block_text, section_text};
ghost use Rattle.capture.specs.Taking.{stop_cause};
ghost use Rattle.capture.specs.declared.stop.Stop.TheVariants as stops;
ghost use Rattle.capture.specs.declared.capture_fault.CaptureFault.TheVariants as faults;

use crate::blocks::{Block, SECTION_HEADER, read_block, read_section};
use crate::order::Order;
use crate::pcap::{Pcap, Precision, read_pcap, read_pcap_record};
use crate::section::Section;
use crate::stop::Stop;
use crate::taking::{fill, fill_header};
use crate::{CaptureFault, Record};
use std::alloc::Global;
use std::marker::Model;
use swim_pack::Inlet;

/// What a capture of each format has described so far.
#[derive(Drop)]
enum Format {
    Pcap(Pcap),
    Pcapng(Section),
}

/// A reader of a capture's records, pcap (draft-ietf-opsawg-pcap) or pcapng
/// (draft-ietf-opsawg-pcapng). Contracts see it as what the capture has described so far.
///
/// It reads from its inlet up to the end of the record that it returns, and no further. It keeps
/// the interfaces of a section, and nothing of a record.
#[derive(Drop)]
pub struct CaptureReader {
    format: Format,
}

impl Model for CaptureReader {
    ghost Value = { CaptureState };

    ghost view = { λ reader. state_of reader.format };
}

/// Reads what follows the magic number of a pcap file.
fn read_pcap_file<I: Inlet>(
    inlet: &mut I,
    order: Order,
    precision: Precision,
) -> Result<CaptureReader, Stop>
    ensures { ReadsAs stop_cause same (pcap_file order precision)
        (I.seen inlet.old) (I.seen inlet.new) result }
{
    let file = read_pcap(inlet, order, precision)?;
    Ok(CaptureReader {
        format: Format::Pcap(file),
    })
}

/// Reads the first section header block of a pcapng file, after its type.
fn read_pcapng_file<I: Inlet>(alloc: Global, inlet: &mut I) -> Result<CaptureReader, Stop>
    ensures { ReadsAs stop_cause same pcapng_file (I.seen inlet.old) (I.seen inlet.new) result }
{
    let mut claimed = [0; 4];
    fill(inlet, &mut claimed)?;
    let order = read_section(inlet, &claimed)?;
    Ok(CaptureReader {
        format: Format::Pcapng(Section::new(alloc, order)),
    })
}

/// Reads what follows the first four bytes of a capture.
fn read_file<I: Inlet>(alloc: Global, inlet: &mut I, magic: u32) -> Result<CaptureReader, Stop>
    ensures { ReadsAs stop_cause same (file_of magic) (I.seen inlet.old) (I.seen inlet.new) result }
{
    match magic {
        0xa1b2_c3d4 => read_pcap_file(inlet, Order::Big, Precision::Microseconds),
        0xd4c3_b2a1 => read_pcap_file(inlet, Order::Little, Precision::Microseconds),
        0xa1b2_3c4d => read_pcap_file(inlet, Order::Big, Precision::Nanoseconds),
        0x4d3c_b2a1 => read_pcap_file(inlet, Order::Little, Precision::Nanoseconds),
        SECTION_HEADER => read_pcapng_file(alloc, inlet),
        _ => Err(Stop::Fault(CaptureFault::NotCapture)),
    }
}

/// Reads the start of a capture.
fn read_begin<I: Inlet>(alloc: Global, inlet: &mut I) -> Result<CaptureReader, Stop>
    ensures { ReadsAs stop_cause same begin_at (I.seen inlet.old) (I.seen inlet.new) result }
{
    let mut front = [0; 4];
    fill_header(inlet, &mut front)?;
    let magic = Order::Big.u32_at(&front, 0);
    read_file(alloc, inlet, magic)
}

/// The fault of a stop at which more had to come.
fn fault_of(stop: Stop) -> CaptureFault
    ensures { result ≡ fault_of stop }
{
    match stop {
        Stop::End => CaptureFault::Cut,
        Stop::Fault(fault) => fault,
    }
}

/// Adds what a block describes to the section, and returns the record in the block.
fn take_block(section: &mut Section, block: Block) -> Result<Option<Record>, Stop>
    ensures taken { (bytes : List ℕ) → IfOk result (λ found.
        step_text (pcapng (section_text section.new)) bytes found
        ≡ behind_block (section_text section.old) (block_text bytes block)) }
    ensures refused { IfErr result (λ refusal. refusal ≡ stops.Fault faults.Memory) }
    ensures kept { OnErr result (section_text section.new ≡ section_text section.old) }
{
    match block {
        Block::Section(order) => {
            section.order = order;
            section.interfaces.clear();
            Ok(None)
        }
        Block::Interface(on) => match section.interfaces.push(on) {
            Ok(()) => Ok(None),
            Err(_) => Err(Stop::Fault(CaptureFault::Memory)),
        },
        Block::Packet(record) => Ok(Some(record)),
        Block::Other => Ok(None),
    }
}

/// Reads a record of pcap.
fn step_pcap<I: Inlet>(
    file: Pcap,
    inlet: &mut I,
    bytes: &mut Vec<u8>,
) -> Result<Option<Record>, Stop>
    ensures { ReadsAs stop_cause (step_text (pcap file) bytes.new.items) (step_at (pcap file))
        (I.seen inlet.old) (I.seen inlet.new) result }
{
    let record = read_pcap_record(file, inlet, bytes)?;
    Ok(Some(record))
}

/// Reads a block of pcapng.
fn step_pcapng<I: Inlet>(
    section: &mut Section,
    inlet: &mut I,
    bytes: &mut Vec<u8>,
) -> Result<Option<Record>, Stop>
    ensures exact { ReadsAs stop_cause
        (step_text (pcapng (section_text section.new)) bytes.new.items)
        (step_at (pcapng (section_text section.old)))
        (I.seen inlet.old) (I.seen inlet.new) result }
    ensures kept { OnErr result (section_text section.new ≡ section_text section.old) }
{
    let block = read_block(section, inlet, bytes)?;
    take_block(section, block)
}

impl CaptureReader {
    /// Reads the start of the capture: the header of a pcap file, or the first section header block
    /// of a pcapng file. It takes no memory.
    ///
    /// # Errors
    ///
    /// The first of these that holds: `NotCapture` if the first four bytes are those of neither
    /// format, or the byte-order magic of a section is invalid; `BadBlock` if a section header
    /// block has a wrong length; `Version` if the major version is not 2 of pcap or 1 of pcapng.
    /// `Cut` if the bytes end before that, and `Device` if the inlet failed.
    pub fn begin<I: Inlet>(alloc: Global, inlet: &mut I) -> Result<CaptureReader, CaptureFault>
        // The consumed bytes are the start of a capture, or the fault says why not.
        ensures exact { ReadsAs fault_cause same (lift fault_of begin_at)
            (I.seen inlet.old) (I.seen inlet.new) result }
    {
        match read_begin(alloc, inlet) {
            Ok(reader) => Ok(reader),
            Err(stop) => Err(fault_of(stop)),
        }
    }

    /// Reads a record of pcap, or a block of pcapng.
    fn step<I: Inlet>(&mut self, inlet: &mut I, bytes: &mut Vec<u8>) -> Result<Option<Record>, Stop>
        ensures exact { ReadsAs stop_cause (step_text self.new bytes.new.items) (step_at self.old)
            (I.seen inlet.old) (I.seen inlet.new) result }
        ensures kept { OnErr result (self.new ≡ self.old) }
    {
        match &mut self.format {
            Format::Pcap(file) => step_pcap(*file, inlet, bytes),
            Format::Pcapng(section) => step_pcapng(section, inlet, bytes),
        }
    }

    /// Reads the next record, and replaces the contents of `bytes` with its captured bytes. `None`
    /// at the end of the capture. It reads no further than the record's end, and allocates memory
    /// only for captured bytes, options and interfaces that were read.
    ///
    /// # Errors
    ///
    /// The first fault of the first record or block that has one. `Cut` if the bytes end in the
    /// middle of it. `TooLong` above 262,144 captured bytes, or if the options of an interface have
    /// more. For pcapng: `BadBlock` if the total lengths of a block differ, are not a multiple of 4
    /// or leave no room for what the block holds; `UnknownInterface`; `TooManyInterfaces` above
    /// 4,096 in a section; `NotCapture` and `Version` at a further section header block. `NoRecord`
    /// if 2^64 - 1 blocks in a row contain no record. `Device` if the inlet failed, and `Memory` if
    /// out of memory. What the reader knows of the capture then stays, and the contents of `bytes`
    /// are unspecified.
    pub fn next<I: Inlet>(
        &mut self,
        inlet: &mut I,
        bytes: &mut Vec<u8>,
    ) -> Result<Option<Record>, CaptureFault>
        ensures exact { NextRecord self.old (I.seen inlet.old) self.new (I.seen inlet.new)
            bytes.new.items result }
    {
        for _ in 0..u64::MAX {
            match self.step(inlet, bytes) {
                Ok(None) => {}
                Ok(Some(record)) => return Ok(Some(record)),
                Err(Stop::End) => return Ok(None),
                Err(Stop::Fault(fault)) => return Err(fault),
            }
        }
        Err(CaptureFault::NoRecord)
    }
}
