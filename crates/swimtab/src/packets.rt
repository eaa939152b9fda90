//! A table from packets, and its listing.

ghost use Rattle.std.specs.Prelude.{◌≡◌, ◌≢◌, ◌↔◌, ◌<◌, ◌≤◌, ◌++◌, List, map, length, IfOk, IfErr, OnOk};
ghost use Rattle.std.specs.Str.Lines.{strip_carriage_return};
ghost use Rattle.swim_claim.specs.declared.claim.Claim.{Claim};
ghost use Rattle.swim_program.specs.Limits.{max_input_len};
ghost use Rattle.swim_table.specs.Listing.{listing};
ghost use Rattle.swim_table.specs.Table.{Entries, TableOf};
ghost use Rattle.swim_wire.specs.Packet.{PacketValue};
ghost use Rattle.swim_wire.specs.Texts.{DatagramText};
ghost use Rattle.swimtab.specs.Lines.{TextClaims, LineClaims, PacketLines, TellsText, IsFirstWrong};
ghost use Rattle.swim_program.specs.Report.{IsAmong, TellsDatagram};

use std::alloc::{AllocError, Global};
use swim_program::{MAX_INPUT_LEN, Place, Report, What, lines_of, without_return};
use swim_table::{Table, list};
use swim_wire::Datagram;

/// The listing of the table of datagrams, which are packets and compound packets in hexadecimal,
/// one per line.
///
/// A line ends with a line feed, which the last may lack. One carriage return at its end is
/// dropped, and an empty line is skipped. The first line that is refused is reported by its number,
/// from 1, with the fault of its datagram, or BadHex if it is not hexadecimal. An input of more
/// than 268,435,456 bytes is refused as a whole (InputTooLong).
pub fn packets(alloc: Global, input: &[u8]) -> Result<Vec<u8>, Report>
    // The text is the listing of the table of the claims that the lines make.
    ensures lists { IfOk result (λ text. (claims : List Claim) × (table : Entries)
        × PacketLines input.now claims × TableOf table claims × (text.items ≡ listing table)) }

    // If refused, and not for memory or its length, the lines make no claims.
    ensures refuses { IfErr result (λ report. report.what ≢ What.Memory
        → length input.now ≤ max_input_len → (claims : List Claim)
        → ¬ PacketLines input.now claims) }
    // Then the report names the first line that makes none, and its fault.
    ensures line { IfErr result
        (λ report. report.what ≢ What.Memory → length input.now ≤ max_input_len
        → IsFirstWrong input.now report.place report.what) }
    ensures long { (max_input_len < length input.now)
        ↔ (result ≡ Err (record { place = Place.Input; what = What.Refused 32 None })) }
    ensures no_device { IfErr result (λ report. report.what ≢ What.Device) }
    ensures place { IfErr result (λ report. IsAmong report.place 0) }
{
    if input.len() > MAX_INPUT_LEN {
        return Err(What::input_too_long().at(Place::Input));
    }
    let mut table = Table::new(alloc);
    for (index, line) in lines_of(input).enumerate() {
        if let Err(what) = take_line(alloc, &mut table, line) {
            return Err(what.at(Place::Line(index as u64 + 1)));
        }
    }
    match list(alloc, &table) {
        Ok(listing) => Ok(listing),
        Err(AllocError) => Err(What::Memory.at(Place::Output)),
    }
}

/// Takes in the claims of the datagram on a line, if the line is not empty.
fn take_line(alloc: Global, table: &mut Table, line: &[u8]) -> Result<(), What>
    ensures takes { OnOk result ((claims : List Claim) × LineClaims line.now claims
        × ((taken : List Claim) → TableOf table.old taken → TableOf table.new (taken ++ claims))) }
    ensures refuses { IfErr result (λ what. what ≢ What.Memory
        → (claims : List Claim) → ¬ LineClaims line.now claims) }
    ensures tells { IfErr result (λ what. what ≢ What.Memory
        → TellsText (strip_carriage_return line.now) what) }
    ensures no_device { IfErr result (λ what. what ≢ What.Device) }
{
    take_text(alloc, table, without_return(line))
}

fn take_text(alloc: Global, table: &mut Table, text: &[u8]) -> Result<(), What>
    ensures takes { OnOk result ((claims : List Claim) × TextClaims text.now claims
        × ((taken : List Claim) → TableOf table.old taken → TableOf table.new (taken ++ claims))) }
    ensures refuses { IfErr result (λ what. what ≢ What.Memory
        → (claims : List Claim) → ¬ TextClaims text.now claims) }
    ensures tells { IfErr result (λ what. what ≢ What.Memory → TellsText text.now what) }
    ensures no_device { IfErr result (λ what. what ≢ What.Device) }
{
    if text.is_empty() {
        return Ok(());
    }
    let bytes = hex::decode(alloc, text)?;
    take_datagram(alloc, table, &bytes)
}

/// Takes in the claim of a single packet, or all claims of a compound packet.
fn take_datagram(alloc: Global, table: &mut Table, bytes: &[u8]) -> Result<(), What>
    ensures takes { OnOk result ((packets : List PacketValue) × DatagramText bytes.now packets
        × ((taken : List Claim) → TableOf table.old taken
        → TableOf table.new (taken ++ map (λ p. p.claim) packets))) }
    ensures refuses { IfErr result (λ what. what ≢ What.Memory
        → (packets : List PacketValue) → ¬ DatagramText bytes.now packets) }
    ensures tells { IfErr result (λ what. what ≢ What.Memory → TellsDatagram bytes.now what) }
    ensures no_device { IfErr result (λ what. what ≢ What.Device) }
{
    let datagram = Datagram::decode(alloc, bytes)?;
    table.take_datagram(datagram)?;
    Ok(())
}
