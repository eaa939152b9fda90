//! Dumps in files: their listing, their join, and how two of them relate.

ghost use Rattle.std.specs.Prelude.{◌≡◌, ◌⊎◌, ◌<◌, ◌≤◌, ◌∷◌, [], false, List, length, IfOk, IfErr, OnOk};
ghost use Rattle.swim_claim.specs.declared.claim.Claim.{Claim};
ghost use Rattle.swim_program.specs.Limits.{max_input_len};
ghost use Rattle.swim_table.specs.Covering.{IsRelation};
ghost use Rattle.swim_table.specs.Dump.{dump_bytes};
ghost use Rattle.swim_table.specs.Listing.{listing};
ghost use Rattle.swim_table.specs.Table.{Entries, TableOf, TakesIn};
ghost use Rattle.swimtab.specs.Files.{bytes_of, FileClaims, FilesClaims, IsNoDump, AreShortFiles, AreRefused, HaveTooMany, relation_text};
ghost use Rattle.swim_program.specs.Report.{IsAmong};

use std::alloc::{AllocError, Global};
use swim_program::{MAX_INPUT_LEN, Place, Report, What};
use swim_table::{EncodeFault, Relation, Table, encode, list, read_dump_into, relation};

/// The listing of the table of all claims in the files, each of which is a dump: one push/pull
/// stream.
///
/// The lengths of all files are checked first: one of more than 268,435,456 bytes is refused
/// (InputTooLong). Then the files are read in order, and the first that is refused is reported with
/// the fault of its stream.
pub fn listed(alloc: Global, files: &[Vec<u8>]) -> Result<Vec<u8>, Report>
    // The text is the listing of the table of the claims in the files.
    ensures lists { IfOk result (λ text. (claims : List Claim) × (table : Entries)
        × AreShortFiles (bytes_of files.now)
        × FilesClaims (bytes_of files.now) claims
        × TableOf table claims × (text.items ≡ listing table)) }

    ensures refuses { IfErr result (AreRefused (bytes_of files.now)) }
    ensures place { IfErr result (λ report. IsAmong report.place (length files.now)) }
{
    let table = joined(alloc, files)?;
    match list(alloc, &table) {
        Ok(text) => Ok(text),
        Err(AllocError) => Err(What::Memory.at(Place::Output)),
    }
}

/// The canonical dump of the table of all claims in the files, without the join flag.
///
/// It is refused as [`listed`] is, and at the output if the table has more than 131,072 records
/// (TooManyRecords).
pub fn merged(alloc: Global, files: &[Vec<u8>]) -> Result<Vec<u8>, Report>
    // The bytes are the dump of the table of the claims in the files.
    ensures merges { IfOk result (λ bytes. (claims : List Claim) × (table : Entries)
        × AreShortFiles (bytes_of files.now)
        × FilesClaims (bytes_of files.now) claims
        × TableOf table claims × (bytes.items ≡ dump_bytes table false)) }

    ensures refuses { IfErr result (λ report. AreRefused (bytes_of files.now) report
        ⊎ HaveTooMany (bytes_of files.now) report) }
    ensures place { IfErr result (λ report. IsAmong report.place (length files.now)) }
{
    let table = joined(alloc, files)?;
    match encode(alloc, &table, false) {
        Ok(bytes) => Ok(bytes),
        Err(EncodeFault::TooManyRecords) => Err(What::too_many_records().at(Place::Output)),
        Err(EncodeFault::Memory) => Err(What::Memory.at(Place::Output)),
    }
}

/// How the table of one dump relates to that of another. The join flags and the user state do not
/// matter.
///
/// It is refused as [`listed`] is.
pub fn related(alloc: Global, first: &[u8], second: &[u8]) -> Result<Relation, Report>
    ensures relates { IfOk result (λ relation. (claims others : List Claim)
        × (table other : Entries) × AreShortFiles (first.now ∷ second.now ∷ [])
        × FileClaims first.now claims × FileClaims second.now others
        × TableOf table claims × TableOf other others × IsRelation table other relation) }

    ensures refuses { IfErr result (AreRefused (first.now ∷ second.now ∷ [])) }
    ensures place { IfErr result (λ report. IsAmong report.place 2) }
{
    check_length(first, 0)?;
    check_length(second, 1)?;
    let table = table_of_file(alloc, first, 0)?;
    let other = table_of_file(alloc, second, 1)?;
    Ok(relation(&table, &other))
}

/// The line that says how two tables relate, with its line feed.
pub fn relation_line(relation: Relation) -> &'static str
    ensures { result.now ≡ relation_text relation }
{
    match relation {
        Relation::Equal => "equal\n",
        Relation::Behind => "behind\n",
        Relation::Ahead => "ahead\n",
        Relation::Apart => "apart\n",
    }
}

/// The table of all claims in the files.
fn joined(alloc: Global, files: &[Vec<u8>]) -> Result<Table, Report>
    ensures joins { IfOk result (λ table. (claims : List Claim)
        × AreShortFiles (bytes_of files.now)
        × FilesClaims (bytes_of files.now) claims × TableOf table claims) }
    ensures refuses { IfErr result (AreRefused (bytes_of files.now)) }
    ensures place { IfErr result (λ report. IsAmong report.place (length files.now)) }
{
    check_lengths(files)?;
    let mut table = Table::new(alloc);
    for (place, file) in files.iter().enumerate() {
        table = with_file(alloc, table, file, place)?;
    }
    Ok(table)
}

fn check_lengths(files: &[Vec<u8>]) -> Result<(), Report>
    ensures short { OnOk result (AreShortFiles (bytes_of files.now)) }
    ensures refuses { IfErr result (AreRefused (bytes_of files.now)) }
    ensures place { IfErr result (λ report. IsAmong report.place (length files.now)) }
{
    for (place, file) in files.iter().enumerate() {
        check_length(file, place)?;
    }
    Ok(())
}

/// Checks that a file is not longer than allowed.
pub(crate) fn check_length(file: &[u8], place: usize) -> Result<(), Report>
    ensures short { OnOk result (length file.now ≤ max_input_len) }
    ensures long { IfErr result (λ report. (max_input_len < length file.now)
        × (report ≡ record { place = Place.File place; what = What.Refused 32 None })) }
{
    if file.len() > MAX_INPUT_LEN {
        Err(What::input_too_long().at(Place::File(place)))
    } else {
        Ok(())
    }
}

/// The table of the claims in one file.
pub(crate) fn table_of_file(alloc: Global, file: &[u8], place: usize) -> Result<Table, Report>
    ensures reads { IfOk result (λ table. (claims : List Claim) × FileClaims file.now claims
        × TableOf table claims) }
    ensures refuses { IfErr result (λ report. (report.what ≡ What.Memory)
        ⊎ IsNoDump file.now report.what) }
    ensures place { IfErr result (λ report. report.place ≡ Place.File place) }
{
    with_file(alloc, Table::new(alloc), file, place)
}

/// The table, with the claims in one file taken in.
fn with_file(alloc: Global, table: Table, file: &[u8], place: usize) -> Result<Table, Report>
    ensures reads { IfOk result (λ read. (claims : List Claim) × FileClaims file.now claims
        × TakesIn table read claims) }
    ensures refuses { IfErr result (λ report. (report.what ≡ What.Memory)
        ⊎ IsNoDump file.now report.what) }
    ensures place { IfErr result (λ report. report.place ≡ Place.File place) }
{
    match read_dump_into(alloc, file, table) {
        Ok((table, _)) => Ok(table),
        Err(fault) => Err(What::from(fault).at(Place::File(place))),
    }
}
