//! Whether members merge a stream, by the versions in its records.

ghost use Rattle.std.specs.Prelude.{◌≡◌, slice_index_or};
ghost use Rattle.std.specs.List.{fold, list_all};
ghost use Rattle.swimwatch.specs.Versions.{versions_in, narrowed, is_within, shared_with, any_shared, speaks, is_understood};

use swim_wire::StateRecord;

/// Versions of a protocol, from the lowest to the highest.
#[derive(Clone, Copy)]
struct Range {
    lowest: u8,
    highest: u8,
}

/// The versions of memberlist's protocol, and of its user's, that some members understand.
#[derive(Clone, Copy)]
struct Shared {
    protocol: Range,
    user: Range,
}

/// Whether members merge a stream with these records (memberlist's `verifyProtocol`): each speaks
/// versions that all who are alive in it understand. Which members the one that merges knows
/// besides is not looked at.
pub(crate) fn is_understood(records: &[StateRecord]) -> bool
    ensures { result ≡ is_understood records.now }
{
    let shared = shared_by(records);
    records.iter().all(|read| speaks(shared, read))
}

/// The versions that all who are alive in these records understand.
fn shared_by(records: &[StateRecord]) -> Shared
    ensures { result ≡ fold shared_with any_shared records.now }
{
    records
        .iter()
        .fold(any_shared(), |shared, read| shared_with(shared, read))
}

/// All versions.
fn any_shared() -> Shared
    ensures { result ≡ any_shared }
{
    let any = Range {
        lowest: 0,
        highest: u8::MAX,
    };
    Shared {
        protocol: any,
        user: any,
    }
}

/// What is left of shared versions with another member.
fn shared_with(shared: Shared, read: &StateRecord) -> Shared
    ensures { result ≡ shared_with shared read.now }
{
    let vsn = versions_in(read);
    if read.claim.details().is_none() || vsn.is_empty() {
        return shared;
    }
    Shared {
        protocol: narrowed(shared.protocol, at(vsn, 0), at(vsn, 1)),
        user: narrowed(shared.user, at(vsn, 3), at(vsn, 4)),
    }
}

fn narrowed(range: Range, min: u8, max: u8) -> Range
    ensures { result ≡ narrowed range min max }
{
    Range {
        lowest: if range.lowest < min {
            min
        } else {
            range.lowest
        },
        highest: if max < range.highest {
            max
        } else {
            range.highest
        },
    }
}

/// Whether a member speaks versions that all understand.
fn speaks(shared: Shared, read: &StateRecord) -> bool
    ensures { result ≡ speaks shared read.now }
{
    let vsn = versions_in(read);
    is_within(shared.protocol, at(vsn, 2)) && is_within(shared.user, at(vsn, 5))
}

fn is_within(range: Range, version: u8) -> bool
    ensures { result ≡ is_within range version }
{
    range.lowest <= version && version <= range.highest
}

/// The versions in a record, six or none.
fn versions_in(read: &StateRecord) -> &[u8]
    ensures { result.now ≡ versions_in read.now }
{
    match read.claim.details() {
        Some(details) => details.vsn(),
        None => match &read.told {
            Some(told) => told.vsn(),
            None => &[],
        },
    }
}

/// The byte at this place, or 0.
fn at(vsn: &[u8], place: usize) -> u8
    ensures { result ≡ slice_index_or vsn.now place 0 }
{
    if place < vsn.len() { vsn[place] } else { 0 }
}
