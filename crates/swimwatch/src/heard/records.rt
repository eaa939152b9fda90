//! The records of push/pull streams.

ghost use Rattle.std.specs.Prelude.{◌≡◌, ◌≢◌, List, take, IfOk, IfErr, IfSome, IfNone};
ghost use Rattle.swim_claim.specs.declared.claim.Claim.{Claim};
ghost use Rattle.swimwatch.specs.Records.{BeginsWithState, BeginsWithStream, claims_in};

use std::alloc::{AllocError, Global};
use swim_claim::Claim;
use swim_pack::SliceInlet;
use swim_wire::{StateRecord, WireFault, read_header, read_record, skip_user};

/// The records of a push/pull stream.
#[derive(Drop)]
pub(crate) struct Records {
    pub(crate) records: Vec<StateRecord>,
    /// The user state behind the records.
    pub(crate) user: Vec<u8>,
    /// Whether the sender joins the cluster with it (memberlist's `Join`).
    pub(crate) join: bool,
}

/// The claims of the push/pull stream that these bytes begin with, in order. None if they do not
/// begin with a whole stream.
///
/// # Errors
///
/// If out of memory for the records.
pub(crate) fn claims_of_stream(
    alloc: Global,
    bytes: &[u8],
) -> Result<Option<Vec<Claim>>, AllocError>
    ensures whole { IfOk result (λ found. IfSome found (λ claims.
        BeginsWithStream bytes.now claims.items)) }
    ensures none { IfOk result (λ found. IfNone found ((claims : List Claim)
        → ¬ BeginsWithStream bytes.now claims)) }
{
    match records_of_stream(alloc, bytes)? {
        Some(read) => Ok(Some(claims_in(alloc, read.records)?)),
        None => Ok(None),
    }
}

/// The claims of records, in order.
fn claims_in(alloc: Global, records: Vec<StateRecord>) -> Result<Vec<Claim>, AllocError>
    ensures { IfOk result (λ claims. claims.items ≡ claims_in records.items) }
{
    let mut claims = Vec::new(alloc);
    for record in records {
        claims.push(claim_of(record))?;
    }
    Ok(claims)
}

fn claim_of(read: StateRecord) -> Claim
    ensures { result ≡ read.claim }
{
    read.claim
}

/// The records of the push/pull stream that these bytes begin with, in order. None if they do not
/// begin with a whole stream: members do not merge such a stream (memberlist's `readRemoteState`).
/// What follows the stream is ignored, as in memberlist.
///
/// # Errors
///
/// If out of memory for the records.
pub(crate) fn records_of_stream(alloc: Global, bytes: &[u8]) -> Result<Option<Records>, AllocError>
    ensures whole { IfOk result (λ found. IfSome found (λ read.
        BeginsWithStream bytes.now (claims_in read.records.items))) }
    ensures user { IfOk result (λ found. IfSome found (λ read.
        BeginsWithState bytes.now (claims_in read.records.items) read.user.items)) }
    ensures none { IfOk result (λ found. IfNone found ((claims : List Claim)
        → ¬ BeginsWithStream bytes.now claims)) }
{
    match read_records(alloc, bytes) {
        Ok(read) => Ok(Some(read)),
        Err(WireFault::Memory) => Err(AllocError),
        Err(_) => Ok(None),
    }
}

/// The records of the push/pull stream that these bytes begin with, in order.
///
/// # Errors
///
/// The fault at which the reading of the stream stops: `Ended` if bytes are missing.
pub(crate) fn read_records(alloc: Global, bytes: &[u8]) -> Result<Records, WireFault>
    ensures whole { IfOk result (λ read.
        BeginsWithStream bytes.now (claims_in read.records.items)) }
    ensures user { IfOk result (λ read.
        BeginsWithState bytes.now (claims_in read.records.items) read.user.items) }
    ensures none { IfErr result (λ fault. fault ≢ WireFault.Memory → (claims : List Claim)
        → ¬ BeginsWithStream bytes.now claims) }
{
    let mut inlet = SliceInlet::new(bytes);
    let header = read_header(&mut inlet)?;
    let mut records = Vec::new(alloc);
    for _count in 0..header.nodes {
        let read = read_record(alloc, &mut inlet)?;
        if records.push(read).is_err() {
            return Err(WireFault::Memory);
        }
    }
    let user = front_of(alloc, inlet.rest(), header.user_len)?;
    skip_user(&mut inlet, header.user_len)?;
    Ok(Records {
        records,
        user,
        join: header.join,
    })
}

/// This many bytes from the front, or all if there are fewer.
fn front_of(alloc: Global, bytes: &[u8], len: u32) -> Result<Vec<u8>, AllocError>
    ensures { IfOk result (λ front. front.items ≡ take len bytes.now) }
{
    match bytes.get(..len as usize) {
        Some(front) => front.to_vec(alloc),
        None => bytes.to_vec(alloc),
    }
}
