//! Tables of workloads.

use crate::failure::Failure;
use crate::workload::Workload;
use std::alloc::{AllocError, Global};
use swim_claim::Claim;
use swim_sync::{Claims, Cluster, Event};
use swim_table::{Table, read_dump};

/// The table of the claims, each taken in on its own.
pub(crate) fn table_of(alloc: Global, workload: Workload) -> Result<Table, Failure> {
    let mut table = Table::new(alloc);
    take_each(&mut table, workload.claims(alloc)?)?;
    Ok(table)
}

/// Takes each claim in on its own.
pub(crate) fn take_each(table: &mut Table, claims: Vec<Claim>) -> Result<(), AllocError> {
    for claim in claims {
        if let Err((_, error)) = table.take(claim) {
            return Err(error);
        }
    }
    Ok(())
}

/// Takes the claims in, one compound at a time.
pub(crate) fn take_compounds(
    table: &mut Table,
    compounds: Vec<Vec<Claim>>,
) -> Result<(), AllocError> {
    for claims in compounds {
        table.take_all(claims)?;
    }
    Ok(())
}

/// The claims in compounds of this many each, of which the last may have fewer.
pub(crate) fn compounds_of(
    alloc: Global,
    claims: Vec<Claim>,
    size: u32,
) -> Result<Vec<Vec<Claim>>, AllocError> {
    let mut compounds = Vec::new(alloc);
    let mut open = Vec::new(alloc);
    for claim in claims {
        open.push(claim)?;
        if open.len() >= size as usize {
            compounds.push(open)?;
            open = Vec::new(alloc);
        }
    }
    compounds.push(open)?;
    Ok(compounds)
}

/// The table of the streams, each read on its own and joined in.
pub(crate) fn join_each(alloc: Global, streams: &[Vec<u8>]) -> Result<Table, Failure> {
    let mut table = Table::new(alloc);
    for stream in streams {
        let (other, _) = read_dump(alloc, stream)?;
        if let Err((_, error)) = table.join(other) {
            return Err(Failure::Memory(error));
        }
    }
    Ok(table)
}

/// Two nodes that each know all the claims and each other.
pub(crate) fn equal_nodes(alloc: Global, workload: Workload) -> Result<Cluster, Failure> {
    let mut nodes = Vec::new(alloc);
    for number in [workload.count, workload.count.wrapping_add(1)] {
        let node = workload.node(alloc, number)?;
        nodes.push(node).map_err(AllocError::from)?;
    }
    let mut cluster = Cluster::new(alloc, nodes);
    let claims = Claims::new(workload.claims(alloc)?);
    cluster.run(&[Event::HearAll(0, claims), Event::Exchange(0, 1)])?;
    Ok(cluster)
}
