//! Long values, for which there is memory.

use crate::tests::{assert_answer, assert_bytes};
use std::alloc::{AllocError, Global};
use std::process::Abort;
use std::test::Fail;
use swim_pack::{PackFault, SliceInlet, read_raw, write_raw};

const BYTES: [u8; 60_000] = [7; 60_000];

fn written(alloc: Global) -> Result<Vec<u8>, AllocError> {
    let mut text = Vec::new(alloc);
    write_raw(&mut text, &BYTES)?;
    Ok(text)
}

fn assert_read_back(rt: &impl Abort, alloc: Global, text: &[u8]) -> Result<(), PackFault> {
    let back = read_raw(alloc, &mut SliceInlet::new(text), 60_000)?;
    assert_bytes(rt, &back, &BYTES);
    Ok(())
}

#[test]
fn sixty_thousand_bytes_are_written_and_read_back(rt: HostRuntime) -> Result<(), Fail> {
    let text = written(rt.alloc())?;
    assert_answer(&rt, (0, text.len() as u64), (0, 60_003), b"");
    assert_read_back(&rt, rt.alloc(), &text)?;
    Ok(())
}
