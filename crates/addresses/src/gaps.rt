//! The rows that gaps need.

use crate::stand::Step::{self, Of};
use crate::stand::run;
use printing::Call::{Alloc, AllocAligned};
use std::io;

const ONE: Step = Of(Alloc { size: 16 });

const TWO_ON_32: Step = Of(AllocAligned { size: 32, on: 32 });

const THREE_ON_32: Step = Of(AllocAligned { size: 48, on: 32 });

/// Base 16 needs a gap at the arena's start, base 0 does not.
pub(crate) fn at_start(rt: &impl Print) -> io::Result<()> {
    let mut two = [0; 8];
    let mut three = [0; 12];
    let mut arena = [0; 64];
    run(rt, &mut arena, &mut two, 16, &[TWO_ON_32, THREE_ON_32])?;
    run(rt, &mut arena, &mut three, 16, &[TWO_ON_32])?;
    run(rt, &mut arena, &mut two, 0, &[TWO_ON_32])
}

/// Base 0 needs a gap after the first granule, base 16 does not.
pub(crate) fn after_block(rt: &impl Print) -> io::Result<()> {
    let mut three = [0; 12];
    let mut four = [0; 16];
    let mut arena = [0; 80];
    run(rt, &mut arena, &mut three, 16, &[ONE, TWO_ON_32])?;
    run(
        rt,
        &mut arena,
        &mut three,
        0,
        &[ONE, TWO_ON_32, THREE_ON_32],
    )?;
    run(rt, &mut arena, &mut four, 0, &[ONE, TWO_ON_32])
}
