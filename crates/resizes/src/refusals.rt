//! The refusals of a resize in their order, and those of a resize to size 0, which is a free.

use crate::stand::Stand;
use crate::stand::Step::{self, By, Resize, Show, Write};
use heap::Heap;
use printing::Call::{Alloc, Free, Realloc};
use printing::trace;
use std::io;

/// After the first resize a free's order, but for 1 and 11, which are among the refusals below. A second free gets 17 while nobody has the place,
/// and 10 once it is lent to another owner.
pub(crate) const FREES: [Step; 19] = [
    By(1, Alloc { size: 40 }),
    By(1, Alloc { size: 20 }),
    By(1, Alloc { size: 16 }),
    Write(48, 1, 0),
    Write(32, 2, 48),
    Write(16, 3, 80),
    Resize { at: 48, to: 0 },
    By(1, Realloc { at: 48, to: 0 }),
    By(1, Realloc { at: 48, to: 16 }),
    By(9, Realloc { at: 0, to: 0 }),
    By(1, Realloc { at: 256, to: 0 }),
    By(1, Realloc { at: 1, to: 0 }),
    By(1, Realloc { at: 16, to: 0 }),
    By(2, Realloc { at: 0, to: 0 }),
    Resize { at: 0, to: 0 },
    By(2, Alloc { size: 16 }),
    By(1, Realloc { at: 0, to: 0 }),
    By(2, Realloc { at: 0, to: 0 }),
    By(2, Realloc { at: 0, to: 0 }),
];

/// A table with no row to spare: 6 before 8, 7, 8, and a move that takes its hole whole. 7 and 8 exclude each other.
pub(crate) const FULL_TABLE: [Step; 12] = [
    By(2, Alloc { size: 16 }),
    By(1, Alloc { size: 16 }),
    By(1, Alloc { size: 16 }),
    By(1, Alloc { size: 16 }),
    By(1, Alloc { size: 16 }),
    By(1, Alloc { size: 16 }),
    By(1, Alloc { size: 16 }),
    Write(16, 1, 16),
    By(2, Realloc { at: 0, to: 65 }),
    By(1, Realloc { at: 16, to: 145 }),
    Resize { at: 16, to: 17 },
    Resize { at: 16, to: 144 },
];

/// All refusals on one heap.
pub(crate) fn refusals(rt: &impl Print) -> io::Result<()> {
    let mut stand = Stand::init(rt)?;
    stand.run(&BLOCKS)?;
    unsound(&mut stand)?;
    other_arenas(&mut stand)?;
    stand.run(&BAD_NUMBERS)?;
    stand.run(&BAD_PLACES)?;
    stand.run(&BAD_SIZES)?;
    stand.run(&AT_BLOCK_QUOTA)
}

// Owner 2 has 3 of its 4 granules at 0, owner 1 has 3 at 48 and at 112. A hole of 1 is at 96, one of 6 at 160.
const BLOCKS: [Step; 11] = [
    By(2, Alloc { size: 33 }),
    By(1, Alloc { size: 40 }),
    By(1, Alloc { size: 16 }),
    By(1, Alloc { size: 48 }),
    By(1, Free { at: 96 }),
    Write(48, 1, 0),
    Write(48, 2, 48),
    Write(16, 9, 96),
    Write(48, 3, 112),
    Write(96, 8, 160),
    Show,
];

// 1: the record does not fit the table, the table is no map, and no heap at all.
fn unsound(stand: &mut Stand<'_, impl Print>) -> io::Result<()> {
    let heap = stand.heap;
    for to in [41, 0] {
        print!(stand.rt; "with used a granule less, ")?;
        realloc_as(stand, Heap { used: 8, ..heap }, to)?;
    }
    stand.table[3] = 32;
    print!(stand.rt; "with 32 asked in row 0, ")?;
    realloc_as(stand, heap, 41)?;
    stand.table[3] = 33;
    print!(stand.rt; "with a zero record, ")?;
    realloc_as(stand, Heap::zero(), 41)
}

// The block at 48, with another record, which is dropped afterwards.
fn realloc_as(stand: &mut Stand<'_, impl Print>, mut heap: Heap, to: u32) -> io::Result<()> {
    let call = Realloc { at: 48, to };
    trace(
        stand.rt,
        &mut heap,
        &mut stand.table,
        &mut stand.arena,
        1,
        call,
    )
}

// 1 before 11, 11 for a shorter and a longer arena, and 11 before 2.
fn other_arenas(stand: &mut Stand<'_, impl Print>) -> io::Result<()> {
    print!(stand.rt; "with a zero record, ")?;
    let heap = stand.heap;
    stand.heap = Heap::zero();
    realloc_in(stand, &mut [0; 240], 1, 41)?;
    stand.heap = heap;
    realloc_in(stand, &mut [0; 240], 1, 41)?;
    realloc_in(stand, &mut [0; 240], 1, 0)?;
    realloc_in(stand, &mut [0; 272], 1, 41)?;
    realloc_in(stand, &mut [0; 240], 9, 41)
}

// The block at 48, in an arena of another length.
fn realloc_in(
    stand: &mut Stand<'_, impl Print>,
    arena: &mut [u8],
    owner: u32,
    to: u32,
) -> io::Result<()> {
    print!(stand.rt; "with an arena of {}, ", arena.len())?;
    let call = Realloc { at: 48, to };
    trace(
        stand.rt,
        &mut stand.heap,
        &mut stand.table,
        arena,
        owner,
        call,
    )
}

// 2, 15 and 16, each alone and before the next: 255 and 97 are in free memory, 65 is inside a block.
const BAD_NUMBERS: [Step; 10] = [
    By(0, Realloc { at: 48, to: 41 }),
    By(9, Realloc { at: 48, to: 41 }),
    By(9, Realloc { at: 256, to: 41 }),
    By(1, Realloc { at: 256, to: 41 }),
    By(
        1,
        Realloc {
            at: 4294967280,
            to: 41,
        },
    ),
    By(1, Realloc { at: 257, to: 41 }),
    By(1, Realloc { at: 49, to: 41 }),
    By(1, Realloc { at: 255, to: 41 }),
    By(1, Realloc { at: 97, to: 41 }),
    By(1, Realloc { at: 65, to: 41 }),
];

// 17, 9 and 10. Inside another's block it is 9; another's block is 10, also for a size beyond the caller's quota. 17 and 9 exclude each other.
const BAD_PLACES: [Step; 8] = [
    By(1, Realloc { at: 96, to: 41 }),
    By(1, Realloc { at: 240, to: 41 }),
    By(1, Realloc { at: 64, to: 41 }),
    By(1, Realloc { at: 80, to: 41 }),
    By(2, Realloc { at: 64, to: 16 }),
    By(2, Realloc { at: 48, to: 16 }),
    By(8, Realloc { at: 48, to: 41 }),
    By(2, Realloc { at: 48, to: 81 }),
];

// 6 alone, and before 7 where there is no place either. Beside the 3 granules of its other block owner 1 may have 65,533 in this one: those get 7.
const BAD_SIZES: [Step; 7] = [
    By(2, Realloc { at: 0, to: 65 }),
    By(2, Realloc { at: 0, to: 113 }),
    By(
        1,
        Realloc {
            at: 48,
            to: 4294967295,
        },
    ),
    By(
        1,
        Realloc {
            at: 48,
            to: 1048529,
        },
    ),
    By(
        1,
        Realloc {
            at: 48,
            to: 1048528,
        },
    ),
    By(1, Realloc { at: 48, to: 97 }),
    Show,
];

// Owner 2 has as many blocks as it may, and resizes: to all of its quota, not further, to as many granules, and to fewer.
const AT_BLOCK_QUOTA: [Step; 7] = [
    By(2, Alloc { size: 1 }),
    By(2, Realloc { at: 0, to: 64 }),
    Show,
    By(2, Realloc { at: 160, to: 65 }),
    By(2, Realloc { at: 160, to: 49 }),
    By(2, Realloc { at: 160, to: 16 }),
    Show,
];
