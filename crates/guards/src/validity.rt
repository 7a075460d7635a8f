//! The records and rows that break the rules of guards.

use crate::stand::Stand;
use crate::stand::Step::{self, By, Guards, Init, Totals};
use heap::Heap;
use printing::Call::{Alloc, Free, Realloc};
use printing::{Shown, totals};
use std::io;

/// A guard number that is neither 0 nor 1 or is not the heap's, and then rows that no guarded heap has beside those that one has.
pub(crate) fn validity(rt: &impl Print) -> io::Result<()> {
    let mut table = [0; 32];
    let mut arena = [0; 256];
    let mut stand = Stand::new(rt, 0, &mut table, &mut arena);
    stand.run(&BROKEN_RECORDS)?;
    for (length, requested) in GUARDED_ROWS {
        totals_with_row(rt, stand.heap, length, requested)?;
    }
    stand.run(&[Guards(0)])?;
    totals_with_row(rt, stand.heap, 1, 1)
}

// The last puts the record right again.
const BROKEN_RECORDS: [Step; 10] = [
    Init { guarded: true },
    By(1, Alloc { size: 16 }),
    Guards(2),
    By(1, Alloc { size: 16 }),
    By(1, Realloc { at: 0, to: 16 }),
    By(1, Free { at: 0 }),
    Totals,
    Guards(0),
    Totals,
    Guards(1),
];

// Lengths in granules, and bytes requested.
const GUARDED_ROWS: [(u32, u32); 9] = [
    (1, 0),
    (1, 1),
    (1, 4294967281),
    (2, 0),
    (2, 1),
    (2, 16),
    (2, 17),
    (3, 16),
    (3, 17),
];

// One live row from the arena's start and a free one, of 16 granules.
fn totals_with_row(rt: &impl Print, heap: Heap, length: u32, requested: u32) -> io::Result<()> {
    print!(rt; "with a row of length {length} requested {requested}, ")?;
    let mut table = [0; 32];
    table[..4].copy_from_slice(&[0, length, 1, requested]);
    table[4..6].copy_from_slice(&[length, 16u32.saturating_sub(length)]);
    let with_row = Heap {
        used: length,
        peak: 3,
        ..heap
    };
    println!(rt; "totals: {}", Shown(totals(&with_row, &table)))
}
