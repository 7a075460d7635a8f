//! The cases of the rows and of the peak after a resize.

use crate::stand::Step::{self, By, Resize, Totals, Write};
use printing::Call::{Alloc, Free, Realloc};

/// Seven blocks of 2 granules and a hole at the end. A tail between two blocks needs a row, and gets it once the last block has taken the whole hole.
/// The block at 32 would find a hole of its new length at 16, but a shorter block stays.
pub(crate) const ROWS_IN_PLACE: [Step; 16] = [
    By(1, Alloc { size: 32 }),
    By(1, Alloc { size: 32 }),
    By(1, Alloc { size: 32 }),
    By(1, Alloc { size: 32 }),
    By(1, Alloc { size: 32 }),
    By(1, Alloc { size: 32 }),
    By(1, Alloc { size: 32 }),
    Write(32, 1, 0),
    Write(32, 7, 192),
    Write(32, 9, 224),
    Resize { at: 0, to: 16 },
    Resize { at: 192, to: 16 },
    Resize { at: 192, to: 64 },
    Resize { at: 0, to: 16 },
    By(1, Realloc { at: 32, to: 16 }),
    Resize { at: 32, to: 17 },
];

/// Both moves would leave a rest of the hole at 112. The block at 0 leaves a hole of its own, and needs a row; the hole at 224, which it would use up
/// whole, is not tried. The block at 64 leaves its place to the hole before it, and needs none afterwards.
pub(crate) const ROWS_OF_MOVES: [Step; 16] = [
    By(1, Alloc { size: 16 }),
    By(1, Alloc { size: 32 }),
    By(1, Alloc { size: 16 }),
    By(1, Alloc { size: 16 }),
    By(1, Alloc { size: 32 }),
    By(1, Alloc { size: 48 }),
    By(1, Alloc { size: 64 }),
    By(1, Free { at: 48 }),
    By(1, Free { at: 112 }),
    Write(16, 1, 0),
    Write(16, 3, 64),
    Write(48, 9, 112),
    Resize { at: 0, to: 17 },
    Resize { at: 64, to: 32 },
    Resize { at: 112, to: 48 },
    Resize { at: 0, to: 17 },
];

/// A move, a growth, a shortening, a refusal and a free.
pub(crate) const PEAK_FOLLOWS: [Step; 14] = [
    By(1, Alloc { size: 32 }),
    By(1, Alloc { size: 32 }),
    By(1, Alloc { size: 16 }),
    Totals,
    By(1, Realloc { at: 0, to: 48 }),
    Totals,
    By(1, Realloc { at: 80, to: 160 }),
    Totals,
    By(1, Realloc { at: 80, to: 16 }),
    Totals,
    By(1, Realloc { at: 80, to: 257 }),
    Totals,
    By(1, Realloc { at: 32, to: 0 }),
    Totals,
];

/// The old place and the new one together are more than the peak, and the state afterwards is less.
pub(crate) const PEAK_STAYS: [Step; 6] = [
    By(1, Alloc { size: 48 }),
    By(1, Alloc { size: 16 }),
    By(1, Alloc { size: 80 }),
    By(1, Free { at: 64 }),
    By(1, Realloc { at: 0, to: 112 }),
    Totals,
];
