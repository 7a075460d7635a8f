//! The cases of where a resized block goes and what is zeroed.

use crate::stand::Step::{self, By, Resize, Show, Totals, Write};
use printing::Call::{Alloc, AllocAligned, Free, Realloc};

/// 2 granules hold 17 to 32 bytes. At 16 the tail goes back, at 33 the block moves, since its neighbour is live.
pub(crate) const SAME_COUNT: [Step; 11] = [
    By(1, Alloc { size: 17 }),
    By(1, Alloc { size: 16 }),
    Write(32, 1, 0),
    Write(16, 2, 32),
    Write(8, 9, 48),
    Resize { at: 0, to: 32 },
    Resize { at: 0, to: 17 },
    Resize { at: 0, to: 17 },
    Resize { at: 0, to: 16 },
    Resize { at: 0, to: 32 },
    Resize { at: 0, to: 33 },
];

/// The right neighbour of the tail: live, a free run, the free run at the arena's end, live again with a free run at the block's left, and none.
pub(crate) const SHORTER: [Step; 15] = [
    By(1, Alloc { size: 96 }),
    By(1, Alloc { size: 80 }),
    By(1, Alloc { size: 32 }),
    Write(96, 1, 0),
    Write(80, 2, 96),
    Write(32, 3, 176),
    Write(48, 9, 208),
    Resize { at: 0, to: 50 },
    Write(32, 9, 64),
    Resize { at: 0, to: 16 },
    Resize { at: 176, to: 1 },
    Resize { at: 96, to: 64 },
    By(1, Alloc { size: 80 }),
    By(1, Alloc { size: 64 }),
    Resize { at: 192, to: 48 },
];

/// The run has more than is needed, just as much, and a granule less. Last, a lower hole would serve too, but the run comes first.
pub(crate) const LONGER_IN_PLACE: [Step; 15] = [
    By(1, Alloc { size: 32 }),
    By(1, Alloc { size: 48 }),
    By(1, Alloc { size: 32 }),
    By(1, Free { at: 32 }),
    Write(32, 1, 0),
    Write(48, 9, 32),
    Write(32, 2, 80),
    Write(48, 8, 112),
    Resize { at: 0, to: 40 },
    Resize { at: 0, to: 80 },
    Resize { at: 0, to: 32 },
    Write(48, 9, 32),
    Resize { at: 0, to: 81 },
    By(1, Realloc { at: 112, to: 33 }),
    Resize { at: 112, to: 80 },
];

/// With its own place counted as free, the first two would start at 32. The third goes there, up to its own start.
pub(crate) const HIGHER_AND_LOWER: [Step; 14] = [
    By(1, Alloc { size: 32 }),
    By(1, Alloc { size: 32 }),
    By(1, Alloc { size: 20 }),
    By(1, Alloc { size: 16 }),
    By(1, Free { at: 32 }),
    Write(32, 1, 0),
    Write(32, 9, 32),
    Write(20, 2, 64),
    Write(12, 3, 84),
    Write(16, 4, 96),
    Write(64, 8, 112),
    Resize { at: 64, to: 64 },
    Resize { at: 96, to: 65 },
    Resize { at: 112, to: 80 },
];

/// A hole at either side: the two and the block itself would be just enough.
pub(crate) const BETWEEN_TWO_HOLES: [Step; 13] = [
    By(1, Alloc { size: 16 }),
    By(1, Alloc { size: 16 }),
    By(1, Alloc { size: 32 }),
    By(1, Alloc { size: 16 }),
    By(1, Alloc { size: 16 }),
    By(1, Free { at: 16 }),
    By(1, Free { at: 64 }),
    Write(16, 1, 0),
    Write(16, 9, 16),
    Write(32, 2, 32),
    Write(16, 8, 64),
    Write(16, 3, 80),
    Resize { at: 32, to: 64 },
];

/// The new place is aligned to 16, whatever the first was aligned to.
pub(crate) const ALIGNMENT_FORGOTTEN: [Step; 5] = [
    By(1, Alloc { size: 16 }),
    By(1, AllocAligned { size: 16, on: 64 }),
    By(1, Alloc { size: 64 }),
    Write(16, 2, 64),
    Resize { at: 64, to: 48 },
];

/// To the last granule, and no place for one more.
pub(crate) const END_WITH_NO_PLACE: [Step; 7] = [
    By(1, Alloc { size: 96 }),
    By(1, Alloc { size: 64 }),
    Write(64, 2, 96),
    Write(96, 9, 160),
    Resize { at: 96, to: 161 },
    Resize { at: 96, to: 160 },
    By(1, Realloc { at: 96, to: 161 }),
];

/// To the last granule, a move for one more, and from there to the whole arena.
pub(crate) const END_WITH_A_PLACE: [Step; 9] = [
    By(1, Alloc { size: 144 }),
    By(1, Alloc { size: 64 }),
    By(1, Free { at: 0 }),
    Write(64, 2, 144),
    Write(48, 9, 208),
    Resize { at: 144, to: 112 },
    Resize { at: 144, to: 113 },
    By(1, Realloc { at: 0, to: 256 }),
    Resize { at: 0, to: 257 },
];

/// Live blocks at 0, 80 and 176, of 2, 3 and 3 granules, with holes of 3, 3 and 2 after them. Each of the two refused gets a byte less in its place.
pub(crate) const NO_PLACE: [Step; 21] = [
    By(1, Alloc { size: 32 }),
    By(1, Alloc { size: 48 }),
    By(1, Alloc { size: 48 }),
    By(1, Alloc { size: 48 }),
    By(1, Alloc { size: 48 }),
    By(1, Free { at: 32 }),
    By(1, Free { at: 128 }),
    Write(32, 1, 0),
    Write(48, 9, 32),
    Write(48, 2, 80),
    Write(48, 8, 128),
    Write(48, 3, 176),
    Write(32, 7, 224),
    Show,
    Totals,
    By(1, Realloc { at: 80, to: 97 }),
    Resize { at: 176, to: 81 },
    Totals,
    By(1, Realloc { at: 80, to: 96 }),
    Resize { at: 176, to: 80 },
    Totals,
];
