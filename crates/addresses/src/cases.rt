//! The cases of lending by address.

use crate::stand::Step::{self, Base, Of, Rows, Totals};
use printing::Call::{Alloc, AllocAligned, BlockSize, Free, Holding, Realloc};

/// The last is lent a granule that was skipped for alignment.
pub(crate) const SAME_ALLOCS: [Step; 6] = [
    Of(AllocAligned { size: 16, on: 32 }),
    Of(AllocAligned { size: 100, on: 64 }),
    Of(AllocAligned { size: 17, on: 4096 }),
    Of(AllocAligned { size: 17, on: 4096 }),
    Of(AllocAligned { size: 16, on: 4096 }),
    Of(AllocAligned { size: 16, on: 16 }),
];

/// Holes of 3 granules at 64 and at 176. The first boundary is at a hole's start, in it with too little room, in it with just enough, and past it.
pub(crate) const TWO_HOLES: [Step; 10] = [
    Of(Alloc { size: 64 }),
    Of(Alloc { size: 48 }),
    Of(Alloc { size: 64 }),
    Of(Free { at: 64 }),
    Of(AllocAligned { size: 48, on: 64 }),
    Of(AllocAligned { size: 48, on: 32 }),
    Of(AllocAligned { size: 32, on: 32 }),
    Of(AllocAligned { size: 16, on: 32 }),
    Rows,
    Of(Alloc { size: 16 }),
];

/// The only boundary of 4,096 is the end; the only one of 2,048 before the end is at 2,032.
pub(crate) const TOP_UNEVEN: [Step; 5] = [
    Of(AllocAligned { size: 16, on: 4096 }),
    Of(AllocAligned {
        size: 2049,
        on: 2048,
    }),
    Of(AllocAligned {
        size: 2048,
        on: 2048,
    }),
    Of(AllocAligned { size: 16, on: 2048 }),
    Of(AllocAligned { size: 2032, on: 16 }),
];

/// The last granule of the address space is on 16 only.
pub(crate) const TOP: [Step; 4] = [
    Of(AllocAligned {
        size: 4080,
        on: 4096,
    }),
    Of(AllocAligned { size: 16, on: 4096 }),
    Of(AllocAligned { size: 16, on: 32 }),
    Of(AllocAligned { size: 16, on: 16 }),
];

/// The last granule of the address space is on 16 only.
pub(crate) const LAST_GRANULE: [Step; 2] = [
    Of(AllocAligned { size: 16, on: 32 }),
    Of(AllocAligned { size: 16, on: 16 }),
];

/// Two moves, a growth to the arena's end, and a shortening.
pub(crate) const RESIZES: [Step; 9] = [
    Of(Alloc { size: 32 }),
    Of(Alloc { size: 48 }),
    Of(Realloc { at: 0, to: 48 }),
    Of(Realloc { at: 32, to: 64 }),
    Of(Free { at: 80 }),
    Of(Realloc { at: 128, to: 128 }),
    Of(Realloc { at: 128, to: 33 }),
    Of(BlockSize { at: 128 }),
    Totals,
];

/// The first is granted; then the base is 8 more, and then the arena ends 16 and 240 bytes past 4,294,967,296. At last it ends just there, and the
/// base is that of the making.
pub(crate) const RECORD_BASE: [Step; 26] = [
    Of(Alloc { size: 40 }),
    Base(536870936),
    Of(AllocAligned { size: 16, on: 64 }),
    Of(Realloc { at: 0, to: 17 }),
    Of(BlockSize { at: 0 }),
    Of(Holding),
    Totals,
    Of(Free { at: 0 }),
    Base(4294967056),
    Of(AllocAligned { size: 16, on: 64 }),
    Of(Realloc { at: 0, to: 17 }),
    Of(BlockSize { at: 0 }),
    Of(Holding),
    Totals,
    Of(Free { at: 0 }),
    Base(4294967280),
    Of(Alloc { size: 16 }),
    Base(4294967040),
    Of(AllocAligned { size: 16, on: 64 }),
    Of(Realloc { at: 0, to: 17 }),
    Of(BlockSize { at: 0 }),
    Of(Holding),
    Totals,
    Of(Free { at: 0 }),
    Base(536870928),
    Of(AllocAligned { size: 16, on: 64 }),
];

/// A case of its own, though all cases' calls go through the drivers' layer. The block that was lent on 64 moves to an address on 16.
pub(crate) const DRIVERS_LAYER: [Step; 7] = [
    Of(AllocAligned { size: 40, on: 64 }),
    Of(AllocAligned { size: 48, on: 16 }),
    Of(AllocAligned { size: 16, on: 128 }),
    Of(Realloc { at: 48, to: 65 }),
    Of(Free { at: 0 }),
    Of(AllocAligned { size: 16, on: 32 }),
    Rows,
];
