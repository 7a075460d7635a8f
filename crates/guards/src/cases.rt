//! The cases of guards, but for the records and rows that break their rules.

use crate::stand::Step::{
    self, By, Bytes, Guards, In, Init, OtherBytes, Record, Rows, Totals, Write,
};
use printing::Call::{Alloc, AllocAligned, BlockSize, Free, Holding, Realloc};

/// The record says whether blocks have guards.
pub(crate) const MAKING: [Step; 4] = [
    Init { guarded: false },
    Record,
    Init { guarded: true },
    Record,
];

/// The granules of 1, 16 and 17 bytes, each with a guard.
pub(crate) const SIZES: [Step; 10] = [
    Init { guarded: true },
    Write(256, 5, 0),
    By(1, Alloc { size: 1 }),
    By(1, Alloc { size: 16 }),
    By(1, Alloc { size: 17 }),
    Rows,
    Bytes,
    By(1, BlockSize { at: 64 }),
    By(1, Free { at: 32 }),
    Bytes,
];

/// The same of 16 and 17 bytes without guards.
pub(crate) const SIZES_UNGUARDED: [Step; 6] = [
    Init { guarded: false },
    Write(256, 5, 0),
    By(1, Alloc { size: 16 }),
    By(1, Alloc { size: 17 }),
    Bytes,
    By(1, Free { at: 16 }),
];

/// The block at 64 has its guard at 96 to 111: its first byte is hit, then its last, then the byte after it.
pub(crate) const PAST_END: [Step; 19] = [
    Init { guarded: true },
    By(1, Alloc { size: 40 }),
    By(1, Alloc { size: 32 }),
    By(1, Alloc { size: 16 }),
    Write(8, 9, 40),
    By(1, Realloc { at: 0, to: 40 }),
    Write(1, 9, 96),
    By(1, Free { at: 64 }),
    By(1, Realloc { at: 64, to: 32 }),
    By(1, Realloc { at: 64, to: 0 }),
    Rows,
    Bytes,
    Write(1, 119, 96),
    Write(1, 118, 111),
    By(1, Free { at: 64 }),
    Write(1, 119, 111),
    Write(1, 7, 112),
    By(1, Free { at: 64 }),
    Bytes,
];

/// Owner 2's guard is broken, and whole again before the last two.
pub(crate) const ORDER: [Step; 16] = [
    Init { guarded: true },
    By(2, Alloc { size: 16 }),
    By(1, Alloc { size: 16 }),
    Write(1, 0, 23),
    By(2, BlockSize { at: 0 }),
    By(2, Holding),
    Totals,
    By(1, Alloc { size: 16 }),
    By(1, Realloc { at: 32, to: 1 }),
    By(1, Free { at: 64 }),
    In(240, 2, Free { at: 0 }),
    By(1, Free { at: 0 }),
    By(2, Realloc { at: 0, to: 49 }),
    Write(1, 119, 23),
    By(2, Realloc { at: 0, to: 49 }),
    By(2, Free { at: 0 }),
];

/// The largest size, 65,537 and 65,536 granules with the guard, then 5 and 4, and 5 and 4 without guards.
pub(crate) const QUOTAS: [Step; 10] = [
    Init { guarded: true },
    By(2, Alloc { size: 4294967295 }),
    By(1, Alloc { size: 4294967295 }),
    By(1, Alloc { size: 1048561 }),
    By(1, Alloc { size: 1048560 }),
    By(2, Alloc { size: 49 }),
    By(2, Alloc { size: 48 }),
    Init { guarded: false },
    By(2, Alloc { size: 65 }),
    By(2, Alloc { size: 64 }),
];

/// The guard is in the way of the first, and a single granule at the end is too short for a block and its guard.
pub(crate) const FILLS: [Step; 6] = [
    Init { guarded: true },
    By(1, Alloc { size: 241 }),
    By(1, Alloc { size: 240 }),
    Bytes,
    By(1, Realloc { at: 0, to: 224 }),
    By(1, Alloc { size: 1 }),
];

/// One granule has no room for a block and its guard.
pub(crate) const LEAST_ARENA: [Step; 2] = [Init { guarded: true }, By(1, Alloc { size: 1 })];

/// A single row has no room for a rest.
pub(crate) const SINGLE_ROW: [Step; 4] = [
    Init { guarded: true },
    By(1, Alloc { size: 224 }),
    Bytes,
    By(1, Alloc { size: 240 }),
];

/// Another arena of 240 bytes, and one of none.
pub(crate) const GUARDED_IN_OTHERS: [Step; 4] = [
    In(240, 1, Alloc { size: 16 }),
    In(0, 1, Alloc { size: 16 }),
    In(240, 9, Alloc { size: 16 }),
    OtherBytes,
];

/// The same without guards.
pub(crate) const UNGUARDED_IN_OTHERS: [Step; 5] = [
    Init { guarded: false },
    In(240, 1, Alloc { size: 16 }),
    In(0, 1, Alloc { size: 16 }),
    OtherBytes,
    Rows,
];

/// The same count, a granule longer, shorter, and longer by all that is free at its right. Then up over bytes that are not zero, and down to just
/// before the old place.
pub(crate) const RESIZES: [Step; 30] = [
    Init { guarded: true },
    By(1, Alloc { size: 33 }),
    Write(48, 1, 0),
    By(1, Realloc { at: 0, to: 40 }),
    Rows,
    Bytes,
    By(1, Realloc { at: 0, to: 64 }),
    Bytes,
    By(1, Alloc { size: 16 }),
    Write(16, 3, 48),
    Write(16, 2, 80),
    By(1, Realloc { at: 0, to: 20 }),
    Rows,
    Bytes,
    Write(32, 9, 48),
    By(1, Realloc { at: 0, to: 49 }),
    Bytes,
    Write(144, 7, 112),
    By(1, Realloc { at: 0, to: 81 }),
    Rows,
    Bytes,
    By(1, Realloc { at: 80, to: 65 }),
    By(
        1,
        Realloc {
            at: 80,
            to: 4294967295,
        },
    ),
    Bytes,
    By(1, Realloc { at: 80, to: 64 }),
    Bytes,
    Totals,
    By(1, Free { at: 112 }),
    By(1, Realloc { at: 0, to: 0 }),
    Bytes,
];

/// The granules skipped for alignment are too few for a block and its guard.
pub(crate) const ALIGNMENT: [Step; 6] = [
    Init { guarded: true },
    By(1, AllocAligned { size: 16, on: 32 }),
    By(1, AllocAligned { size: 17, on: 64 }),
    By(1, AllocAligned { size: 16, on: 128 }),
    By(1, AllocAligned { size: 1, on: 16 }),
    Bytes,
];

/// The guard would end past the arena.
pub(crate) const AT_END: [Step; 4] = [
    Init { guarded: true },
    By(1, AllocAligned { size: 1, on: 128 }),
    By(1, AllocAligned { size: 128, on: 128 }),
    By(1, AllocAligned { size: 112, on: 128 }),
];

/// A case of its own, though all cases' calls go through the drivers' layer. The block that was lent on 64 moves once its guard is whole.
pub(crate) const DRIVERS_LAYER: [Step; 13] = [
    Init { guarded: true },
    By(1, AllocAligned { size: 40, on: 64 }),
    By(1, AllocAligned { size: 32, on: 16 }),
    By(1, AllocAligned { size: 16, on: 16 }),
    Write(40, 1, 48),
    Write(1, 9, 96),
    By(1, Free { at: 48 }),
    By(1, Realloc { at: 48, to: 65 }),
    Write(1, 119, 96),
    By(1, Realloc { at: 48, to: 65 }),
    By(1, Free { at: 0 }),
    Rows,
    Bytes,
];
