//! The day, part by part.

use crate::step::Step::{self, By, Byte, Totals, Write};
use crate::step::Task::{Checkout, Modem};
use printing::Call::{Alloc, AllocAligned, BlockSize, Free, Holding, Realloc};

/// The modem's boundary leaves two granules free, and the next block that fits goes there.
pub(crate) const MORNING: [Step; 7] = [
    By(Checkout(1), Alloc { size: 40 }),
    By(Checkout(2), Alloc { size: 100 }),
    By(Modem, AllocAligned { size: 64, on: 64 }),
    By(Checkout(1), Alloc { size: 17 }),
    By(Checkout(2), Alloc { size: 64 }),
    By(Modem, AllocAligned { size: 80, on: 24 }),
    By(Modem, Free { at: 0 }),
];

/// A second free of one block is refused while its place is free, and while it is another's.
pub(crate) const NOON: [Step; 4] = [
    By(Checkout(1), Free { at: 0 }),
    By(Checkout(1), Free { at: 0 }),
    By(Checkout(2), Alloc { size: 48 }),
    By(Checkout(1), Free { at: 0 }),
];

/// The block quota, an alignment with no place left, a hole too short, and an offset that is no multiple of 16.
pub(crate) const EVENING: [Step; 8] = [
    By(Checkout(1), Alloc { size: 33 }),
    By(Checkout(1), Alloc { size: 80 }),
    By(Checkout(1), Alloc { size: 1 }),
    By(Modem, AllocAligned { size: 64, on: 256 }),
    By(Modem, Free { at: 192 }),
    By(Modem, Alloc { size: 128 }),
    By(Checkout(2), Free { at: 48 }),
    By(Checkout(1), Free { at: 161 }),
];

/// Each kind of bad offset has its own number: the arena's end and its last granule, a hole, and a block after its first granule.
pub(crate) const BAD_FREES: [Step; 6] = [
    By(Modem, Free { at: 512 }),
    By(Modem, Free { at: 511 }),
    By(Modem, Free { at: 496 }),
    By(Checkout(1), Free { at: 49 }),
    By(Checkout(1), Free { at: 48 }),
    By(Checkout(1), Free { at: 176 }),
];

/// The same for enquiries: a byte past the end, a block's second byte, a hole, a block's second granule, and its first for its owner and for another.
pub(crate) const SIZES: [Step; 6] = [
    By(Checkout(1), BlockSize { at: 513 }),
    By(Checkout(1), BlockSize { at: 161 }),
    By(Checkout(1), BlockSize { at: 192 }),
    By(Checkout(1), BlockSize { at: 176 }),
    By(Checkout(1), BlockSize { at: 160 }),
    By(Modem, BlockSize { at: 160 }),
];

/// To size 0 a resize is a free. A longer block takes the run at its right, so that the next one of checkout 2 goes behind it; with no room there it
/// goes to another place, and the byte that the modem wrote goes along. The old place is free and zero then, and a shorter block's tail is. 6 counts
/// the new length in place of the old, and the peak never both places.
pub(crate) const RESIZES: [Step; 13] = [
    By(Modem, Realloc { at: 384, to: 0 }),
    By(Modem, Alloc { size: 40 }),
    By(Modem, Realloc { at: 48, to: 112 }),
    By(Checkout(2), Alloc { size: 64 }),
    Write(7, 148),
    By(Modem, Realloc { at: 48, to: 128 }),
    Byte(148),
    Byte(484),
    By(Modem, Realloc { at: 48, to: 16 }),
    By(Modem, Realloc { at: 384, to: 129 }),
    By(Modem, Realloc { at: 384, to: 40 }),
    Byte(484),
    By(Modem, BlockSize { at: 384 }),
];

/// What the three tasks hold adds up to what is used.
pub(crate) const CLOSING: [Step; 4] = [
    By(Checkout(1), Holding),
    By(Checkout(2), Holding),
    By(Modem, Holding),
    Totals,
];
