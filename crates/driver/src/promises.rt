//! Each call of this layer keeps the promise of the heap's call, with the record as it stands afterwards. A function for each: its promise is a record of its
//! own.

ghost use Rattle.heap.specs.Promises.{AllocDone, FreeDone, ReallocDone, BlockSizeDone, TotalsDone, HoldingDone};

use heap::Heap;
use model::{BlockSize, Holding, Refusal, Resized, Totals};

pub(crate) fn alloc(
    heap: &mut Heap,
    table: &mut [u32],
    arena: &mut [u8],
    owner: u32,
    size: u32,
) -> Result<u32, Refusal>
    ensures { AllocDone heap.old table.old arena.old owner size 16 (record { answer = result; heap = heap.new }) table.new arena.new }
{
    crate::alloc(heap, table, arena, owner, size)
}

pub(crate) fn alloc_aligned(
    heap: &mut Heap,
    table: &mut [u32],
    arena: &mut [u8],
    owner: u32,
    size: u32,
    align: u32,
) -> Result<u32, Refusal>
    ensures { AllocDone heap.old table.old arena.old owner size align (record { answer = result; heap = heap.new }) table.new arena.new }
{
    crate::alloc_aligned(heap, table, arena, owner, size, align)
}

pub(crate) fn free(
    heap: &mut Heap,
    table: &mut [u32],
    arena: &mut [u8],
    owner: u32,
    offset: u32,
) -> Result<u32, Refusal>
    ensures { FreeDone heap.old table.old arena.old owner offset (record { answer = result; heap = heap.new }) table.new arena.new }
{
    crate::free(heap, table, arena, owner, offset)
}

pub(crate) fn realloc(
    heap: &mut Heap,
    table: &mut [u32],
    arena: &mut [u8],
    owner: u32,
    offset: u32,
    size: u32,
) -> Result<Resized, Refusal>
    ensures { ReallocDone heap.old table.old arena.old owner offset size (record { answer = result; heap = heap.new }) table.new arena.new }
{
    crate::realloc(heap, table, arena, owner, offset, size)
}

pub(crate) fn block_size(
    heap: &Heap,
    table: &[u32],
    owner: u32,
    offset: u32,
) -> Result<BlockSize, Refusal>
    ensures { BlockSizeDone heap.now table.now owner offset result }
{
    crate::block_size(heap, table, owner, offset)
}

pub(crate) fn totals(heap: &Heap, table: &[u32]) -> Result<Totals, Refusal>
    ensures { TotalsDone heap.now table.now result }
{
    crate::totals(heap, table)
}

pub(crate) fn holding(heap: &Heap, table: &[u32], owner: u32) -> Result<Holding, Refusal>
    ensures { HoldingDone heap.now table.now owner result }
{
    crate::holding(heap, table, owner)
}
