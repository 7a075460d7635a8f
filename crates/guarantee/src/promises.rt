//! Each call of the heap keeps its promise, as the lists of calls as performed speak of it. A function for each: its promise is a record of its own.

ghost use Rattle.heap.specs.Promises.{InitDone, AllocDone, FreeDone, ReallocDone, BlockSizeDone, TotalsDone, HoldingDone};

use heap::{Heap, Initialized, Outcome};
use model::{BlockSize, Holding, Plan, Refusal, Resized, Totals};

pub(crate) fn init(arena: &mut [u8], table: &mut [u32], plan: Plan) -> Initialized
    ensures { InitDone arena.old table.old plan result arena.new table.new }
{
    Heap::init(arena, table, plan)
}

pub(crate) fn alloc(
    heap: Heap,
    table: &mut [u32],
    arena: &mut [u8],
    owner: u32,
    size: u32,
) -> Outcome<u32>
    ensures { AllocDone heap table.old arena.old owner size 16 result table.new arena.new }
{
    heap.alloc(table, arena, owner, size)
}

pub(crate) fn alloc_aligned(
    heap: Heap,
    table: &mut [u32],
    arena: &mut [u8],
    owner: u32,
    size: u32,
    align: u32,
) -> Outcome<u32>
    ensures { AllocDone heap table.old arena.old owner size align result table.new arena.new }
{
    heap.alloc_aligned(table, arena, owner, size, align)
}

pub(crate) fn free(
    heap: Heap,
    table: &mut [u32],
    arena: &mut [u8],
    owner: u32,
    offset: u32,
) -> Outcome<u32>
    ensures { FreeDone heap table.old arena.old owner offset result table.new arena.new }
{
    heap.free(table, arena, owner, offset)
}

pub(crate) fn realloc(
    heap: Heap,
    table: &mut [u32],
    arena: &mut [u8],
    owner: u32,
    offset: u32,
    size: u32,
) -> Outcome<Resized>
    ensures { ReallocDone heap table.old arena.old owner offset size result table.new arena.new }
{
    heap.realloc(table, arena, owner, offset, size)
}

pub(crate) fn block_size(
    heap: Heap,
    table: &[u32],
    owner: u32,
    offset: u32,
) -> Result<BlockSize, Refusal>
    ensures { BlockSizeDone heap table.now owner offset result }
{
    heap.block_size(table, owner, offset)
}

pub(crate) fn totals(heap: Heap, table: &[u32]) -> Result<Totals, Refusal>
    ensures { TotalsDone heap table.now result }
{
    heap.totals(table)
}

pub(crate) fn holding(heap: Heap, table: &[u32], owner: u32) -> Result<Holding, Refusal>
    ensures { HoldingDone heap table.now owner result }
{
    heap.holding(table, owner)
}
