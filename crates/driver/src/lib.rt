//! The drivers' layer: the heap's record is lent, and updated where it stands. Each call does what the one of `heap` with the same name does: the same
//! answer, and the same record, words and bytes afterwards. Making is not here, since there is no record yet to lend.
//!
//! The calls that change the record are alike but for the call of the core: one function that takes that call as a closure would be no shorter, and its
//! promise would speak of any call. The enquiries are one call each. `alloc` and `alloc_aligned` are two calls, as in `heap`. The record, the table and the
//! arena are lent each by itself, as a rule of the project, and what a call is asked with stays numbers.
#![tactic(auto)]

mod promises;

ghost use Rattle.std.specs.Prelude.{◌≡◌};
ghost use Rattle.model.specs.Numbers.{value_numbered, resized_numbered, size_numbered, totals_numbered, holding_numbered};
ghost use Rattle.heap.specs.Stored.{handed};
ghost use Rattle.heap.specs.Calls as calls;

use heap::Heap;
use model::{BlockSize, Holding, Refusal, Resized, Totals};

/// The record for the core, built of the fields of the one that is lent.
// Field by field: a rule of the project, by which this layer takes the record apart.
fn record_of(heap: &Heap) -> Heap
    ensures { result ≡ heap.now }
{
    let Heap {
        capacity,
        rows,
        granules,
        base,
        guards,
        used,
        peak,
        granule_quotas,
        block_quotas,
    } = *heap;
    Heap {
        capacity,
        rows,
        granules,
        base,
        guards,
        used,
        peak,
        granule_quotas,
        block_quotas,
    }
}

/// Lends `size` bytes to `owner` on a boundary of 16 bytes, and answers the byte offset; if the heap has guards, the block's is filled. Refused with 1, 11
/// in a heap with guards, 2, 3, 5 to 8, in this order.
pub fn alloc(
    heap: &mut Heap,
    table: &mut [u32],
    arena: &mut [u8],
    owner: u32,
    size: u32,
) -> Result<u32, Refusal>
    ensures answer { result ≡ calls.alloc (handed heap.old table.old) arena.old owner size }
    ensures numbered { value_numbered result
        ≡ calls.numbered_alloc (handed heap.old table.old) arena.old owner size 16 }

    ensures heap { heap.new ≡ (calls.after_alloc (handed heap.old table.old) arena.old owner size).heap }
    ensures table { table.new ≡ (calls.after_alloc (handed heap.old table.old) arena.old owner size).words }
    ensures arena { arena.new
        ≡ calls.arena_after_alloc_aligned (handed heap.old table.old) arena.old owner size 16 }
{
    let out = record_of(heap).alloc(table, arena, owner, size);
    *heap = out.heap;
    out.answer
}

/// Lends `size` bytes to `owner`, and answers the byte offset: the record's base plus the offset is a multiple of `align`. Guards are as in `alloc`. Refused
/// with 1, 11 in a heap with guards, 2 to 8, in this order.
pub fn alloc_aligned(
    heap: &mut Heap,
    table: &mut [u32],
    arena: &mut [u8],
    owner: u32,
    size: u32,
    align: u32,
) -> Result<u32, Refusal>
    ensures answer { result ≡ calls.alloc_aligned (handed heap.old table.old) arena.old owner size align }
    ensures numbered { value_numbered result
        ≡ calls.numbered_alloc (handed heap.old table.old) arena.old owner size align }

    ensures heap { heap.new
        ≡ (calls.after_alloc_aligned (handed heap.old table.old) arena.old owner size align).heap }
    ensures table { table.new
        ≡ (calls.after_alloc_aligned (handed heap.old table.old) arena.old owner size align).words }
    ensures arena { arena.new
        ≡ calls.arena_after_alloc_aligned (handed heap.old table.old) arena.old owner size align }
{
    let out = record_of(heap).alloc_aligned(table, arena, owner, size, align);
    *heap = out.heap;
    out.answer
}

/// Takes the block of `owner` at byte `offset` back, sets its bytes to zero, and answers how many they are. Refused with 1, 11, 2, 15, 16, 17, 9, 10, 19,
/// in this order.
pub fn free(
    heap: &mut Heap,
    table: &mut [u32],
    arena: &mut [u8],
    owner: u32,
    offset: u32,
) -> Result<u32, Refusal>
    ensures answer { result ≡ calls.free (handed heap.old table.old) arena.old owner offset }
    ensures numbered { value_numbered result
        ≡ calls.numbered_free (handed heap.old table.old) arena.old owner offset }

    ensures heap { heap.new ≡ (calls.after_free (handed heap.old table.old) arena.old owner offset).heap }
    ensures table { table.new ≡ (calls.after_free (handed heap.old table.old) arena.old owner offset).words }
    ensures arena { arena.new ≡ calls.arena_after_free (handed heap.old table.old) arena.old owner offset }
{
    let out = record_of(heap).free(table, arena, owner, offset);
    *heap = out.heap;
    out.answer
}

/// Resizes the block of `owner` at byte `offset` to `size` bytes, and answers the byte offset it has then; to size 0 it is a free and answers as one.
/// Refused with 1, 11, 2, 15, 16, 17, 9, 10, 19, 6, 7, 8, in this order.
pub fn realloc(
    heap: &mut Heap,
    table: &mut [u32],
    arena: &mut [u8],
    owner: u32,
    offset: u32,
    size: u32,
) -> Result<Resized, Refusal>
    ensures answer { result ≡ calls.realloc (handed heap.old table.old) arena.old owner offset size }
    ensures numbered { resized_numbered result
        ≡ calls.numbered_realloc (handed heap.old table.old) arena.old owner offset size }

    ensures heap { heap.new
        ≡ (calls.after_realloc (handed heap.old table.old) arena.old owner offset size).heap }
    ensures table { table.new
        ≡ (calls.after_realloc (handed heap.old table.old) arena.old owner offset size).words }
    ensures arena { arena.new
        ≡ calls.arena_after_realloc (handed heap.old table.old) arena.old owner offset size }
{
    let out = record_of(heap).realloc(table, arena, owner, offset, size);
    *heap = out.heap;
    out.answer
}

/// The bytes requested and the bytes held of the block of `owner` at byte `offset`. Refused with 1, 2, 15, 16, 17, 9, 10, in this order.
pub fn block_size(heap: &Heap, table: &[u32], owner: u32, offset: u32) -> Result<BlockSize, Refusal>
    ensures answer { result ≡ calls.block_size (handed heap.now table.now) owner offset }
    ensures numbered { size_numbered result
        ≡ calls.numbered_block_size (handed heap.now table.now) owner offset }
{
    record_of(heap).block_size(table, owner, offset)
}

/// Used, free, peak and the longest free run, in bytes. Refused with 1.
pub fn totals(heap: &Heap, table: &[u32]) -> Result<Totals, Refusal>
    ensures answer { result ≡ calls.totals_of (handed heap.now table.now) }
    ensures numbered { totals_numbered result ≡ calls.numbered_totals (handed heap.now table.now) }
{
    record_of(heap).totals(table)
}

/// How many live blocks `owner` has, and how many bytes they hold. Refused with 1, 2, in this order.
pub fn holding(heap: &Heap, table: &[u32], owner: u32) -> Result<Holding, Refusal>
    ensures answer { result ≡ calls.holding_of (handed heap.now table.now) owner }
    ensures numbered { holding_numbered result ≡ calls.numbered_holding (handed heap.now table.now) owner }
{
    record_of(heap).holding(table, owner)
}
