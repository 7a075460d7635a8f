//! Allocations: decided with nothing changed, then carried out.

ghost use Rattle.std.specs.Prelude.{◌≡◌, true, List, ℕ, ◌+◌, ◌≤◌, ltb, None, Ok, Err};
ghost use Rattle.model.specs.Quantities.{Config, is_owner};
ghost use Rattle.model.specs.Allocation.{block};
ghost use Rattle.model.specs.Orders.{unless, first_reason, alloc_order, request_order, quota_order, place_order};
ghost use Rattle.model.specs.Numbers.{value_numbered};
ghost use Rattle.heap.specs.Stored.{config_of, state_in, handed};
ghost use Rattle.heap.specs.Valid.{valid};
ghost use Rattle.heap.specs.Calls as calls;
ghost use Rattle.heap.specs.Steps.{Examined, Decided};

use crate::ranges::{is_alignment, is_owner};
use crate::record::{Heap, Outcome};
use model::{Refusal, Segment, granules_with};
use segments::{Census, Place, RowList, pieces, split_row};

/// 2, 3, 4: what is asked of an allocation's numbers alone.
fn check_request(owner: u32, size: u32, align: u32) -> Result<(), Refusal>
    ensures { result ≡ unless (request_order owner size align) (Ok tt) Err }
{
    if !is_owner(owner) {
        return Err(Refusal::BadOwner);
    }
    if size == 0 {
        return Err(Refusal::ZeroSize);
    }
    if !is_alignment(align) {
        return Err(Refusal::BadAlignment);
    }
    Ok(())
}

/// Whether `held` and `need` together exceed `most`. No sum is taken, so no size wraps.
pub(crate) fn exceeds(most: u32, held: u32, need: u32) -> bool
    ensures { result ≡ ltb most (held + need) }
{
    most < need || most - need < held
}

/// The block of `size` bytes at a start, its guard included.
pub(crate) fn new_block(owner: u32, size: u32, start: u32, guards: u32) -> Segment
    requires { guards ≤ 1 }
    ensures { (c : Config) → c.guards ≡ guards → result ≡ block c owner size start }
{
    Segment {
        start,
        length: granules_with(size, guards),
        owner,
        requested: size,
    }
}

impl Heap {
    /// 5, 6: an allocation's quotas.
    fn check_quotas(self, k: Census, owner: u32, size: u32) -> Result<(), Refusal>
        requires owner { is_owner owner ≡ true }
        requires guards { self.guards ≤ 1 }
        ensures { (ws : List ℕ) → Examined self ws (Ok k) → result
            ≡ unless (quota_order (config_of self) (state_in self ws) owner size) (Ok tt) Err }
    {
        let i = (owner - 1) as usize;
        if self.block_quotas[i] <= k.blocks[i] {
            return Err(Refusal::BlockQuota);
        }
        let more = granules_with(size, self.guards);
        if exceeds(self.granule_quotas[i], k.held[i], more) {
            return Err(Refusal::GranuleQuota);
        }
        Ok(())
    }

    // Not one function with `seek_refit`: what is looked for, and the rows that are counted afterwards, are others.
    /// 7, 8: the place of an allocation that 1, 2, 3 and 4 do not refuse.
    fn seek(self, table: &[u32], owner: u32, size: u32, align: u32) -> Result<Place, Refusal>
        requires valid { valid self table.now ≡ true }
        requires proper { first_reason (request_order owner size align) ≡ None }
        ensures { Decided (place_order (config_of self) (state_in self table.now) owner size align)
            self table.now size align result }
    {
        let rows = RowList::new(table, self.rows as usize);
        let need = granules_with(size, self.guards);
        let Some(at) = rows.first_fit(self.base, need, align) else {
            return Err(Refusal::NoPlace);
        };
        let s = rows.get(at.row);
        let wanted = new_block(owner, size, at.start, self.guards);
        if (self.capacity as usize) < rows.len() - 1 + pieces(s, wanted) {
            return Err(Refusal::TableFull);
        }
        Ok(at)
    }

    /// Decides an allocation: 1, 11 in a heap with guards, 2, 3, 4, 5, 6, 7, 8, or its place.
    fn find_place(
        self,
        table: &[u32],
        arena: &[u8],
        owner: u32,
        size: u32,
        align: u32,
    ) -> Result<Place, Refusal>
        ensures { Decided (alloc_order (valid self table.now) (config_of self) (state_in self table.now) arena.now owner size align)
            self table.now size align result }
    {
        let k = self.examine(table)?;
        self.check_guarded_arena(arena)?;
        check_request(owner, size, align)?;
        self.check_quotas(k, owner, size)?;
        self.seek(table, owner, size, align)
    }

    /// Lends `size` bytes to `owner` at an address, the base plus the offset answered, that is a multiple of `align`; the block's guard, if the heap has
    /// guards, is filled. Refused with 1, 11 in a heap with guards, 2 to 8, in this order. In a heap without guards any arena may be lent: it is not touched.
    pub fn alloc_aligned(
        self,
        table: &mut [u32],
        arena: &mut [u8],
        owner: u32,
        size: u32,
        align: u32,
    ) -> Outcome<u32>
        ensures answer { result.answer
            ≡ calls.alloc_aligned (handed self table.old) arena.old owner size align }
        ensures numbered { value_numbered result.answer
            ≡ calls.numbered_alloc (handed self table.old) arena.old owner size align }

        ensures heap { result.heap
            ≡ (calls.after_alloc_aligned (handed self table.old) arena.old owner size align).heap }
        ensures table { table.new
            ≡ (calls.after_alloc_aligned (handed self table.old) arena.old owner size align).words }
        ensures arena { arena.new
            ≡ calls.arena_after_alloc_aligned (handed self table.old) arena.old owner size align }
    {
        let place = self.find_place(table, arena, owner, size, align);
        match place {
            Err(why) => self.refused(why),
            Ok(at) => {
                let block = new_block(owner, size, at.start, self.guards);
                let rows = split_row(table, self.rows as usize, at.row, block);
                self.fill_guard(arena, block, 0x77);
                Outcome {
                    answer: Ok(16 * at.start),
                    heap: self.updated(rows, self.used + block.length),
                }
            }
        }
    }

    // Not one call with an optional alignment: both are calls by these names, each with its own order of refusal.
    /// An allocation that names no alignment: on a boundary of 16 bytes, as every start is. Refused with 1, 11 in a heap with guards, 2, 3, 5 to 8, in this
    /// order.
    pub fn alloc(self, table: &mut [u32], arena: &mut [u8], owner: u32, size: u32) -> Outcome<u32>
        ensures answer { result.answer ≡ calls.alloc (handed self table.old) arena.old owner size }
        ensures numbered { value_numbered result.answer
            ≡ calls.numbered_alloc (handed self table.old) arena.old owner size 16 }

        ensures heap { result.heap ≡ (calls.after_alloc (handed self table.old) arena.old owner size).heap }
        ensures table { table.new ≡ (calls.after_alloc (handed self table.old) arena.old owner size).words }
        ensures arena { arena.new
            ≡ calls.arena_after_alloc_aligned (handed self table.old) arena.old owner size 16 }
    {
        self.alloc_aligned(table, arena, owner, size, 16)
    }
}
