//! Resizes: decided with nothing changed, then carried out.

ghost use Rattle.std.specs.Prelude.{◌≡◌, true, ◌&&◌, ◌||◌, ℕ, ◌+◌, ◌≤◌, leb, eqb, length, Ok};
ghost use Rattle.model.specs.Quantities.{is_owner};
ghost use Rattle.model.specs.Allocation.{offset, bytes};
ghost use Rattle.model.specs.Arena.{disjoint, moved, guard_offset, guard_bytes, with_guard, without_guard};
ghost use Rattle.model.specs.Orders.{new_length_order, realloc_order, replace_order};
ghost use Rattle.model.specs.Numbers.{resized_numbered};
ghost use Rattle.heap.specs.Stored.{config_of, state_in, handed};
ghost use Rattle.heap.specs.Valid.{valid};
ghost use Rattle.heap.specs.Calls as calls;
ghost use Rattle.heap.specs.Steps.{Examined, IsBlock, ResizeDecided};

use crate::allocating::{exceeds, new_block};
use crate::finding::LiveRow;
use crate::record::{Heap, Outcome};
use model::{Refusal, Resized, Segment, granules_with};
use segments::{Census, RowList, move_bytes, replace_row};

/// A block that is resized, and where it is to begin.
#[derive(Clone, Copy, Debug, PartialEq, Eq)]
pub(crate) struct Refitted {
    pub old: LiveRow,
    pub start: u32,
}

impl Heap {
    /// 7, 8 of a resize to `size` bytes, not 0, of an owner's block. If 8 applies where the block would begin, no other start is tried.
    fn seek_refit(
        self,
        table: &[u32],
        old: LiveRow,
        owner: u32,
        size: u32,
    ) -> Result<Refitted, Refusal>
        requires valid { valid self table.now ≡ true }
        requires owner { is_owner owner ≡ true }
        requires size { 1 ≤ size }
        requires old { (x : ℕ) × IsBlock self table.now x old }
        ensures { (x : ℕ) → IsBlock self table.now x old
            → ResizeDecided (replace_order (config_of self) (state_in self table.now) owner x size)
            self table.now owner x size result }
    {
        let rows = RowList::new(table, self.rows as usize);
        let need = granules_with(size, self.guards);
        let Some(start) = rows.refit(old.row, need) else {
            return Err(Refusal::NoPlace);
        };
        let wanted = new_block(owner, size, start, self.guards);
        if (self.capacity as usize) < rows.rows_after_replace(old.row, wanted) {
            return Err(Refusal::TableFull);
        }
        Ok(Refitted { old, start })
    }

    /// 6, 7, 8 of a resize to `size` bytes, not 0, of an owner's block: for 6 the new length stands in place of the old.
    fn check_resize(
        self,
        k: Census,
        table: &[u32],
        old: LiveRow,
        owner: u32,
        size: u32,
    ) -> Result<Refitted, Refusal>
        requires examined { Examined self table.now (Ok k) }
        requires owner { is_owner owner ≡ true }
        requires size { 1 ≤ size }
        requires old { (x : ℕ) × IsBlock self table.now x old }
        requires owned { old.block.owner ≡ owner }
        ensures { (x : ℕ) → IsBlock self table.now x old
            → ResizeDecided (new_length_order (config_of self) (state_in self table.now) owner x size)
            self table.now owner x size result }
    {
        let i = (owner - 1) as usize;
        let others = k.held[i] - old.block.length;
        if exceeds(
            self.granule_quotas[i],
            others,
            granules_with(size, self.guards),
        ) {
            return Err(Refusal::GranuleQuota);
        }
        self.seek_refit(table, old, owner, size)
    }

    /// Decides a resize to `size` bytes, not 0: 1, 11, 2, 15, 16, 17, 9, 10, 19, 6, 7, 8, or the block and its new start.
    fn find_resize(
        self,
        table: &[u32],
        arena: &[u8],
        owner: u32,
        offset: u32,
        size: u32,
    ) -> Result<Refitted, Refusal>
        requires { 1 ≤ size }
        ensures { ResizeDecided (realloc_order (valid self table.now) (config_of self) (state_in self table.now) arena.now owner offset size)
            self table.now owner offset size result }
    {
        let k = self.examine(table)?;
        let old = self.find_block(table, arena, owner, offset)?;
        self.check_resize(k, table, old, owner, size)
    }

    /// The bytes of a resized block go with it, from the old place to the new, with the old guard zeroed first and the new one filled at last.
    fn carry_bytes(self, arena: &mut [u8], old: Segment, new: Segment)
        requires guards { self.guards ≤ 1 }
        requires old_guard { 1 ≤ self.guards → guard_offset old + guard_bytes (config_of self) ≤ length arena.old }
        requires new_guard { 1 ≤ self.guards → guard_offset new + guard_bytes (config_of self) ≤ length arena.old }
        requires old { offset old + bytes old ≤ length arena.old }
        requires new { offset new + bytes new ≤ length arena.old }
        requires apart { (eqb (offset old) (offset new)
            || (leb (bytes old) (bytes new) && disjoint (offset old) (bytes old) (offset new) (bytes new))) ≡ true }
        ensures { arena.new
            ≡ with_guard (config_of self) new
            (moved (offset old) (bytes old) (offset new) (bytes new) (without_guard (config_of self) old arena.old)) }
    {
        let from = 16 * (old.start as usize);
        let held = 16 * (old.length as usize);
        let to = 16 * (new.start as usize);
        let room = 16 * (new.length as usize);
        self.fill_guard(arena, old, 0);
        move_bytes(arena, from, held, to, room);
        self.fill_guard(arena, new, 0x77);
    }

    /// Resizes the block of `owner` at byte `offset` to `size` bytes, and answers where it begins then. It stays if its start has room, and else goes, with
    /// all its bytes, to the lowest place clear of all live blocks; what it leaves is set to zero. It is one of these blocks itself, so the two places have
    /// no byte in common. If the heap has guards, the old one is zeroed first, and the new one, after the granules that the new size fills, is filled at
    /// last. Size 0 is a free, and answers as one. Refused with 1, 11, 2, 15, 16, 17, 9, 10, 19, 6, 7, 8, in this order.
    pub fn realloc(
        self,
        table: &mut [u32],
        arena: &mut [u8],
        owner: u32,
        offset: u32,
        size: u32,
    ) -> Outcome<Resized>
        ensures answer { result.answer ≡ calls.realloc (handed self table.old) arena.old owner offset size }
        ensures numbered { resized_numbered result.answer
            ≡ calls.numbered_realloc (handed self table.old) arena.old owner offset size }

        ensures heap { result.heap
            ≡ (calls.after_realloc (handed self table.old) arena.old owner offset size).heap }
        ensures table { table.new
            ≡ (calls.after_realloc (handed self table.old) arena.old owner offset size).words }
        ensures arena { arena.new
            ≡ calls.arena_after_realloc (handed self table.old) arena.old owner offset size }
    {
        if size == 0 {
            let out = self.free(table, arena, owner, offset);
            return Outcome {
                answer: out.answer.map(Resized::Freed),
                heap: out.heap,
            };
        }
        let refitted = self.find_resize(table, arena, owner, offset, size);
        match refitted {
            Err(why) => self.refused(why),
            Ok(refitted) => {
                let old = refitted.old.block;
                let new = new_block(owner, size, refitted.start, self.guards);
                let rows = replace_row(table, self.rows as usize, refitted.old.row, new);
                self.carry_bytes(arena, old, new);
                let others = self.used - old.length;
                let to = 16 * refitted.start;
                Outcome {
                    answer: Ok(Resized::At(to)),
                    heap: self.updated(rows, others + new.length),
                }
            }
        }
    }
}
