//! How a call finds the block that it names.

ghost use Rattle.std.specs.Prelude.{◌≡◌, true, [], ◌∷◌, ℕ, Ok, Err};
ghost use Rattle.model.specs.Arena.{has_recorded_length};
ghost use Rattle.model.specs.Orders.{unless, block_order, free_order};
ghost use Rattle.model.specs.Reasons.{broken_guard};
ghost use Rattle.heap.specs.Stored.{config_of, state_in};
ghost use Rattle.heap.specs.Valid.{valid};
ghost use Rattle.heap.specs.Steps.{segment_order, IsBlock, LookedUp};

use crate::ranges::is_owner;
use crate::record::Heap;
use model::{Refusal, Segment};
use segments::RowList;

/// A live block, and the row that it is in.
#[derive(Clone, Copy, Debug, PartialEq, Eq)]
pub(crate) struct LiveRow {
    pub row: usize,
    pub block: Segment,
}

/// 15, 16, 17, 9, 10: asked of an owner's offset, given the arena's length in bytes and, if the offset is in the arena, the segment that has its granule.
fn check_offset(s: Segment, bytes: u32, owner: u32, offset: u32) -> Result<(), Refusal>
    ensures { result ≡ unless (segment_order s bytes owner offset) (Ok tt) Err }
{
    if bytes <= offset {
        return Err(Refusal::PastEnd);
    }
    if offset % 16 != 0 {
        return Err(Refusal::NotAligned);
    }
    if s.owner == 0 {
        return Err(Refusal::FreeMemory);
    }
    if s.start < offset / 16 {
        return Err(Refusal::InsideBlock);
    }
    if s.owner != owner {
        return Err(Refusal::OtherOwner);
    }
    Ok(())
}

impl Heap {
    /// 2, 15, 16, 17, 9, 10: the owner's block at the offset.
    pub(crate) fn find_owned(
        self,
        table: &[u32],
        owner: u32,
        offset: u32,
    ) -> Result<LiveRow, Refusal>
        requires { valid self table.now ≡ true }
        ensures { LookedUp (block_order (config_of self) (state_in self table.now) owner offset)
            self table.now offset result }
    {
        if !is_owner(owner) {
            return Err(Refusal::BadOwner);
        }
        let rows = RowList::new(table, self.rows as usize);
        let i = rows.row_of(offset / 16);
        let block = rows.get(i);
        check_offset(block, 16 * self.granules, owner, offset)?;
        Ok(LiveRow { row: i, block })
    }

    /// 19: whether a block's guard is whole.
    fn check_guard(self, table: &[u32], arena: &[u8], found: LiveRow) -> Result<(), Refusal>
        requires valid { valid self table.now ≡ true }
        requires arena { has_recorded_length (config_of self) arena.now ≡ true }
        requires found { (x : ℕ) × IsBlock self table.now x found }
        ensures { (x : ℕ) → IsBlock self table.now x found → result
            ≡ unless (broken_guard (config_of self) (state_in self table.now).blocks arena.now x ∷ []) (Ok tt) Err }
    {
        if self.is_broken(arena, found.block) {
            return Err(Refusal::BrokenGuard);
        }
        Ok(())
    }

    /// Decides, for a valid heap, a call that is lent the arena and names a block: 11, 2, 15, 16, 17, 9, 10, 19, or the block.
    pub(crate) fn find_block(
        self,
        table: &[u32],
        arena: &[u8],
        owner: u32,
        offset: u32,
    ) -> Result<LiveRow, Refusal>
        requires { valid self table.now ≡ true }
        ensures { LookedUp (free_order true (config_of self) (state_in self table.now) arena.now owner offset)
            self table.now offset result }
    {
        self.check_arena(arena)?;
        let found = self.find_owned(table, owner, offset)?;
        self.check_guard(table, arena, found)?;
        Ok(found)
    }
}
