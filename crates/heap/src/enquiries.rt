//! The enquiries: nothing is changed.

ghost use Rattle.std.specs.Prelude.{◌≡◌};
ghost use Rattle.model.specs.Numbers.{size_numbered, totals_numbered, holding_numbered};
ghost use Rattle.heap.specs.Stored.{handed};
ghost use Rattle.heap.specs.Calls as calls;

use crate::ranges::is_owner;
use crate::record::Heap;
use model::{BlockSize, Holding, Refusal, Totals};

impl Heap {
    /// The bytes requested and the bytes held of the block of `owner` at byte `offset`. Refused with 1, 2, 15, 16, 17, 9, 10, in this order.
    pub fn block_size(self, table: &[u32], owner: u32, offset: u32) -> Result<BlockSize, Refusal>
        ensures answer { result ≡ calls.block_size (handed self table.now) owner offset }
        ensures numbered { size_numbered result
            ≡ calls.numbered_block_size (handed self table.now) owner offset }
    {
        self.examine(table)?;
        let block = self.find_owned(table, owner, offset)?.block;
        Ok(BlockSize {
            requested: block.requested,
            held: 16 * block.length,
        })
    }

    /// Used, free, peak and the longest free run, in bytes. Refused with 1.
    pub fn totals(self, table: &[u32]) -> Result<Totals, Refusal>
        ensures answer { result ≡ calls.totals_of (handed self table.now) }
        ensures numbered { totals_numbered result ≡ calls.numbered_totals (handed self table.now) }
    {
        let k = self.examine(table)?;
        Ok(Totals {
            used: 16 * self.used,
            free: 16 * (self.granules - self.used),
            peak: 16 * self.peak,
            longest: 16 * k.longest,
        })
    }

    /// How many live blocks `owner` has, and the bytes that they hold. Refused with 1, 2, in this order.
    pub fn holding(self, table: &[u32], owner: u32) -> Result<Holding, Refusal>
        ensures answer { result ≡ calls.holding_of (handed self table.now) owner }
        ensures numbered { holding_numbered result ≡ calls.numbered_holding (handed self table.now) owner }
    {
        let k = self.examine(table)?;
        if !is_owner(owner) {
            return Err(Refusal::BadOwner);
        }
        let i = (owner - 1) as usize;
        Ok(Holding {
            blocks: k.blocks[i],
            bytes: 16 * k.held[i],
        })
    }
}
