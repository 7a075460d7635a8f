//! Frees: decided with nothing changed, then carried out.

ghost use Rattle.std.specs.Prelude.{◌≡◌};
ghost use Rattle.model.specs.Orders.{free_order};
ghost use Rattle.model.specs.Numbers.{value_numbered};
ghost use Rattle.heap.specs.Stored.{config_of, state_in, handed};
ghost use Rattle.heap.specs.Valid.{valid};
ghost use Rattle.heap.specs.Calls as calls;
ghost use Rattle.heap.specs.Steps.{LookedUp};

use crate::finding::LiveRow;
use crate::record::{Heap, Outcome};
use model::Refusal;
use segments::{fill, release_row};

impl Heap {
    /// Decides a free: 1, 11, 2, 15, 16, 17, 9, 10, 19, or its block.
    fn find_freed(
        self,
        table: &[u32],
        arena: &[u8],
        owner: u32,
        offset: u32,
    ) -> Result<LiveRow, Refusal>
        ensures { LookedUp (free_order (valid self table.now) (config_of self) (state_in self table.now) arena.now owner offset)
            self table.now offset result }
    {
        self.examine(table)?;
        self.find_block(table, arena, owner, offset)
    }

    /// Takes the block of `owner` at byte `offset` back, sets its bytes to zero, and answers how many they are. Refused with 1, 11, 2, 15, 16, 17, 9, 10,
    /// 19, in this order.
    pub fn free(self, table: &mut [u32], arena: &mut [u8], owner: u32, offset: u32) -> Outcome<u32>
        ensures answer { result.answer ≡ calls.free (handed self table.old) arena.old owner offset }
        ensures numbered { value_numbered result.answer
            ≡ calls.numbered_free (handed self table.old) arena.old owner offset }

        ensures heap { result.heap ≡ (calls.after_free (handed self table.old) arena.old owner offset).heap }
        ensures table { table.new ≡ (calls.after_free (handed self table.old) arena.old owner offset).words }
        ensures arena { arena.new ≡ calls.arena_after_free (handed self table.old) arena.old owner offset }
    {
        let freed = self.find_freed(table, arena, owner, offset);
        match freed {
            Err(why) => self.refused(why),
            Ok(found) => {
                let length = found.block.length;
                let bytes = 16 * length;
                fill(arena, offset as usize, bytes as usize, 0);
                let rows = release_row(table, self.rows as usize, found.row);
                Outcome {
                    answer: Ok(bytes),
                    heap: self.updated(rows, self.used - length),
                }
            }
        }
    }
}
