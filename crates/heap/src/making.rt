//! Making a heap of a lent arena and table.

ghost use Rattle.std.specs.Prelude.{◌≡◌, List, ℕ, length};
ghost use Rattle.model.specs.Rules as rules;
ghost use Rattle.model.specs.Numbers.{made_numbered};
ghost use Rattle.heap.specs.Calls as calls;

use crate::ranges::{is_arena, is_base, is_table, quotas_in_range};
use crate::record::{Heap, Initialized};
use model::{InitRefusal, Plan};
use segments::{fill, reset};

/// Decides a making, by the lengths of the arena and the table, and the plan: 11, 18, 12, 13, or that it is done.
fn check_init(bytes: usize, words: usize, plan: Plan) -> Result<(), InitRefusal>
    ensures { (arena table : List ℕ) → length arena ≡ bytes → length table ≡ words
        → result ≡ rules.init arena table plan }
{
    if !is_arena(bytes) {
        return Err(InitRefusal::ArenaLength);
    }
    if !is_base((bytes / 16) as u32, plan.base) {
        return Err(InitRefusal::BadBase);
    }
    if !is_table(words) {
        return Err(InitRefusal::TableLength);
    }
    if !quotas_in_range(plan.granule_quotas, plan.block_quotas) {
        return Err(InitRefusal::BadQuota);
    }
    Ok(())
}

impl Heap {
    /// Makes a heap of the whole arena with no live block; the arena and the rest of the table are set to zero. Refused with 11, 18, 12, 13, in this order;
    /// then the record is all zero, and the arena and the table stay as they were.
    pub fn init(arena: &mut [u8], table: &mut [u32], plan: Plan) -> Initialized
        ensures answer { result.answer ≡ calls.init arena.old table.old plan }
        ensures numbered { made_numbered result.answer ≡ calls.numbered_init arena.old table.old plan }

        ensures heap { result.heap ≡ (calls.after_init arena.old table.old plan).heap }
        ensures table { table.new ≡ (calls.after_init arena.old table.old plan).words }
        ensures arena { arena.new ≡ calls.arena_after_init arena.old table.old plan }
    {
        let bytes = arena.len();
        let words = table.len();
        let answer = check_init(bytes, words, plan);
        if answer.is_err() {
            return Initialized {
                answer,
                heap: Heap::zero(),
            };
        }
        // The casts are proved to fit; a `try_from` would want a refusal that cannot come. An array of a struct is named before it is stored in another.
        let granules = (bytes / 16) as u32;
        let granule_quotas = plan.granule_quotas;
        let block_quotas = plan.block_quotas;
        fill(arena, 0, bytes, 0);
        reset(table, granules);
        Initialized {
            answer,
            heap: Heap {
                capacity: (words / 4) as u32,
                rows: 1,
                granules,
                base: plan.base,
                guards: u32::from(plan.guarded),
                used: 0,
                peak: 0,
                granule_quotas,
                block_quotas,
            },
        }
    }
}
