//! The guards in the arena: sixteen bytes after the granules that a block's bytes requested fill.
//!
//! That a block's guard lies in the arena is asked by each function that touches it, and is no invariant: the record, the block and the arena come apart.

ghost use Rattle.std.specs.Prelude.{◌≡◌, ◌+◌, ◌≤◌, [], ◌∷◌, length, Ok, Err, true, ℕ};
ghost use Rattle.model.specs.Arena.{has_recorded_length, guard_offset, guard_bytes, guard_filled, is_broken};
ghost use Rattle.model.specs.Reasons.{other_arena, other_guarded_arena};
ghost use Rattle.model.specs.Orders.{unless};
ghost use Rattle.heap.specs.Stored.{config_of};

use crate::record::Heap;
use model::{Refusal, Segment, granules_for};
use segments::{fill, is_filled};

/// The byte at which a block's guard begins.
fn guard_offset(block: Segment) -> usize
    ensures { result ≡ guard_offset block }
{
    16 * (block.start as usize + granules_for(block.requested) as usize)
}

impl Heap {
    /// Whether the arena has the length recorded.
    fn has_recorded_length(self, arena: &[u8]) -> bool
        ensures { result ≡ has_recorded_length (config_of self) arena.now }
    {
        arena.len() == 16 * (self.granules as usize)
    }

    /// 11: the arena's length is not the one recorded.
    pub(crate) fn check_arena(self, arena: &[u8]) -> Result<(), Refusal>
        ensures { result ≡ unless (other_arena (config_of self) arena.now ∷ []) (Ok tt) Err }
    {
        if !self.has_recorded_length(arena) {
            return Err(Refusal::ArenaLength);
        }
        Ok(())
    }

    /// 11 of an allocation: a heap without guards does not look at the arena.
    pub(crate) fn check_guarded_arena(self, arena: &[u8]) -> Result<(), Refusal>
        ensures { result ≡ unless (other_guarded_arena (config_of self) arena.now ∷ []) (Ok tt) Err }
    {
        if 0 < self.guards {
            return self.check_arena(arena);
        }
        Ok(())
    }

    /// The guard of a block filled with one value. A heap without guards does not touch the arena.
    pub(crate) fn fill_guard(self, arena: &mut [u8], block: Segment, value: u8)
        requires few { self.guards ≤ 1 }
        requires inside { 1 ≤ self.guards → guard_offset block + guard_bytes (config_of self) ≤ length arena.old }
        ensures { arena.new ≡ guard_filled (config_of self) block value arena.old }
    {
        if 0 < self.guards {
            fill(arena, guard_offset(block), 16, value);
        }
    }

    /// Whether a byte of a block's guard differs from 0x77. A heap without guards does not look at the arena.
    pub(crate) fn is_broken(self, arena: &[u8], block: Segment) -> bool
        requires few { self.guards ≤ 1 }
        requires inside { 1 ≤ self.guards → guard_offset block + guard_bytes (config_of self) ≤ length arena.now }
        ensures { result ≡ is_broken (config_of self) arena.now block }
    {
        0 < self.guards && !is_filled(arena, guard_offset(block), 16, 0x77)
    }
}
