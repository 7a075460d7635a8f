//! The words of a whole table: the rest tested for zeros, and all of it set.

ghost use Rattle.std.specs.Prelude.{◌≡◌, ◌-◌, ◌≤◌, [], ◌∷◌, ◌++◌, length, drop, replicate, nat_eq};
ghost use Rattle.std.specs.List.{list_all};
ghost use Rattle.model.specs.SegmentMap.{free_run};
ghost use Rattle.segments.specs.Rows.{words_of};

use crate::row_words::{free_run, put_row};

// Not one with `is_filled`: words and not bytes, and any place, past the end too.
/// Whether the words from a place on are all zero; past the end there are none.
pub fn zero_from(table: &[u32], from: usize) -> bool
    ensures { result ≡ list_all (nat_eq 0) (drop from table.now) }
{
    table.len() <= from || table[from..].iter().all(|&word| word == 0)
}

/// One free row over the whole arena, and every other word zero.
pub fn reset(table: &mut [u32], granules: u32)
    requires { 4 ≤ length table.old }
    ensures { table.new ≡ words_of (free_run 0 granules ∷ []) ++ replicate (length table.old - 4) 0 }
{
    table.fill(0);
    put_row(table, 0, free_run(0, granules));
}
