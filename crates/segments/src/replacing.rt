//! A block put into the place of another: where it may start, how many rows there are then, and the rows rewritten.
//!
//! That the rows are a map is asked by each function that needs it (`IsMapWithin`), and not by `RowList`: the census reads rows that may be none.

ghost use Rattle.std.specs.Prelude.{◌≡◌, ◌+◌, ◌*◌, ◌%◌, ◌<◌, ◌≤◌, true, if◌then◌else◌, length};
ghost use Rattle.model.specs.Quantities.{Config};
ghost use Rattle.model.specs.Allocation.{insert, has_granule};
ghost use Rattle.model.specs.SegmentMap.{is_live, map_of, rows_of};
ghost use Rattle.segments.specs.Rows.{nth_row, segments_in, Rewritten};
ghost use Rattle.segments.specs.Tiling.{is_map, IsMapWithin};
ghost use Rattle.segments.specs.Search.{others, refit_start};
ghost use Rattle.segments.specs.Changes.{Replaceable};
ghost use Rattle.segments.specs.Steps.{run_from, run_to, run_around};

use crate::cutting::{pieces, split_row};
use crate::joining::release_row;
use crate::row_list::RowList;
use crate::row_words::free_run;
use model::Segment;

// The row that a granule is in once a block is given back: `run`, the free run that is left, if it has the granule, and else `before`, its row until then.
fn row_without(run: Segment, before: Segment, granule: u32) -> Segment
    requires { run.start + run.length ≤ 4294967295 }
    ensures { result ≡ (if has_granule granule run then run else before) }
{
    if run.start <= granule && granule < run.start + run.length {
        run
    } else {
        before
    }
}

impl<'a> RowList<'a> {
    // Where the free run begins that row i leaves when it is released.
    fn run_from(&self, i: usize) -> u32
        requires { i < length self.now }
        ensures { result ≡ run_from self.now i }
    {
        let s = self.get(i);
        if i == 0 {
            return s.start;
        }
        let before = self.get(i - 1);
        if before.owner == 0 {
            before.start
        } else {
            s.start
        }
    }

    // Where that run ends. Not one with `run_from`: one looks at the row before, the other at the row after if that is in use.
    fn run_to(&self, i: usize) -> u32
        requires in_use { i < length self.now }
        requires map { IsMapWithin 4294967295 self.now }
        ensures { result ≡ run_to self.now i }
    {
        let s = self.get(i);
        if self.len() - i == 1 {
            return s.start + s.length;
        }
        let after = self.get(i + 1);
        if after.owner == 0 {
            after.start + after.length
        } else {
            s.start + s.length
        }
    }

    /// The start of the block in row i with `need` granules: its own if the free run around it ends no earlier, else where first fit says, on 16 bytes; every
    /// start is on such a boundary, whatever multiple of 16 the base is. The bound on `need` is so that the sum fits a word.
    pub fn refit(&self, i: usize, need: u32) -> Option<u32>
        requires in_use { i < length self.now }
        requires some { 1 ≤ need }
        requires need { need ≤ 4294901759 }
        requires map { IsMapWithin 65536 self.now }
        ensures { (c : Config) → c.base % 16 ≡ 0 → c.granules ≤ 65536 → is_map c self.now ≡ true → is_live (nth_row self.now i) ≡ true
            → result ≡ refit_start c self.now i need }
    {
        let s = self.get(i);
        let to = self.run_to(i);
        if s.start + need <= to {
            return Some(s.start);
        }
        self.first_fit(0, need, 16).map(|place| place.start)
    }

    // The free run that row i leaves when it is released, if the rows are a map.
    fn run_around(&self, i: usize) -> Segment
        requires in_use { i < length self.now }
        requires map { IsMapWithin 4294967295 self.now }
        ensures { result ≡ run_around self.now i }
    {
        let from = self.run_from(i);
        let to = self.run_to(i);
        free_run(from, to - from)
    }

    /// How many rows the map has with a block in the place of the one in row i.
    pub fn rows_after_replace(&self, i: usize, block: Segment) -> usize
        requires { (c : Config) × Replaceable c self.now i block }
        ensures { (c : Config) → Replaceable c self.now i block → result ≡ rows_of c (insert block (others self.now i)) }
    {
        let old = self.get(i);
        let run = self.run_around(i);
        let at = self.row_of(block.start);
        let before = self.get(at);
        let room = row_without(run, before, block.start);
        self.len() - pieces(run, old) + pieces(room, block)
    }
}

/// A block put into the place of the one in row i; answers the rows in use.
pub fn replace_row(table: &mut [u32], rows: usize, i: usize, block: Segment) -> usize
    requires words { 4 * rows ≤ length table.old }
    requires block { (c : Config) × Replaceable c (segments_in rows table.old) i block
        × (4 * rows_of c (insert block (others (segments_in rows table.old) i)) ≤ length table.old) }
    ensures { (c : Config) → Replaceable c (segments_in rows table.old) i block
        → Rewritten rows table.old (map_of c (insert block (others (segments_in rows table.old) i))) result table.new }
{
    let n = release_row(table, rows, i);
    let at = RowList::new(table, n).row_of(block.start);
    split_row(table, n, at, block)
}
