//! A row cut for a block in it.

ghost use Rattle.std.specs.Prelude.{◌≡◌, ◌+◌, ◌-◌, ◌*◌, ◌<◌, ◌≤◌, length};
ghost use Rattle.model.specs.SegmentMap.{gap};
ghost use Rattle.segments.specs.Rows.{segment_at, segments_in, Rewritten};
ghost use Rattle.segments.specs.Changes.{replaced, cut};

use crate::editing::insert_row;
use crate::row_words::{free_run, put_row, row};
use model::Segment;

// An `if`, as `gap` has it: a number made of the test by `usize::from` would say no more.
// How many rows the granules from `from` up to `to` take: one if there are any.
fn gap_rows(from: u32, to: u32) -> usize
    ensures answer { result ≡ length (gap from to) }
    ensures few { result ≤ 1 }
{
    if from < to { 1 } else { 0 }
}

/// How many rows a row becomes when it is cut for a block.
pub fn pieces(s: Segment, block: Segment) -> usize
    requires block { block.start + block.length ≤ 4294967295 }
    requires row { s.start + s.length ≤ 4294967295 }
    ensures answer { result ≡ length (cut s block) }
    ensures few { result ≤ 3 }
{
    let before = gap_rows(s.start, block.start);
    let after = gap_rows(block.start + block.length, s.start + s.length);
    before + 1 + after
}

// A free row at row i for the granules from `from` up to `to`, if there are any; answers the rows in use.
fn insert_gap(table: &mut [u32], rows: usize, i: usize, from: u32, to: u32) -> usize
    requires in_use { i ≤ rows }
    requires words { 4 * (rows + length (gap from to)) ≤ length table.old }
    ensures count { result ≡ rows + length (gap from to) }
    ensures rewritten { Rewritten rows table.old (replaced i 0 (gap from to) (segments_in rows table.old)) result table.new }
{
    if from < to {
        insert_row(table, rows, i, free_run(from, to - from));
        return rows + 1;
    }
    rows
}

/// Row i cut for a block in it; answers the rows in use.
pub fn split_row(table: &mut [u32], rows: usize, i: usize, block: Segment) -> usize
    requires in_use { i < rows }
    requires block { block.start + block.length ≤ 4294967295 }
    requires row { (segment_at table.old i).start + (segment_at table.old i).length ≤ 4294967295 }
    requires words { 4 * (rows - 1 + length (cut (segment_at table.old i) block)) ≤ length table.old }
    ensures { Rewritten rows table.old (replaced i 1 (cut (segment_at table.old i) block) (segments_in rows table.old)) result table.new }
{
    let s = row(table, i);
    let end = s.start + s.length;
    let block_end = block.start + block.length;
    put_row(table, i, block);
    let n = insert_gap(table, rows, i + 1, block_end, end);
    insert_gap(table, n, i, s.start, block.start)
}
