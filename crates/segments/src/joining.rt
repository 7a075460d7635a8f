//! A row given back: made free, and joined with its free neighbours.

ghost use Rattle.std.specs.Prelude.{◌≡◌, ◌*◌, ◌<◌, ◌≤◌, length};
ghost use Rattle.model.specs.Allocation.{granules_of};
ghost use Rattle.segments.specs.Rows.{segments_in, Rewritten};
ghost use Rattle.segments.specs.Changes.{joined, released};

use crate::editing::remove_row;
use crate::row_words::{free_run, put_row, row};

/// Rows i and i + 1 made one if both are free; answers the rows in use.
pub fn join_rows(table: &mut [u32], rows: usize, i: usize) -> usize
    requires in_use { i < rows }
    requires words { 4 * rows ≤ length table.old }
    requires granules { granules_of (segments_in rows table.old) ≤ 4294967295 }
    ensures { Rewritten rows table.old (joined i (segments_in rows table.old)) result table.new }
{
    if rows - i < 2 {
        return rows;
    }
    let s = row(table, i);
    if s.owner != 0 {
        return rows;
    }
    let next = row(table, i + 1);
    if next.owner != 0 {
        return rows;
    }
    put_row(table, i, free_run(s.start, s.length + next.length));
    remove_row(table, rows, i + 1);
    rows - 1
}

/// Row i made free and joined with its free neighbours; answers the rows in use.
pub fn release_row(table: &mut [u32], rows: usize, i: usize) -> usize
    requires in_use { i < rows }
    requires words { 4 * rows ≤ length table.old }
    requires granules { granules_of (segments_in rows table.old) ≤ 4294967295 }
    ensures { Rewritten rows table.old (released i (segments_in rows table.old)) result table.new }
{
    let s = row(table, i);
    put_row(table, i, free_run(s.start, s.length));
    let n = join_rows(table, rows, i);
    if 0 < i {
        return join_rows(table, n, i - 1);
    }
    n
}
