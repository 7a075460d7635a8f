//! A row taken into use or out of use: the rows after it move by one.
//!
//! The functions that write rows, here and in the modules above, are handed a table and how many rows are in use, and answer how many are then: a `RowList`,
//! whose number stands, would not do. That row i is in use is asked by each of them.

ghost use Rattle.std.specs.Prelude.{◌≡◌, ◌+◌, ◌*◌, ◌<◌, ◌≤◌, length};
ghost use Rattle.segments.specs.Rows.{segments_in, with_rows};
ghost use Rattle.segments.specs.Changes.{inserted, removed};

use crate::row_words::put_row;
use model::Segment;

/// A row more in use, at row i.
pub fn insert_row(table: &mut [u32], rows: usize, i: usize, s: Segment)
    requires in_use { i ≤ rows }
    requires words { 4 * rows + 4 ≤ length table.old }
    ensures { table.new ≡ with_rows rows table.old (inserted i s (segments_in rows table.old)) }
{
    table.copy_within(4 * i..4 * rows, 4 * i + 4);
    put_row(table, i, s);
}

/// A row less in use: row i.
pub fn remove_row(table: &mut [u32], rows: usize, i: usize)
    requires in_use { i < rows }
    requires words { 4 * rows ≤ length table.old }
    ensures { table.new ≡ with_rows rows table.old (removed i (segments_in rows table.old)) }
{
    table.copy_within(4 * i + 4..4 * rows, 4 * i);
    table[4 * rows - 4..4 * rows].fill(0);
}
