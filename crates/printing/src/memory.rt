//! A heap's bytes and rows, as they are printed, and writes into its arena.

ghost use Rattle.std.specs.Prelude.{◌≡◌, ◌+◌, ◌<◌, ◌≤◌, length, replicate};
ghost use Rattle.model.specs.Arena.{written};

use heap::Heap;
use model::Segment;
use segments::RowList;
use std::fmt;

/// Sets `count` bytes from `at` on to a value. A run that does not lie in the arena is not written.
// The count and the place stand beside the arena: that is the customer's memory, lent as it is.
pub fn write(arena: &mut [u8], count: usize, value: u8, at: usize)
    ensures inside { at + count ≤ length arena.old → arena.new ≡ written at (replicate count value) arena.old }
    ensures outside { length arena.old < at + count → arena.new ≡ arena.old }
{
    if at <= arena.len() && count <= arena.len() - at {
        arena[at..at + count].fill(value);
    }
}

/// All bytes of an arena, as runs of equal ones: where each begins, and its value.
#[derive(Drop)]
pub struct Bytes<'a>(pub &'a [u8]);

impl fmt::Display for Bytes<'_> {
    fn fmt<W: fmt::Write>(&self, f: &mut fmt::Formatter<W>) -> fmt::Result {
        f.write_str("bytes")?;
        let mut last = None;
        for (at, value) in self.0.iter().copied().enumerate() {
            if last != Some(value) {
                write!(f, " {at}:{value}")?;
                last = Some(value);
            }
        }
        Ok(())
    }
}

/// A heap's rows that are in use, on one line: of its record and its table.
// Two things and not one: the record and the table are lent each by itself, as a rule of the project.
#[derive(Drop)]
pub struct Rows<'a>(pub &'a Heap, pub &'a [u32]);

impl fmt::Display for Rows<'_> {
    fn fmt<W: fmt::Write>(&self, f: &mut fmt::Formatter<W>) -> fmt::Result {
        let Rows(heap, table) = *self;
        write!(f, "rows {}", heap.rows)?;
        let count = (table.len() / 4).min(heap.rows as usize);
        let rows = RowList::new(table, count);
        // By their numbers: a `RowList` reads row i.
        for i in 0..rows.len() {
            write_row(f, rows.get(i))?;
        }
        Ok(())
    }
}

// A row: start, length, owner and requested, all but the owner in bytes.
fn write_row<W: fmt::Write>(f: &mut fmt::Formatter<W>, row: Segment) -> fmt::Result {
    let start = u64::from(row.start) * 16;
    let length = u64::from(row.length) * 16;
    write!(f, " | {start} {length} {} {}", row.owner, row.requested)
}
