//! A row as the segment in its four words, read and written.

ghost use Rattle.std.specs.Prelude.{◌≡◌, ◌+◌, ◌*◌, ◌≤◌, length};
ghost use Rattle.model.specs.SegmentMap.{free_run};
ghost use Rattle.segments.specs.Rows.{segment_at, with_row};

use model::Segment;

// By hand: a table is a lent slice of words, four to a row, which no derive or `From` makes a struct of.
/// The segment in row i.
pub fn row(table: &[u32], i: usize) -> Segment
    requires { 4 * i + 4 ≤ length table.now }
    ensures { result ≡ segment_at table.now i }
{
    Segment {
        start: table[4 * i],
        length: table[4 * i + 1],
        owner: table[4 * i + 2],
        requested: table[4 * i + 3],
    }
}

/// Row i set.
pub fn put_row(table: &mut [u32], i: usize, s: Segment)
    requires { 4 * i + 4 ≤ length table.old }
    ensures { table.new ≡ with_row table.old i s }
{
    table[4 * i] = s.start;
    table[4 * i + 1] = s.length;
    table[4 * i + 2] = s.owner;
    table[4 * i + 3] = s.requested;
}

/// A free run as a segment.
pub(crate) fn free_run(start: u32, length: u32) -> Segment
    ensures { result ≡ free_run start length }
{
    Segment {
        start,
        length,
        owner: 0,
        requested: 0,
    }
}
