//! The rows in use of a table, as one value: a contract sees the list of their segments. That there is a row i is asked by each function that takes an i, as it
//! is of an index.

ghost use Rattle.std.specs.Prelude.{◌≡◌, ◌*◌, ◌<◌, ◌≤◌, List, length};
ghost use Rattle.model.specs.declared.Segment.{Segment as SpecSegment};
ghost use Rattle.segments.specs.Rows.{segments_in, nth_row};

use crate::row_words::row;
use model::Segment;
use std::marker::Model;

/// The first `count` rows of a table, four words each.
#[derive(Clone, Debug, Drop)]
pub struct RowList<'a> {
    words: &'a [u32],
    count: usize,
}

impl<'a> Model for RowList<'a> {
    ghost Value = { List SpecSegment };

    ghost view = { λ r. segments_in r.count r.words.now };

    ghost invariant = { λ r. 4 * r.count ≤ length r.words.now };
}

impl<'a> RowList<'a> {
    /// The first `count` rows of a table.
    pub fn new(words: &'a [u32], count: usize) -> RowList<'a>
        requires { 4 * count ≤ length words.now }
        ensures { result ≡ segments_in count words.now }
    {
        RowList { words, count }
    }

    /// How many rows there are.
    pub fn len(&self) -> usize
        ensures count { result ≡ length self.now }
        ensures few { 4 * result ≤ 18446744073709551615 }
    {
        self.count
    }

    /// The segment in row i.
    pub fn get(&self, i: usize) -> Segment
        requires { i < length self.now }
        ensures { result ≡ nth_row self.now i }
    {
        row(self.words, i)
    }
}
