//! What is looked for in the rows: the row of a granule, and first fit's place.

ghost use Rattle.std.specs.Prelude.{◌≡◌, ◌+◌, ◌%◌, ◌<◌, ◌≤◌, true, length};
ghost use Rattle.model.specs.Quantities.{Config, is_alignment};
ghost use Rattle.segments.specs.Tiling.{is_map};
ghost use Rattle.segments.specs.Search.{RowOf, Found};
ghost use Rattle.segments.specs.Steps.{padding};

use crate::row_list::RowList;

/// Where first fit found room: the free row, and the granule to start at.
#[derive(Clone, Copy, Debug, PartialEq, Eq)]
pub struct Place {
    pub row: usize,
    pub start: u32,
}

// The granules from `start` to the next boundary of `unit` granules, 0 if it is on one; the granule from which starts are counted is `past` granules past a
// boundary. Nothing is added to `start`, so no start wraps.
fn padding_of(past: u32, start: u32, unit: u32) -> u32
    requires past { past < unit }
    requires unit { unit ≤ 2147483647 }
    ensures answer { result ≡ padding unit (past + start) }
    ensures less { result < unit }
{
    (2 * unit - past - start % unit) % unit
}

impl<'a> RowList<'a> {
    /// The row that has a granule, if the rows tile an arena that has it: by halving.
    pub fn row_of(&self, granule: u32) -> usize
        requires { 1 ≤ length self.now }
        ensures { RowOf self.now granule result }
    {
        // Halved by hand: a row is four words of the slice, which std's binary search cannot see as one element.
        let mut low = 0;
        let mut high = self.len();
        while 1 < high - low {
            let middle = low + (high - low) / 2;
            let s = self.get(middle);
            if s.start <= granule {
                low = middle;
            } else {
                high = middle;
            }
        }
        low
    }

    /// First fit: the first free row with room for `need` granules from an address on that is a multiple of `align`, in an arena whose first byte has the
    /// address `base`; `None` if no row has. Before a boundary at most 255 granules are skipped, so that the sum fits a word.
    pub fn first_fit(&self, base: u32, need: u32, align: u32) -> Option<Place>
        requires base { base % 16 ≡ 0 }
        requires some { 1 ≤ need }
        requires need { need ≤ 4294967040 }
        requires align { is_alignment align ≡ true }
        ensures { (c : Config) → c.base ≡ base → c.granules ≤ 4294967295 → is_map c self.now ≡ true → Found c self.now need align result }
    {
        let unit = align / 16;
        let past = base / 16 % unit;
        // A rule of the project: the search is a `loop` that ends by `break` with its value.
        let mut i = 0;
        loop {
            if self.len() <= i {
                break None;
            }
            let s = self.get(i);
            if s.owner == 0 {
                let skipped = padding_of(past, s.start, unit);
                if skipped + need <= s.length {
                    break Some(Place {
                        row: i,
                        start: s.start.wrapping_add(skipped),
                    });
                }
            }
            i += 1;
        }
    }
}
