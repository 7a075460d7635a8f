//! Whether a record and a table are a heap: the one check of every call.

ghost use Rattle.std.specs.Prelude.{◌≡◌, ◌&&◌};
ghost use Rattle.model.specs.Quantities.{within};
ghost use Rattle.heap.specs.Valid.{valid};
ghost use Rattle.heap.specs.Steps.{framed, keeps_all, agrees_with, Examined};

use crate::record::Heap;
use model::Refusal;
use segments::{Census, RowList, zero_from};

// Not one with `are_quotas`: there one number bounds all eight, here each has its own.
/// Whether no owner's figure exceeds its quota.
fn keeps(figures: [u32; 8], quotas: [u32; 8]) -> bool
    ensures { result ≡ keeps_all figures quotas }
{
    figures
        .iter()
        .zip(&quotas)
        .all(|(&figure, &quota)| figure <= quota)
}

impl Heap {
    /// Whether the conditions of a valid heap hold that need no look at a row.
    fn is_framed(self, table: &[u32]) -> bool
        ensures { result ≡ framed self table.now }
    {
        self.in_range()
            && table.len() == 4 * (self.capacity as usize)
            && (1..=self.capacity).contains(&self.rows)
    }

    /// Whether the peak is from used to the arena's granules.
    fn has_peak(self) -> bool
        ensures { result ≡ within self.used self.granules self.peak }
    {
        (self.used..=self.granules).contains(&self.peak)
    }

    /// Whether no owner has more blocks or granules than its quotas.
    fn keeps_quotas(self, k: Census) -> bool
        ensures { result ≡ keeps_all k.blocks self.block_quotas && keeps_all k.held self.granule_quotas }
    {
        keeps(k.blocks, self.block_quotas) && keeps(k.held, self.granule_quotas)
    }

    /// Whether the conditions of a valid heap hold that are left when its rows are a map with these figures.
    fn agrees(self, table: &[u32], k: Census) -> bool
        ensures { result ≡ agrees_with self table.now k }
    {
        zero_from(table, 4 * (self.rows as usize))
            && self.used == k.used
            && self.has_peak()
            && self.keeps_quotas(k)
    }

    /// The figures of the live blocks and free runs. Refused with 1 if the record and the table are not a valid heap.
    pub(crate) fn examine(self, table: &[u32]) -> Result<Census, Refusal>
        ensures { Examined self table.now result }
    {
        if !self.is_framed(table) {
            return Err(Refusal::InvalidHeap);
        }
        let rows = RowList::new(table, self.rows as usize);
        let Some(k) = rows.take_census(self.granules, self.guards) else {
            return Err(Refusal::InvalidHeap);
        };
        if !self.agrees(table, k) {
            return Err(Refusal::InvalidHeap);
        }
        Ok(k)
    }

    /// Whether the record and the table are a valid heap.
    pub fn is_valid(self, table: &[u32]) -> bool
        ensures { result ≡ valid self table.now }
    {
        self.examine(table).is_ok()
    }
}
