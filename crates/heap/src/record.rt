//! The heap's record, and what a call that may change it gives back.

ghost use Rattle.std.specs.Prelude.{◌≡◌, ◌≤◌, Err};
ghost use Rattle.heap.specs.Calls.{zero_heap};
ghost use Rattle.heap.specs.Steps.{updated_of};

use model::{InitRefusal, Refusal};

/// The heap record: the table's rows, the rows in use, the arena's granules, the address of its first byte, the granules of each block's guard (1, or 0 if
/// there are no guards), used and peak in granules, and the quotas of owners 1 to 8.
// Its fields are open and have no invariant, `guards` is a number and the quotas are two arrays: any record may come in, and 1 tells which are no heap.
#[derive(Clone, Copy, Debug, PartialEq, Eq)]
pub struct Heap {
    pub capacity: u32,
    pub rows: u32,
    pub granules: u32,
    pub base: u32,
    pub guards: u32,
    pub used: u32,
    pub peak: u32,
    pub granule_quotas: [u32; 8],
    pub block_quotas: [u32; 8],
}

/// What a making answers, and the record that it makes: all zero if it is refused.
// The record stands beside the answer and not in it: a refused making has one too (`calls.after_init`). Not an `Outcome`:
// its refusals are others, and a second type would stand at each other call.
#[derive(Clone, Copy, Debug, PartialEq, Eq)]
pub struct Initialized {
    pub answer: Result<(), InitRefusal>,
    pub heap: Heap,
}

/// What a call that may change the record answers, and the record afterwards: as it was if the call is refused.
#[derive(Clone, Copy, Debug, PartialEq, Eq)]
pub struct Outcome<T> {
    pub answer: Result<T, Refusal>,
    pub heap: Heap,
}

impl Heap {
    /// The all-zero record, which is not valid: no heap.
    pub fn zero() -> Heap
        ensures { result ≡ zero_heap }
    {
        Heap {
            capacity: 0,
            rows: 0,
            granules: 0,
            base: 0,
            guards: 0,
            used: 0,
            peak: 0,
            granule_quotas: [0; 8],
            block_quotas: [0; 8],
        }
    }

    /// A call's refusal: the record stays as it is.
    pub(crate) fn refused<T>(self, why: Refusal) -> Outcome<T>
        ensures answer { result.answer ≡ Err why }
        ensures heap { result.heap ≡ self }
    {
        Outcome {
            answer: Err(why),
            heap: self,
        }
    }

    /// The record with other rows in use and other granules used; the peak is raised to those if they are more.
    pub(crate) fn updated(self, rows: usize, used: u32) -> Heap
        requires { rows ≤ 4294967295 }
        ensures { result ≡ updated_of self rows used }
    {
        Heap {
            // Proved to fit, so there is no refusal for a `try_from` to give.
            rows: rows as u32,
            used,
            peak: self.peak.max(used),
            ..self
        }
    }
}
