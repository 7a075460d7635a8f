//! The ranges of what a heap is made with, and of what a call is handed.

ghost use Rattle.std.specs.Prelude.{◌≡◌, ◌*◌, ◌%◌, ◌≤◌, eqb, ◌&&◌};
ghost use Rattle.model.specs.Quantities.{within, is_arena, is_base, is_table, is_owner, are_quotas, quotas_in_range, is_alignment, in_range};
ghost use Rattle.heap.specs.Stored.{config_of};

use crate::record::Heap;

/// Whether the eight quotas are at most so much.
fn are_quotas(quotas: &[u32; 8], most: u32) -> bool
    ensures { result ≡ are_quotas most quotas.now }
{
    quotas.iter().all(|&quota| quota <= most)
}

/// Whether all sixteen quotas are in their ranges.
pub(crate) fn quotas_in_range(granules: [u32; 8], blocks: [u32; 8]) -> bool
    ensures { result ≡ quotas_in_range granules blocks }
{
    are_quotas(&granules, 65536) && are_quotas(&blocks, 256)
}

/// Whether an arena of so many granules may start at the address `base`. The sum is taken in 64 bits, so that it does not wrap at the top of the address space.
pub(crate) fn is_base(granules: u32, base: u32) -> bool
    ensures { result ≡ is_base (16 * granules) base }
{
    let end = u64::from(base) + 16 * u64::from(granules);
    base % 16 == 0 && end <= 4294967296
}

/// Whether the number is in a range, and a multiple of the step.
fn in_steps(n: usize, least: usize, most: usize, step: usize) -> bool
    requires { 1 ≤ step }
    ensures { result ≡ (within least most n && eqb (n % step) 0) }
{
    (least..=most).contains(&n) && n % step == 0
}

// Not one with `is_table`: each promises the definition of its name, and `in_steps` is what they share.
/// Whether the length is an arena's.
pub(crate) fn is_arena(bytes: usize) -> bool
    ensures { result ≡ is_arena bytes }
{
    in_steps(bytes, 16, 1048576, 16)
}

/// Whether the length is a table's.
pub(crate) fn is_table(words: usize) -> bool
    ensures { result ≡ is_table words }
{
    in_steps(words, 4, 2048, 4)
}

/// Whether the number is an owner's: 1 to 8.
pub fn is_owner(owner: u32) -> bool
    ensures { result ≡ is_owner owner }
{
    (1..=8).contains(&owner)
}

/// Whether the number is an alignment.
pub(crate) fn is_alignment(align: u32) -> bool
    ensures { result ≡ is_alignment align }
{
    matches!(align, 16 | 32 | 64 | 128 | 256 | 512 | 1024 | 2048 | 4096)
}

impl Heap {
    /// Whether what the record says that its heap was made with is in range: the quotas, the base, a guard's granules, and the granules and the table's rows before
    /// a product is taken of them.
    pub(crate) fn in_range(self) -> bool
        ensures { result ≡ in_range (config_of self) }
    {
        quotas_in_range(self.granule_quotas, self.block_quotas)
            && (1..=65536).contains(&self.granules)
            && is_base(self.granules, self.base)
            && self.guards <= 1
            && (1..=512).contains(&self.capacity)
    }
}
