//! The calls of a task, as they are printed and carried out.

ghost use Rattle.std.specs.Prelude.{◌≡◌};
ghost use Rattle.heap.specs.Stored.{handed};
ghost use Rattle.printing.specs.Lending.{answer_to, totals_answer, after_call, arena_after_call};

use crate::answers::{Granted, Shown};
use heap::Heap;
use model::Refusal;
use std::{fmt, io};

/// A task's call on its heap. The number of the task's owner is handed in beside it. `at` is a block's offset, `to` its new size and `on` an alignment,
/// all in bytes.
#[derive(Clone, Copy, Debug, PartialEq, Eq)]
pub enum Call {
    Alloc { size: u32 },
    AllocAligned { size: u32, on: u32 },
    Free { at: u32 },
    Realloc { at: u32, to: u32 },
    BlockSize { at: u32 },
    Holding,
}

impl fmt::Display for Call {
    fn fmt<W: fmt::Write>(&self, f: &mut fmt::Formatter<W>) -> fmt::Result {
        match self {
            Call::Alloc { size } => write!(f, "alloc {size}"),
            Call::AllocAligned { size, on } => write!(f, "alloc {size} on {on}"),
            Call::Free { at } => write!(f, "free {at}"),
            Call::Realloc { at, to } => write!(f, "realloc {at} to {to}"),
            Call::BlockSize { at } => write!(f, "size {at}"),
            Call::Holding => write!(f, "holding"),
        }
    }
}

/// Carries out a call of `owner` on the heap that is lent, through the drivers' layer.
pub fn carry_out(
    heap: &mut Heap,
    table: &mut [u32],
    arena: &mut [u8],
    owner: u32,
    call: Call,
) -> Result<Granted, Refusal>
    ensures answer { result ≡ answer_to (handed heap.old table.old) arena.old owner call }
    ensures heap { heap.new ≡ (after_call (handed heap.old table.old) arena.old owner call).heap }
    ensures table { table.new ≡ (after_call (handed heap.old table.old) arena.old owner call).words }
    ensures arena { arena.new ≡ arena_after_call (handed heap.old table.old) arena.old owner call }
{
    // One arm for each call: the programs' tables of calls are constants, and a constant holds no closures.
    let granted = match call {
        Call::Alloc { size } => Granted::At(driver::alloc(heap, table, arena, owner, size)?),
        Call::AllocAligned { size, on } => {
            Granted::At(driver::alloc_aligned(heap, table, arena, owner, size, on)?)
        }
        Call::Free { at } => Granted::Freed(driver::free(heap, table, arena, owner, at)?),
        Call::Realloc { at, to } => {
            Granted::Resized(driver::realloc(heap, table, arena, owner, at, to)?)
        }
        Call::BlockSize { at } => Granted::BlockSize(driver::block_size(heap, table, owner, at)?),
        Call::Holding => Granted::Holding(driver::holding(heap, table, owner)?),
    };
    Ok(granted)
}

/// What a heap answers for its totals, through the drivers' layer.
pub fn totals(heap: &Heap, table: &[u32]) -> Result<Granted, Refusal>
    ensures answer { result ≡ totals_answer (handed heap.now table.now) }
{
    Ok(Granted::Totals(driver::totals(heap, table)?))
}

/// Carries a call out as `carry_out` does, and prints it with its answer. If the printing fails the call has been carried out all the same.
pub fn trace(
    rt: &impl Print,
    heap: &mut Heap,
    table: &mut [u32],
    arena: &mut [u8],
    owner: u32,
    call: Call,
) -> io::Result<()>
    ensures heap { heap.new ≡ (after_call (handed heap.old table.old) arena.old owner call).heap }
    ensures table { table.new ≡ (after_call (handed heap.old table.old) arena.old owner call).words }
    ensures arena { arena.new ≡ arena_after_call (handed heap.old table.old) arena.old owner call }
{
    let answer = Shown(carry_out(heap, table, arena, owner, call));
    println!(rt; "owner {owner} {call}: {answer}")
}
