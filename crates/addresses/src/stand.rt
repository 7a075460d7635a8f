//! The heap that each case has to itself, and the steps that a case is made of.

use crate::addressed::Addressed;
use heap::Heap;
use model::Plan;
use printing::{Call, Making, Rows, Shown, carry_out, totals};
use std::io;

/// One step of a case. All calls are owner 1's.
#[derive(Clone, Copy, Debug, PartialEq, Eq)]
pub(crate) enum Step {
    /// A call.
    Of(Call),
    /// Another base in the record.
    Base(u32),
    /// The rows as they stand.
    Rows,
    /// The totals as they stand.
    Totals,
}

/// A heap whose calls are printed with their answers.
// Not shared with the other programs: each has its own steps and quotas, and memory of its own or lent. A shared one would be handed all of that.
#[derive(Drop)]
pub(crate) struct Stand<'r, 'a, R> {
    pub(crate) rt: &'r R,
    pub(crate) heap: Heap,
    pub(crate) table: &'a mut [u32],
    pub(crate) arena: &'a mut [u8],
}

impl<'r, 'a, R: Print> Stand<'r, 'a, R> {
    /// Makes the heap. Its owner 1 has the largest quotas there are, so refusals 5 and 6 never apply.
    pub(crate) fn init(
        rt: &'r R,
        arena: &'a mut [u8],
        table: &'a mut [u32],
        base: u32,
    ) -> io::Result<Stand<'r, 'a, R>> {
        let heap = init(rt, arena, table, base, 256)?;
        Ok(Stand {
            rt,
            heap,
            table,
            arena,
        })
    }

    /// Carries the steps out, one after the other.
    // Written out in each program: a function that is handed `carry_out` would need a `requires` that the closure can be called at each step.
    pub(crate) fn run(&mut self, steps: &[Step]) -> io::Result<()> {
        for &step in steps {
            self.carry_out(step)?;
        }
        Ok(())
    }

    // One arm for each kind of step: tables of steps are constants, and a constant holds no closures.
    fn carry_out(&mut self, step: Step) -> io::Result<()> {
        match step {
            Step::Of(call) => self.call(call),
            Step::Base(base) => {
                self.heap.base = base;
                println!(self.rt; "base {base} in the record")
            }
            Step::Rows => self.print_rows(),
            Step::Totals => self.print_totals(),
        }
    }

    fn call(&mut self, call: Call) -> io::Result<()> {
        let rt = self.rt;
        let answer = carry_out(&mut self.heap, self.table, self.arena, 1, call);
        let base = self.heap.base;
        println!(rt; "owner 1 {call}: {}", Addressed { base, answer })
    }

    // In each program, by `&self`: in `carry_out`, by `&mut self`, the check has no rule yet for the loans of record and table together.
    fn print_rows(&self) -> io::Result<()> {
        println!(self.rt; "{}", Rows(&self.heap, self.table))
    }

    fn print_totals(&self) -> io::Result<()> {
        println!(self.rt; "totals: {}", Shown(totals(&self.heap, self.table)))
    }
}

/// Makes a heap of whatever arena and table are lent; owner 1 may have so many blocks.
// Not shared with the other programs: the quotas, the sizes and the printed line are its own, and a shared one would be handed them all.
pub(crate) fn init(
    rt: &impl Print,
    arena: &mut [u8],
    table: &mut [u32],
    base: u32,
    blocks: u32,
) -> io::Result<Heap> {
    let bytes = arena.len();
    let words = table.len();
    let plan = Plan {
        base,
        guarded: false,
        granule_quotas: [65536, 0, 0, 0, 0, 0, 0, 0],
        block_quotas: [blocks, 0, 0, 0, 0, 0, 0, 0],
    };
    let out = Heap::init(arena, table, plan);
    let making = Making {
        answer: out.answer,
        bytes,
    };
    println!(rt; "init {bytes} bytes {words} words base {base}: {making}")?;
    Ok(out.heap)
}

/// Carries the steps of a case out on a heap made of what is lent.
pub(crate) fn run(
    rt: &impl Print,
    arena: &mut [u8],
    table: &mut [u32],
    base: u32,
    steps: &[Step],
) -> io::Result<()> {
    Stand::init(rt, arena, table, base)?.run(steps)
}
