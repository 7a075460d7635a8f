//! The heap that each case has to itself, and the steps that a case is made of.

use heap::Heap;
use model::Plan;
use printing::{Bytes, Call, Making, Rows, Shown, totals, trace, write};
use std::io;

/// One step of a case.
#[derive(Clone, Copy, Debug, PartialEq, Eq)]
pub(crate) enum Step {
    /// `By(owner, call)`: a call by an owner.
    By(u32, Call),
    /// A resize by owner 1, and what it leaves.
    Resize { at: u32, to: u32 },
    /// `Write(count, value, at)`: a task, or a stray hand in free memory, sets `count` bytes to `value`, from offset `at` on. They lie in the arena.
    Write(usize, u8, usize),
    /// The rows and the bytes as they stand.
    Show,
    /// The totals as they stand.
    Totals,
}

/// A heap of 16 granules with a table of 8 rows, whose calls are printed with their answers.
// Not shared with the other programs: each has its own steps and quotas, and memory of its own or lent. A shared one would be handed all of that.
#[derive(Drop)]
pub(crate) struct Stand<'a, R> {
    pub(crate) rt: &'a R,
    pub(crate) heap: Heap,
    pub(crate) table: [u32; 32],
    pub(crate) arena: [u8; 256],
}

impl<'a, R: Print> Stand<'a, R> {
    /// Owner 1 has the largest quotas there are, owner 2 has 4 granules and 1 block.
    // Not shared with the other programs: the quotas, the sizes and the printed line are its own, and a shared one would be handed them all.
    pub(crate) fn init(rt: &'a R) -> io::Result<Stand<'a, R>> {
        let mut table = [0; 32];
        let mut arena = [0; 256];
        let plan = Plan {
            base: 0,
            guarded: false,
            granule_quotas: [65536, 4, 0, 0, 0, 0, 0, 0],
            block_quotas: [256, 1, 0, 0, 0, 0, 0, 0],
        };
        let out = Heap::init(&mut arena, &mut table, plan);
        let making = Making {
            answer: out.answer,
            bytes: arena.len(),
        };
        println!(rt; "init 256 bytes 8 rows: {making}")?;
        Ok(Stand {
            rt,
            heap: out.heap,
            table,
            arena,
        })
    }

    /// Carries the steps out, one after the other.
    // Written out in each program: a function that is handed `carry_out` would need a `requires` that the closure can be called at each step.
    pub(crate) fn run(&mut self, steps: &[Step]) -> io::Result<()> {
        for &step in steps {
            self.carry_out(step)?;
        }
        Ok(())
    }

    // One arm for each kind of step: tables of steps are constants, and a constant holds no closures.
    fn carry_out(&mut self, step: Step) -> io::Result<()> {
        match step {
            Step::By(owner, call) => self.call(owner, call),
            Step::Resize { at, to } => {
                self.call(1, Call::Realloc { at, to })?;
                self.show()
            }
            Step::Write(count, value, at) => {
                write(&mut self.arena, count, value, at);
                println!(self.rt; "write {count} of {value} at {at}")
            }
            Step::Show => self.show(),
            Step::Totals => {
                println!(self.rt; "totals: {}", Shown(totals(&self.heap, &self.table)))
            }
        }
    }

    fn call(&mut self, owner: u32, call: Call) -> io::Result<()> {
        trace(
            self.rt,
            &mut self.heap,
            &mut self.table,
            &mut self.arena,
            owner,
            call,
        )
    }

    fn show(&self) -> io::Result<()> {
        println!(self.rt; "{}", Rows(&self.heap, &self.table))?;
        println!(self.rt; "{}", Bytes(&self.arena))
    }
}

/// Carries the steps of a case out on a heap of its own.
pub(crate) fn run(rt: &impl Print, steps: &[Step]) -> io::Result<()> {
    Stand::init(rt)?.run(steps)
}
