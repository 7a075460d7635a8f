//! The heap that each case has to itself, and the steps that a case is made of.

use heap::Heap;
use model::Plan;
use printing::{Bytes, Call, Making, Rows, Shown, totals, trace, write};
use std::io;

/// One step of a case.
#[derive(Clone, Copy, Debug, PartialEq, Eq)]
pub(crate) enum Step {
    /// A heap is made of the table and the arena as they stand, with guards or without.
    Init { guarded: bool },
    /// `By(owner, call)`: a call by an owner.
    By(u32, Call),
    /// `In(bytes, owner, call)`: a call by an owner that is lent the first `bytes` bytes of another arena.
    In(usize, u32, Call),
    /// `Write(count, value, at)`: a task, or a stray hand in free memory, sets `count` bytes to `value`, from offset `at` on. They lie in the arena.
    Write(usize, u8, usize),
    /// Another guard number in the record.
    Guards(u32),
    /// The record as it stands, without its quotas.
    Record,
    /// The rows as they stand.
    Rows,
    /// The bytes as they stand.
    Bytes,
    /// The other arena's bytes as they stand.
    OtherBytes,
    /// The totals as they stand.
    Totals,
}

/// A heap whose calls are printed with their answers.
// Not shared with the other programs: each has its own steps and quotas, and memory of its own or lent. A shared one would be handed all of that.
#[derive(Drop)]
pub(crate) struct Stand<'r, 'a, R> {
    pub(crate) rt: &'r R,
    pub(crate) base: u32,
    pub(crate) heap: Heap,
    pub(crate) table: &'a mut [u32],
    pub(crate) arena: &'a mut [u8],
    pub(crate) other: [u8; 256],
}

impl<'r, 'a, R: Print> Stand<'r, 'a, R> {
    /// There is no heap before the first `Init`.
    pub(crate) fn new(
        rt: &'r R,
        base: u32,
        table: &'a mut [u32],
        arena: &'a mut [u8],
    ) -> Stand<'r, 'a, R> {
        Stand {
            rt,
            base,
            heap: Heap::zero(),
            table,
            arena,
            other: [5; 256],
        }
    }

    /// Carries the steps out, one after the other.
    // Written out in each program: a function that is handed `carry_out` would need a `requires` that the closure can be called at each step.
    pub(crate) fn run(&mut self, steps: &[Step]) -> io::Result<()> {
        for &step in steps {
            self.carry_out(step)?;
        }
        Ok(())
    }

    // One arm for each kind of step: tables of steps are constants, and a constant holds no closures.
    fn carry_out(&mut self, step: Step) -> io::Result<()> {
        let rt = self.rt;
        match step {
            Step::Init { guarded } => self.init(guarded),
            Step::By(owner, call) => {
                trace(rt, &mut self.heap, self.table, self.arena, owner, call)
            }
            Step::In(bytes, owner, call) => self.call_in(bytes, owner, call),
            Step::Write(count, value, at) => {
                write(self.arena, count, value, at);
                println!(rt; "write {count} of {value} at {at}")
            }
            Step::Guards(guards) => {
                self.heap.guards = guards;
                println!(rt; "guards {guards} in the record")
            }
            Step::Record => self.print_record(),
            Step::Rows => self.print_rows(),
            Step::Bytes => println!(rt; "{}", Bytes(self.arena)),
            Step::OtherBytes => println!(rt; "{}", Bytes(&self.other)),
            Step::Totals => self.print_totals(),
        }
    }

    // Owner 1 has the largest quotas there are, owner 2 has 4 granules and 2 blocks.
    // Not shared with the other programs: the quotas, the sizes and the printed line are its own, and a shared one would be handed them all.
    fn init(&mut self, guarded: bool) -> io::Result<()> {
        let bytes = self.arena.len();
        let words = self.table.len();
        let base = self.base;
        let plan = Plan {
            base,
            guarded,
            granule_quotas: [65536, 4, 0, 0, 0, 0, 0, 0],
            block_quotas: [256, 2, 0, 0, 0, 0, 0, 0],
        };
        let out = Heap::init(self.arena, self.table, plan);
        self.heap = out.heap;
        let making = Making {
            answer: out.answer,
            bytes,
        };
        let guards = u8::from(guarded);
        println!(self.rt; "init {bytes} bytes {words} words base {base} guards {guards}: {making}")
    }

    fn call_in(&mut self, bytes: usize, owner: u32, call: Call) -> io::Result<()> {
        let rt = self.rt;
        let other = &mut self.other[..];
        let bytes = bytes.min(other.len());
        print!(rt; "with an arena of {bytes}, ")?;
        let arena = &mut other[..bytes];
        trace(rt, &mut self.heap, self.table, arena, owner, call)
    }

    // In each program, by `&self`: in `carry_out`, by `&mut self`, the check has no rule yet for the loans of record and table together.
    fn print_rows(&self) -> io::Result<()> {
        println!(self.rt; "{}", Rows(&self.heap, self.table))
    }

    fn print_totals(&self) -> io::Result<()> {
        println!(self.rt; "totals: {}", Shown(totals(&self.heap, self.table)))
    }

    // Not shared with `addresses`, which prints other fields of it.
    fn print_record(&self) -> io::Result<()> {
        let Heap {
            rows,
            granules,
            guards,
            used,
            peak,
            ..
        } = self.heap;
        println!(self.rt;
            "record rows {rows} granules {granules} guards {guards} used {used} peak {peak}"
        )
    }
}

/// Carries the steps of a case out on 16 granules from a base address on and a table of 8 rows.
pub(crate) fn run_on(rt: &impl Print, base: u32, steps: &[Step]) -> io::Result<()> {
    Stand::new(rt, base, &mut [0; 32], &mut [0; 256]).run(steps)
}

/// The same from address 0 on.
pub(crate) fn run(rt: &impl Print, steps: &[Step]) -> io::Result<()> {
    run_on(rt, 0, steps)
}
