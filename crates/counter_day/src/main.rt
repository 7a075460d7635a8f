//! A counter's day over the drivers' layer: two checkout tasks (owners 1 and 2) and the modem (owner 3) borrow from one heap. Each call is printed with
//! its answer, `ok` and the values or `no` and the number of its refusal, and some bytes of the arena as they are found. What the rules give stands in
//! `stdout`, beside `src/`.
#![tactic(auto)]

mod day;
mod step;

use heap::Heap;
use model::{Plan, Refusal, Resized};
use printing::{Granted, Making, Output, Shown, carry_out, totals, write};
use std::io;
use step::Step;

/// The counter's heap: the record, which is lent to each call, and the table and the arena that are lent with it.
// Not shared with the other programs: each has its own steps and quotas, and memory of its own or lent. A shared one would be handed all of that.
#[derive(Drop)]
struct Counter<'a, R> {
    rt: &'a R,
    heap: Heap,
    table: [u32; 68],
    arena: [u8; 512],
}

impl<'a, R: Print> Counter<'a, R> {
    // 17 rows of 4 words. The quotas are 10 granules and 3 blocks for each checkout task, 8 granules and 2 blocks for the modem.
    // Not shared with the other programs: the quotas, the sizes and the printed line are its own, and a shared one would be handed them all.
    fn init(rt: &'a R) -> io::Result<Counter<'a, R>> {
        let mut table = [0; 68];
        let mut arena = [0; 512];
        let plan = Plan {
            base: 0,
            guarded: false,
            granule_quotas: [10, 10, 8, 0, 0, 0, 0, 0],
            block_quotas: [3, 3, 2, 0, 0, 0, 0, 0],
        };
        let out = Heap::init(&mut arena, &mut table, plan);
        let making = Making {
            answer: out.answer,
            bytes: arena.len(),
        };
        println!(rt; "init 512 bytes 17 rows: {making}")?;
        Ok(Counter {
            rt,
            heap: out.heap,
            table,
            arena,
        })
    }

    // Written out in each program: a function that is handed `carry_out` would need a `requires` that the closure can be called at each step.
    fn run(&mut self, steps: &[Step]) -> io::Result<()> {
        for &step in steps {
            self.carry_out(step)?;
        }
        Ok(())
    }

    // One arm for each kind of step: tables of steps are constants, and a constant holds no closures.
    fn carry_out(&mut self, step: Step) -> io::Result<()> {
        match step {
            Step::By(task, call) => {
                let answer = carry_out(
                    &mut self.heap,
                    &mut self.table,
                    &mut self.arena,
                    task.owner(),
                    call,
                );
                println!(self.rt; "{task} {call}: {}", Shown(as_freed(answer)))
            }
            Step::Totals => {
                println!(self.rt; "totals: {}", Shown(totals(&self.heap, &self.table)))
            }
            Step::Write(value, at) => {
                write(&mut self.arena, 1, value, at);
                Ok(())
            }
            Step::Byte(at) => match self.arena.get(at) {
                Some(value) => println!(self.rt; "byte {at}: {value}"),
                None => Ok(()),
            },
        }
    }
}

// The bytes that a resize to size 0 gives back are printed as those that a free gives back.
fn as_freed(answer: Result<Granted, Refusal>) -> Result<Granted, Refusal> {
    match answer {
        Ok(Granted::Resized(Resized::Freed(bytes))) => Ok(Granted::Freed(bytes)),
        other => other,
    }
}

fn run_all(rt: &impl Print) -> io::Result<()> {
    let mut counter = Counter::init(rt)?;
    counter.run(&day::MORNING)?;
    counter.run(&day::NOON)?;
    counter.run(&day::EVENING)?;
    counter.run(&day::BAD_FREES)?;
    counter.run(&day::SIZES)?;
    counter.run(&day::RESIZES)?;
    counter.run(&day::CLOSING)
}

fn main() {
    // No error comes here: `Output` drops a write that fails.
    let _ = run_all(&Output);
}
