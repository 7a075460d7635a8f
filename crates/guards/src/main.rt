//! The cases of guards: how they are counted and filled, the answer when one is broken and its place in the order, and both sides of each edge. Each call is
//! printed with its answer, `ok` and the value or `no` and the number of its refusal. What the rules give stands in `stdout`, beside `src/`.
#![tactic(auto)]

mod cases;
mod stand;
mod validity;

use heap::Heap;
use printing::Call::Alloc;
use printing::Output;
use stand::Step::{In, Init};
use stand::{Stand, run, run_on};
use std::io;

fn run_all(rt: &impl Print) -> io::Result<()> {
    println!(rt; "a heap is made with guards or without, and the record says which")?;
    run(rt, &cases::MAKING)?;
    println!(rt; "\nthe granules are those of the size and one more, which is the guard")?;
    run(rt, &cases::SIZES)?;
    run(rt, &cases::SIZES_UNGUARDED)?;
    println!(rt; "\na write past the end gets 19 if it meets the guard, and nothing changes")?;
    run(rt, &cases::PAST_END)?;
    println!(rt;
        "\na broken guard stops no enquiry and no other block; 11 and 10 come before 19, and 19 before 6"
    )?;
    run(rt, &cases::ORDER)?;
    println!(rt; "\nquotas count the guard")?;
    run(rt, &cases::QUOTAS)?;
    fills(rt)?;
    other_arenas(rt)?;
    println!(rt;
        "\na resize zeroes the old guard, moves the bytes as before, and fills the new guard"
    )?;
    run(rt, &cases::RESIZES)?;
    println!(rt; "\na record or a row that breaks the rules of guards is no valid heap")?;
    validity::validity(rt)?;
    println!(rt; "\nalignment and base count from the block's first byte")?;
    run_on(rt, 536870928, &cases::ALIGNMENT)?;
    run(rt, &cases::AT_END)?;
    println!(rt; "\nthrough the drivers' layer")?;
    run_on(rt, 8208, &cases::DRIVERS_LAYER)
}

fn main() {
    // No error comes here: `Output` drops a write that fails.
    let _ = run_all(&Output);
}

fn fills(rt: &impl Print) -> io::Result<()> {
    println!(rt; "\nan arena full but for the guard, an exact fill, and 8")?;
    run(rt, &cases::FILLS)?;
    Stand::new(rt, 0, &mut [0; 4], &mut [0; 16]).run(&cases::LEAST_ARENA)?;
    Stand::new(rt, 0, &mut [0; 4], &mut [0; 256]).run(&cases::SINGLE_ROW)
}

// The first call's record is no heap's.
fn other_arenas(rt: &impl Print) -> io::Result<()> {
    println!(rt;
        "\nan ask of a guarded heap gets 11 for another arena, after 1 and before 2; one of an unguarded heap takes any, and leaves it"
    )?;
    let mut table = [0; 32];
    let mut arena = [0; 256];
    let mut stand = Stand::new(rt, 0, &mut table, &mut arena);
    stand.run(&[Init { guarded: true }])?;
    let heap = stand.heap;
    print!(rt; "with a zero record, ")?;
    stand.heap = Heap::zero();
    stand.run(&[In(240, 1, Alloc { size: 16 })])?;
    stand.heap = heap;
    stand.run(&cases::GUARDED_IN_OTHERS)?;
    run(rt, &cases::UNGUARDED_IN_OTHERS)
}
