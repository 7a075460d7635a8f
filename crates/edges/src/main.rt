//! The least and the largest that a heap accepts or serves, one step past each, and a free between two holes. Each call is printed with its answer, `ok`
//! and the value or `no` and the number of its refusal. What the rules give stands in `stdout`, beside `src/`.
#![tactic(auto)]

use heap::Heap;
use model::Plan;
use printing::Call::{self, Alloc, AllocAligned, Free};
use printing::{Making, Output, Rows, Shown, carry_out};
use std::io;

// Owner 1 has the largest quotas there are, so refusals 5 and 6 never apply.
// Not shared with the other programs: the quotas, the sizes and the printed line are its own, and a shared one would be handed them all.
fn init(rt: &impl Print, arena: &mut [u8], table: &mut [u32]) -> io::Result<Heap> {
    let bytes = arena.len();
    let rows = table.len() / 4;
    let noun = if rows == 1 { "row" } else { "rows" };
    let plan = Plan {
        base: 0,
        guarded: false,
        granule_quotas: [65536, 0, 0, 0, 0, 0, 0, 0],
        block_quotas: [256, 0, 0, 0, 0, 0, 0, 0],
    };
    let out = Heap::init(arena, table, plan);
    let making = Making {
        answer: out.answer,
        bytes,
    };
    println!(rt; "init {bytes} bytes {rows} {noun}: {making}")?;
    Ok(out.heap)
}

// Owner 1's calls, one after the other. The record, the arena and the table are lent each by itself, as they are to the heap.
fn run(
    rt: &impl Print,
    heap: &mut Heap,
    arena: &mut [u8],
    table: &mut [u32],
    calls: &[Call],
) -> io::Result<()> {
    for &call in calls {
        let answer = Shown(carry_out(heap, table, arena, 1, call));
        println!(rt; "{call}: {answer}")?;
    }
    Ok(())
}

// The same on a new heap.
fn run_on_new(
    rt: &impl Print,
    arena: &mut [u8],
    table: &mut [u32],
    calls: &[Call],
) -> io::Result<()> {
    let mut heap = init(rt, arena, table)?;
    run(rt, &mut heap, arena, table, calls)
}

// A block at 0 comes first, so that an alignment shows in the offset.
const ALIGNMENTS: [Call; 6] = [
    AllocAligned { size: 16, on: 16 },
    AllocAligned { size: 16, on: 16 },
    AllocAligned { size: 16, on: 4096 },
    AllocAligned { size: 16, on: 8 },
    AllocAligned { size: 16, on: 24 },
    AllocAligned { size: 16, on: 8192 },
];

// The accepted arena serves one granule, and no more.
fn arenas(rt: &impl Print) -> io::Result<()> {
    let mut table = [0; 4];
    let calls = [Alloc { size: 16 }, Alloc { size: 1 }];
    run_on_new(rt, &mut [0; 16], &mut table, &calls)?;
    init(rt, &mut [0; 0], &mut table)?;
    init(rt, &mut [0; 24], &mut table)?;
    Ok(())
}

// The whole arena by one block, then its last free run by a second; a byte more is refused each time.
fn exact_fill(rt: &impl Print) -> io::Result<()> {
    let mut table = [0; 8];
    let mut arena = [0; 128];
    let whole = [Alloc { size: 129 }, Alloc { size: 128 }];
    run_on_new(rt, &mut arena, &mut table, &whole)?;
    let parts = [
        Alloc { size: 48 },
        Alloc { size: 81 },
        Alloc { size: 80 },
        Alloc { size: 1 },
    ];
    run_on_new(rt, &mut arena, &mut table, &parts)
}

// Each size is asked of a new heap: 48 bytes would leave a rest, which needs a second row.
fn one_row(rt: &impl Print) -> io::Result<()> {
    let mut table = [0; 4];
    let mut arena = [0; 64];
    for size in [64, 48] {
        run_on_new(rt, &mut arena, &mut table, &[Alloc { size }])?;
    }
    Ok(())
}

// Three neighbours, at 16, 64 and 96, with a live block on either side. The outer two of the three come back first.
const OUTER_TWO: [Call; 7] = [
    Alloc { size: 16 },
    Alloc { size: 40 },
    Alloc { size: 20 },
    Alloc { size: 64 },
    Alloc { size: 30 },
    Free { at: 16 },
    Free { at: 96 },
];

// The one between the holes comes back last. The free row at 192 touches none of them, and stays by itself.
fn between_holes(rt: &impl Print) -> io::Result<()> {
    let mut table = [0; 32];
    let mut arena = [0; 256];
    let mut heap = init(rt, &mut arena, &mut table)?;
    run(rt, &mut heap, &mut arena, &mut table, &OUTER_TWO)?;
    println!(rt; "{}", Rows(&heap, &table))?;
    run(rt, &mut heap, &mut arena, &mut table, &[Free { at: 64 }])?;
    println!(rt; "{}", Rows(&heap, &table))
}

fn run_all(rt: &impl Print) -> io::Result<()> {
    println!(rt; "alignment 16 and 4,096 accepted, 8, 24 and 8,192 refused")?;
    run_on_new(rt, &mut [0; 8192], &mut [0; 32], &ALIGNMENTS)?;
    println!(rt; "\narena 16 accepted, 0 and 24 refused")?;
    arenas(rt)?;
    println!(rt; "\nan ask that fills the arena exactly is granted")?;
    exact_fill(rt)?;
    println!(rt;
        "\nwith 4 granules, 1 row and ample limits, an ask for 64 bytes is granted and one for 48 is 8"
    )?;
    one_row(rt)?;
    println!(rt; "\na return between two holes leaves one row of the three")?;
    between_holes(rt)
}

fn main() {
    // No error comes here: `Output` drops a write that fails.
    let _ = run_all(&Output);
}
