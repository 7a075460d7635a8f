//! The cases of a base address, and both sides of each edge. Each call is printed with its answer, `ok` and the value or `no` and the number of its refusal,
//! and a place also with its address, base plus offset. What the rules give stands in `stdout`, beside `src/`.
#![tactic(auto)]

mod addressed;
mod cases;
mod gaps;
mod inits;
mod stand;

use printing::Output;
use stand::run;
use std::io;

fn run_all(rt: &impl Print) -> io::Result<()> {
    println!(rt;
        "18 at making: a base that is no multiple of 16, or an arena that ends past 4,294,967,296"
    )?;
    inits::bases(rt)?;
    println!(rt; "\n11 before 18, 18 before 12, 12 before 13")?;
    inits::order(rt)?;
    println!(rt; "\na refused making answers an all-zero record, and table and arena stay")?;
    inits::refused(rt)?;
    println!(rt;
        "\nthe aligned quantity is base plus offset: three bases that are only multiples of 16, then 0 and 4,096, which answer alike"
    )?;
    for base in [536870928, 8208, 4080, 0, 4096] {
        run(rt, &mut [0; 8192], &mut [0; 32], base, &cases::SAME_ALLOCS)?;
    }
    println!(rt; "\na hole whose offset is on the boundary, and one whose address is")?;
    for base in [536870928, 0] {
        run(rt, &mut [0; 224], &mut [0; 32], base, &cases::TWO_HOLES)?;
    }
    top(rt)?;
    println!(rt; "\n8 counts a row for the gap before the block")?;
    gaps::at_start(rt)?;
    gaps::after_block(rt)?;
    resizes(rt)?;
    records(rt)?;
    println!(rt; "\nthrough the drivers' layer")?;
    run(rt, &mut [0; 256], &mut [0; 32], 8208, &cases::DRIVERS_LAYER)
}

fn main() {
    // No error comes here: `Output` drops a write that fails.
    let _ = run_all(&Output);
}

fn top(rt: &impl Print) -> io::Result<()> {
    println!(rt; "\nat the top of the address space")?;
    run(
        rt,
        &mut [0; 4080],
        &mut [0; 32],
        4294963216,
        &cases::TOP_UNEVEN,
    )?;
    run(rt, &mut [0; 4096], &mut [0; 32], 4294963200, &cases::TOP)?;
    run(
        rt,
        &mut [0; 16],
        &mut [0; 4],
        4294967280,
        &cases::LAST_GRANULE,
    )
}

fn resizes(rt: &impl Print) -> io::Result<()> {
    println!(rt;
        "\na resize that moves is aligned to 16, and answers the same offset for each base"
    )?;
    for base in [536870928, 4294967040] {
        run(rt, &mut [0; 256], &mut [0; 32], base, &cases::RESIZES)?;
    }
    Ok(())
}

fn records(rt: &impl Print) -> io::Result<()> {
    println!(rt;
        "\na record whose base breaks the rule is no valid heap, and one with another base that keeps it is"
    )?;
    run(
        rt,
        &mut [0; 256],
        &mut [0; 32],
        536870928,
        &cases::RECORD_BASE,
    )
}
