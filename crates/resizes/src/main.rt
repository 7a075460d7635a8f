//! The cases of a resize: where the block goes and what is zeroed, every refusal in its order, and both sides of each edge. Each call is printed with its
//! answer, `ok` and the value or `no` and the number of its refusal. What the rules give stands in `stdout`, beside `src/`.
#![tactic(auto)]

mod afterwards;
mod places;
mod refusals;
mod stand;

use printing::Output;
use stand::run;
use std::io;

fn run_all(rt: &impl Print) -> io::Result<()> {
    println!(rt; "the same granule count only changes the bytes asked")?;
    run(rt, &places::SAME_COUNT)?;
    println!(rt; "\na shorter block gives its tail back, zeroed")?;
    run(rt, &places::SHORTER)?;
    println!(rt; "\na longer one first takes from the free run at its right")?;
    run(rt, &places::LONGER_IN_PLACE)?;
    println!(rt;
        "\nif that is too short it goes to the lowest place clear of all live blocks, itself included"
    )?;
    run(rt, &places::HIGHER_AND_LOWER)?;
    run(rt, &places::BETWEEN_TWO_HOLES)?;
    run(rt, &places::ALIGNMENT_FORGOTTEN)?;
    println!(rt; "\na longer one at the arena's end")?;
    run(rt, &places::END_WITH_NO_PLACE)?;
    run(rt, &places::END_WITH_A_PLACE)?;
    println!(rt; "\nno place though the free total would do, and nothing changes")?;
    run(rt, &places::NO_PLACE)?;
    println!(rt; "\nsize 0 is a return and answers as one")?;
    run(rt, &refusals::FREES)?;
    println!(rt; "\nrefusals 1, 11, 2, 15, 16, 17, 9, 10, 6, 7, 8, in this order")?;
    refusals::refusals(rt)?;
    run(rt, &refusals::FULL_TABLE)?;
    println!(rt; "\n8 counts the rows afterwards")?;
    run(rt, &afterwards::ROWS_IN_PLACE)?;
    run(rt, &afterwards::ROWS_OF_MOVES)?;
    println!(rt; "\npeak counts the state after the call")?;
    run(rt, &afterwards::PEAK_FOLLOWS)?;
    run(rt, &afterwards::PEAK_STAYS)
}

fn main() {
    // No error comes here: `Output` drops a write that fails.
    let _ = run_all(&Output);
}
