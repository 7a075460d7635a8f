//! The makings, granted and refused.

use crate::stand::Step::Of;
use crate::stand::{Stand, init};
use heap::Heap;
use printing::Call::Alloc;
use std::io;

/// A base that is no multiple of 16, or an arena that ends past 4,294,967,296.
pub(crate) fn bases(rt: &impl Print) -> io::Result<()> {
    remainders(rt)?;
    ends(rt)
}

// The remainder by 16, and the last granule of the address space.
fn remainders(rt: &impl Print) -> io::Result<()> {
    let mut table = [0; 4];
    let mut arena = [0; 16];
    for base in [0, 8, 15, 16, 17, 4294967280, 4294967295] {
        init(rt, &mut arena, &mut table, base, 256)?;
    }
    Ok(())
}

// An arena that ends at 4,294,967,296, and one that ends a granule past it.
fn ends(rt: &impl Print) -> io::Result<()> {
    let mut table = [0; 4];
    let mut two = [0; 32];
    init(rt, &mut two, &mut table, 4294967264, 256)?;
    init(rt, &mut two, &mut table, 4294967280, 256)?;
    let mut three = [0; 48];
    init(rt, &mut three, &mut table, 4294967248, 256)?;
    init(rt, &mut three, &mut table, 4294967264, 256)?;
    let mut large = [0; 65536];
    init(rt, &mut large, &mut table, 4294901760, 256)?;
    init(rt, &mut large, &mut table, 4294901776, 256)?;
    Ok(())
}

/// 11, 18, 12 and 13 in their order: 24 bytes are no arena, 6 words are no table, and 257 blocks are one more than a quota may be.
pub(crate) fn order(rt: &impl Print) -> io::Result<()> {
    before_table(rt)?;
    before_quota(rt)
}

fn before_table(rt: &impl Print) -> io::Result<()> {
    let mut table = [0; 4];
    let mut uneven_table = [0; 6];
    let mut arena = [0; 16];
    let mut two = [0; 32];
    let mut uneven = [0; 24];
    init(rt, &mut uneven, &mut table, 8, 256)?;
    init(rt, &mut uneven, &mut uneven_table, 4294967280, 256)?;
    init(rt, &mut arena, &mut uneven_table, 8, 256)?;
    init(rt, &mut two, &mut uneven_table, 4294967280, 256)?;
    init(rt, &mut arena, &mut uneven_table, 16, 256)?;
    Ok(())
}

fn before_quota(rt: &impl Print) -> io::Result<()> {
    let mut table = [0; 4];
    let mut uneven_table = [0; 6];
    let mut arena = [0; 16];
    let mut uneven = [0; 24];
    init_257(rt, &mut uneven, &mut uneven_table, 8)?;
    init_257(rt, &mut arena, &mut table, 8)?;
    init_257(rt, &mut arena, &mut uneven_table, 16)?;
    init_257(rt, &mut arena, &mut table, 16)
}

fn init_257(rt: &impl Print, arena: &mut [u8], table: &mut [u32], base: u32) -> io::Result<()> {
    print!(rt; "with a block quota of 257, ")?;
    init(rt, arena, table, base, 257)?;
    Ok(())
}

/// A refused making leaves the table and the arena, and the heap of before goes on with its own record.
pub(crate) fn refused(rt: &impl Print) -> io::Result<()> {
    let mut table = [0; 32];
    let mut arena = [0; 256];
    let mut stand = Stand::init(rt, &mut arena, &mut table, 16)?;
    print_record(rt, stand.heap)?;
    stand.run(&[Of(Alloc { size: 40 })])?;
    let heap = stand.heap;
    arena[0] = 5;
    println!(rt; "byte 0: {}", arena[0])?;
    let mut refused = Stand::init(rt, &mut arena, &mut table, 24)?;
    print_record(rt, refused.heap)?;
    refused.run(&[Of(Alloc { size: 16 })])?;
    println!(rt; "byte 0: {}", arena[0])?;
    print!(rt; "with the record of before, ")?;
    let mut before = Stand {
        rt,
        heap,
        table: &mut table,
        arena: &mut arena,
    };
    before.run(&[Of(Alloc { size: 16 })])
}

// The record, without its quotas. Not shared with `guards`, which prints other fields of it.
fn print_record(rt: &impl Print, heap: Heap) -> io::Result<()> {
    let Heap {
        capacity,
        rows,
        granules,
        base,
        used,
        peak,
        ..
    } = heap;
    println!(rt;
        "record capacity {capacity} rows {rows} granules {granules} base {base} used {used} peak {peak}"
    )
}
