//! A command carried out on the heap that stands in the lent table and arena.
ghost use Rattle.std.specs.Prelude.{◌≡◌, List, ℕ, ◌*◌, ◌≤◌, min, length, Some};
ghost use Rattle.script.specs.Commands.{answer_numbered};
ghost use Rattle.script.specs.Machine.{machine, started, plan_of, limit_order, call_answer, make_answer, answer_to, numbered_to, after};
ghost use Rattle.script.specs.Steps.{part_of};
ghost use Rattle.script.specs.declared.command.Command.TheVariants.{Limit, Make, Ask, Back};

use crate::answer::Why;
use crate::command::Command;
use heap::{Heap, is_owner};
use model::{InitRefusal, Plan, Refusal};

/// What a script keeps beside the lent table and arena: the quotas for the next make, and the heap's record, all zero until a make is granted.
// The record is no `Option`: an ask before a make is a call on a record that is no heap, and gets its 1 (`started`). The quotas are two arrays as in `Plan`.
#[derive(Clone, Copy, Debug, PartialEq, Eq)]
pub struct Script {
    pub granule_quotas: [u32; 8],
    pub block_quotas: [u32; 8],
    pub heap: Heap,
}

/// The length of the part that a make hands on: 0 if fewer are lent.
// A length and no `Option`: a make with nothing lent is refused by its own reason, 11 or 12 (`part_of`).
fn part(wanted: usize, lent: usize) -> usize
    ensures part { result ≡ part_of wanted lent }
    ensures within { result ≤ lent }
{
    if lent < wanted { 0 } else { wanted }
}

// A product of a number that a line or a record brings is taken only where so many are lent: so no `usize` here needs more bits than a length does.
/// The words of so many rows, or all that are lent if those are fewer.
pub(crate) fn words_lent(rows: u32, lent: usize) -> usize
    ensures { result ≡ min (4 * rows) lent }
{
    let rows = rows as usize;
    if lent / 4 < rows {
        return lent;
    }
    prove!(4 * rows <= lent);
    4 * rows
}

/// The bytes of so many granules, or all that are lent if those are fewer.
fn bytes_lent(granules: u32, lent: usize) -> usize
    ensures { result ≡ min (16 * granules) lent }
{
    let granules = granules as usize;
    if lent / 16 < granules {
        return lent;
    }
    prove!(16 * granules <= lent);
    16 * granules
}

/// The words of so many rows, for a make: 0 if fewer are lent.
fn words_part(rows: u32, lent: usize) -> usize
    ensures part { result ≡ part_of (4 * rows) lent }
    ensures within { result ≤ lent }
{
    let rows = rows as usize;
    if lent / 4 < rows {
        return 0;
    }
    prove!(4 * rows <= lent);
    4 * rows
}

// The table and the arena stay two lent slices beside the record, here and in a session: a rule of the project.
impl Script {
    /// A script before any line.
    pub(crate) fn start() -> Script
        ensures { result ≡ started }
    {
        Script {
            granule_quotas: [0; 8],
            block_quotas: [0; 8],
            heap: Heap::zero(),
        }
    }

    // A method and no `From`: a script is no plan, and only a make asks for one.
    /// What a make is handed: its heaps have base 0 and no guards, and the quotas that the limit lines gave.
    fn plan(&self) -> Plan
        ensures { result ≡ plan_of self.now }
    {
        Plan {
            base: 0,
            guarded: false,
            granule_quotas: self.granule_quotas,
            block_quotas: self.block_quotas,
        }
    }

    /// `limit O G B`: the quotas of an owner at the next make. Refused with 2.
    fn limit(&mut self, owner: u32, granules: u32, blocks: u32) -> Result<u32, Refusal>
        ensures answer { (ws bs : List ℕ) → call_answer result ≡ answer_to (machine self.old ws bs) (Some (Limit owner granules blocks)) }
        ensures leaves { (ws bs : List ℕ) → machine self.new ws bs ≡ after (machine self.old ws bs) (Some (Limit owner granules blocks)) }
    {
        if !is_owner(owner) {
            return Err(Refusal::BadOwner);
        }
        let i = (owner - 1) as usize;
        self.granule_quotas[i] = granules;
        self.block_quotas[i] = blocks;
        Ok(granules)
    }

    /// `make BYTES ROWS`: a new heap of the quotas that the limit lines gave. Refused with 11, 12, 13, in this order; then the heap stays that there was.
    fn make(
        &mut self,
        table: &mut [u32],
        arena: &mut [u8],
        bytes: u32,
        rows: u32,
    ) -> Result<u32, InitRefusal>
        ensures answer { make_answer result ≡ answer_to (machine self.old table.old arena.old) (Some (Make bytes rows)) }
        ensures leaves { machine self.new table.new arena.new ≡ after (machine self.old table.old arena.old) (Some (Make bytes rows)) }
    {
        let n = part(bytes as usize, arena.len().min(65536));
        let k = words_part(rows, table.len());
        let made = Heap::init(&mut arena[..n], &mut table[..k], self.plan());
        made.answer?;
        self.heap = made.heap;
        Ok(bytes)
    }

    // Not one function with `back`: what they share is the two parts that are lent, and a closure for the call would be longer.
    /// `ask O N A`: an allocation. Refused with 1 to 8, in this order; a record with guards, which no make leaves, has its 11 after 1.
    fn ask(
        &mut self,
        table: &mut [u32],
        arena: &mut [u8],
        owner: u32,
        size: u32,
        align: u32,
    ) -> Result<u32, Refusal>
        ensures answer { call_answer result ≡ answer_to (machine self.old table.old arena.old) (Some (Ask owner size align)) }
        ensures leaves { machine self.new table.new arena.new ≡ after (machine self.old table.old arena.old) (Some (Ask owner size align)) }
    {
        let n = words_lent(self.heap.capacity, table.len());
        let k = bytes_lent(self.heap.granules, arena.len());
        let heap = self.heap;
        let out = heap.alloc_aligned(&mut table[..n], &mut arena[..k], owner, size, align);
        self.heap = out.heap;
        out.answer
    }

    /// `back O OFFSET`: a free. Refused with 1, 11, 2, 15, 16, 17, 9, 10, in this order; 11 only if fewer bytes are lent than the heap was made with.
    /// A record with guards, which no make leaves, has 19 at last.
    fn back(
        &mut self,
        table: &mut [u32],
        arena: &mut [u8],
        owner: u32,
        offset: u32,
    ) -> Result<u32, Refusal>
        ensures answer { call_answer result ≡ answer_to (machine self.old table.old arena.old) (Some (Back owner offset)) }
        ensures leaves { machine self.new table.new arena.new ≡ after (machine self.old table.old arena.old) (Some (Back owner offset)) }
    {
        let n = words_lent(self.heap.capacity, table.len());
        let k = bytes_lent(self.heap.granules, arena.len());
        let heap = self.heap;
        let out = heap.free(&mut table[..n], &mut arena[..k], owner, offset);
        self.heap = out.heap;
        out.answer
    }

    /// Carries out one command; `None` is a line that cannot be read. A command that is refused changes nothing.
    pub fn carry_out(
        &mut self,
        table: &mut [u32],
        arena: &mut [u8],
        command: Option<Command>,
    ) -> Result<u32, Why>
        ensures answer { result ≡ answer_to (machine self.old table.old arena.old) command }
        ensures numbered { answer_numbered result ≡ numbered_to (machine self.old table.old arena.old) command }
        ensures leaves { machine self.new table.new arena.new ≡ after (machine self.old table.old arena.old) command }
    {
        let Some(command) = command else {
            return Err(Why::Unreadable);
        };
        // A `match` and no closures: a command is data that was read.
        match command {
            Command::Limit {
                owner,
                granules,
                blocks,
            } => self.limit(owner, granules, blocks).map_err(Why::Call),
            Command::Make { bytes, rows } => {
                self.make(table, arena, bytes, rows).map_err(Why::Make)
            }
            Command::Ask { owner, size, align } => {
                self.ask(table, arena, owner, size, align)
                    .map_err(Why::Call)
            }
            Command::Back { owner, offset } => {
                self.back(table, arena, owner, offset).map_err(Why::Call)
            }
        }
    }
}
