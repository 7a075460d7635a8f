//! What the programs over the heap have in common: the calls of a task and what they answer, both as they are printed, the rows and bytes of a heap, and the
//! standard output that they print on.
#![tactic(auto)]

mod answers;
mod calls;
mod memory;
mod output;

pub use answers::{Granted, Making, Shown};
pub use calls::{Call, carry_out, totals, trace};
pub use memory::{Bytes, Rows, write};
pub use output::Output;
