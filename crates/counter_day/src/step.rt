//! The tasks at the counter, and the steps that its day is made of.

use printing::Call;
use std::fmt;

/// A task at the counter.
#[derive(Clone, Copy, Debug, PartialEq, Eq)]
pub(crate) enum Task {
    /// A checkout task, by its number, which is its owner's.
    Checkout(u32),
    Modem,
}

impl Task {
    /// The number under which the task borrows.
    pub(crate) fn owner(self) -> u32 {
        match self {
            Task::Checkout(number) => number,
            Task::Modem => 3,
        }
    }
}

impl fmt::Display for Task {
    fn fmt<W: fmt::Write>(&self, f: &mut fmt::Formatter<W>) -> fmt::Result {
        match self {
            Task::Checkout(number) => write!(f, "checkout {number}"),
            Task::Modem => f.write_str("modem"),
        }
    }
}

/// One step of the day.
#[derive(Clone, Copy, Debug, PartialEq, Eq)]
pub(crate) enum Step {
    /// `By(task, call)`: a task's call.
    By(Task, Call),
    /// The totals are asked for.
    Totals,
    /// `Write(value, at)`: a task sets the byte at offset `at` to `value`. It is in the arena, and nothing is printed.
    Write(u8, usize),
    /// The byte at an offset is read.
    Byte(usize),
}
