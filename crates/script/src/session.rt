//! A whole input that comes in parts of any length.
ghost use Rattle.std.specs.Prelude.{◌≡◌, List, ℕ, ◌+◌, ◌≤◌, length, replicate, Option};
ghost use Rattle.script.specs.Commands.{answer_line, answer_most};
ghost use Rattle.script.specs.Machine.{machine, started, answer_to, after};
ghost use Rattle.script.specs.Session.{most_held, answers_to, after_lines};
ghost use Rattle.script.specs.Promises.{FeedDone, FinishDone, last_lines};
ghost use Rattle.script.specs.Steps.{Put};

use crate::carrying_out::Script;
use crate::command::{Command, read_line};
use crate::held::Held;
use crate::lines_out::Out;
use crate::text::newline;

/// A script whose input comes in parts, with what has come of a line.
#[derive(Clone, Copy, Debug, PartialEq, Eq)]
pub struct Session {
    pub script: Script,
    pub held: Held,
}

/// How many bytes of a part of the input were taken, and how many were written.
#[derive(Clone, Copy, Debug, PartialEq, Eq)]
pub struct Fed {
    pub taken: usize,
    pub written: usize,
}

impl Script {
    /// Carries out a command, and puts its answer.
    fn answer(
        &mut self,
        table: &mut [u32],
        arena: &mut [u8],
        command: Option<Command>,
        out: &mut Out,
    )
        requires { out.old.end + 14 ≤ length out.old.bytes.now }
        ensures leaves { machine self.new table.new arena.new ≡ after (machine self.old table.old arena.old) command }
        ensures put { Put (answer_line (answer_to (machine self.old table.old arena.old) command)) out.old.bytes.now out.old.end out.new.end out.new.bytes.now }
        ensures most { out.new.end ≤ out.old.end + answer_most }
        ensures same_reference { out.new.bytes.ghost_name ≡ out.old.bytes.ghost_name }
    {
        let answer = self.carry_out(table, arena, command);
        out.put_answer(answer);
    }
}

impl Session {
    /// A session before any line.
    pub fn start() -> Session
        ensures script { result.script ≡ started }
        ensures line { result.held.line ≡ replicate most_held 0 }
        ensures count { result.held.count ≡ 0 }
    {
        Session {
            script: Script::start(),
            held: Held::new(),
        }
    }

    /// Answers each line that ends in a part of the input, and holds what is begun of the next. Of the part as many bytes are taken as the answers have room
    /// for: all with 14 bytes of buffer for each, none with fewer than 14 bytes of buffer.
    pub fn feed(&mut self, table: &mut [u32], arena: &mut [u8], input: &[u8], out: &mut [u8]) -> Fed
        ensures { FeedDone self.old table.old arena.old input.now out.old result self.new table.new arena.new out.new }
    {
        let taken = input.len().min(out.len() / 14);
        let mut out = Out { bytes: out, end: 0 };
        let mut rest = &input[..taken];
        while let Some(n) = newline(rest) {
            let command = self.held.read_ended(&rest[..n]);
            self.script.answer(table, arena, command, &mut out);
            self.held.count = 0;
            rest = &rest[n + 1..];
        }
        self.held.hold(rest);
        Fed {
            taken,
            written: out.end,
        }
    }

    /// Answers what is held, a line without its newline, unless nothing is.
    fn answer_held(&mut self, table: &mut [u32], arena: &mut [u8], out: &mut Out)
        requires { out.old.end + 14 ≤ length out.old.bytes.now }
        ensures leaves { machine self.new.script table.new arena.new ≡ after_lines (machine self.old.script table.old arena.old) (last_lines self.old) }
        ensures put { Put (answers_to (machine self.old.script table.old arena.old) (last_lines self.old)) out.old.bytes.now out.old.end out.new.end out.new.bytes.now }
        ensures most { out.new.end ≤ out.old.end + answer_most }
        ensures same_reference { out.new.bytes.ghost_name ≡ out.old.bytes.ghost_name }
    {
        if self.held.count == 0 {
            return;
        }
        let command = read_line(self.held.as_slice());
        self.script.answer(table, arena, command, out);
    }

    /// The end of the input: answers what is held, a line without its newline, puts the rows and the totals, and says how many bytes were put. `None`, and
    /// nothing is done, with a buffer of fewer than 25,664 bytes, the most that these can need.
    pub fn finish(mut self, table: &mut [u32], arena: &mut [u8], out: &mut [u8]) -> Option<usize>
        ensures { FinishDone self table.old arena.old out.old result table.new arena.new out.new }
    {
        if out.len() < 25664 {
            return None;
        }
        let mut out = Out { bytes: out, end: 0 };
        self.answer_held(table, arena, &mut out);
        out.put_closing(self.script, table);
        Some(out.end)
    }
}
