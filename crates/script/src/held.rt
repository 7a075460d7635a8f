//! What has come of a line whose newline has not come yet.
ghost use Rattle.std.specs.Prelude.{◌≡◌, ◌++◌, take, replicate};
ghost use Rattle.script.specs.Commands.{read_line};
ghost use Rattle.script.specs.Session.{most_held, held_bytes};
ghost use Rattle.script.specs.Steps.{held_with};

use crate::command::{Command, read_line};

/// What has come of a line: the first `count` bytes of `line`, 81 of a line that is too long.
// Fixed memory, and any count may come in (`FeedDone`): no Vec, no invariant.
#[derive(Clone, Copy, Debug, PartialEq, Eq)]
pub struct Held {
    pub line: [u8; 81],
    pub count: usize,
}

impl Held {
    /// Nothing has come.
    pub(crate) fn new() -> Held
        ensures line { result.line ≡ replicate most_held 0 }
        ensures count { result.count ≡ 0 }
    {
        Held {
            line: [0; 81],
            count: 0,
        }
    }

    /// What has come.
    pub(crate) fn as_slice(&self) -> &[u8]
        ensures { result.now ≡ held_bytes self.now }
    {
        &self.line[..self.count.min(81)]
    }

    /// Holds more of the line: 81 bytes at most.
    pub(crate) fn hold(&mut self, part: &[u8])
        ensures { self.new ≡ held_with self.old part.now }
    {
        let from = self.count.min(81);
        let n = part.len().min(81 - from);
        self.line[from..from + n].copy_from_slice(&part[..n]);
        self.count = from + n;
    }

    /// Reads the line that ends in a part of the input: in the part itself, unless some of the line is held.
    pub(crate) fn read_ended(&self, part: &[u8]) -> Option<Command>
        ensures { result ≡ read_line (held_bytes self.now ++ part.now) }
    {
        if self.count == 0 {
            return read_line(part);
        }
        let mut whole = *self;
        whole.hold(part);
        read_line(whole.as_slice())
    }
}
