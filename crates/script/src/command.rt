//! A line that is read: its command, with its numbers.
ghost use Rattle.std.specs.Prelude.{◌≡◌};
ghost use Rattle.script.specs.Text.{fields_of};
ghost use Rattle.script.specs.Commands.{command_of, read_line};

use crate::text::{fields_of, number_in};

/// A line of a script, with its numbers.
#[derive(Clone, Copy, Debug, PartialEq, Eq)]
pub enum Command {
    Limit {
        owner: u32,
        granules: u32,
        blocks: u32,
    },
    Make {
        bytes: u32,
        rows: u32,
    },
    Ask {
        owner: u32,
        size: u32,
        align: u32,
    },
    Back {
        owner: u32,
        offset: u32,
    },
}

/// The command of a line's fields.
fn command_of(line: &[u8]) -> Option<Command>
    ensures { result ≡ command_of (fields_of line.now) }
{
    match fields_of(line) {
        [
            Some(b"limit"),
            Some(owner),
            Some(granules),
            Some(blocks),
            None,
        ] => Some(Command::Limit {
            owner: number_in(owner)?,
            granules: number_in(granules)?,
            blocks: number_in(blocks)?,
        }),
        [Some(b"make"), Some(bytes), Some(rows), None, _] => Some(Command::Make {
            bytes: number_in(bytes)?,
            rows: number_in(rows)?,
        }),
        [Some(b"ask"), Some(owner), Some(size), Some(align), None] => Some(Command::Ask {
            owner: number_in(owner)?,
            size: number_in(size)?,
            align: number_in(align)?,
        }),
        [Some(b"back"), Some(owner), Some(offset), None, _] => Some(Command::Back {
            owner: number_in(owner)?,
            offset: number_in(offset)?,
        }),
        _ => None,
    }
}

/// Reads one line, without its newline: a part of the input. `None` if it cannot be read, as if it has more than 80 bytes.
pub fn read_line(line: &[u8]) -> Option<Command>
    ensures { result ≡ read_line line.now }
{
    if 80 < line.len() {
        return None;
    }
    command_of(line)
}
