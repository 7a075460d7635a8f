//! What a line is answered if its command is not carried out.
ghost use Rattle.std.specs.Prelude.{◌≡◌};
ghost use Rattle.script.specs.Commands.{why_number};

use model::{InitRefusal, Refusal};

/// Why a line is not answered with a value: a call on the heap or a making was refused, or the line cannot be read.
#[derive(Clone, Copy, Debug, PartialEq, Eq)]
pub enum Why {
    Call(Refusal),
    Make(InitRefusal),
    Unreadable,
}

impl Why {
    /// The number that is written.
    pub fn number(self) -> u32
        ensures { result ≡ why_number self }
    {
        match self {
            Why::Call(refusal) => refusal.number(),
            Why::Make(refusal) => refusal.number(),
            Why::Unreadable => 14,
        }
    }
}
