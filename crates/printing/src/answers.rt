//! What calls answer, as it is printed: `ok` and the values, or `no` and the number of the refusal.

use model::{BlockSize, Holding, InitRefusal, Refusal, Resized, Totals};
use std::fmt;

/// What a call that is not refused answers.
#[derive(Clone, Copy, Debug, PartialEq, Eq)]
pub enum Granted {
    /// The offset of a block that is lent.
    At(u32),
    /// The bytes that a free gave back.
    Freed(u32),
    Resized(Resized),
    BlockSize(BlockSize),
    Holding(Holding),
    Totals(Totals),
}

/// What a resize to size 0 gives back is printed as `N bytes`, so that it is not read as an offset.
impl fmt::Display for Granted {
    fn fmt<W: fmt::Write>(&self, f: &mut fmt::Formatter<W>) -> fmt::Result {
        match *self {
            Granted::At(value) | Granted::Freed(value) | Granted::Resized(Resized::At(value)) => {
                write!(f, "{value}")
            }
            Granted::Resized(Resized::Freed(bytes)) => write!(f, "{bytes} bytes"),
            Granted::BlockSize(BlockSize { requested, held }) => {
                write!(f, "requested {requested} held {held}")
            }
            Granted::Holding(Holding { blocks, bytes }) => {
                write!(f, "blocks {blocks} bytes {bytes}")
            }
            Granted::Totals(
                Totals {
                    used,
                    free,
                    peak,
                    longest,
                },
            ) => write!(f, "used {used} free {free} peak {peak} longest {longest}"),
        }
    }
}

/// A call's answer as it is printed.
#[derive(Clone, Copy, Debug, PartialEq, Eq)]
pub struct Shown(pub Result<Granted, Refusal>);

impl fmt::Display for Shown {
    fn fmt<W: fmt::Write>(&self, f: &mut fmt::Formatter<W>) -> fmt::Result {
        match self.0 {
            Ok(granted) => write!(f, "ok {granted}"),
            Err(why) => write!(f, "no {}", why.number()),
        }
    }
}

/// A making's answer as it is printed. It has no value: what is printed is the arena's length in bytes.
// Not one with `Shown`: a making is refused for other reasons.
#[derive(Clone, Copy, Debug, PartialEq, Eq)]
pub struct Making {
    pub answer: Result<(), InitRefusal>,
    pub bytes: usize,
}

impl fmt::Display for Making {
    fn fmt<W: fmt::Write>(&self, f: &mut fmt::Formatter<W>) -> fmt::Result {
        match self.answer {
            Ok(()) => write!(f, "ok {}", self.bytes),
            Err(why) => write!(f, "no {}", why.number()),
        }
    }
}
