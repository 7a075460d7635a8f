//! What a call answers, with addresses.

use model::{Refusal, Resized};
use printing::{Granted, Shown};
use std::fmt;

/// A call's answer as it is printed: an offset with the address that it is at, base plus offset.
#[derive(Clone, Copy, Debug, PartialEq, Eq)]
pub(crate) struct Addressed {
    pub(crate) base: u32,
    pub(crate) answer: Result<Granted, Refusal>,
}

impl fmt::Display for Addressed {
    fn fmt<W: fmt::Write>(&self, f: &mut fmt::Formatter<W>) -> fmt::Result {
        match self.answer {
            Ok(Granted::At(offset)) | Ok(Granted::Resized(Resized::At(offset))) => {
                let address = u64::from(self.base) + u64::from(offset);
                write!(f, "ok {offset} address {address}")
            }
            answer => write!(f, "{}", Shown(answer)),
        }
    }
}
