//! Standard output whose failures are dropped.

ghost use Rattle.std.specs.Prelude.{◌≡◌, Ok};

use arrayvec::ArrayString;
use std::fmt;
use std::fmt::{Display, Formatter};

/// Standard output. A write that fails is dropped, and the next one is tried all the same: a program over it goes on to its end, with status 0, whatever
/// becomes of what it prints.
// Over the kit's `io`, whose `write_all` rests on the contract of the C library's `write` alone, and answers whether all was written. An `Ok` here does not say
// that it was, as that of std's standard output does.
#[derive(Clone, Copy, Debug, PartialEq, Eq)]
pub struct Output;

impl Print for Output {
    fn print<D: Display + Drop>(&self, value: D) -> std::io::Result<()>
        ensures { result ≡ Ok tt }
    {
        let mut f = Formatter::new(Pending(ArrayString::new()));
        let _ = f.write(value);
        f.into_inner().write_out();
        Ok(())
    }

    fn println<D: Display + Drop>(&self, value: D) -> std::io::Result<()>
        ensures { result ≡ Ok tt }
    {
        self.print(format_args!("{value}\n"))
    }

    fn write_all(&self, bytes: &[u8]) -> std::io::Result<()>
        ensures { result ≡ Ok tt }
    {
        let _ = io::write_all(1, bytes);
        Ok(())
    }
}

// Text that is still to be written, so that what is printed at once is written at once. Each print has its own on the stack: the room is that of a long line.
#[derive(Drop)]
struct Pending(ArrayString<256>);

impl Pending {
    fn write_out(&mut self) {
        let _ = io::write_all(1, self.0.as_str().as_bytes());
        self.0.clear();
    }
}

impl fmt::Write for Pending {
    fn write_str(&mut self, text: &str) -> fmt::Result
        ensures { result ≡ Ok tt }
    {
        if self.0.try_push_str(text).is_err() {
            self.write_out();
            // Longer than all that may be pending: it is written by itself.
            if self.0.try_push_str(text).is_err() {
                let _ = io::write_all(1, text.as_bytes());
            }
        }
        Ok(())
    }
}
