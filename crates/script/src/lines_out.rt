//! Lines written into a lent buffer: an answer, and the rows and totals at the end.
ghost use Rattle.std.specs.Prelude.{◌≡◌, List, [], ◌∷◌, ℕ, ◌+◌, ◌*◌, ◌≤◌, ◌<◌, ◌^◌, length, Result};
ghost use Rattle.script.specs.Text.{decimal, spaced, line_of};
ghost use Rattle.script.specs.Commands.{answer_line, answer_most};
ghost use Rattle.script.specs.Machine.{machine, seg_lines, closing};
ghost use Rattle.script.specs.Promises.{WriteDone};
ghost use Rattle.script.specs.Steps.{Put};

use crate::answer::Why;
use crate::carrying_out::{Script, words_lent};
use itoa::Buffer;
use segments::RowList;

/// A lent buffer, and the place after what is written in it.
// The buffer is lent, so its room is asked of each line by a `requires`; std's `Display` would promise no exact bytes of it. A number is cast by `as`: the
// lemmas on a line's numbers do not see through `u64::from`.
#[derive(Drop)]
pub(crate) struct Out<'a> {
    pub(crate) bytes: &'a mut [u8],
    pub(crate) end: usize,
}

impl<'a> Out<'a> {
    /// Puts a text.
    fn put(&mut self, text: &[u8])
        requires { self.old.end + length text.now ≤ length self.old.bytes.now }
        ensures put { Put text.now self.old.bytes.now self.old.end self.new.end self.new.bytes.now }
        ensures same_reference { self.new.bytes.ghost_name ≡ self.old.bytes.ghost_name }
    {
        let end = self.end + text.len();
        self.bytes[self.end..end].copy_from_slice(text);
        self.end = end;
    }

    /// Puts a space and a number in decimal digits.
    fn put_spaced(&mut self, n: u64)
        requires { self.old.end + length (spaced (n ∷ [])) ≤ length self.old.bytes.now }
        ensures put { Put (spaced (n ∷ [])) self.old.bytes.now self.old.end self.new.end self.new.bytes.now }
        ensures same_reference { self.new.bytes.ghost_name ≡ self.old.bytes.ghost_name }
    {
        let mut buffer = Buffer::new();
        let digits = buffer.format(n).as_bytes();
        self.put(b" ");
        self.put(digits);
    }

    /// Puts a line: a word and its numbers.
    fn put_line(&mut self, word: &[u8], numbers: &[u64])
        requires { self.old.end + length (line_of word.now numbers.now) ≤ length self.old.bytes.now }
        ensures put { Put (line_of word.now numbers.now) self.old.bytes.now self.old.end self.new.end self.new.bytes.now }
        ensures same_reference { self.new.bytes.ghost_name ≡ self.old.bytes.ghost_name }
    {
        self.put(word);
        for &n in numbers {
            self.put_spaced(n);
        }
        self.put(b"\n");
    }

    /// Puts an answer's line, which has at most 14 bytes.
    pub(crate) fn put_answer(&mut self, answer: Result<u32, Why>)
        requires { self.old.end + 14 ≤ length self.old.bytes.now }
        ensures put { Put (answer_line answer) self.old.bytes.now self.old.end self.new.end self.new.bytes.now }
        ensures most { self.new.end ≤ self.old.end + answer_most }
        ensures same_reference { self.new.bytes.ghost_name ≡ self.old.bytes.ghost_name }
    {
        match answer {
            Ok(value) => self.put_line(b"ok", &[value as u64]),
            Err(why) => self.put_line(b"no", &[why.number() as u64]),
        }
    }

    /// Puts the lines of rows, each of at most 50 bytes.
    fn put_rows(&mut self, rows: &RowList)
        requires { self.old.end + 50 * length rows.now ≤ length self.old.bytes.now }
        ensures put { Put (seg_lines rows.now) self.old.bytes.now self.old.end self.new.end self.new.bytes.now }
        ensures most { self.new.end ≤ self.old.end + 50 * length rows.now }
        ensures same_reference { self.new.bytes.ghost_name ≡ self.old.bytes.ghost_name }
    {
        for i in 0..rows.len() {
            let s = rows.get(i);
            let start = 16 * s.start as u64;
            let length = 16 * s.length as u64;
            self.put_line(b"seg", &[start, length, s.owner as u64, s.requested as u64]);
        }
    }

    /// Puts what comes at the end, at most 512 rows and the totals: nothing if there is no heap.
    pub(crate) fn put_closing(&mut self, script: Script, table: &[u32])
        requires { self.old.end + 25650 ≤ length self.old.bytes.now }
        ensures put { (bs : List ℕ) → Put (closing (machine script table.now bs)) self.old.bytes.now self.old.end self.new.end self.new.bytes.now }
        ensures most { self.new.end ≤ self.old.end + 25650 }
        ensures same_reference { self.new.bytes.ghost_name ≡ self.old.bytes.ghost_name }
    {
        let heap = script.heap;
        let n = words_lent(heap.capacity, table.len());
        let table = &table[..n];
        let Ok(totals) = heap.totals(table) else {
            return;
        };
        self.put_rows(&RowList::new(table, heap.rows as usize));
        let used = totals.used as u64;
        let free = totals.free as u64;
        let peak = totals.peak as u64;
        self.put_line(b"sum", &[used, free, peak, totals.longest as u64]);
    }
}

/// Puts an answer's line at the front of a lent buffer of at least 14 bytes, and says how many bytes it has. `None`, and the buffer stays, if that is shorter.
pub fn write_answer(answer: Result<u32, Why>, out: &mut [u8]) -> Option<usize>
    ensures { WriteDone (answer_line answer) answer_most out.old result out.new }
{
    if out.len() < 14 {
        return None;
    }
    let mut out = Out { bytes: out, end: 0 };
    out.put_answer(answer);
    Some(out.end)
}
