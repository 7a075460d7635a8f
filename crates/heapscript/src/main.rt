//! Runs a script of requests: reads standard input to its end, and writes the answer to each line, and the heap at the end, to standard output.
#![tactic(auto)]

ghost use Rattle.std.specs.Prelude.{◌≡◌, ℕ, ◌*◌, ◌≤◌, length, take, IfOk, OnOk, OnErr};
ghost use Rattle.std.specs.Io.KnownBytes.{Appends};
ghost use Rattle.script.specs.Promises.{FeedDone};
ghost use Rattle.heapscript.specs.Steps.{AnswersPart, StopsPart, AnswersInput, StopsInput, WritesEnd, StopsEnd};
ghost use Rattle.heapscript.specs.Whole.{AnswersScript, StopsScript};

use script::{Fed, Session};
use std::io;
use std::io::{Read, Write};

// The session, the table and the arena are handed on one beside another, as the heap's rule of lent slices has it, and so are a reader and a writer: a struct
// of them would be taken apart at each call.

/// Answers the lines that end in a part of the input, all of which is taken.
fn answer_whole(
    session: &mut Session,
    table: &mut [u32],
    arena: &mut [u8],
    input: &[u8],
    out: &mut [u8],
) -> Fed
    requires { 14 * length input.now ≤ length out.old }
    ensures taken { result.taken ≡ length input.now }
    ensures fed { FeedDone session.old table.old arena.old input.now out.old result session.new table.new arena.new out.new }
{
    session.feed(table, arena, input, out)
}

/// Writes all of the bytes. Where that fails, some of the first ones are written, and no more.
fn write_out<W: Write>(writer: &mut W, bytes: &[u8]) -> io::Result<()>
    ensures ok { OnOk result (Appends (W.contents writer.old) (W.contents writer.new) bytes.now) }
    ensures err { OnErr result ((n : ℕ) × Appends (W.contents writer.old) (W.contents writer.new) (take n bytes.now)) }
{
    // std's `write_all` says nothing of what was written where it fails.
    let mut rest = bytes;
    while !rest.is_empty() {
        let n = writer.write(rest)?;
        if n == 0 {
            return Err(io::Error::from(io::ErrorKind::WriteZero));
        }
        rest = &rest[n..];
    }
    Ok(())
}

/// Reads a part of the input, 4,096 bytes at most, and writes its answers. The result is how many bytes it has: none at the end of the input.
fn answer_part<R: Read, W: Write>(
    reader: &mut R,
    writer: &mut W,
    session: &mut Session,
    table: &mut [u32],
    arena: &mut [u8],
) -> io::Result<usize>
    ensures ok { IfOk result (AnswersPart (R.remaining reader.old) (R.remaining reader.new) (W.contents writer.old) (W.contents writer.new) session.old table.old arena.old session.new table.new arena.new) }
    ensures err { OnErr result (StopsPart (R.remaining reader.old) (R.remaining reader.new) (W.contents writer.old) (W.contents writer.new) session.old table.old arena.old) }
{
    let mut input = [0; 4096];
    let n = reader.read(&mut input)?;
    let mut out = [0; 57344];
    let fed = answer_whole(session, table, arena, &input[..n], &mut out);
    write_out(writer, &out[..fed.written])?;
    Ok(n)
}

/// Answers the whole input, part by part, up to its end. A loop needs a bound: no input has so many parts.
fn answer_input<R: Read, W: Write>(
    reader: &mut R,
    writer: &mut W,
    session: &mut Session,
    table: &mut [u32],
    arena: &mut [u8],
) -> io::Result<()>
    ensures ok { OnOk result (AnswersInput (R.remaining reader.old) (R.remaining reader.new) (W.contents writer.old) (W.contents writer.new) session.old table.old arena.old session.new table.new arena.new) }
    ensures err { OnErr result (StopsInput (R.remaining reader.old) (R.remaining reader.new) (W.contents writer.old) (W.contents writer.new) session.old table.old arena.old) }
{
    for _part in 0..u64::MAX {
        if answer_part(reader, writer, session, table, arena)? == 0 {
            return Ok(());
        }
    }
    Ok(())
}

/// Writes what comes at the end.
fn write_end<W: Write>(
    writer: &mut W,
    session: Session,
    table: &mut [u32],
    arena: &mut [u8],
) -> io::Result<()>
    ensures ok { OnOk result (WritesEnd (W.contents writer.old) (W.contents writer.new) session table.old arena.old) }
    ensures err { OnErr result (StopsEnd (W.contents writer.old) (W.contents writer.new) session table.old arena.old) }
{
    let mut out = [0; 25664];
    match session.finish(table, arena, &mut out) {
        Some(n) => write_out(writer, &out[..n]),
        None => unreachable!(),
    }
}

/// Answers a whole script, with these words and bytes lent. After a failed read or write the rest would be no answer to the input, so nothing more is written.
fn answer_script<R: Read, W: Write>(
    reader: &mut R,
    writer: &mut W,
    table: &mut [u32],
    arena: &mut [u8],
) -> io::Result<()>
    ensures ok { OnOk result (AnswersScript (R.remaining reader.old) (R.remaining reader.new) (W.contents writer.old) (W.contents writer.new) table.old arena.old) }
    ensures err { OnErr result (StopsScript (R.remaining reader.old) (W.contents writer.old) (W.contents writer.new) table.old arena.old) }
{
    let mut session = Session::start();
    answer_input(reader, writer, &mut session, table, arena)?;
    write_end(writer, session, table, arena)
}

fn main(rt: HostRuntime) -> io::Result<()> {
    let mut table = [0; 2048];
    let mut arena = [0; 65536];
    answer_script(&mut rt.stdin(), &mut rt.stdout(), &mut table, &mut arena)
}
