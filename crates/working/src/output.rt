// Where the end of a work order is written.

ghost use Rattle.std.specs.Prelude.{[], ◌∷◌, OnOk};
ghost use Rattle.std.specs.Io.KnownBytes.{Appends};
ghost use Rattle.events.specs.Traps.{trap_number};
ghost use Rattle.order.specs.Orders.{end_of};
ghost use Rattle.order.specs.Work.{Done, Trap};
ghost use Rattle.working.specs.Lines.{done_words, line, end_line, short_line};
ghost use Rattle.working.specs.Working.{IsRaw, IsSaid, TakesReply, PutsOut};

use events::trap::TrapCode;
use files::{FileWriter, IoFault};
use order::Outcome;
use std::alloc::Global;
use std::io::{self, Write};
use words::WorkOutput;

/// Writes a result as a signed number, and the length of the reply.
fn write_value<O: Write>(value: u32, count: usize, out: &mut O) -> io::Result<()>
    ensures { OnOk result (Appends (O.contents out.old) (O.contents out.new) (line (done_words value count []))) }
{
    let value = value.cast_signed();
    writeln!(out, "done {value} bytes {count}")
}

/// Writes a result, the length of the reply, and its bytes in hexadecimal.
fn write_bytes<O: Write>(value: u32, count: usize, digits: &str, out: &mut O) -> io::Result<()>
    ensures { OnOk result (Appends (O.contents out.old) (O.contents out.new) (line (done_words value count (digits.now ∷ [])))) }
{
    let value = value.cast_signed();
    writeln!(out, "done {value} bytes {count} {digits}")
}

/// Writes a result, with the bytes of the reply if there are any.
fn write_done<O: Write>(
    alloc: Global,
    value: u32,
    bytes: &[u8],
    out: &mut O,
) -> Result<(), IoFault<'static>>
    ensures { OnOk result (Appends (O.contents out.old) (O.contents out.new) (end_line (Done value bytes.now))) }
{
    if bytes.is_empty() {
        return Ok(write_value(value, bytes.len(), out)?);
    }
    let digits = hex::encode(alloc, bytes)?;
    Ok(write_bytes(value, bytes.len(), digits.as_str(), out)?)
}

fn write_trap<O: Write>(trap: TrapCode, out: &mut O) -> io::Result<()>
    ensures { OnOk result (Appends (O.contents out.old) (O.contents out.new) (end_line (Trap (trap_number trap)))) }
{
    let code = trap.code();
    writeln!(out, "trap {code}")
}

/// Writes the line of an outcome; for a result only the length of the reply.
fn write_short<O: Write>(outcome: &Outcome, out: &mut O) -> io::Result<()>
    ensures { OnOk result (Appends (O.contents out.old) (O.contents out.new) (short_line (end_of outcome.now))) }
{
    match outcome {
        Outcome::Done(value, bytes) => write_value(*value, bytes.len(), out),
        Outcome::Trap(trap) => write_trap(*trap, out),
        Outcome::Depth => out.write_all(b"depth\n"),
        Outcome::Spent => out.write_all(b"spent\n"),
        Outcome::NoMemory(_) => out.write_all(b"nomemory\n"),
    }
}

/// Writes the line of an outcome, with the bytes of a reply.
fn write_whole<O: Write>(
    alloc: Global,
    outcome: &Outcome,
    out: &mut O,
) -> Result<(), IoFault<'static>>
    ensures { OnOk result (Appends (O.contents out.old) (O.contents out.new) (end_line (end_of outcome.now))) }
{
    match outcome {
        Outcome::Done(value, bytes) => write_done(alloc, *value, bytes.as_slice(), out),
        Outcome::Trap(_) | Outcome::Depth | Outcome::Spent | Outcome::NoMemory(_) => Ok(write_short(
            outcome, out,
        )?),
    }
}

/// Writes a reply's bytes to a file; for another outcome it creates none.
fn keep_reply<'a, W: FileWriter>(
    alloc: Global,
    outcome: &Outcome,
    name: &'a str,
    writer: &W,
) -> Result<(), IoFault<'a>>
    ensures { OnOk result (TakesReply (W.takes writer.now) name.now (end_of outcome.now)) }
{
    match outcome {
        Outcome::Done(_, bytes) => writer.write(alloc, name, bytes.as_slice()),
        Outcome::Trap(_) | Outcome::Depth | Outcome::Spent | Outcome::NoMemory(_) => Ok(()),
    }
}

/// Writes a reply's bytes; for another outcome nothing.
fn write_raw<O: Write>(outcome: &Outcome, out: &mut O) -> io::Result<()>
    ensures { OnOk result (IsRaw (O.contents out.old) (O.contents out.new) (end_of outcome.now)) }
{
    match outcome {
        Outcome::Done(_, bytes) => out.write_all(bytes.as_slice()),
        Outcome::Trap(_) | Outcome::Depth | Outcome::Spent | Outcome::NoMemory(_) => Ok(()),
    }
}

/// Writes an outcome where the command says.
pub fn tell_outcome<'a, W: FileWriter, O: Write, E: Write>(
    alloc: Global,
    outcome: &Outcome,
    output: &'a WorkOutput,
    writer: &W,
    out: &mut O,
    err: &mut E,
) -> Result<(), IoFault<'a>>
    ensures told { OnOk result (PutsOut (W.takes writer.now) output.entry.now (O.contents out.old) (O.contents out.new) (end_of outcome.now)) }
    ensures said { OnOk result (IsSaid output.entry.now (E.contents err.old) (E.contents err.new) (end_of outcome.now)) }
{
    match output {
        WorkOutput::Line => write_whole(alloc, outcome, out),
        WorkOutput::File(name) => {
            keep_reply(alloc, outcome, name.as_str(), writer)?;
            Ok(write_short(outcome, out)?)
        }
        WorkOutput::Standard => {
            write_raw(outcome, out)?;
            Ok(write_short(outcome, err)?)
        }
    }
}
