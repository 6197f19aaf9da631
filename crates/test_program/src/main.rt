//! Performs the commands of a list, and prints what each prints and ends with.
//!
//! Standard input has a line for each command: its words, as the program takes them after its own name. The files that
//! they name stand in the list too: `let NAME HEX` makes a file of bytes, and `text NAME TEXT` one of text, in which each
//! `@OTHER@` is the file OTHER in hexadecimal. In a command `NAME:N` is the front of a file, N bytes long, and `hex:HEX` a file
//! of these bytes. `only WORDS COMMAND` shows of standard error only the lines in which one of the words stands, which commas
//! part. `full COMMAND` gives the command an output that takes nothing. Empty lines and those that begin with `#` are printed as they
//! are.
#![tactic(auto)]

ghost use Rattle.std.specs.Prelude.{◌≡◌};
ghost use Rattle.board.specs.Jobs.{ticket_of};

mod list;
mod shelf;

use crate::list::{ListLine, full_and_command, only_and_command, read_line};
use crate::shelf::Shelf;
use board::JobBox;
use commands::perform;
use order::Reply;
use serve::Task;
use std::alloc::{AllocError, Global};
use std::io::{self, BufRead, BufReader, ErrorKind, Write};
use std::process::ExitCode;
use std::str;
use std::sync::Wait;
use std::thread::Threads;
use words::parse;

/// An output that takes nothing, as a full device.
#[derive(Drop)]
struct Full;

impl Write for Full {
    fn write(&mut self, _bytes: &[u8]) -> io::Result<usize> {
        Err(io::Error::from(ErrorKind::StorageFull))
    }

    fn flush(&mut self) -> io::Result<()> {
        Ok(())
    }
}

/// The words of a command line, the program's name first.
fn words_of(alloc: Global, line: &str) -> Result<Vec<String>, AllocError> {
    let mut words = Vec::new(alloc);
    words.push(String::from_str(alloc, "wasmloop")?)?;
    for word in line.split_whitespace() {
        words.push(String::from_str(alloc, word)?)?;
    }
    Ok(words)
}

/// Performs a command. What it writes to standard error is in the answer, beside what it ends with.
fn perform_line<R: Threads + Wait + Sync + AllocGlobal, O: Write>(
    rt: &R,
    line: &str,
    shelf: &Shelf,
    out: &mut O,
) -> Result<(u8, Vec<u8>), AllocError> {
    let alloc = rt.alloc();
    // made here: a library that gave out boxes of closures would promise less than its contracts say
    let make = move |task: Task| -> Result<JobBox, AllocError> {
        let ticket = task.ticket();
        let run = move || -> Reply
            ensures { ticket_of result.order ≡ ticket_of task }
        { task.run(alloc) };
        Ok(JobBox::new(ticket, Box::new(alloc, run)?))
    };
    let words = words_of(alloc, line)?;
    let mut err = Vec::new(alloc);
    let status = match parse(alloc, words.as_slice()) {
        Ok(command) => perform(rt, alloc, &command, shelf, out, &mut err, &make),
        Err(refused) => refused.tell(out, &mut err),
    };
    Ok((status, err))
}

/// Whether one of the words that are wanted stands in the line.
fn is_shown(line: &str, wanted: &str) -> bool {
    line.split_whitespace()
        .any(|word| wanted.split(',').any(|one| one == word))
}

/// Tells what was written to standard error, each line after a mark: all, or those in which one of these words stands.
fn tell_errors<O: Write>(err: &[u8], only: Option<&str>, out: &mut O) -> io::Result<()> {
    for line in str::from_utf8(err).unwrap_or("no text").lines() {
        if only.is_none_or(|wanted| is_shown(line, wanted)) {
            writeln!(out, "! {line}")?;
        }
    }
    Ok(())
}

/// Performs a command, and prints it with all that it prints and its status.
fn show_command<R: Threads + Wait + Sync + AllocGlobal, O: Write>(
    rt: &R,
    line: &str,
    shelf: &Shelf,
    out: &mut O,
) -> io::Result<()> {
    writeln!(out, "$ {line}")?;
    let (only, words) = only_and_command(line);
    let (status, err) = match full_and_command(words) {
        (true, command) => perform_line(rt, command, shelf, &mut Full)?,
        (false, command) => perform_line(rt, command, shelf, out)?,
    };
    tell_errors(err.as_slice(), only, out)?;
    writeln!(out, "= {status}")
}

/// Does what a line of the list says.
fn take_line<R: Threads + Wait + Sync + AllocGlobal, O: Write>(
    rt: &R,
    line: &str,
    shelf: &mut Shelf,
    out: &mut O,
) -> io::Result<()> {
    match read_line(line) {
        ListLine::Remark => writeln!(out, "{line}"),
        ListLine::Bytes { name, digits } => shelf.keep_bytes(rt.alloc(), name, digits),
        ListLine::Text { name, text } => shelf.keep_text(rt.alloc(), name, text),
        ListLine::Command => show_command(rt, line, shelf, out),
    }
}

/// Does what each line of the list says.
fn take_list<R: Threads + Wait + Sync + AllocGlobal, I: BufRead + Drop, O: Write>(
    rt: &R,
    list: I,
    out: &mut O,
) -> io::Result<()> {
    let alloc = rt.alloc();
    let mut shelf = Shelf::new(alloc);
    for line in list.lines(alloc) {
        take_line(rt, line?.as_str(), &mut shelf, out)?;
    }
    out.flush()
}

fn main(rt: HostRuntime) -> ExitCode {
    let mut out = rt.stdout();
    let Ok(list) = BufReader::new(rt.alloc(), rt.reader()) else {
        return ExitCode::FAILURE;
    };
    match take_list(&rt, list, &mut out) {
        Ok(()) => ExitCode::SUCCESS,
        Err(_) => ExitCode::FAILURE,
    }
}
