//! The program: checks untrusted WebAssembly modules and runs their functions.
#![tactic(auto)]

ghost use Rattle.std.specs.Prelude.{◌≡◌};
ghost use Rattle.board.specs.Jobs.{ticket_of};

use board::JobBox;
use commands::perform;
use files::SystemFiles;
use order::Reply;
use serve::Task;
use std::alloc::{AllocError, Global};
use std::io::ErrorKind;
use std::process::ExitCode;
use std::{env, io};
use words::{Command, Refused, parse};

/// The words of the command line, the program's name first.
fn words_of(rt: &HostRuntime, alloc: Global) -> io::Result<Vec<String>> {
    Ok(env::args(rt)?.collect(alloc)?)
}

/// What the command line asks for.
fn command_of(rt: &HostRuntime, alloc: Global) -> Result<Command, Refused> {
    match words_of(rt, alloc) {
        Ok(words) => parse(alloc, words.as_slice()),
        Err(error) if error.kind() == ErrorKind::OutOfMemory => Err(Refused::Memory),
        Err(_) => Err(Refused::Arguments),
    }
}

fn main(rt: HostRuntime) -> ExitCode {
    let alloc = rt.alloc();
    let mut out = rt.stdout();
    let mut err = rt.stderr();
    // made here: a library that gave out boxes of closures would promise less than its contracts say
    let make = move |task: Task| -> Result<JobBox, AllocError> {
        let ticket = task.ticket();
        let run = move || -> Reply
            ensures { ticket_of result.order ≡ ticket_of task }
        { task.run(alloc) };
        Ok(JobBox::new(ticket, Box::new(alloc, run)?))
    };
    let files = SystemFiles::new(&rt);
    let status = match command_of(&rt, alloc) {
        Ok(command) => perform(&rt, alloc, &command, &files, &mut out, &mut err, &make),
        Err(refused) => refused.tell(&mut out, &mut err),
    };
    ExitCode::from(status)
}
