// What each command does.

ghost use Rattle.std.specs.Prelude.{◌≡◌, ◌≤◌};
ghost use Rattle.running.specs.Statuses.{status_of_end, OnDone, OnEnded};
ghost use Rattle.commands.specs.Performing.{IsDone, IsRefusedBy, IsEnded};

use crate::serving::serve_file;
use files::{FileWriter, Reader};
use running::{ExitStatus, Failure, check, invoke, script, status_from, work};
use serve::{Job, Task};
use std::alloc::{AllocError, Global};
use std::io::Write;
use std::sync::Wait;
use std::thread::Threads;
use words::{Command, WorkOutput, WorkRequest};

/// Whether standard output has the bytes of a reply alone.
fn is_raw(command: &Command) -> bool {
    matches!(
        command,
        Command::Work(WorkRequest {
            output: WorkOutput::Standard,
            ..
        })
    )
}

/// Runs the command.
fn run<
    'a,
    H: Threads + Wait + Sync,
    M: Fn(Task) -> Result<J, AllocError> + Sync,
    J: Job + Send,
    F: Reader + FileWriter,
    O: Write,
    E: Write + Send,
>(
    rt: &H,
    alloc: Global,
    command: &'a Command,
    files: &F,
    out: &mut O,
    err: &mut E,
    make: &M,
) -> Result<ExitStatus, Failure<'a>>
    requires make { M.IsAlwaysCallable make.now }
    ensures done { OnDone result (IsDone (F.gives files.now) (F.takes files.now) (O.contents out.old) (O.contents out.new) (E.contents err.old) (E.contents err.new) command.now) }
    ensures refused { status_of_end result ≡ ExitStatus.Refused → IsRefusedBy (F.gives files.now) command.now }
    ensures ended { OnEnded result (IsEnded (F.gives files.now) (F.takes files.now) (O.contents out.old) (O.contents out.new) command.now) }
{
    match command {
        Command::Check { file } => check(alloc, file.as_str(), files, out, err),
        Command::Invoke(invocation) => invoke(alloc, invocation, files, out, err),
        Command::Work(order) => work(alloc, order, files, out, err),
        Command::Script { file } => script(alloc, file.as_str(), files, out, err),
        Command::Serve(service) => serve_file(rt, alloc, service, files, out, err, make),
    }
}

/// Runs the command. Results are written to `out`, and messages to `err`. `make` makes the job of an order.
///
/// Returns the exit status: 0 done; 1 a file, memory or the output failed; 2 usage error; 3 the module is rejected; 4 the call did
/// not return, or a loop failed.
pub fn perform<
    H: Threads + Wait + Sync,
    M: Fn(Task) -> Result<J, AllocError> + Sync,
    J: Job + Send,
    F: Reader + FileWriter,
    O: Write,
    E: Write + Send,
>(rt: &H, alloc: Global, command: &Command, files: &F, out: &mut O, err: &mut E, make: &M) -> u8
    requires make { M.IsAlwaysCallable make.now }
    ensures known { result ≤ 4 }
    ensures done { result ≡ 0 → IsDone (F.gives files.now) (F.takes files.now) (O.contents out.old) (O.contents out.new) (E.contents err.old) (E.contents err.new) command.now }
    ensures refused { result ≡ 3 → IsRefusedBy (F.gives files.now) command.now }
    ensures ended { result ≡ 4 → IsEnded (F.gives files.now) (F.takes files.now) (O.contents out.old) (O.contents out.new) command.now }
{
    let ended = run(rt, alloc, command, files, out, err, make);
    let status = status_from(ended, is_raw(command), out, err);
    status.number()
}
