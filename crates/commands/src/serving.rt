// What comes of loops and workers in threads.

ghost use Rattle.std.specs.Prelude.{◌≡◌, ◌↔◌, All, IfOk, IsTrue, length};
ghost use Rattle.std.specs.Arc.{arc_value};
ghost use Rattle.serve.specs.Answers.{EachServed};
ghost use Rattle.running.specs.Accepted.{IsLoaded};
ghost use Rattle.commands.specs.Serving.{HasNotFailed, AreServed, HasServedAll};

use crate::telling::Teller;
use crate::tracing::Trace;
use files::Reader;
use imports::Linked;
use running::{ExitStatus, Failure, load};
use sentences::warn_loop;
use serve::{Job, LoopEnding, Served, Serving, Task, serve, serve_watched};
use std::alloc::{AllocError, Global};
use std::io::{self, BufWriter, Write};
use std::sync::{Arc, Wait};
use std::thread::Threads;
use words::ServeCommand;

/// The number of threads, and the limits of each loop.
fn serving_of(service: &ServeCommand) -> Serving
    ensures loops { result.loops ≡ service.now.loops }
    ensures settings { result.settings ≡ service.now.settings }
{
    Serving {
        loops: service.loops,
        workers: service.workers,
        settings: service.settings,
    }
}

/// Writes the lines of the loops, in the order of their numbers. It allocates nothing.
fn tell_served<O: Write>(served: &[Served], out: &mut O) -> io::Result<()> {
    for one in served {
        writeln!(out, "{one}")?;
    }
    out.flush()
}

fn has_not_failed(served: &Served) -> bool
    ensures { IsTrue result ↔ HasNotFailed served.now }
{
    served.ending != LoopEnding::Failed
}

/// `Done` if no loop failed.
fn status_of(served: &[Served]) -> ExitStatus
    ensures { (result ≡ ExitStatus.Done) ↔ All HasNotFailed served.now }
{
    if served.iter().all(has_not_failed) {
        return ExitStatus::Done;
    }
    ExitStatus::Ended
}

/// The module of the file, to be shared. Reports what it lacks.
fn shared<'a, R: Reader, E: Write>(
    alloc: Global,
    reader: &R,
    file: &'a str,
    err: &mut E,
) -> Result<Arc<Linked>, Failure<'a>>
    ensures { IfOk result (λ linked. IsLoaded (R.gives reader.now) file.now (arc_value linked)) }
{
    let linked = load(alloc, reader, file)?;
    warn_loop(&linked, err);
    Ok(Arc::new(alloc, linked)?)
}

/// Runs loops of the module and workers. On request it logs to `err` what the loops do.
fn run_loops<
    H: Threads + Wait + Sync,
    M: Fn(Task) -> Result<J, AllocError> + Sync,
    J: Job + Send,
    E: Write + Send,
>(
    rt: &H,
    alloc: Global,
    linked: Arc<Linked>,
    serving: Serving,
    is_traced: bool,
    err: &mut E,
    make: &M,
) -> Result<Vec<Served>, AllocError>
    requires { M.IsAlwaysCallable make.now }
    ensures count { IfOk result (λ served. length served.items ≡ serving.loops) }
    ensures each { IfOk result (λ served. EachServed (arc_value linked) serving served.items) }
{
    if is_traced {
        let trace = Trace::new(alloc, err);
        return serve_watched(rt, alloc, linked, serving, make, &trace);
    }
    serve(rt, alloc, linked, serving, make)
}

/// Runs loops of the module and workers, and writes what each loop did.
fn serve_module<
    H: Threads + Wait + Sync,
    M: Fn(Task) -> Result<J, AllocError> + Sync,
    J: Job + Send,
    O: Write,
    E: Write + Send,
>(
    rt: &H,
    alloc: Global,
    linked: Arc<Linked>,
    service: &ServeCommand,
    lines: &mut O,
    err: &mut E,
    make: &M,
) -> Result<ExitStatus, Failure<'static>>
    requires { M.IsAlwaysCallable make.now }
    ensures { IfOk result (λ status. status ≡ ExitStatus.Done → AreServed service.now (arc_value linked)) }
{
    let same = Arc::try_clone(&linked)?;
    let serving = serving_of(service);
    let served = run_loops(rt, alloc, linked, serving, service.is_traced, err, make)?;
    tell_served(served.as_slice(), lines)?;
    let status = status_of(served.as_slice());
    let teller = Teller {
        alloc,
        bytes: same.valid().module().bytes(),
        service,
    };
    // a sentence that can't be written changes nothing
    let _ = teller.tell_all(served, err);
    Ok(status)
}

/// Runs loops of the file's module and workers in threads, and reports what each loop did when all have ended. All memory for the
/// lines is allocated before the first loop begins.
pub fn serve_file<
    'a,
    H: Threads + Wait + Sync,
    M: Fn(Task) -> Result<J, AllocError> + Sync,
    J: Job + Send,
    R: Reader,
    O: Write,
    E: Write + Send,
>(
    rt: &H,
    alloc: Global,
    service: &'a ServeCommand,
    reader: &R,
    out: &mut O,
    err: &mut E,
    make: &M,
) -> Result<ExitStatus, Failure<'a>>
    requires make { M.IsAlwaysCallable make.now }
    ensures { IfOk result (λ status. status ≡ ExitStatus.Done → HasServedAll (R.gives reader.now) service.now) }
{
    let linked = shared(alloc, reader, service.file.as_str(), err)?;
    let mut lines = BufWriter::new(alloc, out)?;
    serve_module(rt, alloc, linked, service, &mut lines, err, make)
}
