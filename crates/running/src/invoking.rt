// What comes of a call of an exported function.

ghost use Rattle.std.specs.Prelude.{◌≡◌, IfOk};
ghost use Rattle.std.specs.Arc.{arc_value};
ghost use Rattle.resident.specs.Calls.{HasReturned};
ghost use Rattle.running.specs.Calling.{HasFunctionReturned};
ghost use Rattle.running.specs.Invoking.{HasInvoked, IsCallOf};

use crate::arguments::values;
use crate::calling::{Called, call, has_returned};
use crate::failure::Failure;
use crate::loading::load;
use crate::status::ExitStatus;
use events::ended::{Ended, Ending};
use files::Reader;
use imports::Linked;
use order::Trail;
use places::Shown;
use resident::{Resident, exported_function};
use sentences::{Allowed, EndedLine, Unfinished, tell_stopped};
use std::alloc::Global;
use std::io::{self, Write};
use std::sync::Arc;
use words::Invocation;
use working::tell_used;

/// Calls the function of the module that the words name, with the arguments that they spell.
fn call_named<'a>(
    alloc: Global,
    linked: Arc<Linked>,
    invocation: &'a Invocation,
) -> Result<(Called, Resident), Failure<'a>>
    ensures { IfOk result (λ done. IsCallOf (arc_value linked).contents invocation.now done.0) }
{
    let name = invocation.name.as_str();
    let valid = linked.valid();
    let Some((function, func_type)) = exported_function(valid, name.as_bytes()) else {
        return Err(Failure::no_function(alloc, valid.contents(), name));
    };
    let args = values(
        alloc,
        func_type.params.as_slice(),
        invocation.arguments.as_slice(),
    )?;
    call(
        alloc,
        linked,
        function,
        args.as_slice(),
        invocation.fuel,
        invocation.depth,
    )
}

/// Reports how a call ended. `Done` if the function was called and returned.
fn tell_called<O: Write>(called: &Called, out: &mut O) -> io::Result<ExitStatus>
    ensures { IfOk result (λ status. status ≡ ExitStatus.Done → HasFunctionReturned called.now) }
{
    match called {
        Called::Start(ended) => {
            let line = EndedLine(ended);
            writeln!(out, "start {line}")?;
            Ok(ExitStatus::Ended)
        }
        Called::Function(ended) => {
            let line = EndedLine(ended);
            writeln!(out, "{line}")?;
            Ok(status_of(&ended.ending))
        }
    }
}

fn status_of(ending: &Ending) -> ExitStatus
    ensures { result ≡ ExitStatus.Done → HasReturned ending.now }
{
    if has_returned(ending) {
        return ExitStatus::Done;
    }
    ExitStatus::Ended
}

/// What was called, and how it ended.
fn ended_call<'c>(name: &'c str, called: &'c Called) -> (&'c str, &'c Ended) {
    match called {
        Called::Start(ended) => ("start", ended),
        Called::Function(ended) => (name, ended),
    }
}

/// Writes a sentence that says where a call stopped.
fn explain<E: Write>(
    invocation: &Invocation,
    called: &Called,
    resident: &Resident,
    err: &mut E,
) -> io::Result<()> {
    let (what, ended) = ended_call(invocation.name.as_str(), called);
    let Some(stop) = resident.last_stop() else {
        return Ok(());
    };
    let allowed = Allowed::by_options(invocation.depth);
    match Unfinished::of_call(ended, &Trail::of(&stop), allowed) {
        Some(stopped) => tell_stopped(&Shown(what), resident.module_bytes(), &stopped, err),
        None => Ok(()),
    }
}

/// Reports the fuel that a call used, on request.
fn trace<E: Write>(invocation: &Invocation, called: &Called, err: &mut E) -> io::Result<()> {
    if !invocation.is_traced {
        return Ok(());
    }
    let (_, ended) = ended_call("", called);
    tell_used(ended.used, invocation.fuel, err)
}

/// Calls an exported function of the file's module, and reports how it ended.
pub fn invoke<'a, R: Reader, O: Write, E: Write>(
    alloc: Global,
    invocation: &'a Invocation,
    reader: &R,
    out: &mut O,
    err: &mut E,
) -> Result<ExitStatus, Failure<'a>>
    ensures { IfOk result (λ status. status ≡ ExitStatus.Done → HasInvoked (R.gives reader.now) invocation.entry.now) }
{
    let linked = load(alloc, reader, invocation.file.as_str())?;
    let shared = Arc::new(alloc, linked)?;
    let (called, resident) = call_named(alloc, shared, invocation)?;
    let status = tell_called(&called, out)?;
    // a sentence that can't be written changes nothing
    let _ = explain(invocation, &called, &resident, err);
    let _ = trace(invocation, &called, err);
    Ok(status)
}
