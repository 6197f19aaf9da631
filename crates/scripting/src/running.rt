// What comes of a script.

ghost use Rattle.std.specs.Prelude.{◌≡◌, ◌↔◌, All, OnOk, IfOk, IsTrue};
ghost use Rattle.std.specs.Io.KnownBytes.{Appends};
ghost use Rattle.script.specs.Text.{log_text};
ghost use Rattle.scripting.specs.Running.{TellsNoFailure, HasTaken, HasRun};

use crate::end::ScriptEnd;
use crate::failure::ScriptFailure;
use crate::opening::world_of;
use crate::planning::plan_of;
use crate::stops::{explain_log, explain_stop};
use events::ended::Ending;
use script::{Plan, print};
use std::alloc::Global;
use std::io::{self, Write};
use world::{World, WorldFault};
use world_log::{Log, LogEntry};

/// Not of a callback that did not return, so its loop failed.
fn tells_no_failure(entry: &LogEntry) -> bool
    ensures { IsTrue result ↔ TellsNoFailure entry.now }
{
    match entry {
        LogEntry::Ran { ended, .. } => matches!(ended.ending, Ending::Return(_)),
        _ => true,
    }
}

/// How the steps of this log ended.
fn end_of(log: &Log) -> ScriptEnd
    ensures { (result ≡ ScriptEnd.Returned) ↔ All TellsNoFailure log.now.entries }
{
    if log.entries().iter().all(tells_no_failure) {
        return ScriptEnd::Returned;
    }
    ScriptEnd::Failed
}

/// Prints what each step did.
fn tell_log<O: Write>(alloc: Global, log: &Log, out: &mut O) -> Result<(), ScriptFailure>
    ensures { OnOk result (Appends (O.contents out.old) (O.contents out.new) (log_text log.now.entries)) }
{
    let text = print(alloc, log)?;
    out.write_all(text.as_bytes())?;
    Ok(())
}

fn tell_fault<O: Write>(fault: WorldFault, out: &mut O) -> io::Result<()> {
    let code = fault.code();
    writeln!(out, "fault {code}")
}

/// Takes the steps, and prints what each did. Reports to `err` a step that is not taken, and where runs stopped
/// that did not return.
fn take_steps<O: Write, E: Write>(
    alloc: Global,
    world: &mut World,
    plan: &Plan,
    out: &mut O,
    err: &mut E,
) -> Result<ScriptEnd, ScriptFailure>
    ensures { IfOk result (λ end. end ≡ ScriptEnd.Returned → HasTaken plan.now.steps.items world.old (O.contents out.old) (O.contents out.new)) }
{
    let mut log = Log::new(alloc);
    let steps = plan.steps.as_slice();
    let ran = world.run(steps, &mut log);
    tell_log(alloc, &log, out)?;
    let end = match ran {
        Ok(()) => end_of(&log),
        Err(fault) => {
            tell_fault(fault, out)?;
            explain_stop(fault, plan, &log, err);
            ScriptEnd::Stopped
        }
    };
    // a sentence that can't be written changes nothing
    let _ = explain_log(world, plan, &log, err);
    Ok(end)
}

/// Takes the steps of a script, and prints what each did. A step that names something that does not exist, or that runs out of
/// memory, is reported after the steps before it. The text is dropped before the first step.
pub fn run_script<O: Write, E: Write>(
    alloc: Global,
    text: Vec<u8>,
    out: &mut O,
    err: &mut E,
) -> Result<ScriptEnd, ScriptFailure>
    ensures { IfOk result (λ end. end ≡ ScriptEnd.Returned → HasRun text.items (O.contents out.old) (O.contents out.new)) }
{
    let plan = plan_of(alloc, text)?;
    let mut world = world_of(alloc, &plan)?;
    take_steps(alloc, &mut world, &plan, out, err)
}
