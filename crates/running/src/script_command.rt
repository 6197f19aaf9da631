// What comes of the file of a script.

ghost use Rattle.std.specs.Prelude.{◌≡◌, IfOk};
ghost use Rattle.running.specs.Scripting.{HasRunFile};

use crate::failure::Failure;
use crate::status::ExitStatus;
use files::Reader;
use limits::MAX_SCRIPT_BYTES;
use scripting::{ScriptEnd, run_script};
use std::alloc::Global;
use std::io::Write;

fn status_of(end: ScriptEnd) -> ExitStatus
    ensures { result ≡ ExitStatus.Done → end ≡ ScriptEnd.Returned }
{
    match end {
        ScriptEnd::Returned => ExitStatus::Done,
        ScriptEnd::Failed => ExitStatus::Ended,
        ScriptEnd::Stopped => ExitStatus::Failed,
    }
}

/// Runs the script of the file. `Done` if all steps were taken and every callback returned.
pub fn script<'a, R: Reader, O: Write, E: Write>(
    alloc: Global,
    file: &'a str,
    reader: &R,
    out: &mut O,
    err: &mut E,
) -> Result<ExitStatus, Failure<'a>>
    ensures { IfOk result (λ status. status ≡ ExitStatus.Done → HasRunFile (R.gives reader.now) (O.contents out.old) (O.contents out.new) file.now) }
{
    let text = reader.read(alloc, file, MAX_SCRIPT_BYTES + 1)?;
    let end = run_script(alloc, text, out, err)?;
    Ok(status_of(end))
}
