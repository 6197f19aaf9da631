// What comes of a work order for the module of a file.

ghost use Rattle.std.specs.Prelude.{◌≡◌};
ghost use Rattle.running.specs.Statuses.{OnDone, OnEnded};
ghost use Rattle.running.specs.Working.{HasWorked, HasStopped};

use crate::failure::Failure;
use crate::loading::load;
use crate::status::ExitStatus;
use files::{FileWriter, Reader};
use imports::EntryPoint;
use std::alloc::Global;
use std::io::Write;
use words::WorkRequest;
use working::{WorkReport, input_of};

fn status_of(report: WorkReport) -> ExitStatus
    ensures done { result ≡ ExitStatus.Done → report ≡ WorkReport.Result }
    ensures ended { result ≡ ExitStatus.Ended → report ≡ WorkReport.Stopped }
{
    match report {
        WorkReport::Result => ExitStatus::Done,
        WorkReport::Stopped => ExitStatus::Ended,
    }
}

/// Runs `uv_work` of the module of the file, and reports the outcome. `Done` if that is a value and bytes. The input is read first.
pub fn work<'a, F: Reader + FileWriter, O: Write, E: Write>(
    alloc: Global,
    work: &'a WorkRequest,
    files: &F,
    out: &mut O,
    err: &mut E,
) -> Result<ExitStatus, Failure<'a>>
    ensures done { OnDone result (HasWorked (F.gives files.now) (F.takes files.now) (O.contents out.old) (O.contents out.new) (E.contents err.old) (E.contents err.new) work.entry.now) }
    ensures ended { OnEnded result (HasStopped (F.gives files.now) (F.takes files.now) (O.contents out.old) (O.contents out.new) work.entry.now) }
{
    let bytes = input_of(alloc, files, work)?;
    let linked = load(alloc, files, work.file.as_str())?;
    let Some(_function) = linked.entry(EntryPoint::Work) else {
        let contents = linked.valid().contents();
        return Err(Failure::no_function(alloc, contents, EntryPoint::Work.name()));
    };
    let report = working::work(alloc, linked, bytes, work, files, out, err)?;
    Ok(status_of(report))
}
