// The exit status of a command, and what is reported where it has no result.

ghost use Rattle.std.specs.Prelude.{◌≡◌, ◌≢◌, ◌⊎◌, Ok};
ghost use Rattle.running.specs.Statuses.{status_of_failure, status_of_end};

use crate::failure::Failure;
use crate::status::ExitStatus;
use files::IoFault;
use std::io::{self, Write};

/// Reports to `err` that the output failed.
fn tell_unprinted<E: Write>(reason: io::Error, err: &mut E) -> io::Result<()> {
    let failure = Failure::Io(IoFault::Output(reason));
    writeln!(err, "{failure}")?;
    failure.explain(err)
}

/// Reports that a module is rejected. If that cannot be written, the output failed.
fn tell_refused<O: Write, E: Write>(failure: &Failure<'_>, out: &mut O, err: &mut E) -> ExitStatus
    ensures { (result ≡ ExitStatus.Refused) ⊎ (result ≡ ExitStatus.Failed) }
{
    match writeln!(out, "{failure}") {
        Ok(()) => ExitStatus::Refused,
        Err(reason) => {
            // a sentence that can't be written changes nothing
            let _ = tell_unprinted(reason, err);
            ExitStatus::Failed
        }
    }
}

/// Reports why there is no result: to `err`, except that a rejected module goes to `out` if results go there.
fn tell<O: Write, E: Write>(
    failure: &Failure<'_>,
    is_raw: bool,
    out: &mut O,
    err: &mut E,
) -> ExitStatus
    ensures done { result ≢ ExitStatus.Done }
    ensures ended { result ≢ ExitStatus.Ended }
    ensures refused { result ≡ ExitStatus.Refused → status_of_failure failure.now ≡ ExitStatus.Refused }
{
    let status = match failure.status() {
        ExitStatus::Refused if !is_raw => tell_refused(failure, out, err),
        status => {
            // a sentence that can't be written changes nothing
            let _ = writeln!(err, "{failure}");
            status
        }
    };
    let _ = failure.explain(err);
    status
}

/// The exit status. If there is no result, the reason is reported.
pub fn status_from<O: Write, E: Write>(
    ended: Result<ExitStatus, Failure<'_>>,
    is_raw: bool,
    out: &mut O,
    err: &mut E,
) -> ExitStatus
    ensures done { result ≡ ExitStatus.Done → ended.entry ≡ Ok ExitStatus.Done }
    ensures kept { result ≡ ExitStatus.Done → (out.new ≡ out.old) × (err.new ≡ err.old) }
    ensures ended { result ≡ ExitStatus.Ended → ended.entry ≡ Ok ExitStatus.Ended }
    ensures kept_ended { result ≡ ExitStatus.Ended → (out.new ≡ out.old) × (err.new ≡ err.old) }
    ensures refused { result ≡ ExitStatus.Refused → status_of_end ended.entry ≡ ExitStatus.Refused }
{
    match ended {
        Ok(status) => status,
        Err(failure) => tell(&failure, is_raw, out, err),
    }
}
