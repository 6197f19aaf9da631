// Whether the module of a file is accepted.

ghost use Rattle.std.specs.Prelude.{◌≡◌, OnOk, IfOk, IfErr, codes};
ghost use Rattle.std.specs.Io.KnownBytes.{Appends};
ghost use Rattle.syntax.specs.declared.contents.Contents.{Contents};
ghost use Rattle.running.specs.Accepted.{HoldsModule, HoldsNone};
ghost use Rattle.running.specs.Statuses.{status_of_failure};

use crate::failure::Failure;
use crate::loading::load;
use crate::status::ExitStatus;
use files::Reader;
use sentences::warn;
use std::alloc::Global;
use std::io::Write;

/// Reports whether the module of the file is accepted.
pub fn check<'a, R: Reader, O: Write, E: Write>(
    alloc: Global,
    file: &'a str,
    reader: &R,
    out: &mut O,
    err: &mut E,
) -> Result<ExitStatus, Failure<'a>>
    ensures accepted { OnOk result ((contents : Contents) × HoldsModule (R.gives reader.now) file.now contents) }
    ensures told { OnOk result (Appends (O.contents out.old) (O.contents out.new) (codes "accepted\n")) }
    ensures done { IfOk result (λ status. status ≡ ExitStatus.Done) }
    ensures refused { IfErr result (λ f. status_of_failure f ≡ ExitStatus.Refused → HoldsNone (R.gives reader.now) file.now) }
{
    let linked = load(alloc, reader, file)?;
    out.write_all(b"accepted\n")?;
    warn(&linked, err);
    Ok(ExitStatus::Done)
}
