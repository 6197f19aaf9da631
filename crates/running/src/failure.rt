// Why a command has no result.

ghost use Rattle.std.specs.Prelude.{◌≡◌};
ghost use Rattle.running.specs.Statuses.{status_of_io};

use crate::status::ExitStatus;
use files::IoFault;
use limits::MAX_MODULE_BYTES;
use loader::Refusal;
use places::Shown;
use script::ScriptFault;
use scripting::ScriptFailure;
use sentences::{Grouped, Listing, Mismatch, RefusalAccount};
use std::alloc::{AllocError, AllocFailed, Global};
use std::io::{self, Write};
use std::{fmt, str};
use syntax::contents::{Contents, ExternKind};

/// Why a command has no result.
#[derive(Drop)]
pub enum Failure<'a> {
    /// A file, memory or the output failed.
    Io(IoFault<'a>),
    /// The file, or a module of the script, is rejected. `account` is None if it is longer than a module may be.
    Refused {
        module: Option<usize>,
        refusal: Refusal,
        account: Option<RefusalAccount>,
    },
    /// The file is not a script. `told` says where and why, if that is known and memory suffices.
    Script {
        fault: ScriptFault,
        told: Option<String>,
    },
    /// The module exports no function of this name. `there` lists those that it exports, if memory suffices.
    NoFunction {
        name: &'a str,
        there: Option<String>,
    },
    /// The words do not match the function's parameters.
    Arguments(Mismatch<'a>),
}

/// The names of the exported functions.
fn exported_functions(alloc: Global, contents: &Contents) -> Result<String, AllocError> {
    let mut listing = Listing::new(alloc);
    for export in contents.exports.as_slice() {
        if matches!(export.kind, ExternKind::Func) {
            listing.add(str::from_utf8(export.name.as_slice()).unwrap_or(""))?;
        }
    }
    listing.finish()
}

impl<'a> Failure<'a> {
    ghost use Rattle.running.specs.Statuses.{status_of_failure};

    /// The module exports no function of this name.
    pub(crate) fn no_function(alloc: Global, contents: &Contents, name: &'a str) -> Failure<'a> {
        Failure::NoFunction {
            name,
            there: exported_functions(alloc, contents).ok(),
        }
    }

    /// The exit status.
    pub fn status(&self) -> ExitStatus
        ensures { result ≡ status_of_failure self.now }
    {
        match self {
            Failure::Io(fault) => status_of_fault(fault),
            Failure::Script { .. } => ExitStatus::Failed,
            Failure::Refused { .. } => ExitStatus::Refused,
            Failure::NoFunction { .. } | Failure::Arguments(_) => ExitStatus::Usage,
        }
    }

    /// Writes a sentence that says what is wrong, and where.
    pub(crate) fn explain<E: Write>(&self, err: &mut E) -> io::Result<()> {
        match self {
            Failure::Io(fault) => tell_fault(fault, err),
            Failure::Refused {
                module,
                account,
                ..
            } => {
                let what = if module.is_some() { "module" } else { "file" };
                tell_refusal(what, account, err)
            }
            Failure::Script {
                told: Some(told),
                ..
            } => writeln!(err, "{told}"),
            Failure::Script { fault, told: None } => writeln!(err, "{}", fault.meaning()),
            Failure::NoFunction { there, .. } => tell_functions(there, err),
            Failure::Arguments(mismatch) => writeln!(err, "{mismatch}"),
        }
    }
}

/// The exit status of this fault.
fn status_of_fault(fault: &IoFault<'_>) -> ExitStatus
    ensures { result ≡ status_of_io fault.now }
{
    match fault {
        IoFault::TooLong { .. } => ExitStatus::Usage,
        IoFault::Memory | IoFault::Unread { .. } | IoFault::Unwritten { .. } | IoFault::Output(_) =>
            ExitStatus::Failed,
    }
}

fn tell_fault<E: Write>(fault: &IoFault<'_>, err: &mut E) -> io::Result<()> {
    match fault {
        IoFault::Output(reason) => writeln!(err, "standard output: {reason}"),
        IoFault::Unwritten { name, reason } => writeln!(err, "{}: {reason}", Shown(*name)),
        IoFault::TooLong { name, most } => writeln!(
            err,
            "{}: longer than the limit of {most} bytes",
            Shown(*name)
        ),
        IoFault::Unread { name, .. } if *name == "-" => {
            writeln!(err, "for standard input use /dev/stdin")
        }
        IoFault::Unread { .. } | IoFault::Memory => Ok(()),
    }
}

fn tell_functions<E: Write>(there: &Option<String>, err: &mut E) -> io::Result<()> {
    match there {
        Some(names) if names.is_empty() => writeln!(err, "the module exports no functions"),
        Some(names) => writeln!(err, "exported functions: {names}"),
        None => Ok(()),
    }
}

fn tell_refusal<E: Write>(
    what: &str,
    account: &Option<RefusalAccount>,
    err: &mut E,
) -> io::Result<()> {
    match account {
        Some(account) => writeln!(err, "{account}"),
        None => writeln!(
            err,
            "the {what} has more than {} bytes (strip it with wasm-ld --strip-debug)",
            Grouped(MAX_MODULE_BYTES as u64)
        ),
    }
}

fn write_fault<W: fmt::Write>(f: &mut fmt::Formatter<W>, fault: &IoFault<'_>) -> fmt::Result {
    match fault {
        IoFault::Unread { name, reason } => write!(f, "file\n{}: {reason}", Shown(*name)),
        IoFault::Memory => f.write_str("memory"),
        IoFault::Output(_) | IoFault::Unwritten { .. } => f.write_str("output"),
        IoFault::TooLong { .. } => f.write_str("arguments"),
    }
}

impl fmt::Display for Failure<'_> {
    fn fmt<W: fmt::Write>(&self, f: &mut fmt::Formatter<W>) -> fmt::Result {
        match self {
            Failure::Io(fault) => write_fault(f, fault),
            Failure::Refused {
                module: Some(number),
                refusal,
                ..
            } => { write!(f, "module {number} {refusal}") }
            Failure::Refused { refusal, .. } => write!(f, "{refusal}"),
            Failure::Script { fault, .. } => {
                let code = fault.code();
                write!(f, "script {code} {fault}")
            }
            Failure::NoFunction { name, .. } => write!(f, "no function {}", Shown(*name)),
            Failure::Arguments(_) => f.write_str("arguments"),
        }
    }
}

/// A failure of a file, memory or the output rejects no module.
impl<'a> From<IoFault<'a>> for Failure<'a> {
    ghost use Rattle.std.specs.Prelude.{◌≢◌};
    ghost use Rattle.running.specs.Statuses.{status_of_failure};
    ghost use Rattle.running.specs.declared.status.ExitStatus.TheVariants.{Refused};

    ghost from_gives = { λ _ failure. status_of_failure failure ≢ Refused };

    #[tactic(auto, using(crate::proofs::NoRefusal::refuses_none))]
    fn from(fault: IoFault<'a>) -> Self {
        Failure::Io(fault)
    }
}

impl From<io::Error> for Failure<'_> {
    ghost use Rattle.std.specs.Prelude.{◌≢◌};
    ghost use Rattle.running.specs.Statuses.{status_of_failure};
    ghost use Rattle.running.specs.declared.status.ExitStatus.TheVariants.{Refused};

    ghost from_gives = { λ _ failure. status_of_failure failure ≢ Refused };

    #[tactic(auto, using(crate::proofs::NoRefusal::refuses_none))]
    fn from(error: io::Error) -> Self {
        Failure::Io(IoFault::from(error))
    }
}

impl From<AllocError> for Failure<'_> {
    fn from(_error: AllocError) -> Self {
        Failure::Io(IoFault::Memory)
    }
}

impl<T: Drop> From<AllocFailed<T>> for Failure<'_> {
    fn from(_error: AllocFailed<T>) -> Self {
        Failure::Io(IoFault::Memory)
    }
}

impl From<ScriptFailure> for Failure<'_> {
    fn from(failure: ScriptFailure) -> Self {
        match failure {
            ScriptFailure::Io(fault) => Failure::Io(fault),
            ScriptFailure::Refused {
                module,
                refusal,
                account,
            } => Failure::Refused {
                module: Some(module),
                refusal,
                account,
            },
            ScriptFailure::NoScript { fault, told } => Failure::Script { fault, told },
        }
    }
}
