//! Runs a command: `perform` takes a command, a reader of files and two writers, and returns the exit status.
//!
//! Its contract says what status 0 means: the file of `check`, `invoke`, `work` and `serve` holds a module that is decoded, valid and
//! linked; the function that `invoke` called returned; `work` wrote the line of a value and bytes, which are the only outcome of its job;
//! `script` took all steps, every callback returned, and the text of the log was written; no loop that `serve` ran has failed. For `check`
//! it also says that status 3 means that the file is rejected, and for `work` which outcome status 4 reported. Begin with `perform`.
//!
//! `specs/Performing.antt` defines what each command has done. The crate `running` has the commands that need no threads, and defines the
//! statuses; this one has `serve`. Files are read through `files::Reader`.
#![tactic(auto)]

mod performing;
mod serving;
mod telling;
mod tracing;

pub use performing::perform;
