//! Runs a script: `run_script` reads its text, makes the world that it describes, takes its steps, and writes what each did.
//!
//! Its contract says what `ScriptEnd::Returned` means: the text is JSON, the world of a plan within the limits, of accepted modules, took
//! all steps, every callback returned, and the text of the log was written.
//!
//! `specs/Opening.antt` defines the world of a plan, `specs/Running.antt` the outcome of its steps. No clause covers standard error.
#![tactic(auto)]

mod end;
mod failure;
mod opening;
mod planning;
mod running;
mod stops;

pub use end::ScriptEnd;
pub use failure::ScriptFailure;
pub use running::run_script;
