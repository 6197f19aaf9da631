//! Runs a command on one thread: `check`, `invoke`, `work` and `script` return the exit status or why there is no result, and
//! `status_from` reports that.
//!
//! Their contracts say what the status `Done` means, `check`'s also what `Refused` means, and `work`'s what `Ended` means. Each command has
//! its own module; the crates `working` and `scripting` define the outcomes of jobs and scripts. `specs/Statuses.antt` defines the
//! statuses. Files are read through `files::Reader`.
#![tactic(auto)]

mod arguments;
mod calling;
mod checking;
mod failure;
mod invoking;
mod loading;
mod reporting;
mod script_command;
mod status;
mod work_command;

pub use calling::Called;
pub use checking::check;
pub use failure::Failure;
pub use invoking::invoke;
pub use loading::load;
pub use reporting::status_from;
pub use script_command::script;
pub use status::ExitStatus;
pub use work_command::work;
