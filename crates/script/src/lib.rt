//! The text form of a world's work: a script in JSON comes in, and the lines of a log go out.
//!
//! `read` gives a plan within the limits, or the lowest of the faults that the text has. `print` is exactly the text of the log, a
//! line for each entry (`specs/Text.antt`); docs/COMMANDS.md has both forms.
//!
//! JSON itself is read by the kit's `serde_json`, into the types of `document`, and `json` finds exactly those texts that are none. Begin
//! with `plan`, what a script asks for, and `reader`.
#![tactic(auto)]

mod document;
mod fault;
mod plan;
mod reader;
mod text;

pub use fault::ScriptFault;
pub use plan::{LoopPlan, Plan};
pub use reader::read;
pub use text::{print, print_entry};
