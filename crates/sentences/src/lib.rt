//! The sentences on standard error: where and why bytes are rejected (`explain`), where a run stopped (`tell_stopped`), what a module lacks
//! to run on a loop (`warn`), which arguments a function takes (`Mismatch`), what a step of a script names that does not exist (`Missing`).
//! The crate `flaws` says why a text is not a script. Names from a module are escaped. Clauses say that the place of a rejection is the one
//! that the rejecting stage names, and that a `Defect` there has the module's own indexes, counts and names; no clause covers the wording, which
//! tests compare.
#![tactic(auto)]

mod count;
mod defect;
mod entries;
mod extension;
mod file_kind;
mod found;
mod help;
mod invalid;
mod line;
mod listing;
mod meanings;
mod memory;
mod mismatch;
mod missing;
mod operations;
mod ran;
mod reason;
mod refusal;
mod spaces;
mod stopping;
mod types;
mod undecoded;
mod unlinked;
mod warning;

pub use count::Grouped;
pub use defect::{Dangling, Defect, IndexSpace, SectionEntry};
pub use file_kind::{FileKind, kind_of_file};
pub use line::EndedLine;
pub use listing::Listing;
pub use meanings::meaning;
pub use memory::{Page, RefusedText, text};
pub use mismatch::Mismatch;
pub use missing::{Counts, Missing};
pub use ran::{Ran, What};
pub use refusal::{RefusalAccount, account_of, explain, try_explain};
pub use stopping::{Allowed, Reason, Unfinished, ending_of, tell_place, tell_stopped, unit_of};
pub use warning::{Warning, warn, warn_clock, warn_loop, warn_refused, warnings};
