//! The steps that a world of loops and workers takes, and the log that it keeps of them.
//!
//! `Step` is one of the nine steps, `LogEntry` what one did. To a contract a `Log` is its entries, and for how many more there
//! is room: `reserve` makes room before a step, so that `push_reserved` after it takes no memory. What is written stays:
//! new entries stand after those that are there (`specs/Written.antt`).
//!
//! Begin with `step` and `entry`; the crate `world` takes the steps, and `script` prints the log.
#![tactic(auto)]

mod entry;
mod log;
mod outcome;
mod step;

pub use entry::LogEntry;
pub use events::settings::LoopSettings;
pub use log::Log;
pub use outcome::{CollectOutcome, FinishOutcome, JobEnd, JobId, PostOutcome, StartOutcome};
pub use step::Step;
