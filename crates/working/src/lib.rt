//! Runs the job of a `work` command: `input_of` returns its input bytes, `work` computes the reply and writes it where the command says.
//!
//! Its contract says what `WorkReport::Result` and `WorkReport::Stopped` mean: the value and the bytes, or the other outcome, are the only
//! outcome of the job, and its line was written. Begin with `specs/Working.antt`; `specs/Lines.antt` defines the lines.
#![tactic(auto)]

mod input;
mod output;
mod report;
mod working;

pub use input::input_of;
pub use report::WorkReport;
pub use working::{tell_used, work};
