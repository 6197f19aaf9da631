//! All loops and workers of a host, in one thread: the definition of their steps, the law of their runs, and the code
//! that takes them.
//!
//! `World::new` gives the opening world, and `World::run` takes a list of steps; by its contract world and log are those of the
//! definition's run, and on a fault those of the steps before it. `laws::after_once` says what holds of a request in every run.
//!
//! Begin with `specs/World.antt` (one step) and `specs/Laws.antt`.
#![tactic(auto)]

mod config;
mod fault;
pub mod laws;
mod undone;
mod worker;
mod world;

pub use config::{Config, LoopConfig};
pub use fault::WorldFault;
pub use undone::Undone;
pub use world::{World, told};
