//! Some loops of one module and some workers, each in a thread of its own.
//!
//! The loops share claims and a board with the workers. A loop takes one turn after another until it is over, has failed,
//! waits for ever or has run as many callbacks as it may. The board is closed once all loops have ended.
//!
//! By its contract `serve` gives an answer for each loop, and the k-th reports a history of loop k of this module over its
//! seats: what its callbacks emitted, in order, and how it ended. `laws::after_once` is the law of after-work callbacks in
//! each such history. Begin with `specs/Histories.antt` and `specs/Answers.antt`; the code with `threads` and `loop_thread`.
#![tactic(auto)]

mod account;
mod crew;
mod job;
mod joint;
pub mod laws;
mod loop_thread;
mod meter;
mod place;
mod plan;
mod record;
mod rooms;
mod served;
mod service;
mod serving;
mod task;
mod threads;
mod watch;

pub use account::{Account, Callback};
pub use job::Job;
pub use joint::{JointlyServed, serve, serve_joint, serve_watched};
pub use served::{LoopEnding, Served};
pub use serving::Serving;
pub use task::Task;
pub use watch::{Nobody, Watch};
