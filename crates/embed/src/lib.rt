//! What an embedder needs of the crates below, in one list.
//!
//! Bytes become a guest by `load`, which answers a `Linked`, or a `Refusal` that prints the stage, number and word of what
//! refused them. A guest lives on a `LoopCore`: over a `Desk` where the embedder drives it in one thread, `step` by `step`, runs
//! its orders and brings back the replies; `serve` runs loops and workers in threads of their own, and `serve_joint` also gives back
//! the workers' seats, of which its contract says what all threads did together. A `World` takes the steps of
//! several loops and workers one by one, for tests. Where a callback stopped that did not return, `LoopCore::last_stop` answers.
//! A `Resident` is an instance that is kept, whose functions are called by name, with no loop.
//!
//! Each contract is that of the crate which the name comes from. Begin with `load`, and with docs/EMBEDDING.md.
#![tactic(auto)]

pub use board::JobBox;
pub use decode::DecodeFault;
pub use desk::Desk;
pub use events::did::{Hint, StepDid};
pub use events::ended::{Ended, Ending};
pub use events::phase::{EntryKind, Phase};
pub use events::settings::LoopSettings;
pub use events::trap::TrapCode;
pub use events::values::Values;
pub use imports::{EntryPoint, LinkFault, Linked};
pub use instance::stack::{Site, Stop};
pub use limits::{
    MAX_ASYNCS, MAX_BYTES, MAX_CALLBACKS, MAX_DEPTH, MAX_EMITS, MAX_HANDLES, MAX_JOBS, MAX_LOOPS,
    MAX_MODULE_BYTES, MAX_PAGES, MAX_REQUEST_NUMBER, MAX_REQUESTS, MAX_SENDS, MAX_WORKERS,
};
pub use loader::{Refusal, load};
pub use order::{Order, Outcome, Reply, Told, Trail};
pub use phases::{Accepted, Beside, LoopCore, Shared};
pub use places::{Part, Place, function_name, place_of_operation};
pub use resident::{BareGoing, Calling, Going, Resident};
pub use sentences::{explain, meaning};
pub use serve::{
    Account, Callback, Job, JointlyServed, LoopEnding, Served, Serving, Task, Watch, serve,
    serve_joint, serve_watched,
};
pub use syntax::types::Value;
pub use validate::ValidFault;
pub use world::{Config, LoopConfig, Undone, World, WorldFault};
pub use world_log::{
    CollectOutcome, FinishOutcome, JobEnd, Log, LogEntry, PostOutcome, StartOutcome, Step,
};
