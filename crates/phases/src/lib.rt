//! One event loop: what it shares with other threads, its state, and what it answers to its guest.
//!
//! `LoopCore` is a loop over any object that meets `Shared`, in one thread or between several. By its contract each call is its definition on
//! state, store and shared object: `step` runs or skips the front entry of the phase's list, or enters the next phase;
//! `next_order` hands out the guest's requests, and `accept` brings their replies back. `laws::after_once` is the law of
//! what comes of a request, in every history of a loop.
//!
//! The loop in words is docs/LOOP.md. Begin with `specs/PhaseList.antt` (what a phase lists), `specs/Step.antt` (one step) and
//! `specs/Host.antt` (what each call of a guest answers).
#![tactic(auto)]

ghost use Rattle.phases.specs.Outside.{CancelIn, StartsBeside, SendsBeside, PostsLoop};
ghost use Rattle.phases.specs.Step.{LoopStep};

mod callback;
mod callbacks;
mod completion_kind;
mod did;
mod emits;
mod entries;
mod entry;
pub mod laws;
mod loop_core;
mod loop_host;
mod loop_state;
mod machine;
mod opening;
mod preparing;
mod request;
mod requests;
mod roster;
mod setting;
mod shared;
mod slices;
mod stage;
mod stepping;
mod work;

pub use did::BareDid;
pub use entry::{Entry, Status};
pub use events::did::{Hint, StepDid};
pub use events::phase::{EntryKind, Phase};
pub use loop_core::{Accepted, LoopCore};
pub use shared::{Beside, Posting, Shared};
pub use slices::{StepSlice, Stepping};
