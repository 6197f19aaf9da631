// What a step did.

use crate::ended::Ended;
use crate::phase::{EntryKind, Phase};

/// What one step of a loop did.
#[derive(Debug, Drop)]
pub enum StepDid {
    /// A phase was entered, at this moment.
    Entered {
        phase: Phase,
        now: u64,
    },
    /// A callback ran. The number is its handle or its request, and 0 for the start function and `uv_main`.
    Ran {
        kind: EntryKind,
        number: u32,
        ended: Ended,
    },
    /// An entry was skipped, since its handle is no longer what was listed, or nothing was sent to its async.
    Skipped {
        kind: EntryKind,
        number: u32,
    },
    /// The loop is over.
    Over,
    /// The loop has failed.
    Failed,
}

/// How long a loop has nothing to do.
#[derive(Clone, Copy, Debug, PartialEq, Eq)]
pub enum Hint {
    /// There is something to do, or the loop is not alive.
    Now,
    /// Nothing until a timer is due, in so many milliseconds from the cached now.
    For(u64),
    /// Nothing of itself.
    Forever,
}
