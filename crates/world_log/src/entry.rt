// What one step of a world did.

use crate::outcome::{CollectOutcome, FinishOutcome, JobId, PostOutcome, StartOutcome};
use events::ended::Ended;
use events::phase::{EntryKind, Phase};
use syntax::items::Items;

/// What one step of a world did. Loops, workers and the asyncs of a loop are numbered from 0.
#[derive(Drop)]
pub enum LogEntry {
    /// A loop entered a phase, with its cached now in milliseconds.
    Entered {
        loop_no: u32,
        phase: Phase,
        now: u64,
    },
    /// A loop ran a callback, which emitted these values, i64 as unsigned numbers, the first first. The number is the
    /// handle, the request where the kind is after, and 0 where it is start or main.
    Ran {
        loop_no: u32,
        kind: EntryKind,
        number: u32,
        ended: Ended,
        emits: Items<u64>,
    },
    /// A loop skipped a callback, whose handle is no longer what was listed, or to whose async nothing was sent.
    Skipped {
        loop_no: u32,
        kind: EntryKind,
        number: u32,
    },
    /// A loop is over.
    Over {
        loop_no: u32,
    },
    /// A loop has failed, so that a step, post, collect, cancel or clock did nothing to it.
    Failed {
        loop_no: u32,
    },
    /// A loop was asked for its next order.
    Post {
        loop_no: u32,
        outcome: PostOutcome,
    },
    /// A worker took this job, or none.
    Take {
        worker: u32,
        job: Option<JobId>,
    },
    /// A worker started the job that it had taken, or dropped it.
    Start {
        worker: u32,
        outcome: StartOutcome,
    },
    /// A worker ran the job that it had started.
    Finish {
        worker: u32,
        outcome: FinishOutcome,
    },
    /// The front reply of a loop was offered to it.
    Collect {
        loop_no: u32,
        outcome: CollectOutcome,
    },
    /// A send to an async, which is refused where its sends are used up.
    Send {
        loop_no: u32,
        async_no: u32,
        is_refused: bool,
    },
    /// A cancel of a request, and the answer that a guest would get.
    Cancel {
        loop_no: u32,
        request: u32,
        answer: i32,
    },
    /// The clock of a loop after the step, in milliseconds.
    Clock {
        loop_no: u32,
        clock: u64,
    },
}
