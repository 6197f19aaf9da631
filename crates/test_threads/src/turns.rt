// One worker's turns, with the loop's calls between them.

use crate::gates::OpenGate;
use crate::hall::{End, LoopSide, Spares, WorkerSide, ticket};
use crate::jobs::Jobs;
use crate::scenes::{Scene, played};
use crate::showing::shows;
use limits::MAX_JOBS;
use std::sync::Wait;
use std::test::Fail;
use std::thread::Threads;

/// What was seen of two requests, where the second is cancelled before it is posted.
#[derive(Clone, Copy, Debug, PartialEq)]
struct Seen {
    posted: (bool, bool),
    cancelled: bool,
    ends: [End; 3],
    collected: (Option<u32>, Option<u32>),
    calls: u64,
}

fn three_turns<R: Wait>(
    rt: &R,
    jobs: &Jobs,
    side: &mut LoopSide<'_>,
    worker: &mut WorkerSide<'_>,
) -> Result<Seen, Fail> {
    let idle = worker.turn(rt, &OpenGate);
    side.open()?;
    let first_posted = side.post(rt);
    let started = worker.turn(rt, &OpenGate);
    let reply = side.collect(rt);
    let second = side.open()?;
    let cancelled = side.cancel(second);
    let second_posted = side.post(rt);
    let dropped = worker.turn(rt, &OpenGate);
    Ok(Seen {
        posted: (first_posted, second_posted),
        cancelled,
        ends: [idle, started, dropped],
        collected: (reply, side.collect(rt)),
        calls: jobs.called(),
    })
}

struct ThreeTurns;

impl Scene for ThreeTurns {
    type Seen = Seen;

    fn play<R: Threads + Wait + Sync>(
        &self,
        rt: &R,
        jobs: &Jobs,
        side: &mut LoopSide<'_>,
        spares: &mut Spares<'_>,
    ) -> Result<Seen, Fail> {
        three_turns(rt, jobs, side, &mut spares.worker()?)
    }
}

#[test]
fn a_started_job_is_called_and_a_cancelled_one_dropped(rt: HostRuntime) -> Result<(), Fail> {
    let expected = Seen {
        posted: (true, true),
        cancelled: true,
        ends: [
            End::Nothing,
            End::Replied(ticket(1)),
            End::Dropped(ticket(2)),
        ],
        collected: (Some(1), None),
        calls: 1,
    };
    shows(
        &rt,
        played(&rt, rt.alloc(), &ThreeTurns, 1, 2)?,
        (expected, 1),
    );
    Ok(())
}

/// Opens so many requests, and posts and cancels each. Whether all of that worked.
fn post_and_cancel<R: Wait>(rt: &R, side: &mut LoopSide<'_>, count: usize) -> Result<bool, Fail> {
    for _ in 0..count {
        let request = side.open()?;
        if !side.post(rt) || !side.cancel(request) {
            return Ok(false);
        }
    }
    Ok(true)
}

/// Whether each of so many turns of the worker dropped a job.
fn drops<R: Wait>(rt: &R, worker: &mut WorkerSide<'_>, turns: usize) -> bool {
    for _ in 0..turns {
        if !matches!(worker.turn(rt, &OpenGate), End::Dropped(_)) {
            return false;
        }
    }
    true
}

/// What was seen of a board that is full of cancelled jobs, and of one request more, whose job is posted twice.
#[derive(Clone, Copy, Debug, PartialEq)]
struct SeenFull {
    is_filled: bool,
    posted: (bool, bool),
    dropped: (bool, bool),
    last: End,
    calls: u64,
    owners: usize,
}

fn full_board<R: Wait>(
    rt: &R,
    jobs: &Jobs,
    side: &mut LoopSide<'_>,
    worker: &mut WorkerSide<'_>,
) -> Result<SeenFull, Fail> {
    let is_filled = post_and_cancel(rt, side, MAX_JOBS)?;
    side.open()?;
    let at_first = side.post(rt);
    let one_dropped = drops(rt, worker, 1);
    let then = side.post_kept(rt);
    let all_dropped = drops(rt, worker, MAX_JOBS - 1);
    Ok(SeenFull {
        is_filled,
        posted: (at_first, then),
        dropped: (one_dropped, all_dropped),
        last: worker.turn(rt, &OpenGate),
        calls: jobs.called(),
        owners: jobs.owners(),
    })
}

struct FullBoard;

impl Scene for FullBoard {
    type Seen = SeenFull;

    fn play<R: Threads + Wait + Sync>(
        &self,
        rt: &R,
        jobs: &Jobs,
        side: &mut LoopSide<'_>,
        spares: &mut Spares<'_>,
    ) -> Result<SeenFull, Fail> {
        full_board(rt, jobs, side, &mut spares.worker()?)
    }
}

#[test]
fn a_full_board_of_cancelled_jobs_is_dropped(rt: HostRuntime) -> Result<(), Fail> {
    let expected = SeenFull {
        is_filled: true,
        posted: (false, true),
        dropped: (true, true),
        last: End::Replied(ticket(257)),
        calls: 1,
        owners: 1,
    };
    let seen = played(&rt, rt.alloc(), &FullBoard, 1, MAX_JOBS as u32 + 1)?;
    shows(&rt, seen, (expected, 1));
    Ok(())
}
