// A loop cancels a request at each point of its job's way.

ghost use Rattle.std.specs.Prelude.{◌≡◌};
ghost use Rattle.std.specs.Thread.{IsSync};

use crate::gates::OpenGate;
use crate::hall::{End, LoopSide, Spares, WorkerSide, ticket};
use crate::jobs::Jobs;
use crate::scenes::{Scene, played};
use crate::showing::shows;
use claims::Ticket;
use pool::{Gate, Point};
use std::sync::Wait;
use std::sync::atomic::{AtomicU64, Ordering};
use std::test::Fail;
use std::thread;
use std::thread::Threads;
use test_fixtures::comes;

/// Holds a worker at one point until it is let go.
#[derive(Drop)]
struct HoldAt {
    point: Point,
    reached: AtomicU64,
    let_go: AtomicU64,
    ran_out: AtomicU64,
}

impl HoldAt {
    fn new(point: Point) -> HoldAt {
        HoldAt {
            point,
            reached: AtomicU64::new(0),
            let_go: AtomicU64::new(0),
            ran_out: AtomicU64::new(0),
        }
    }

    /// Waits until the word is 1. Notes where the turns run out.
    fn wait_for(&self, word: &AtomicU64) {
        if !comes(word, 1) {
            self.ran_out.store(1, Ordering::SeqCst);
        }
    }
}

impl Gate for HoldAt {
    fn at(&self, point: Point, _ticket: Ticket) {
        if point == self.point {
            self.reached.store(1, Ordering::SeqCst);
            self.wait_for(&self.let_go);
        }
    }
}

/// What was seen of request 1: whether it was posted, what two tries to cancel it answered, what the worker did, whether
/// the turns ran out, of which request a reply came, and how often the box was called.
#[derive(Clone, Copy, Debug, PartialEq)]
struct Seen {
    posted: bool,
    cancelled: (bool, bool),
    end: End,
    ran_out: bool,
    reply: Option<u32>,
    calls: u64,
}

/// Where the request is cancelled.
#[derive(Clone, Copy, Debug, PartialEq)]
enum When {
    Opened,
    Posted,
    HeldAt(Point),
}

/// What two tries to cancel request 1 answer.
fn cancel_twice(side: &mut LoopSide<'_>) -> (bool, bool) {
    (side.cancel(1), side.cancel(1))
}

/// Cancels request 1 once its job is held, and then lets the job go.
fn cancel_while_held(side: &mut LoopSide<'_>, hold: &HoldAt) -> (bool, bool) {
    hold.wait_for(&hold.reached);
    let answers = cancel_twice(side);
    hold.let_go.store(1, Ordering::SeqCst);
    answers
}

/// A worker takes the job in a thread of its own, and the loop cancels while the job is held.
fn held<R: Threads + Wait + Sync>(
    rt: &R,
    side: &mut LoopSide<'_>,
    worker: WorkerSide<'_>,
    point: Point,
) -> (End, (bool, bool), bool) {
    let hold = HoldAt::new(point);
    let gate = &hold;
    let (end, cancelled) = thread::join(
        rt,
        move || -> End
            requires { IsSync R.row }
        {
            let mut worker = worker;
            worker.turn(rt, gate)
        },
        || cancel_while_held(side, gate),
    );
    (end, cancelled, hold.ran_out.load(Ordering::SeqCst) == 1)
}

/// The loop cancels before the worker looks at the board.
fn early<R: Wait>(
    rt: &R,
    side: &mut LoopSide<'_>,
    worker: WorkerSide<'_>,
) -> (End, (bool, bool), bool) {
    let cancelled = cancel_twice(side);
    let mut worker = worker;
    (worker.turn(rt, &OpenGate), cancelled, false)
}

fn turn<R: Threads + Wait + Sync>(
    rt: &R,
    jobs: &Jobs,
    side: &mut LoopSide<'_>,
    worker: WorkerSide<'_>,
    when: When,
) -> Result<Seen, Fail> {
    side.open()?;
    let posted = !matches!(when, When::Opened) && side.post(rt);
    let (end, cancelled, ran_out) = match when {
        When::HeldAt(point) => held(rt, side, worker, point),
        When::Opened | When::Posted => early(rt, side, worker),
    };
    Ok(Seen {
        posted,
        cancelled,
        end,
        ran_out,
        reply: side.collect(rt),
        calls: jobs.called(),
    })
}

impl Scene for When {
    type Seen = Seen;

    fn play<R: Threads + Wait + Sync>(
        &self,
        rt: &R,
        jobs: &Jobs,
        side: &mut LoopSide<'_>,
        spares: &mut Spares<'_>,
    ) -> Result<Seen, Fail> {
        turn(rt, jobs, side, spares.worker()?, *self)
    }
}

#[test]
fn a_request_is_cancelled_until_it_is_started(rt: HostRuntime) -> Result<(), Fail> {
    let dropped = Seen {
        posted: true,
        cancelled: (true, false),
        end: End::Dropped(ticket(1)),
        ran_out: false,
        reply: None,
        calls: 0,
    };
    let never_run = Seen {
        posted: false,
        end: End::Nothing,
        ..dropped
    };
    let replied = Seen {
        cancelled: (false, false),
        end: End::Replied(ticket(1)),
        reply: Some(1),
        calls: 1,
        ..dropped
    };
    let cases = [
        (When::Opened, never_run),
        (When::Posted, dropped),
        (When::HeldAt(Point::Taken), dropped),
        (When::HeldAt(Point::Started), replied),
        (When::HeldAt(Point::Finished), replied),
        (When::HeldAt(Point::Replied), replied),
    ];
    for (when, expected) in cases {
        let seen = played(&rt, rt.alloc(), &when, 1, 1)?;
        shows(&rt, (when, seen), (when, (expected, 1)));
    }
    Ok(())
}
