// What a loop does while it waits, and what is kept of work that did not return.

ghost use Rattle.std.specs.Prelude.{◌≡◌};
ghost use Rattle.board.specs.Jobs.{ticket_of};

use crate::serving::{ASKS, ASKS_ONCE, TICKS, ample, served};
use crate::showing::{check_told, shows};
use board::JobBox;
use events::did::StepDid;
use events::settings::LoopSettings;
use order::Reply;
use serve::{Served, Serving, Task, Watch, serve_watched};
use std::alloc::{AllocError, Global};
use std::sync::atomic::{AtomicU64, Ordering};
use std::sync::{Arc, Wait};
use std::test::Fail;
use std::thread::Threads;
use test_fixtures::{comes, linked_of};

/// More steps than a loop takes for one request and three timers.
const MANY: u64 = 1000;

/// How many steps the loops took, and the sum of the moments to which their clocks were raised.
#[derive(Drop)]
struct Seen {
    steps: Arc<AtomicU64>,
    clocks: AtomicU64,
}

impl Seen {
    /// Nothing was seen.
    fn new(alloc: Global) -> Result<Seen, AllocError> {
        Ok(Seen {
            steps: Arc::new(alloc, AtomicU64::new(0))?,
            clocks: AtomicU64::new(0),
        })
    }
}

impl Watch for Seen {
    fn measures_work(&self) -> bool {
        false
    }

    fn step<R: Wait>(&self, _rt: &R, _loop_no: u32, _did: StepDid, _emits: &[u64]) {
        self.steps.fetch_add(1, Ordering::SeqCst);
    }

    fn post<R: Wait>(&self, _rt: &R, _loop_no: u32, _request: u32) {}

    fn collect<R: Wait>(&self, _rt: &R, _loop_no: u32, _request: u32, _is_taken: bool) {}

    fn clock<R: Wait>(&self, _rt: &R, _loop_no: u32, clock: u64) {
        self.clocks.fetch_add(clock, Ordering::SeqCst);
    }

    fn take<R: Wait>(&self, _rt: &R, _worker_no: u32, _loop_no: u32, _request: u32) {}

    fn start<R: Wait>(
        &self,
        _rt: &R,
        _worker_no: u32,
        _loop_no: u32,
        _request: u32,
        _is_begun: bool,
    ) {}

    fn finish<R: Wait>(&self, _rt: &R, _worker_no: u32, _reply: &Reply) {}
}

/// Serves one loop and one worker. A job waits for many steps of the loop, for at most 1,000,000 turns.
fn serve_seen<R: Threads + Wait + Sync + AllocGlobal>(
    rt: &R,
    digits: &str,
    seen: &Seen,
) -> Result<(), Fail> {
    let alloc = rt.alloc();
    let make = move |task: Task| -> Result<JobBox, AllocError> {
        let ticket = task.ticket();
        let steps = Arc::try_clone(&seen.steps)?;
        let run = move || -> Reply
            ensures { ticket_of result.order ≡ ticket_of task }
        {
            comes(&steps, MANY);
            task.run(alloc)
        };
        Ok(JobBox::new(ticket, Box::new(alloc, run)?))
    };
    let module = linked_of(alloc, digits)?;
    serve_watched(rt, alloc, module, ample(1, 1), &make, seen)?;
    Ok(())
}

#[test]
fn a_loop_that_waits_for_a_reply_takes_no_steps(rt: HostRuntime) -> Result<(), Fail> {
    let seen = Seen::new(rt.alloc())?;
    serve_seen(&rt, ASKS_ONCE, &seen)?;
    shows(&rt, seen.steps.load(Ordering::SeqCst) < MANY, true);
    Ok(())
}

#[test]
fn the_moment_of_the_clock_is_told(rt: HostRuntime) -> Result<(), Fail> {
    let seen = Seen::new(rt.alloc())?;
    serve_seen(&rt, TICKS, &seen)?;
    shows(&rt, seen.clocks.load(Ordering::SeqCst), 5 + 15 + 25);
    Ok(())
}

/// The requests of the orders that are kept.
fn requests_of(alloc: Global, served: Vec<Served>) -> Result<String, Fail> {
    let mut text = String::new(alloc);
    for one in served {
        for order in one.into_undone() {
            write!(text, "{} ", order.request)?;
        }
    }
    Ok(text)
}

#[test]
fn the_first_orders_whose_work_did_not_return_are_kept(rt: HostRuntime) -> Result<(), Fail> {
    let serving = Serving {
        loops: 1,
        workers: 1,
        settings: LoopSettings {
            fuel: 1_000_000,
            work_fuel: 2,
            depth: 64,
        },
    };
    let served = served(&rt, ASKS, serving)?;
    let text = requests_of(rt.alloc(), served)?;
    check_told(
        &rt,
        text.as_str(),
        "1 2 3 4 5 6 7 8 9 10 11 12 13 14 15 16 ",
    );
    Ok(())
}
