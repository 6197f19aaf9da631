// What loops and workers do with a request is reported in its order.

ghost use Rattle.std.specs.Prelude.{◌≡◌};
ghost use Rattle.board.specs.Jobs.{ticket_of};

use crate::serving::{CANCELS, ample};
use crate::showing::shows;
use board::JobBox;
use events::did::StepDid;
use events::phase::EntryKind;
use order::Reply;
use serve::{Served, Serving, Task, Watch, serve_watched};
use std::alloc::{AllocError, Global};
use std::sync::atomic::{AtomicU64, Ordering};
use std::sync::{Arc, Wait};
use std::test::Fail;
use std::thread::Threads;
use test_fixtures::{comes, linked_of};

/// Asks for three pieces of work, and a timer's callback in the turn after their posts cancels the second. Each after-work
/// emits its status.
const CANCELS_ONE: &str = "0061736d 01000000
    012b086000017f60047f7f7e7e017f60037f7f7f017f60017f017f60017e017f60000060017f0060037f7f7f00
    0248050275760a74696d65725f696e697400000275760b74696d65725f737461727400010275760a71756575655f776f726b00020275760663616e63656c000302757604656d69740004
    03050406050307
    040401700001
    0725030775765f6d61696e00060775765f776f726b00070d75765f61667465725f776f726b0008
    0907010041000b0105
    0a40040700410210031a0b2800100041004200420010011a410a4100410010021a41144100410010021a411e4100410010021a0b040020000b08002002ac10041a0b";

/// How far a request has come. A dropped one goes no further.
const NOWHERE: u64 = 0;

const POSTED: u64 = 1;

const TAKEN: u64 = 2;

const BEGUN: u64 = 3;

const FINISHED: u64 = 4;

const COLLECTED: u64 = 5;

const DROPPED: u64 = 6;

/// How many requests of a loop have a place, and how many places two loops have.
const REQUESTS: u32 = 256;

const PLACES: u32 = 512;

/// How far each request of two loops has come, how many were begun, dropped and collected, how often one was reported out of
/// its order, and how many timers' callbacks ran.
#[derive(Drop)]
struct Stages {
    stages: Vec<AtomicU64>,
    begun: AtomicU64,
    dropped: AtomicU64,
    collected: AtomicU64,
    wrong: AtomicU64,
    timers: Arc<AtomicU64>,
}

impl Stages {
    /// No request has come anywhere.
    fn new(alloc: Global) -> Result<Stages, AllocError> {
        let mut stages = Vec::new(alloc);
        for _ in 0..PLACES {
            stages.push(AtomicU64::new(NOWHERE))?;
        }
        Ok(Stages {
            stages,
            begun: AtomicU64::new(0),
            dropped: AtomicU64::new(0),
            collected: AtomicU64::new(0),
            wrong: AtomicU64::new(0),
            timers: Arc::new(alloc, AtomicU64::new(0))?,
        })
    }

    /// The request comes from one stage to the next.
    fn comes(&self, loop_no: u32, request: u32, from: u64, to: u64) {
        let place = loop_no.saturating_mul(REQUESTS).saturating_add(request);
        let Some(stage) = self.stages.get(place as usize) else {
            self.wrong.fetch_add(1, Ordering::SeqCst);
            return;
        };
        if stage.load(Ordering::SeqCst) != from {
            self.wrong.fetch_add(1, Ordering::SeqCst);
        }
        stage.store(to, Ordering::SeqCst);
    }

    /// How often one was reported out of its order, how many were begun, and how many of these were not collected.
    fn seen(&self) -> (u64, u64, u64) {
        let begun = self.begun.load(Ordering::SeqCst);
        let collected = self.collected.load(Ordering::SeqCst);
        (
            self.wrong.load(Ordering::SeqCst),
            begun,
            begun.abs_diff(collected),
        )
    }

    /// Whether a worker that took a request has reported neither that it dropped it nor that it finished it.
    fn has_unfinished(&self) -> bool {
        for stage in &self.stages {
            let stage = stage.load(Ordering::SeqCst);
            if stage == TAKEN || stage == BEGUN {
                return true;
            }
        }
        false
    }
}

impl Watch for Stages {
    fn measures_work(&self) -> bool {
        true
    }

    fn step<R: Wait>(&self, _rt: &R, _loop_no: u32, did: StepDid, _emits: &[u64]) {
        if let StepDid::Ran {
            kind: EntryKind::Timer,
            ..
        } = did
        {
            self.timers.fetch_add(1, Ordering::SeqCst);
        }
    }

    fn post<R: Wait>(&self, _rt: &R, loop_no: u32, request: u32) {
        self.comes(loop_no, request, NOWHERE, POSTED);
    }

    fn collect<R: Wait>(&self, _rt: &R, loop_no: u32, request: u32, is_taken: bool) {
        self.comes(loop_no, request, FINISHED, COLLECTED);
        if is_taken {
            self.collected.fetch_add(1, Ordering::SeqCst);
        }
    }

    fn clock<R: Wait>(&self, _rt: &R, _loop_no: u32, _clock: u64) {}

    fn take<R: Wait>(&self, _rt: &R, _worker_no: u32, loop_no: u32, request: u32) {
        self.comes(loop_no, request, POSTED, TAKEN);
    }

    fn start<R: Wait>(&self, _rt: &R, _worker_no: u32, loop_no: u32, request: u32, is_begun: bool) {
        if is_begun {
            self.begun.fetch_add(1, Ordering::SeqCst);
            self.comes(loop_no, request, TAKEN, BEGUN);
        } else {
            self.dropped.fetch_add(1, Ordering::SeqCst);
            self.comes(loop_no, request, TAKEN, DROPPED);
        }
    }

    fn finish<R: Wait>(&self, _rt: &R, _worker_no: u32, reply: &Reply) {
        self.comes(reply.order.loop_no, reply.order.request, BEGUN, FINISHED);
    }
}

/// What a work function of one of the loops used at most, if that is known of each.
fn most_of(told: &[Served]) -> Option<u64> {
    let mut most = 0;
    for one in told {
        most = one.account.most_work()?.max(most);
    }
    Some(most)
}

/// Serves so. A job is called once so many timers' callbacks have run.
fn served_telling<R: Threads + Wait + Sync + AllocGlobal>(
    rt: &R,
    digits: &str,
    serving: Serving,
    stages: &Stages,
    timers: u64,
) -> Result<Vec<Served>, Fail> {
    let alloc = rt.alloc();
    let make = move |task: Task| -> Result<JobBox, AllocError> {
        let ticket = task.ticket();
        let ran = Arc::try_clone(&stages.timers)?;
        let run = move || -> Reply
            ensures { ticket_of result.order ≡ ticket_of task }
        {
            comes(&ran, timers);
            task.run(alloc)
        };
        Ok(JobBox::new(ticket, Box::new(alloc, run)?))
    };
    let module = linked_of(alloc, digits)?;
    Ok(serve_watched(rt, alloc, module, serving, &make, stages)?)
}

#[test]
fn what_is_done_with_a_request_is_told_in_its_order(rt: HostRuntime) -> Result<(), Fail> {
    let stages = Stages::new(rt.alloc())?;
    let told = served_telling(&rt, CANCELS, ample(2, 3), &stages, 0)?;
    let (wrong, begun, lost) = stages.seen();
    shows(&rt, (wrong, begun > 0, lost), (0, true, 0));
    shows(&rt, stages.has_unfinished(), false);
    shows(&rt, (told.len(), most_of(told.as_slice())), (2, Some(3)));
    Ok(())
}

/// The one worker is held at the first job until the second is cancelled, and the loop ends after the third.
#[test]
fn a_dropped_job_is_told(rt: HostRuntime) -> Result<(), Fail> {
    let stages = Stages::new(rt.alloc())?;
    served_telling(&rt, CANCELS_ONE, ample(1, 1), &stages, 1)?;
    shows(&rt, stages.seen(), (0, 2, 0));
    shows(&rt, stages.dropped.load(Ordering::SeqCst), 1);
    shows(&rt, stages.has_unfinished(), false);
    Ok(())
}
