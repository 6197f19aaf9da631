// What loops and workers do, as they do it, if that is asked for.

use events::did::StepDid;
use order::Reply;
use script::print_entry;
use sentences::ending_of;
use serve::Watch;
use std::alloc::Global;
use std::io::Write;
use std::sync::{Mutex, Wait};
use syntax::items::Items;
use world::told;
use world_log::{CollectOutcome, FinishOutcome, JobId, LogEntry, PostOutcome, StartOutcome};

/// Writes the log of what loops and workers do.
#[derive(Drop)]
pub struct Trace<'a, E> {
    alloc: Global,
    err: Mutex<&'a mut E>,
}

impl<'a, E: Write> Trace<'a, E> {
    /// The lines are written there.
    pub fn new(alloc: Global, err: &'a mut E) -> Trace<'a, E> {
        Trace {
            alloc,
            err: Mutex::new(err),
        }
    }

    /// A line that cannot be written, or for which memory runs out, is left out.
    fn write<R: Wait>(&self, rt: &R, entry: &LogEntry) {
        if let Ok(line) = print_entry(self.alloc, entry) {
            let _ = self.err.lock(rt).write_all(line.as_bytes());
        }
    }
}

impl<E: Write> Watch for Trace<'_, E> {
    fn measures_work(&self) -> bool {
        true
    }

    fn step<R: Wait>(&self, rt: &R, loop_no: u32, did: StepDid, emits: &[u64]) {
        if let Ok(emits) = Vec::from_slice(self.alloc, emits) {
            self.write(rt, &told(loop_no, did, Items::from_vec(emits)));
        }
    }

    fn post<R: Wait>(&self, rt: &R, loop_no: u32, request: u32) {
        let outcome = PostOutcome::Request(request);
        self.write(rt, &LogEntry::Post { loop_no, outcome });
    }

    fn collect<R: Wait>(&self, rt: &R, loop_no: u32, request: u32, is_taken: bool) {
        let outcome = if is_taken {
            CollectOutcome::Request(request)
        } else {
            CollectOutcome::Stranger
        };
        self.write(rt, &LogEntry::Collect { loop_no, outcome });
    }

    fn clock<R: Wait>(&self, rt: &R, loop_no: u32, clock: u64) {
        self.write(rt, &LogEntry::Clock { loop_no, clock });
    }

    fn take<R: Wait>(&self, rt: &R, worker_no: u32, loop_no: u32, request: u32) {
        let entry = LogEntry::Take {
            worker: worker_no,
            job: Some(JobId { loop_no, request }),
        };
        self.write(rt, &entry);
    }

    fn start<R: Wait>(&self, rt: &R, worker_no: u32, loop_no: u32, request: u32, is_begun: bool) {
        let job = JobId { loop_no, request };
        let entry = LogEntry::Start {
            worker: worker_no,
            outcome: if is_begun {
                StartOutcome::Begun(job)
            } else {
                StartOutcome::Dropped(job)
            },
        };
        self.write(rt, &entry);
    }

    fn finish<R: Wait>(&self, rt: &R, worker_no: u32, reply: &Reply) {
        let job = JobId {
            loop_no: reply.order.loop_no,
            request: reply.order.request,
        };
        let entry = LogEntry::Finish {
            worker: worker_no,
            outcome: FinishOutcome::Ended(job, ending_of(&reply.outcome)),
        };
        self.write(rt, &entry);
    }
}
