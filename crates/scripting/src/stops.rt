// Why a step was not taken, and where runs of a script stopped, in sentences.

use events::ended::Ended;
use limits::MAX_DEPTH;
use order::Trail;
use script::Plan;
use sentences::{Allowed, Counts, Missing, Ran, Reason, Unfinished, tell_stopped};
use std::io::{self, Write};
use world::{Undone, World, WorldFault};
use world_log::{FinishOutcome, JobId, Log, LogEntry};

fn counts_of(plan: &Plan) -> Counts {
    Counts {
        loops: plan.loops.len(),
        workers: plan.workers,
    }
}

/// Reports why this step, counted from 0, was not taken.
fn explain_fault<E: Write>(
    fault: WorldFault,
    number: usize,
    missing: &Missing,
    err: &mut E,
) -> io::Result<()> {
    match fault {
        WorldFault::NoSuch => writeln!(err, "step {number}, {missing}"),
        WorldFault::Memory => writeln!(err, "step {number}: out of memory"),
    }
}

/// Reports why the step after those of the log was not taken. If the sentence cannot be written, nothing changes.
pub fn explain_stop<E: Write>(fault: WorldFault, plan: &Plan, log: &Log, err: &mut E) {
    let number = log.entries().len();
    if let Some(step) = plan.steps.as_slice().get(number).copied() {
        let missing = Missing {
            step,
            counts: counts_of(plan),
        };
        let _ = explain_fault(fault, number, &missing, err);
    }
}

/// The bytes of the module that this loop runs.
fn module_bytes(plan: &Plan, loop_no: u32) -> &[u8] {
    let Some(planned) = plan.loops.as_slice().get(loop_no as usize) else {
        return &[];
    };
    match plan.modules.as_slice().get(planned.module as usize) {
        Some(bytes) => bytes.as_slice(),
        None => &[],
    }
}

/// The call-depth limit of this loop.
fn depth_of(plan: &Plan, loop_no: u32) -> u32 {
    let planned = plan.loops.as_slice().get(loop_no as usize);
    planned.map_or(MAX_DEPTH, |planned| planned.settings.depth)
}

/// What is kept of a job, if its work did not return.
fn undone_in(world: &World, job: JobId) -> Option<&Undone> {
    world.undone().iter().find(|undone| undone.job.loop_no == job.loop_no
        && undone.job.request == job.request)
}

/// Reports where a callback of a loop stopped, if it did not return: then the loop has failed, and it was the last.
fn explain_callback<E: Write>(
    world: &World,
    plan: &Plan,
    ran: Ran,
    ended: &Ended,
    err: &mut E,
) -> io::Result<()> {
    let Some(stop) = world.last_stop(ran.loop_no) else {
        return Ok(());
    };
    let bytes = module_bytes(plan, ran.loop_no);
    let allowed = Allowed::by_keys(depth_of(plan, ran.loop_no));
    match Unfinished::of_call(ended, &Trail::of(&stop), allowed) {
        Some(stopped) => tell_stopped(&ran, bytes, &stopped, err),
        None => Ok(()),
    }
}

/// Reports where the work of a job stopped, if it did not return.
fn explain_work<E: Write>(world: &World, plan: &Plan, job: JobId, err: &mut E) -> io::Result<()> {
    let Some(undone) = undone_in(world, job) else {
        return Ok(());
    };
    let Some(reason) = Reason::of_work(undone.ending) else {
        return Ok(());
    };
    let stopped = Unfinished {
        reason,
        used: undone.used,
        trail: &undone.trail,
        allowed: Allowed::of_work_by_keys(depth_of(plan, job.loop_no)),
    };
    let ran = Ran::work(job.loop_no, job.request);
    tell_stopped(&ran, module_bytes(plan, job.loop_no), &stopped, err)
}

/// Reports where each run of the log stopped that did not return, in the order of the log.
pub fn explain_log<E: Write>(world: &World, plan: &Plan, log: &Log, err: &mut E) -> io::Result<()> {
    for entry in log.entries() {
        match entry {
            LogEntry::Ran {
                loop_no,
                kind,
                number,
                ended,
                ..
            } => {
                let ran = Ran::callback(*loop_no, *kind, *number);
                explain_callback(world, plan, ran, ended, err)?;
            }
            LogEntry::Finish {
                outcome: FinishOutcome::Ended(job, _),
                ..
            } => explain_work(world, plan, *job, err)?,
            _ => {}
        }
    }
    Ok(())
}
