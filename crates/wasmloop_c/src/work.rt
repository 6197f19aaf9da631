// Jobs: what a loop asks for, and in time the reply.

ghost use Rattle.std.specs.Prelude.{◌≡◌, ◌≢◌, ◌⊎◌, [], None, IsNone, IsSomeAnd, IfSome, IfErr};
ghost use Rattle.wasmloop_c.specs.Calls.{OnHandle, OnLoop, OnResting, OnHeldLoop, ReadsHandle, HandsOut, RunsToEnd, RunsStageToEnd};
ghost use Rattle.wasmloop_c.specs.Calls.{StartsOfLoop, OffersReply, OffersStage, OffersHeld, TellsJob, TellsStage};
ghost use Rattle.wasmloop_c.specs.Numbers.{about_order, about_paused, about_told, outcome_numbers};
ghost use Rattle.wasmloop_c.specs.Statuses.{OnlyRefused, status_in};

use crate::handle::{Handle, on};
use crate::job::RunnableOrder;
use crate::status::{EMPTY, KIND, MEMORY, NONE, OK, STRANGER, status_of};
use crate::thing::{JobStage, LoopStage, RefusedRoom, Room, Thing, job_room};
use desk::Desk;
use order::{Order, Outcome, Running, Told};
use phases::{Accepted, LoopCore};
use std::alloc::Global;
use std::mem::replace;

/// What a job is about.
#[repr(C)]
#[derive(Clone, Copy)]
pub struct About {
    /// The number of the loop that asks.
    pub loop_no: u32,
    /// The number of the request.
    pub request: u32,
    /// The slot that the request was opened in.
    pub slot: u32,
    /// The operation.
    pub op: u32,
    /// What became of it: 0 not over, 1 done, 2 trap, 3 depth, 4 spent, 5 no memory.
    pub outcome: u32,
    /// The result of `uv_work`, or the trap's number, or 0.
    pub value: u32,
    /// How many bytes the guest may read.
    pub bytes: u64,
    /// How many bytes the reply has.
    pub reply: u64,
    /// The units of fuel that its run has used so far.
    pub used: u64,
}

fn of_order(order: &Order) -> About
    ensures { result ≡ about_order order.now }
{
    About {
        loop_no: order.loop_no,
        request: order.request,
        slot: order.slot,
        op: order.op,
        outcome: 0,
        value: 0,
        bytes: order.bytes.len() as u64,
        reply: 0,
        used: 0,
    }
}

fn of_running(running: &Running) -> About
    ensures { result ≡ about_paused running.now }
{
    About {
        used: running.used(),
        ..of_order(running.order())
    }
}

fn of_outcome(outcome: &Outcome) -> (u32, (u32, u64))
    ensures { result ≡ outcome_numbers outcome.now }
{
    match outcome {
        Outcome::Done(value, bytes) => (1, (*value, bytes.len() as u64)),
        Outcome::Trap(trap) => (2, (trap.code(), 0)),
        Outcome::Depth => (3, (0, 0)),
        Outcome::Spent => (4, (0, 0)),
        Outcome::NoMemory(_) => (5, (0, 0)),
    }
}

fn of_told(told: &Told) -> About
    ensures { result ≡ about_told told.now }
{
    let (outcome, (value, bytes)) = of_outcome(&told.reply.outcome);
    About {
        outcome,
        value,
        reply: bytes,
        used: told.used,
        ..of_order(&told.reply.order)
    }
}

/// Hands out the next request in the room that was made for it.
fn hand_out(
    alloc: Global,
    core: &mut LoopCore<Desk>,
    made: Result<Room<JobStage>, RefusedRoom>,
    job: &mut Handle,
) -> Result<u32, RefusedRoom>
    requires outstanding { core.old.loop.state.requests.outstanding ≢ [] }
    requires empty { job.old.raw.value ≡ None }
    ensures hands_out { HandsOut core.old core.new job.new.raw.value (status_in result) }
    ensures setting { core.new.setting ≡ core.old.setting }
    ensures memory { OnlyRefused result }
    ensures refused { IfErr made (λ _. status_in result ≡ MEMORY) }
{
    let (mut whole, mut stage) = made?;
    let Some(order) = core.next_order() else {
        return Ok(NONE);
    };
    *stage = JobStage::Asked(RunnableOrder::new(order));
    *whole = Thing::Job(stage);
    job.put(alloc, whole);
    Ok(OK)
}

fn next_job_of(alloc: Global, stage: &mut LoopStage, job: &mut Handle) -> Result<u32, RefusedRoom>
    requires { job.old.raw.value ≡ None }
    ensures hands_out { OnResting stage.old stage.new (status_in result) (job.new.raw.value ≡ None) (λ c d. HandsOut c d job.new.raw.value (status_in result)) }
    ensures memory { OnlyRefused result }
{
    let LoopStage::Resting(held) = stage else {
        return Ok(KIND);
    };
    if held.core.outstanding() == 0 {
        return Ok(NONE);
    }
    let room = job_room(alloc);
    hand_out(alloc, &mut held.core, room, job)
}

fn next_job(alloc: Global, thing: &mut Thing, job: &mut Handle) -> Result<u32, RefusedRoom>
    requires { job.old.raw.value ≡ None }
    ensures hands_out { OnLoop thing.old thing.new (status_in result) (job.new.raw.value ≡ None) (λ c d. HandsOut c d job.new.raw.value (status_in result)) }
    ensures memory { OnlyRefused result }
{
    let Thing::Loop(stage, _) = thing else {
        return Ok(KIND);
    };
    next_job_of(alloc, stage, job)
}

/// Takes the loop's lowest request that is not handed out yet, as a job in an empty handle.
#[unsafe(no_mangle)]
pub extern "C" fn wasmloop_rt_next_job(alloc: Global, handle: &mut Handle, job: &mut Handle) -> u32
    ensures hands_out { job.old.raw.value ≡ None → OnHeldLoop handle.old.raw.value handle.new.raw.value result (job.new.raw.value ≡ None) (λ c d. HandsOut c d job.new.raw.value result) }
    ensures kept { IsSomeAnd job.old.raw.value (λ _. (job.new.raw.value ≡ job.old.raw.value) × (handle.new.raw.value ≡ handle.old.raw.value) × (result ≡ KIND)) ⊎ (job.old.raw.value ≡ None) }
{
    if job.is_full() {
        return KIND;
    }
    on!(handle, alloc, held => status_of(next_job(alloc, &mut held, job)))
}

fn run_stage(alloc: Global, stage: JobStage) -> (JobStage, u32)
    ensures { RunsStageToEnd stage result.0 result.1 }
{
    match stage {
        JobStage::Asked(job) => (JobStage::Answered(job.run(alloc)), OK),
        other => (other, KIND),
    }
}

fn run(alloc: Global, thing: &mut Thing) -> u32
    ensures { RunsToEnd thing.old thing.new result }
{
    let Thing::Job(stage) = thing else {
        return KIND;
    };
    let (left, status) = run_stage(alloc, replace(&mut **stage, JobStage::Gone));
    **stage = left;
    status
}

/// Runs a job.
#[unsafe(no_mangle)]
pub extern "C" fn wasmloop_rt_job_run(alloc: Global, job: &mut Handle) -> u32
    ensures { OnHandle job.old.raw.value job.new.raw.value result (Unit {0}) (λ t u. RunsToEnd t u result) }
{
    on!(job, alloc, held => run(alloc, &mut held))
}

fn tell_stage(stage: &JobStage, about: &mut About) -> u32
    ensures { TellsStage stage.now about.old about.new result }
{
    match stage {
        JobStage::Asked(job) => {
            *about = of_order(job.order());
            OK
        }
        JobStage::Running(running) => {
            *about = of_running(running);
            OK
        }
        JobStage::Answered(told) => {
            *about = of_told(told);
            OK
        }
        _ => KIND,
    }
}

fn tell_about(thing: &Thing, about: &mut About) -> u32
    ensures { TellsJob thing.now about.old about.new result }
{
    let Thing::Job(stage) = thing else {
        return KIND;
    };
    tell_stage(stage, about)
}

/// What a job is about.
#[unsafe(no_mangle)]
pub extern "C" fn wasmloop_rt_job_about(alloc: Global, job: &mut Handle, told: &mut About) -> u32
    ensures { ReadsHandle job.old.raw.value job.new.raw.value result (told.new ≡ told.old) (λ t. TellsJob t told.old told.new result) }
{
    on!(job, alloc, held => tell_about(&held, told))
}

fn start_stage(stage: &mut LoopStage, job: &Thing) -> u32
    ensures { OnResting stage.old stage.new result (Unit {0}) (λ c d. StartsOfLoop c d job.now result) }
{
    let LoopStage::Resting(held) = stage else {
        return KIND;
    };
    let Thing::Job(asked) = job else {
        return KIND;
    };
    let JobStage::Asked(job) = &**asked else {
        return KIND;
    };
    let order = job.order();
    if order.loop_no != held.number {
        return STRANGER;
    }
    if held.core.start(order.slot, order.request) {
        OK
    } else {
        STRANGER
    }
}

fn start(thing: &mut Thing, job: &Thing) -> u32
    ensures { OnLoop thing.old thing.new result (Unit {0}) (λ c d. StartsOfLoop c d job.now result) }
{
    let Thing::Loop(stage, _) = thing else {
        return KIND;
    };
    start_stage(stage, job)
}

/// Tells a loop that a job of its own is started. A job that carries another loop's number is a stranger.
#[unsafe(no_mangle)]
pub extern "C" fn wasmloop_rt_job_start(alloc: Global, handle: &mut Handle, job: &mut Handle) -> u32
    ensures job { job.new.raw.value ≡ job.old.raw.value }
    ensures empty { IsNone job.old.raw.value → (result ≡ EMPTY) × (handle.new.raw.value ≡ handle.old.raw.value) }
    ensures starts { IfSome job.old.raw.value (λ asked. OnHeldLoop handle.old.raw.value handle.new.raw.value result (Unit {0}) (λ c d. StartsOfLoop c d asked result)) }
{
    let Some(asked) = job.take(alloc) else {
        return EMPTY;
    };
    let Some(mut held) = handle.take(alloc) else {
        job.put(alloc, asked);
        return EMPTY;
    };
    let status = start(&mut held, &asked);
    handle.put(alloc, held);
    job.put(alloc, asked);
    status
}

/// What is left of a job that a loop is offered.
fn offer(core: &mut LoopCore<Desk>, stage: JobStage) -> (JobStage, u32)
    ensures offers { OffersStage core.old core.new stage (result.0 ≡ stage) (Unit {0}) result.1 }
    ensures setting { core.new.setting ≡ core.old.setting }
{
    let JobStage::Answered(Told { reply, used, trail }) = stage else {
        return (stage, KIND);
    };
    match core.accept(reply) {
        Accepted::Accepted => (JobStage::Gone, OK),
        Accepted::Stranger(reply) => (JobStage::Answered(Told { reply, used, trail }), STRANGER),
    }
}

fn accept_stage(stage: &mut LoopStage, job: &mut Thing) -> u32
    ensures { OnResting stage.old stage.new result (job.new ≡ job.old) (λ c d. OffersReply c d job.old (job.new ≡ job.old) (Unit {0}) result) }
{
    let LoopStage::Resting(held) = stage else {
        return KIND;
    };
    let Thing::Job(offered) = job else {
        return KIND;
    };
    let (left, status) = offer(&mut held.core, replace(&mut **offered, JobStage::Gone));
    **offered = left;
    status
}

fn accept(thing: &mut Thing, job: &mut Thing) -> u32
    ensures { OnLoop thing.old thing.new result (job.new ≡ job.old) (λ c d. OffersReply c d job.old (job.new ≡ job.old) (Unit {0}) result) }
{
    let Thing::Loop(stage, _) = thing else {
        return KIND;
    };
    accept_stage(stage, job)
}

/// Brings the reply of a job back to its loop, and leaves the job's handle empty where the loop takes it.
#[unsafe(no_mangle)]
pub extern "C" fn wasmloop_rt_accept(alloc: Global, handle: &mut Handle, job: &mut Handle) -> u32
    ensures taken { result ≡ OK → job.new.raw.value ≡ None }
    ensures empty { IsNone job.old.raw.value → (result ≡ EMPTY) × (job.new.raw.value ≡ None) × (handle.new.raw.value ≡ handle.old.raw.value) }
    ensures offers { OffersHeld handle.old.raw.value handle.new.raw.value job.old.raw.value job.new.raw.value result }
{
    let Some(mut answered) = job.take(alloc) else {
        return EMPTY;
    };
    let Some(mut held) = handle.take(alloc) else {
        job.put(alloc, answered);
        return EMPTY;
    };
    let status = accept(&mut held, &mut answered);
    handle.put(alloc, held);
    if status != OK {
        job.put(alloc, answered);
    }
    status
}
