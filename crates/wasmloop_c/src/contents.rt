// The bytes that a job was given, and those of its reply.

ghost use Rattle.std.specs.Prelude.{◌≡◌};
ghost use Rattle.wasmloop_c.specs.Calls.{ReadsHandle, ReadsInput, ReadsReply, ReadsOutcome, ReadsStageInput, ReadsStageReply, ViewsReply, ViewsOutcome, ViewsStageReply};

use crate::copying::copy_bytes;
use crate::handle::{Handle, on};
use crate::status::{KIND, NONE, OK};
use crate::thing::{JobStage, Thing};
use order::{Outcome, Told};
use std::alloc::Global;

fn stage_input(stage: &JobStage, into: &mut [u8], count: &mut u64) -> u32
    ensures { ReadsStageInput stage.now into.old into.new count.old count.new result }
{
    let order = match stage {
        JobStage::Asked(job) => job.order(),
        JobStage::Answered(told) => &told.reply.order,
        _ => return KIND,
    };
    copy_bytes(order.bytes.as_slice(), into, count)
}

fn input(thing: &Thing, into: &mut [u8], count: &mut u64) -> u32
    ensures { ReadsInput thing.now into.old into.new count.old count.new result }
{
    let Thing::Job(stage) = thing else {
        return KIND;
    };
    stage_input(stage, into, count)
}

/// Copies the bytes that a job may read, as far as there is room.
#[unsafe(no_mangle)]
pub extern "C" fn wasmloop_rt_job_input(
    alloc: Global,
    job: &mut Handle,
    into: &mut [u8],
    count: &mut u64,
) -> u32
    ensures { ReadsHandle job.old.raw.value job.new.raw.value result ((into.new ≡ into.old) × (count.new ≡ count.old)) (λ t. ReadsInput t into.old into.new count.old count.new result) }
{
    on!(job, alloc, held => input(&held, into, count))
}

fn reply_of(told: &Told, into: &mut [u8], count: &mut u64) -> u32
    ensures { ReadsOutcome told.now.reply.outcome into.old into.new count.old count.new result }
{
    let Outcome::Done(_, bytes) = &told.reply.outcome else {
        return NONE;
    };
    copy_bytes(bytes.as_slice(), into, count)
}

fn stage_reply(stage: &JobStage, into: &mut [u8], count: &mut u64) -> u32
    ensures { ReadsStageReply stage.now into.old into.new count.old count.new result }
{
    match stage {
        JobStage::Asked(_) => NONE,
        JobStage::Answered(told) => reply_of(told, into, count),
        _ => KIND,
    }
}

fn reply(thing: &Thing, into: &mut [u8], count: &mut u64) -> u32
    ensures { ReadsReply thing.now into.old into.new count.old count.new result }
{
    let Thing::Job(stage) = thing else {
        return KIND;
    };
    stage_reply(stage, into, count)
}

/// Copies the bytes of a job's reply, as far as there is room.
#[unsafe(no_mangle)]
pub extern "C" fn wasmloop_rt_job_reply(
    alloc: Global,
    job: &mut Handle,
    into: &mut [u8],
    count: &mut u64,
) -> u32
    ensures { ReadsHandle job.old.raw.value job.new.raw.value result ((into.new ≡ into.old) × (count.new ≡ count.old)) (λ t. ReadsReply t into.old into.new count.old count.new result) }
{
    on!(job, alloc, held => reply(&held, into, count))
}

fn view_of(told: &Told, at: &mut *const u8, count: &mut u64) -> u32
    ensures { ViewsOutcome told.now.reply.outcome at.old at.new count.old count.new result }
{
    let Outcome::Done(_, bytes) = &told.reply.outcome else {
        return NONE;
    };
    *at = bytes.as_ptr();
    *count = bytes.len() as u64;
    OK
}

fn stage_view(stage: &JobStage, at: &mut *const u8, count: &mut u64) -> u32
    ensures { ViewsStageReply stage.now at.old at.new count.old count.new result }
{
    match stage {
        JobStage::Asked(_) => NONE,
        JobStage::Answered(told) => view_of(told, at, count),
        _ => KIND,
    }
}

fn view(thing: &Thing, at: &mut *const u8, count: &mut u64) -> u32
    ensures { ViewsReply thing.now at.old at.new count.old count.new result }
{
    let Thing::Job(stage) = thing else {
        return KIND;
    };
    stage_view(stage, at, count)
}

/// Tells where the bytes of a job's reply are. They stay there until the job is dropped or accepted.
#[unsafe(no_mangle)]
pub extern "C" fn wasmloop_rt_job_view(
    alloc: Global,
    job: &mut Handle,
    at: &mut *const u8,
    count: &mut u64,
) -> u32
    ensures { ReadsHandle job.old.raw.value job.new.raw.value result ((at.new ≡ at.old) × (count.new ≡ count.old)) (λ t. ViewsReply t at.old at.new count.old count.new result) }
{
    on!(job, alloc, held => view(&held, at, count))
}
