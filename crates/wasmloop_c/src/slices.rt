// Jobs in slices.

ghost use Rattle.std.specs.Prelude.{◌≡◌, ◌≤◌, ◌<◌};
ghost use Rattle.interp.specs.declared.paused.TheConstants.{UNIT_BYTES};
ghost use Rattle.order.specs.Orders.{end_of};
ghost use Rattle.order.specs.Work.{NoMemory};
ghost use Rattle.order.specs.declared.run.Told.{Told as WasTold};
ghost use Rattle.order.specs.declared.running.OrderGoing.TheVariants as going;
ghost use Rattle.wasmloop_c.specs.Calls.{OnHandle};
ghost use Rattle.wasmloop_c.specs.Slices.{HadNoMemory, LeftBy, RunsFor, RunsStageFor};

use crate::handle::{Handle, on};
use crate::status::{KIND, OK, RANGE};
use crate::thing::{JobStage, Thing};
use order::{OrderGoing, Reply, Told};
use std::alloc::Global;
use std::mem::replace;

/// So many bytes count as a unit as capi/include/wasmloop.h says.
pub fn unit_is_64_bytes()
    ensures { UNIT_BYTES ≡ 64 }
{}

/// What a slice leaves of a job, which is told as over or not.
fn left_by(going: OrderGoing, over: &mut u32) -> JobStage
    ensures { LeftBy going result over.new }
{
    match going {
        OrderGoing::Over(told) => {
            *over = 1;
            JobStage::Answered(told)
        }
        OrderGoing::Paused(running) => {
            *over = 0;
            JobStage::Running(running)
        }
    }
}

/// What is left of a job for which there was no memory, and which is over so.
#[cold]
#[inline(never)]
fn refused(reply: Reply, over: &mut u32) -> JobStage
    requires { end_of reply.outcome ≡ NoMemory }
    ensures { (told : WasTold) × HadNoMemory reply.order told × LeftBy (going.Over told) result over.new }
{
    let told = Told {
        reply,
        used: 0,
        trail: None,
    };
    left_by(OrderGoing::Over(told), over)
}

// A first slice goes on where a later one does, so that the run of a slice is compiled once.
fn stage_for(alloc: Global, stage: JobStage, units: u64, over: &mut u32) -> (JobStage, u32)
    requires { 1 ≤ units }
    ensures { RunsStageFor stage result.0 units over.old over.new result.1 }
{
    let running = match stage {
        JobStage::Asked(job) => match job.begin(alloc) {
            Ok(running) => running,
            Err(reply) => return (refused(reply, over), OK),
        },
        JobStage::Running(running) => running,
        other => return (other, KIND),
    };
    (left_by(running.go_on(units), over), OK)
}

fn run_for(alloc: Global, thing: &mut Thing, units: u64, over: &mut u32) -> u32
    requires { 1 ≤ units }
    ensures { RunsFor thing.old thing.new units over.old over.new result }
{
    let Thing::Job(stage) = thing else {
        return KIND;
    };
    let taken = replace(&mut **stage, JobStage::Gone);
    let (left, status) = stage_for(alloc, taken, units, over);
    **stage = left;
    status
}

/// Runs a job for at most so many units of fuel, at least one, and answers whether it is over.
#[unsafe(no_mangle)]
pub extern "C" fn wasmloop_rt_job_run_for(
    alloc: Global,
    job: &mut Handle,
    units: u64,
    over: &mut u32,
) -> u32
    ensures runs { 1 ≤ units → OnHandle job.old.raw.value job.new.raw.value result (over.new ≡ over.old) (λ t u. RunsFor t u units over.old over.new result) }
    ensures range { units < 1 → (result ≡ RANGE) × (job.new ≡ job.old) × (over.new ≡ over.old) }
{
    if units < 1 {
        return RANGE;
    }
    on!(job, alloc, held => run_for(alloc, &mut held, units, over))
}
