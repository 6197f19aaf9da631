// How many bytes a handle's object has.

ghost use Rattle.std.specs.Prelude.{◌≡◌, ◌^◌, ◌<◌, length, IfSome};
ghost use Rattle.order.specs.Orders.{order_of};
ghost use Rattle.wasmloop_c.specs.Calls.{ReadsHandle};
ghost use Rattle.wasmloop_c.specs.Holding.{held_by, held_by_call, held_by_job, held_by_loop, held_by_run, held_by_store, reply_length, TellsHeld};

use crate::handle::{Handle, on};
use crate::shape::first_size;
use crate::status::{KIND, OK};
use crate::thing::{InstanceStage, JobStage, LoopStage, Thing};
use imports::Linked;
use instance::stack::Caller;
use instance::state::State;
use limits::{MAX_BYTES, MAX_DEPTH, MAX_SLOTS};
use order::{Order, Outcome, Running, Told};
use std::alloc::Global;

/// How many bytes an element of a table has, and a slot or a caller of a call.
pub const PLACE_BYTES: u64 = 8;

/// How many bytes the calls of an instance have: its slots, with the one at the bottom, and its callers.
pub const CALLS_BYTES: u64 = PLACE_BYTES * (MAX_SLOTS as u64 + 1 + MAX_DEPTH as u64);

const _: () = prove!(size_of::<Option<u32>>() <= PLACE_BYTES as usize);

const _: () = prove!(size_of::<Caller>() <= PLACE_BYTES as usize);

/// Of an instance: its memory as large as it is now, its table, and the room of its calls.
fn held_by_store(linked: &Linked, state: &State) -> u64
    ensures held { result ≡ held_by_store linked.now state.now }
    ensures few { result < 2 ^ 62 }
{
    let elements = first_size(linked.valid().contents().table);
    // so the memory has less than 2^48 bytes
    let _pages = state.size();
    state.memory().len() as u64 + (PLACE_BYTES * elements as u64 + CALLS_BYTES)
}

fn held_by_call(stage: &InstanceStage) -> Option<u64>
    ensures held { result ≡ held_by_call stage.now }
    ensures few { IfSome result (λ n. n < 2 ^ 62) }
{
    match stage {
        InstanceStage::Resident(resident) => {
            Some(held_by_store(resident.linked(), resident.store()))
        }
        InstanceStage::Calling(call) => Some(held_by_store(call.linked(), call.store())),
        InstanceStage::Gone => None,
    }
}

fn held_by_loop(stage: &LoopStage) -> Option<u64>
    ensures { result ≡ held_by_loop stage.now }
{
    match stage {
        LoopStage::Resting(held) => Some(held_by_store(held.core.linked(), held.core.store())),
        LoopStage::Stepping(held) => Some(held_by_store(held.step.linked(), held.step.store())),
        LoopStage::Gone => None,
    }
}

fn input_length(order: &Order) -> usize
    ensures length { result ≡ length (order_of order.now).bytes }
    ensures few { result < 2 ^ 63 }
{
    order.bytes.as_slice().len()
}

fn reply_length(outcome: &Outcome) -> usize
    ensures length { result ≡ reply_length outcome.now }
    ensures few { result < 2 ^ 63 }
{
    match outcome {
        Outcome::Done(_, bytes) => bytes.as_slice().len(),
        _ => 0,
    }
}

/// Of a job under way: its input, the room for its reply, and its instance.
fn held_by_run(running: &Running) -> u64
    ensures { result ≡ held_by_run running.now }
{
    let order = running.order();
    let input = input_length(order) as u64;
    input + (MAX_BYTES as u64 + held_by_store(&order.module, running.store()))
}

fn held_by_job(stage: &JobStage) -> Option<u64>
    ensures { result ≡ held_by_job stage.now }
{
    match stage {
        JobStage::Asked(job) => Some(input_length(job.order()) as u64),
        JobStage::Running(running) => Some(held_by_run(running)),
        JobStage::Answered(Told { reply, .. }) => {
            let input = input_length(&reply.order) as u64;
            Some(input + reply_length(&reply.outcome) as u64)
        }
        JobStage::Gone => None,
    }
}

fn held_by(thing: &Thing) -> Option<u64>
    ensures { result ≡ held_by thing.now }
{
    match thing {
        Thing::Module(linked) => Some(linked.valid().module().bytes().len() as u64),
        Thing::Job(stage) => held_by_job(stage),
        Thing::Instance(stage, reply) => {
            let held = held_by_call(stage)?;
            Some(held + reply.as_slice().len() as u64)
        }
        Thing::Loop(stage, _) => held_by_loop(stage),
        Thing::Gone => None,
    }
}

fn tell(thing: &Thing, bytes: &mut u64) -> u32
    ensures { TellsHeld thing.now bytes.old bytes.new result }
{
    let Some(held) = held_by(thing) else {
        return KIND;
    };
    *bytes = held;
    OK
}

/// How many bytes a handle's object has: those that grow with what its guest does, and the large ones that it has from the start.
#[unsafe(no_mangle)]
pub extern "C" fn wasmloop_rt_held(alloc: Global, handle: &mut Handle, bytes: &mut u64) -> u32
    ensures { ReadsHandle handle.old.raw.value handle.new.raw.value result (bytes.new ≡ bytes.old) (λ t. TellsHeld t bytes.old bytes.new result) }
{
    on!(handle, alloc, held => tell(&held, bytes))
}
