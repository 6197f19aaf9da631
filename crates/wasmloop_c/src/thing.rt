// What a handle has.

ghost use Rattle.std.specs.Prelude.{◌≡◌, option_map};
ghost use Rattle.wasmloop_c.specs.Calls.{loop_of};

use crate::held::{HeldLoop, HeldStep};
use crate::job::RunnableOrder;
use desk::Desk;
use imports::Linked;
use order::{Running, Told};
use phases::LoopCore;
use resident::{Calling, Resident};
use std::alloc::{AllocError, Global};
use std::sync::Arc;

/// What a handle has. The larger ones stand apart, so that each takes no more than its own room.
#[derive(Drop)]
pub enum Thing {
    /// A module.
    Module(Arc<Linked, Global>),
    /// A loop, in room that a step in slices has too, and how many callbacks its turns have run in the iteration under way.
    Loop(Box<LoopStage, Global>, u32),
    /// A job. Its room is as large at each stage, so that none takes memory that the others didn't.
    Job(Box<JobStage, Global>),
    /// An instance that is kept from call to call, in room that a call in slices has too, and the reply of its last call with bytes.
    Instance(Box<InstanceStage, Global>, Vec<u8>),
    /// Nothing, while a call is at work.
    Gone,
}

/// A loop, in a step or not.
#[derive(Drop)]
pub enum LoopStage {
    /// Between two steps.
    Resting(HeldLoop),
    /// Between two slices of a step.
    Stepping(HeldStep),
    /// Nothing, while a call is at work.
    Gone,
}

/// How far a job is.
#[derive(Drop)]
pub enum JobStage {
    /// What a loop asks for.
    Asked(RunnableOrder),
    /// Between two slices of its run.
    Running(Running),
    /// With the reply, what its run used and where it stopped.
    Answered(Told),
    /// Nothing, while a call is at work.
    Gone,
}

/// An instance, in a call or not.
#[derive(Drop)]
pub enum InstanceStage {
    /// Between two calls.
    Resident(Resident),
    /// Between two slices of a call.
    Calling(Calling),
    /// Nothing, while a call is at work.
    Gone,
}

/// The loop that a thing is between two steps.
pub fn resting_in(thing: &Thing) -> Option<&LoopCore<Desk>>
    ensures { option_map (λ c. c.now) result ≡ loop_of thing.now }
{
    let Thing::Loop(stage, _) = thing else {
        return None;
    };
    let LoopStage::Resting(held) = &**stage else {
        return None;
    };
    Some(&held.core)
}

/// Room for what a handle has, and for what stands apart of it.
pub type Room<T> = (Box<Thing, Global>, Box<T, Global>);

/// Memory for a job was refused. One is made by `job_room` alone.
#[derive(Drop)]
pub struct RefusedRoom {
    by: AllocError,
}

fn room_of_job(alloc: Global) -> Result<Room<JobStage>, AllocError> {
    let whole = Box::new(alloc, Thing::Gone)?;
    Ok((whole, Box::new(alloc, JobStage::Gone)?))
}

/// Room for a job.
pub fn job_room(alloc: Global) -> Result<Room<JobStage>, RefusedRoom> {
    match room_of_job(alloc) {
        Ok(room) => Ok(room),
        Err(by) => Err(RefusedRoom { by }),
    }
}

/// Room for an instance.
pub fn instance_room(alloc: Global) -> Result<Room<InstanceStage>, AllocError> {
    let whole = Box::new(alloc, Thing::Gone)?;
    Ok((whole, Box::new(alloc, InstanceStage::Gone)?))
}
