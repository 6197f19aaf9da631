// What a handle has, as a number.

ghost use Rattle.std.specs.Prelude.{◌≡◌};
ghost use Rattle.wasmloop_c.specs.Kinds.{kind_held, kind_of, kind_of_call, kind_of_job, kind_of_loop};

use crate::handle::Handle;
use crate::status::OK;
use crate::thing::{InstanceStage, JobStage, LoopStage, Thing};
use std::alloc::Global;

/// Nothing.
pub const HOLDS_NOTHING: u32 = 0;

/// A module.
pub const HOLDS_MODULE: u32 = 1;

/// A job.
pub const HOLDS_JOB: u32 = 2;

/// An instance.
pub const HOLDS_INSTANCE: u32 = 3;

/// A loop.
pub const HOLDS_LOOP: u32 = 4;

/// This is added to the kind of a job, an instance or a loop that is paused between two slices.
pub const HOLDS_PAUSED: u32 = 16;

fn kind_of_job(stage: &JobStage) -> u32
    ensures { result ≡ kind_of_job stage.now }
{
    match stage {
        JobStage::Running(_) => HOLDS_JOB + HOLDS_PAUSED,
        _ => HOLDS_JOB,
    }
}

fn kind_of_call(stage: &InstanceStage) -> u32
    ensures { result ≡ kind_of_call stage.now }
{
    match stage {
        InstanceStage::Calling(_) => HOLDS_INSTANCE + HOLDS_PAUSED,
        _ => HOLDS_INSTANCE,
    }
}

fn kind_of_loop(stage: &LoopStage) -> u32
    ensures { result ≡ kind_of_loop stage.now }
{
    match stage {
        LoopStage::Stepping(_) => HOLDS_LOOP + HOLDS_PAUSED,
        _ => HOLDS_LOOP,
    }
}

fn kind_of(thing: &Thing) -> u32
    ensures { result ≡ kind_of thing.now }
{
    match thing {
        Thing::Module(_) => HOLDS_MODULE,
        Thing::Job(stage) => kind_of_job(stage),
        Thing::Instance(stage, _) => kind_of_call(stage),
        Thing::Loop(stage, _) => kind_of_loop(stage),
        Thing::Gone => HOLDS_NOTHING,
    }
}

fn kind_held(alloc: Global, handle: &mut Handle) -> u32
    ensures kind { result ≡ kind_held handle.old.raw.value }
    ensures kept { handle.new.raw.value ≡ handle.old.raw.value }
{
    let Some(held) = handle.take(alloc) else {
        return HOLDS_NOTHING;
    };
    let kind = kind_of(&held);
    handle.put(alloc, held);
    kind
}

/// What a handle has: nothing, a module, a job, an instance or a loop, and whether that is paused between two slices.
#[unsafe(no_mangle)]
pub extern "C" fn wasmloop_rt_kind(alloc: Global, handle: &mut Handle, kind: &mut u32) -> u32
    ensures kind { (result ≡ OK) × (kind.new ≡ kind_held handle.old.raw.value) }
    ensures kept { handle.new.raw.value ≡ handle.old.raw.value }
{
    *kind = kind_held(alloc, handle);
    OK
}
