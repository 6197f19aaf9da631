// A loop's steps in slices.

ghost use Rattle.std.specs.Prelude.{◌≡◌, ◌≤◌, ◌<◌};
ghost use Rattle.wasmloop_c.specs.Statuses.{OnlyRefused, status_in};
ghost use Rattle.wasmloop_c.specs.StepSlices.{IsOfLoop, LeftByStep, RunsStep, StepsFor, StepsHeld, TellsSlice, answer_without_slice};
ghost use Rattle.phases.specs.declared.slices.StepSlice.TheVariants as slice;
ghost use Rattle.wasmloop_c.specs.declared.thing.LoopStage.TheVariants as stage;

use crate::did::Did;
use crate::handle::{Handle, on};
use crate::held::{HeldLoop, HeldStep};
use crate::status::{KIND, OK, RANGE, status_of};
use crate::thing::{LoopStage, Thing};
use desk::Desk;
use events::did::StepDid;
use order::RefusedMemory;
use phases::{LoopCore, StepSlice};
use std::alloc::Global;
use std::mem::replace;

/// Why there is no slice.
#[derive(Drop)]
pub enum NoSlice {
    /// Memory was refused for the step.
    Memory(RefusedMemory),
    /// There is no loop.
    Gone,
}

impl NoSlice {
    /// What C is answered.
    pub fn answer(self) -> Result<u32, RefusedMemory>
        ensures answer { result ≡ answer_without_slice self }
        ensures memory { OnlyRefused result }
    {
        match self {
            NoSlice::Memory(refused) => Err(refused),
            NoSlice::Gone => Ok(KIND),
        }
    }
}

/// What a slice of a step has come to.
#[derive(Drop)]
pub enum SliceEnd {
    /// The step is over, and did this.
    Over(Did),
    /// It goes on in another slice.
    Paused,
    /// There was none: nothing has changed.
    Refused(NoSlice),
}

/// A step that is over, of the loop of this number.
fn over(core: LoopCore<Desk>, did: &StepDid, number: u32) -> (LoopStage, SliceEnd)
    requires { core.setting.loop_no ≡ number }
    ensures { LeftByStep (slice.Over core did.now) result.0 result.1 }
{
    let emits = core.emits().len() as u32;
    let told = Did::of(did, emits);
    let held = HeldLoop { core, number };
    (LoopStage::Resting(held), SliceEnd::Over(told))
}

/// What a slice leaves of a step of the loop of this number.
fn left_by(slice: StepSlice<Desk>, number: u32) -> (LoopStage, SliceEnd)
    requires { IsOfLoop number slice }
    ensures { LeftByStep slice result.0 result.1 }
{
    match slice {
        StepSlice::Over(core, did) => over(core, &did, number),
        StepSlice::Paused(step) => (
            LoopStage::Stepping(HeldStep { step, number }),
            SliceEnd::Paused,
        ),
    }
}

fn go_on(held: HeldStep, units: u64) -> (LoopStage, SliceEnd)
    requires { 1 ≤ units }
    ensures { RunsStep (stage.Stepping held) units result.0 result.1 }
{
    let HeldStep { step, number } = held;
    left_by(step.go_on(units), number)
}

fn begin(held: HeldLoop, units: u64) -> (LoopStage, SliceEnd)
    requires { 1 ≤ units }
    ensures { RunsStep (stage.Resting held) units result.0 result.1 }
{
    let HeldLoop { core, number } = held;
    match core.begin_step() {
        Ok(StepSlice::Paused(step)) => go_on(HeldStep { step, number }, units),
        Ok(StepSlice::Over(core, did)) => over(core, &did, number),
        Err((core, refused)) => (
            LoopStage::Resting(HeldLoop { core, number }),
            SliceEnd::Refused(NoSlice::Memory(refused)),
        ),
    }
}

/// A slice of a loop's step, which it begins where none is under way.
pub fn slice(stage: LoopStage, units: u64) -> (LoopStage, SliceEnd)
    requires { 1 ≤ units }
    ensures { RunsStep stage units result.0 result.1 }
{
    match stage {
        LoopStage::Resting(held) => begin(held, units),
        LoopStage::Stepping(held) => go_on(held, units),
        LoopStage::Gone => (LoopStage::Gone, SliceEnd::Refused(NoSlice::Gone)),
    }
}

/// Tells C what a slice has come to.
fn tell(end: SliceEnd, over: &mut u32, did: &mut Did) -> Result<u32, RefusedMemory>
    ensures tells { TellsSlice end over.old over.new did.old did.new (status_in result) }
    ensures memory { OnlyRefused result }
{
    match end {
        SliceEnd::Over(told) => {
            *over = 1;
            *did = told;
            Ok(OK)
        }
        SliceEnd::Paused => {
            *over = 0;
            Ok(OK)
        }
        SliceEnd::Refused(why) => why.answer(),
    }
}

fn step_for(
    thing: &mut Thing,
    units: u64,
    over: &mut u32,
    did: &mut Did,
) -> Result<u32, RefusedMemory>
    requires { 1 ≤ units }
    ensures steps { StepsFor thing.old thing.new units over.old over.new did.old did.new (status_in result) }
    ensures memory { OnlyRefused result }
{
    let Thing::Loop(stage, _) = thing else {
        return Ok(KIND);
    };
    let (left, end) = slice(replace(&mut **stage, LoopStage::Gone), units);
    **stage = left;
    tell(end, over, did)
}

/// Takes a step of a loop, or goes on with it, for at most so many units of fuel, at least one, and tells whether it is over, and what it did.
#[unsafe(no_mangle)]
pub extern "C" fn wasmloop_rt_step_for(
    alloc: Global,
    handle: &mut Handle,
    units: u64,
    over: &mut u32,
    did: &mut Did,
) -> u32
    ensures steps { 1 ≤ units → StepsHeld handle.old.raw.value handle.new.raw.value units over.old over.new did.old did.new result }
    ensures range { units < 1 → (result ≡ RANGE) × (handle.new ≡ handle.old) × (over.new ≡ over.old) × (did.new ≡ did.old) }
{
    if units < 1 {
        return RANGE;
    }
    on!(handle, alloc, held => status_of(step_for(&mut held, units, over, did)))
}
