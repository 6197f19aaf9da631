// Turns: a loop's steps up to where its owner has something to do.

ghost use Rattle.std.specs.Prelude.{◌≡◌, ◌≤◌, ◌<◌};
ghost use Rattle.wasmloop_c.specs.Calls.{OnResting, StepsNumbered};
ghost use Rattle.wasmloop_c.specs.Turning.{counted_after, ends_turn, wait_after, TurnSteps, Turns, TurnsHeldLoop, TurnsLoop};

use crate::did::{Did, ENTERED, RAN, RETURN, SKIPPED, TIMERS};
use crate::handle::{Handle, on};
use crate::loops::ms_of;
use crate::status::{KIND, OK, RANGE};
use crate::thing::{LoopStage, Thing};
use desk::Desk;
use phases::LoopCore;
use std::alloc::Global;

/// How far an iteration of a loop is.
#[repr(C)]
#[derive(Clone, Copy)]
pub struct Turned {
    /// The last step.
    pub did: Did,
    /// For how many milliseconds the loop needs only replies and sends, or all ones.
    pub wait: u64,
    /// How many callbacks ran in this iteration so far.
    pub callbacks: u32,
    /// 0.
    pub zero: u32,
}

/// How many callbacks ran in the iteration that the next turn goes on with: none where a turn that told this entered the timers phase.
pub fn counted_after(told: &Turned) -> u32
    ensures { result ≡ counted_after told.now }
{
    if told.did.what == ENTERED && told.did.phase == TIMERS {
        0
    } else {
        told.callbacks
    }
}

/// Whether a step ends a turn in which so many callbacks ran before it.
pub fn ends(did: &Did, ran: u32, most: u32) -> bool
    requires { ran < most }
    ensures { result ≡ ends_turn most ran did.now }
{
    if did.what == RAN {
        did.emits != 0 || did.ending != RETURN || ran + 1 >= most
    } else if did.what == ENTERED {
        did.phase == TIMERS
    } else {
        did.what != SKIPPED
    }
}

/// One step, in numbers.
pub fn numbered_step(core: &mut LoopCore<Desk>) -> Did
    ensures step { StepsNumbered core.old core.new result }
    ensures setting { core.new.setting ≡ core.old.setting }
{
    let told = core.step();
    let emits = core.emits().len() as u32;
    Did::of(&told, emits)
}

/// Takes steps up to one that ends the turn, and returns how many callbacks ran. (No turn has 2^64 - 1 steps.)
fn take_steps(core: &mut LoopCore<Desk>, most: u32, did: &mut Did) -> u32
    requires { 1 ≤ most }
    ensures steps { TurnSteps core.old core.new most did.new result }
    ensures setting { core.new.setting ≡ core.old.setting }
{
    let mut ran = 0u32;
    for _ in 0..u64::MAX {
        *did = numbered_step(core);
        let is_over = ends(did, ran, most);
        if did.what == RAN {
            ran += 1;
        }
        if is_over {
            return ran;
        }
    }
    ran
}

/// How long the loop needs only replies and sends, after a step.
pub fn wait_of(core: &LoopCore<Desk>, did: &Did, callbacks: u32) -> u64
    ensures { result ≡ wait_after core.now did.now callbacks }
{
    if core.failed() {
        return u64::MAX;
    }
    if did.what != ENTERED || callbacks != 0 {
        return 0;
    }
    ms_of(core.hint())
}

fn turn_core(core: &mut LoopCore<Desk>, callbacks: &mut u32, most: u32, told: &mut Turned)
    requires { 1 ≤ most }
    ensures turns { Turns core.old core.new most callbacks.old callbacks.new told.new }
    ensures setting { core.new.setting ≡ core.old.setting }
{
    let ran = take_steps(core, most, &mut told.did);
    told.callbacks = callbacks.saturating_add(ran);
    told.wait = wait_of(core, &told.did, told.callbacks);
    told.zero = 0;
    *callbacks = counted_after(told);
}

fn turn_stage(stage: &mut LoopStage, callbacks: &mut u32, most: u32, told: &mut Turned) -> u32
    requires { 1 ≤ most }
    ensures { OnResting stage.old stage.new result ((callbacks.new ≡ callbacks.old) × (told.new ≡ told.old)) (λ c d. (result ≡ OK) × Turns c d most callbacks.old callbacks.new told.new) }
{
    let LoopStage::Resting(held) = stage else {
        return KIND;
    };
    turn_core(&mut held.core, callbacks, most, told);
    OK
}

fn turn(thing: &mut Thing, most: u32, told: &mut Turned) -> u32
    requires { 1 ≤ most }
    ensures { TurnsLoop thing.old thing.new most told.old told.new result }
{
    let Thing::Loop(stage, callbacks) = thing else {
        return KIND;
    };
    turn_stage(stage, callbacks, most, told)
}

/// Takes steps of a loop until it enters its timers phase, a callback emits values or does not return, or so many callbacks have run, or it is
/// over or has failed. The loop keeps how many callbacks its turns have run in an iteration.
#[unsafe(no_mangle)]
pub extern "C" fn wasmloop_rt_turn(
    alloc: Global,
    handle: &mut Handle,
    most: u32,
    told: &mut Turned,
) -> u32
    ensures turns { 1 ≤ most → TurnsHeldLoop handle.old.raw.value handle.new.raw.value most told.old told.new result }
    ensures range { most < 1 → (result ≡ RANGE) × (handle.new ≡ handle.old) × (told.new ≡ told.old) }
{
    if most < 1 {
        return RANGE;
    }
    on!(handle, alloc, held => turn(&mut held, most, told))
}
