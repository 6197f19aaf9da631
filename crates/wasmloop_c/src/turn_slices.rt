// Turns in slices.

ghost use Rattle.std.specs.Prelude.{◌≡◌, ◌≤◌, ◌<◌, ◌⊎◌, true, false};
ghost use Rattle.wasmloop_c.specs.Statuses.{OnlyRefused, status_in};
ghost use Rattle.wasmloop_c.specs.TurnSlices.{TakesSlice, TakesSlices, TurnsFor, TurnsHeld, TurnsStage, WaitsFor, counted_for, used_in};

use crate::did::{Did, RAN};
use crate::handle::{Handle, on};
use crate::status::{KIND, OK, RANGE, status_of};
use crate::step_slices::{NoSlice, SliceEnd, slice};
use crate::thing::{LoopStage, Thing};
use crate::turn::{Turned, counted_after, ends, wait_of};
use order::RefusedMemory;
use std::alloc::Global;
use std::mem::replace;

/// A turn in slices.
#[derive(Drop)]
pub struct Turning {
    /// How far its loop is.
    pub stage: LoopStage,
    /// How many callbacks ended in this call.
    pub ran: u32,
    /// The units that are left to this call.
    pub left: u64,
}

/// What a slice of a step means for the turn.
#[derive(Drop)]
pub enum TurnFlow {
    GoesOn,
    Over,
    Paused,
    /// There was none: nothing has changed.
    Refused(NoSlice),
}

/// What a call leaves of a turn.
#[derive(Drop)]
pub struct TurnLeft {
    /// How far its loop is.
    pub stage: LoopStage,
    /// How many callbacks ended in the call.
    pub ran: u32,
    /// 1 where the turn is over.
    pub over: u32,
    /// What the call answers.
    pub status: Result<u32, RefusedMemory>,
}

/// The units that the callback under way has used.
fn units_used(stage: &LoopStage) -> u64
    ensures { result ≡ used_in stage.now }
{
    match stage {
        LoopStage::Stepping(held) => held.step.used(),
        _ => 0,
    }
}

/// A slice of the turn's next step, of all units that are left.
fn next(turn: Turning, most: u32, did: &mut Did) -> (Turning, TurnFlow)
    requires { (turn.ran < most) × (1 ≤ turn.left) }
    ensures { TakesSlice turn most did.old did.new result.0 result.1 }
{
    let Turning { stage, ran, left } = turn;
    let used = units_used(&stage);
    let (stage, end) = slice(stage, left);
    let told = match end {
        SliceEnd::Over(told) => told,
        SliceEnd::Paused => return (Turning { stage, ran, left }, TurnFlow::Paused),
        SliceEnd::Refused(why) => return (Turning { stage, ran, left }, TurnFlow::Refused(why)),
    };
    *did = told;
    let left = left - (did.used - used);
    let flow = if ends(did, ran, most) {
        TurnFlow::Over
    } else if left == 0 {
        TurnFlow::Paused
    } else {
        TurnFlow::GoesOn
    };
    let ran = if did.what == RAN { ran + 1 } else { ran };
    (Turning { stage, ran, left }, flow)
}

fn left_of(turn: Turning, over: u32, status: Result<u32, RefusedMemory>) -> TurnLeft
    ensures { result ≡ record { stage = turn.stage; ran = turn.ran; over = over; status = status } }
{
    let Turning {
        stage,
        ran,
        left: _,
    } = turn;
    TurnLeft {
        stage,
        ran,
        over,
        status,
    }
}

/// Takes steps in slices until one ends the turn, or the units are used. Where memory is refused after a step, the turn can go on later.
fn take_slices(stage: LoopStage, most: u32, units: u64, did: &mut Did) -> TurnLeft
    requires { (1 ≤ most) × (1 ≤ units) }
    ensures { TakesSlices stage most units did.old did.new result }
{
    let mut turn = Turning {
        stage,
        ran: 0,
        left: units,
    };
    for taken in 0..u64::MAX {
        let (after, flow) = next(turn, most, did);
        turn = after;
        match flow {
            TurnFlow::GoesOn => {}
            TurnFlow::Over => return left_of(turn, 1, Ok(OK)),
            TurnFlow::Paused => return left_of(turn, 0, Ok(OK)),
            TurnFlow::Refused(why) => return left_of(
                turn,
                0,
                if taken == 0 { why.answer() } else { Ok(OK) },
            ),
        }
    }
    left_of(turn, 0, Ok(OK))
}

/// Whether a call has done something.
fn is_done(answer: &Result<u32, RefusedMemory>) -> bool
    ensures done { result ≡ true → status_in answer.now ≡ OK }
    ensures others { result ≡ false → status_in answer.now ≡ OK → ⊥ }
{
    match answer {
        Ok(status) => *status == OK,
        Err(_) => false,
    }
}

/// How long the loop needs only replies and sends: not at all while its turn isn't over.
fn wait_for(left: &TurnLeft, did: &Did, callbacks: u32) -> u64
    ensures { WaitsFor left.now did.now callbacks result }
{
    match &left.stage {
        LoopStage::Resting(held) if left.over == 1 => wait_of(&held.core, did, callbacks),
        _ => 0,
    }
}

/// How many callbacks ran in the iteration that the next call goes on with.
fn counted_for(over: u32, told: &Turned) -> u32
    ensures { result ≡ counted_for over told.now }
{
    if over == 1 {
        counted_after(told)
    } else {
        told.callbacks
    }
}

fn turn_stage(
    stage: LoopStage,
    callbacks: &mut u32,
    most: u32,
    units: u64,
    over: &mut u32,
    told: &mut Turned,
) -> (LoopStage, Result<u32, RefusedMemory>)
    requires { (1 ≤ most) × (1 ≤ units) }
    ensures turns { TurnsStage stage callbacks.old result.0 callbacks.new most units over.old over.new told.old told.new (status_in result.1) }
    ensures memory { OnlyRefused result.1 }
{
    let left = take_slices(stage, most, units, &mut told.did);
    if is_done(&left.status) {
        *over = left.over;
        told.callbacks = callbacks.saturating_add(left.ran);
        told.wait = wait_for(&left, &told.did, told.callbacks);
        told.zero = 0;
        *callbacks = counted_for(left.over, told);
    }
    (left.stage, left.status)
}

fn turn_for(
    thing: &mut Thing,
    most: u32,
    units: u64,
    over: &mut u32,
    told: &mut Turned,
) -> Result<u32, RefusedMemory>
    requires { (1 ≤ most) × (1 ≤ units) }
    ensures turns { TurnsFor thing.old thing.new most units over.old over.new told.old told.new (status_in result) }
    ensures memory { OnlyRefused result }
{
    let Thing::Loop(stage, callbacks) = thing else {
        return Ok(KIND);
    };
    let taken = replace(&mut **stage, LoopStage::Gone);
    let (left, answer) = turn_stage(taken, callbacks, most, units, over, told);
    **stage = left;
    answer
}

/// Takes steps of a loop as `wasmloop_rt_turn` does, within so many units of fuel, at least one, and tells whether the turn is over.
#[unsafe(no_mangle)]
pub extern "C" fn wasmloop_rt_turn_for(
    alloc: Global,
    handle: &mut Handle,
    most: u32,
    units: u64,
    over: &mut u32,
    told: &mut Turned,
) -> u32
    ensures turns { (1 ≤ most) × (1 ≤ units) → TurnsHeld handle.old.raw.value handle.new.raw.value most units over.old over.new told.old told.new result }
    ensures range { (most < 1) ⊎ (units < 1) → (result ≡ RANGE) × (handle.new ≡ handle.old) × (over.new ≡ over.old) × (told.new ≡ told.old) }
{
    if most < 1 || units < 1 {
        return RANGE;
    }
    on!(handle, alloc, held => status_of(turn_for(&mut held, most, units, over, told)))
}
