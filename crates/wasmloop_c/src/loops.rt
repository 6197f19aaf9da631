// Loops.

ghost use Rattle.std.specs.Prelude.{◌≡◌, ◌≤◌, ◌<◌, ◌↔◌, ◌⊎◌, None, IfOk, IsSomeAnd};
ghost use Rattle.std.specs.Arc.{arc_value};
ghost use Rattle.limits.specs.declared.TheConstants.{MAX_ASYNCS};
ghost use Rattle.wasmloop_c.specs.Calls.{AnswersIn, IsDepth, OnLoop, OnResting, OnHeldLoop, ReadsLoop, ReadsHeldLoop, StepsNumbered, Clocks, SendsFromOutside};
ghost use Rattle.wasmloop_c.specs.Calls.{CancelsNumbered, RequestsNumbered, IsNewLoop, CopiesEmits, turned_callbacks, loop_of, module_of, standing_of};
ghost use Rattle.wasmloop_c.specs.Numbers.{hint_number};
ghost use Rattle.phases.specs.PhaseList.{hint_of};

use crate::checked::is_depth;
use crate::copying::copy_front;
use crate::did::Did;
use crate::handle::{Handle, on};
use crate::held::HeldLoop;
use crate::status::{KIND, MEMORY, OK, RANGE, USED_UP};
use crate::thing::{LoopStage, Thing, resting_in};
use crate::turn::numbered_step;
use desk::Desk;
use events::did::Hint;
use imports::Linked;
use limits::MAX_ASYNCS;
use phases::LoopCore;
use std::alloc::{AllocError, Global};
use std::sync::Arc;

/// What a loop is made with.
#[repr(C)]
#[derive(Clone, Copy)]
pub struct Limits {
    /// The fuel of a callback.
    pub fuel: u64,
    /// The fuel of a work function.
    pub work_fuel: u64,
    /// The loop's number, which its jobs carry.
    pub loop_no: u32,
    /// How many calls may stand open, 1 to 128.
    pub depth: u32,
}

/// How a loop stands.
#[repr(C)]
#[derive(Clone, Copy)]
pub struct Standing {
    /// 1 where it has an active handle, an outstanding request or a closing handle.
    pub alive: u32,
    /// 1 where a callback did not return.
    pub failed: u32,
    /// How many requests are outstanding.
    pub outstanding: u64,
}

/// A loop that has done nothing.
fn opened(
    alloc: Global,
    linked: &Arc<Linked, Global>,
    limits: Limits,
) -> Result<Box<Thing, Global>, AllocError>
    requires { IsDepth limits.depth }
    ensures opens { IfOk result (λ b. IsSomeAnd (loop_of b.value) (IsNewLoop (arc_value linked.now) limits)) }
    ensures counts { IfOk result (λ b. turned_callbacks b.value ≡ 0) }
{
    let core = LoopCore::new(
        alloc,
        Arc::try_clone(linked)?,
        Desk::new(alloc, limits.loop_no)?,
        limits.loop_no,
        limits.fuel,
        limits.work_fuel,
        limits.depth,
    )?;
    let held = HeldLoop {
        core,
        number: limits.loop_no,
    };
    let stage = Box::new(alloc, LoopStage::Resting(held))?;
    Ok(Box::new(alloc, Thing::Loop(stage, 0))?)
}

fn open(alloc: Global, module: &Thing, limits: Limits, handle: &mut Handle) -> u32
    requires depth { IsDepth limits.depth }
    requires empty { handle.old.raw.value ≡ None }
    ensures opens { result ≡ OK → IsSomeAnd (module_of module.now) (λ m. IsSomeAnd handle.new.raw.value (λ t. IsSomeAnd (loop_of t) (IsNewLoop m limits))) }
    ensures counts { result ≡ OK → IsSomeAnd handle.new.raw.value (λ t. turned_callbacks t ≡ 0) }
    ensures refuses { (result ≡ OK → ⊥) → handle.new.raw.value ≡ None }
    ensures kind { (result ≡ KIND) ↔ (module_of module.now ≡ None) }
    ensures known { (result ≡ OK) ⊎ (result ≡ KIND) ⊎ (result ≡ MEMORY) }
{
    let Thing::Module(linked) = module else {
        return KIND;
    };
    handle.put_made(alloc, opened(alloc, linked, limits))
}

/// Makes a loop of a module, in an empty handle.
#[unsafe(no_mangle)]
pub extern "C" fn wasmloop_rt_loop(
    alloc: Global,
    module: &mut Handle,
    limits: &Limits,
    handle: &mut Handle,
) -> u32
    ensures opens { result ≡ OK → IsSomeAnd module.old.raw.value (λ m. IsSomeAnd (module_of m) (λ l. IsSomeAnd handle.new.raw.value (λ t. IsSomeAnd (loop_of t) (IsNewLoop l limits.now)))) }
    ensures counts { result ≡ OK → IsSomeAnd handle.new.raw.value (λ t. turned_callbacks t ≡ 0) }
    ensures refuses { (result ≡ OK → ⊥) → handle.new.raw.value ≡ handle.old.raw.value }
    ensures kept { module.new.raw.value ≡ module.old.raw.value }
    ensures known { AnswersIn handle.old.raw.value module.old.raw.value result (IsDepth limits.now.depth) (λ _. (result ≡ OK) ⊎ (result ≡ MEMORY)) }
{
    if handle.is_full() {
        return KIND;
    }
    if !is_depth(limits.depth) {
        return RANGE;
    }
    on!(module, alloc, held => open(alloc, &held, *limits, handle))
}

fn step_stage(stage: &mut LoopStage, did: &mut Did) -> u32
    ensures { OnResting stage.old stage.new result (did.new ≡ did.old) (λ c d. (result ≡ OK) × StepsNumbered c d did.new) }
{
    let LoopStage::Resting(held) = stage else {
        return KIND;
    };
    *did = numbered_step(&mut held.core);
    OK
}

fn step(thing: &mut Thing, did: &mut Did) -> u32
    ensures { OnLoop thing.old thing.new result (did.new ≡ did.old) (λ c d. (result ≡ OK) × StepsNumbered c d did.new) }
{
    let Thing::Loop(stage, _) = thing else {
        return KIND;
    };
    step_stage(stage, did)
}

/// Takes one step of a loop.
#[unsafe(no_mangle)]
pub extern "C" fn wasmloop_rt_step(alloc: Global, handle: &mut Handle, did: &mut Did) -> u32
    ensures { OnHeldLoop handle.old.raw.value handle.new.raw.value result (did.new ≡ did.old) (λ c d. (result ≡ OK) × StepsNumbered c d did.new) }
{
    on!(handle, alloc, held => step(&mut held, did))
}

fn emits(thing: &Thing, into: &mut [u64], count: &mut u32) -> u32
    ensures { ReadsLoop thing.now result ((into.new ≡ into.old) × (count.new ≡ count.old)) (λ c. CopiesEmits c into.old into.new count.new) }
{
    let Some(core) = resting_in(thing) else {
        return KIND;
    };
    let emits = core.emits();
    copy_front(emits, into);
    *count = emits.len() as u32;
    OK
}

/// Copies what the last callback emitted, as far as there is room.
#[unsafe(no_mangle)]
pub extern "C" fn wasmloop_rt_emits(
    alloc: Global,
    handle: &mut Handle,
    into: &mut [u64],
    count: &mut u32,
) -> u32
    ensures { ReadsHeldLoop handle.old.raw.value handle.new.raw.value result ((into.new ≡ into.old) × (count.new ≡ count.old)) (λ c. CopiesEmits c into.old into.new count.new) }
{
    on!(handle, alloc, held => emits(&held, into, count))
}

fn send_to(core: &mut LoopCore<Desk>, async_no: u32) -> u32
    requires { async_no < MAX_ASYNCS }
    ensures sends { SendsFromOutside core.old core.new async_no result }
    ensures setting { core.new.setting ≡ core.old.setting }
{
    if core.sent(async_no) { OK } else { USED_UP }
}

fn send_stage(stage: &mut LoopStage, async_no: u32) -> u32
    requires { async_no < MAX_ASYNCS }
    ensures { OnResting stage.old stage.new result (Unit {0}) (λ c d. SendsFromOutside c d async_no result) }
{
    let LoopStage::Resting(held) = stage else {
        return KIND;
    };
    if held.core.sent(async_no) {
        OK
    } else {
        USED_UP
    }
}

fn send(thing: &mut Thing, async_no: u32) -> u32
    requires { async_no < MAX_ASYNCS }
    ensures { OnLoop thing.old thing.new result (Unit {0}) (λ c d. SendsFromOutside c d async_no result) }
{
    let Thing::Loop(stage, _) = thing else {
        return KIND;
    };
    send_stage(stage, async_no)
}

/// A send to an async from outside.
#[unsafe(no_mangle)]
pub extern "C" fn wasmloop_rt_async_send(alloc: Global, handle: &mut Handle, async_no: u32) -> u32
    ensures sends { async_no < MAX_ASYNCS → OnHeldLoop handle.old.raw.value handle.new.raw.value result (Unit {0}) (λ c d. SendsFromOutside c d async_no result) }
    ensures range { MAX_ASYNCS ≤ async_no → (result ≡ RANGE) × (handle.new ≡ handle.old) }
{
    if async_no as usize >= MAX_ASYNCS {
        return RANGE;
    }
    on!(handle, alloc, held => send(&mut held, async_no))
}

fn clock_stage(stage: &mut LoopStage, ms: u64, now: &mut u64) -> u32
    ensures { OnResting stage.old stage.new result (now.new ≡ now.old) (λ c d. (result ≡ OK) × Clocks c d ms now.new) }
{
    let LoopStage::Resting(held) = stage else {
        return KIND;
    };
    *now = held.core.clock(ms);
    OK
}

fn clock(thing: &mut Thing, ms: u64, now: &mut u64) -> u32
    ensures { OnLoop thing.old thing.new result (now.new ≡ now.old) (λ c d. (result ≡ OK) × Clocks c d ms now.new) }
{
    let Thing::Loop(stage, _) = thing else {
        return KIND;
    };
    clock_stage(stage, ms, now)
}

/// Raises the clock, and answers it.
#[unsafe(no_mangle)]
pub extern "C" fn wasmloop_rt_clock(
    alloc: Global,
    handle: &mut Handle,
    ms: u64,
    now: &mut u64,
) -> u32
    ensures { OnHeldLoop handle.old.raw.value handle.new.raw.value result (now.new ≡ now.old) (λ c d. (result ≡ OK) × Clocks c d ms now.new) }
{
    on!(handle, alloc, held => clock(&mut held, ms, now))
}

/// A hint in milliseconds.
pub fn ms_of(hint: Hint) -> u64
    ensures { result ≡ hint_number hint }
{
    match hint {
        Hint::Now => 0,
        Hint::For(wait) => wait,
        Hint::Forever => u64::MAX,
    }
}

fn hint(thing: &Thing, ms: &mut u64) -> u32
    ensures { ReadsLoop thing.now result (ms.new ≡ ms.old) (λ c. ms.new ≡ hint_number (hint_of c.loop.state)) }
{
    let Some(core) = resting_in(thing) else {
        return KIND;
    };
    *ms = ms_of(core.hint());
    OK
}

/// How long the loop has nothing to do: 0, or milliseconds until a timer is due, or all ones where nothing comes of itself.
#[unsafe(no_mangle)]
pub extern "C" fn wasmloop_rt_hint(alloc: Global, handle: &mut Handle, ms: &mut u64) -> u32
    ensures { ReadsHeldLoop handle.old.raw.value handle.new.raw.value result (ms.new ≡ ms.old) (λ c. ms.new ≡ hint_number (hint_of c.loop.state)) }
{
    on!(handle, alloc, held => hint(&held, ms))
}

fn cancel_stage(stage: &mut LoopStage, request: u32, answer: &mut i32) -> u32
    ensures { OnResting stage.old stage.new result (answer.new ≡ answer.old) (λ c d. (result ≡ OK) × CancelsNumbered c d request answer.new) }
{
    let LoopStage::Resting(held) = stage else {
        return KIND;
    };
    *answer = held.core.cancel(request);
    OK
}

fn cancel(thing: &mut Thing, request: u32, answer: &mut i32) -> u32
    ensures { OnLoop thing.old thing.new result (answer.new ≡ answer.old) (λ c d. (result ≡ OK) × CancelsNumbered c d request answer.new) }
{
    let Thing::Loop(stage, _) = thing else {
        return KIND;
    };
    cancel_stage(stage, request, answer)
}

/// Cancels a request, as the guest does.
#[unsafe(no_mangle)]
pub extern "C" fn wasmloop_rt_cancel(
    alloc: Global,
    handle: &mut Handle,
    request: u32,
    answer: &mut i32,
) -> u32
    ensures { OnHeldLoop handle.old.raw.value handle.new.raw.value result (answer.new ≡ answer.old) (λ c d. (result ≡ OK) × CancelsNumbered c d request answer.new) }
{
    on!(handle, alloc, held => cancel(&mut held, request, answer))
}

fn request_stage(stage: &mut LoopStage, op: u32, bytes: &[u8], answer: &mut i32) -> u32
    ensures { OnResting stage.old stage.new result (answer.new ≡ answer.old) (λ c d. (result ≡ OK) × RequestsNumbered c d op bytes.now answer.new) }
{
    let LoopStage::Resting(held) = stage else {
        return KIND;
    };
    *answer = held.core.request(op, bytes);
    OK
}

fn request(thing: &mut Thing, op: u32, bytes: &[u8], answer: &mut i32) -> u32
    ensures { OnLoop thing.old thing.new result (answer.new ≡ answer.old) (λ c d. (result ≡ OK) × RequestsNumbered c d op bytes.now answer.new) }
{
    let Thing::Loop(stage, _) = thing else {
        return KIND;
    };
    request_stage(stage, op, bytes, answer)
}

/// Makes a request for the loop's owner, which goes the way of the guest's own.
#[unsafe(no_mangle)]
pub extern "C" fn wasmloop_rt_request(
    alloc: Global,
    handle: &mut Handle,
    op: u32,
    bytes: &[u8],
    answer: &mut i32,
) -> u32
    ensures { OnHeldLoop handle.old.raw.value handle.new.raw.value result (answer.new ≡ answer.old) (λ c d. (result ≡ OK) × RequestsNumbered c d op bytes.now answer.new) }
{
    on!(handle, alloc, held => request(&mut held, op, bytes, answer))
}

fn tell_standing(thing: &Thing, standing: &mut Standing) -> u32
    ensures { ReadsLoop thing.now result (standing.new ≡ standing.old) (λ c. standing.new ≡ standing_of c) }
{
    let Some(core) = resting_in(thing) else {
        return KIND;
    };
    *standing = Standing {
        alive: core.alive() as u32,
        failed: core.failed() as u32,
        outstanding: core.outstanding() as u64,
    };
    OK
}

/// How a loop stands.
#[unsafe(no_mangle)]
pub extern "C" fn wasmloop_rt_standing(
    alloc: Global,
    handle: &mut Handle,
    told: &mut Standing,
) -> u32
    ensures { ReadsHeldLoop handle.old.raw.value handle.new.raw.value result (told.new ≡ told.old) (λ c. told.new ≡ standing_of c) }
{
    on!(handle, alloc, held => tell_standing(&held, told))
}
