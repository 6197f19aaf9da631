// Calls of an instance in slices.

ghost use Rattle.std.specs.Prelude.{◌≡◌, ◌≤◌, ◌<◌, ◌⊎◌, ℕ, length, IsSomeAnd};
ghost use Rattle.limits.specs.declared.TheConstants.{MAX_DEPTH};
ghost use Rattle.syntax.specs.declared.contents.Contents.{Contents};
ghost use Rattle.interp.specs.Lent.{result_count};
ghost use Rattle.reduction.specs.Invoking.{TakesArguments};
ghost use Rattle.resident.specs.Bare.{whole_going};
ghost use Rattle.resident.specs.Slices.{CallGoesOn};
ghost use Rattle.resident.specs.Underway.{HasCome, used_by};
ghost use Rattle.resident.specs.declared.calling.Going.{Going as Slice};
ghost use Rattle.wasmloop_c.specs.CallSlices.{BeginsCall, BeginsHeldCall, BeginsStage, EndsCallOf, EndsHeldCall, EndsStage, LeftByCall, RunsCall, RunsHeldCall, RunsStage, calling_in};
ghost use Rattle.wasmloop_c.specs.declared.thing.InstanceStage.TheVariants as stage;

use crate::checked::CheckedLimits;
use crate::ended::{CallEnded, are_as_many, lay};
use crate::handle::{Handle, on};
use crate::instances::{CallLimits, FEW, arguments};
use crate::status::{ARGUMENTS, KIND, NONE, OK, RANGE};
use crate::thing::{InstanceStage, Thing};
use resident::{BareGoing, Calling, Going, Resident};
use std::alloc::Global;
use std::mem::replace;
use syntax::types::Value;

fn begun(resident: Resident, function: u32, args: &[Value], limits: CheckedLimits) -> InstanceStage
    requires { TakesArguments resident.loaded.contents function args.now }
    ensures { IsSomeAnd (calling_in result) (λ c. HasCome resident limits.depth limits.fuel function args.now c × (used_by c ≡ 0)) }
{
    InstanceStage::Calling(resident.begin(function, args, limits.fuel(), limits.depth()))
}

/// Begins a call of the function of this name. Where it has few arguments, as most have, no memory is taken.
#[tactic(auto, using(crate::proofs::ValuesRead::takes))]
fn begin_on(
    alloc: Global,
    resident: Resident,
    name: &[u8],
    numbers: &[u64],
    limits: CheckedLimits,
) -> (InstanceStage, u32)
    ensures { BeginsStage (stage.Resident resident) result.0 name.now numbers.now limits result.1 }
{
    let Some((function, func_type)) = resident.function(name) else {
        return (InstanceStage::Resident(resident), NONE);
    };
    let types = func_type.params.as_slice();
    if !are_as_many(types, numbers) {
        return (InstanceStage::Resident(resident), ARGUMENTS);
    }
    if types.len() > FEW {
        let args = match arguments(alloc, types, numbers) {
            Ok(args) => args,
            Err(status) => return (InstanceStage::Resident(resident), status),
        };
        return (begun(resident, function, args.as_slice(), limits), OK);
    }
    let mut room = [Value::I32(0); FEW];
    let args = &mut room[..types.len()];
    if !lay(types, numbers, args) {
        return (InstanceStage::Resident(resident), ARGUMENTS);
    }
    (begun(resident, function, args, limits), OK)
}

fn begin_stage(
    alloc: Global,
    stage: InstanceStage,
    name: &[u8],
    numbers: &[u64],
    limits: CheckedLimits,
) -> (InstanceStage, u32)
    ensures { BeginsStage stage result.0 name.now numbers.now limits result.1 }
{
    match stage {
        InstanceStage::Resident(resident) => begin_on(alloc, resident, name, numbers, limits),
        other => (other, KIND),
    }
}

fn begin(
    alloc: Global,
    thing: &mut Thing,
    name: &[u8],
    numbers: &[u64],
    limits: CheckedLimits,
) -> u32
    ensures { BeginsCall thing.old thing.new name.now numbers.now limits result }
{
    let Thing::Instance(stage, _) = thing else {
        return KIND;
    };
    let taken = replace(&mut **stage, InstanceStage::Gone);
    let (left, status) = begin_stage(alloc, taken, name, numbers, limits);
    **stage = left;
    status
}

/// Begins a call of the function that the module of an instance exports under a name. Nothing of it runs yet.
#[unsafe(no_mangle)]
pub extern "C" fn wasmloop_rt_call_begin(
    alloc: Global,
    handle: &mut Handle,
    name: &[u8],
    numbers: &[u64],
    limits: &CallLimits,
) -> u32
    ensures begins { (1 ≤ limits.now.depth) × (limits.now.depth ≤ MAX_DEPTH) → BeginsHeldCall handle.old.raw.value handle.new.raw.value name.now numbers.now limits.now result }
    ensures range { (limits.now.depth < 1) ⊎ (MAX_DEPTH < limits.now.depth) → (result ≡ RANGE) × (handle.new ≡ handle.old) }
{
    let Some(limits) = CheckedLimits::of(limits) else {
        return RANGE;
    };
    on!(handle, alloc, held => begin(alloc, &mut held, name, numbers, limits))
}

/// A call that goes on, which is told as not over.
fn paused_in(call: Calling, over: &mut u32) -> InstanceStage
    ensures left { result ≡ stage.Calling call }
    ensures over { over.new ≡ 0 }
{
    *over = 0;
    InstanceStage::Calling(call)
}

/// What a slice leaves of a call.
fn left_by(going: Going, over: &mut u32, told: &mut CallEnded) -> InstanceStage
    ensures { LeftByCall going result over.new told.old told.new }
{
    match going {
        Going::Over(resident, ended) => {
            *over = 1;
            told.write(&ended);
            InstanceStage::Resident(resident)
        }
        Going::Paused(call) => paused_in(call, over),
    }
}

/// What a slice leaves of a call whose results are in these places, where it returned.
#[inline(always)]
pub fn left_in(
    going: BareGoing,
    results: &[Value],
    over: &mut u32,
    told: &mut CallEnded,
) -> InstanceStage
    ensures { (m : Contents) (function : ℕ) → result_count m function ≡ length results.now
        → LeftByCall (whole_going m function going results.now) result over.new told.old told.new }
{
    match going {
        BareGoing::Over(resident, ended) => {
            *over = 1;
            told.write_with(ended, results);
            InstanceStage::Resident(resident)
        }
        BareGoing::Paused(call) => paused_in(call, over),
    }
}

/// A slice of a call, however many results its function has. Out of line: so the slices of most calls fill no room for so many.
#[cold]
#[inline(never)]
pub fn run_any(call: Calling, units: u64, over: &mut u32, told: &mut CallEnded) -> InstanceStage
    requires { 1 ≤ units }
    ensures { (going : Slice) × CallGoesOn call units going × LeftByCall going result over.new told.old told.new }
{
    left_by(call.go_on(units), over, told)
}

/// A slice of a call. Where its function has at most one result, as most have, no room for more is filled.
fn run_call(call: Calling, units: u64, over: &mut u32, told: &mut CallEnded) -> InstanceStage
    requires { 1 ≤ units }
    ensures { (going : Slice) × CallGoesOn call units going × LeftByCall going result over.new told.old told.new }
{
    let count = call.results();
    if count > 1 {
        return run_any(call, units, over, told);
    }
    let mut one = [Value::I32(0)];
    let results = &mut one[..count];
    let going = call.go_on_into(units, results);
    left_in(going, results, over, told)
}

fn run_stage(
    stage: InstanceStage,
    units: u64,
    over: &mut u32,
    told: &mut CallEnded,
) -> (InstanceStage, u32)
    requires { 1 ≤ units }
    ensures { RunsStage stage result.0 units over.old over.new told.old told.new result.1 }
{
    match stage {
        InstanceStage::Calling(call) => (run_call(call, units, over, told), OK),
        other => (other, KIND),
    }
}

fn run_for(thing: &mut Thing, units: u64, over: &mut u32, told: &mut CallEnded) -> u32
    requires { 1 ≤ units }
    ensures { RunsCall thing.old thing.new units over.old over.new told.old told.new result }
{
    let Thing::Instance(stage, _) = thing else {
        return KIND;
    };
    let taken = replace(&mut **stage, InstanceStage::Gone);
    let (left, status) = run_stage(taken, units, over, told);
    **stage = left;
    status
}

/// Goes on with a call of an instance for at most so many units of fuel, at least one, and tells whether it is over, and how it ended.
#[unsafe(no_mangle)]
pub extern "C" fn wasmloop_rt_call_run_for(
    alloc: Global,
    handle: &mut Handle,
    units: u64,
    over: &mut u32,
    told: &mut CallEnded,
) -> u32
    ensures runs { 1 ≤ units → RunsHeldCall handle.old.raw.value handle.new.raw.value units over.old over.new told.old told.new result }
    ensures range { units < 1 → (result ≡ RANGE) × (handle.new ≡ handle.old) × (over.new ≡ over.old) × (told.new ≡ told.old) }
{
    if units < 1 {
        return RANGE;
    }
    on!(handle, alloc, held => run_for(&mut held, units, over, told))
}

fn end_stage(stage: InstanceStage, told: &mut CallEnded) -> (InstanceStage, u32)
    ensures { EndsStage stage result.0 told.old told.new result.1 }
{
    match stage {
        InstanceStage::Calling(call) => {
            let (resident, ended) = call.end();
            told.write(&ended);
            (InstanceStage::Resident(resident), OK)
        }
        other => (other, KIND),
    }
}

fn end(thing: &mut Thing, told: &mut CallEnded) -> u32
    ensures { EndsCallOf thing.old thing.new told.old told.new result }
{
    let Thing::Instance(stage, _) = thing else {
        return KIND;
    };
    let taken = replace(&mut **stage, InstanceStage::Gone);
    let (left, status) = end_stage(taken, told);
    **stage = left;
    status
}

/// Ends the call of an instance that is in progress, as spent with the fuel that it has used. The instance may be called again.
#[unsafe(no_mangle)]
pub extern "C" fn wasmloop_rt_call_end(
    alloc: Global,
    handle: &mut Handle,
    told: &mut CallEnded,
) -> u32
    ensures { EndsHeldCall handle.old.raw.value handle.new.raw.value told.old told.new result }
{
    on!(handle, alloc, held => end(&mut held, told))
}
