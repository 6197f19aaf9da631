// A call of an instance by the number of an export, and its first slice.

ghost use Rattle.std.specs.Prelude.{◌≡◌, ◌≤◌, ◌<◌, ◌⊎◌, length};
ghost use Rattle.limits.specs.declared.TheConstants.{MAX_DEPTH};
ghost use Rattle.syntax.specs.declared.contents.FuncType.{FuncType};
ghost use Rattle.valid.specs.Typing.{HasFunctionType};
ghost use Rattle.reduction.specs.Invoking.{TakesArguments};
ghost use Rattle.wasmloop_c.specs.FirstSlices.{CallsFor, CallsForHeld, CallsForStage, SlicesFirst};
ghost use Rattle.wasmloop_c.specs.declared.thing.InstanceStage.TheVariants as stage;

use crate::call_slices::{left_in, run_any};
use crate::checked::CheckedLimits;
use crate::ended::{CallEnded, are_as_many, lay};
use crate::handle::{Handle, on};
use crate::instances::{CallLimits, FEW, arguments};
use crate::status::{ARGUMENTS, KIND, NONE, OK, RANGE};
use crate::thing::{InstanceStage, Thing};
use resident::Resident;
use std::alloc::Global;
use std::mem::replace;
use syntax::types::Value;

/// What a call may use, and its first slice of it.
#[derive(Clone, Copy)]
pub struct FirstSlice {
    pub limits: CheckedLimits,
    pub units: u64,
    pub ghost some: { 1 ≤ units },
}

/// The first slice of a call of this function: what it leaves is told.
#[inline(always)]
fn begin_for(
    resident: Resident,
    function: u32,
    count: usize,
    args: &[Value],
    slice: FirstSlice,
    over: &mut u32,
    told: &mut CallEnded,
) -> InstanceStage
    requires typed { TakesArguments resident.loaded.contents function args.now }
    requires counted { (type : FuncType) × HasFunctionType resident.loaded.contents function type × (length type.results ≡ count) }
    requires few { count ≤ 1 }
    ensures { SlicesFirst resident slice.limits function args.now slice.units result over.new told.old told.new }
{
    let limits = slice.limits;
    let mut one = [Value::I32(0)];
    let results = &mut one[..count];
    let going = resident.call_for(
        function,
        args,
        limits.fuel(),
        limits.depth(),
        slice.units,
        results,
    );
    left_in(going, results, over, told)
}

/// Begins a call of the function that the export of this number is, and goes on with it. Where it has few arguments and at most one result, as
/// most have, no memory is taken.
#[tactic(auto, using(crate::proofs::ValuesRead::takes))]
fn call_for_on(
    alloc: Global,
    resident: Resident,
    number: u64,
    numbers: &[u64],
    slice: FirstSlice,
    over: &mut u32,
    told: &mut CallEnded,
) -> (InstanceStage, u32)
    ensures { CallsForStage (stage.Resident resident) result.0 number numbers.now slice.limits slice.units over.old over.new told.old told.new result.1 }
{
    let Some((function, func_type)) = resident.function_at(number as usize) else {
        return (InstanceStage::Resident(resident), NONE);
    };
    let types = func_type.params.as_slice();
    let count = func_type.results.len();
    if !are_as_many(types, numbers) {
        return (InstanceStage::Resident(resident), ARGUMENTS);
    }
    if types.len() > FEW || count > 1 {
        let args = match arguments(alloc, types, numbers) {
            Ok(args) => args,
            Err(status) => return (InstanceStage::Resident(resident), status),
        };
        let limits = slice.limits;
        let call = resident.begin(function, args.as_slice(), limits.fuel(), limits.depth());
        return (run_any(call, slice.units, over, told), OK);
    }
    let mut room = [Value::I32(0); FEW];
    let args = &mut room[..types.len()];
    if !lay(types, numbers, args) {
        return (InstanceStage::Resident(resident), ARGUMENTS);
    }
    let left = begin_for(resident, function, count, args, slice, over, told);
    (left, OK)
}

fn call_for_stage(
    alloc: Global,
    stage: InstanceStage,
    number: u64,
    numbers: &[u64],
    slice: FirstSlice,
    over: &mut u32,
    told: &mut CallEnded,
) -> (InstanceStage, u32)
    ensures { CallsForStage stage result.0 number numbers.now slice.limits slice.units over.old over.new told.old told.new result.1 }
{
    match stage {
        InstanceStage::Resident(resident) => {
            call_for_on(alloc, resident, number, numbers, slice, over, told)
        }
        other => (other, KIND),
    }
}

fn call_for(
    alloc: Global,
    thing: &mut Thing,
    number: u64,
    numbers: &[u64],
    slice: FirstSlice,
    over: &mut u32,
    told: &mut CallEnded,
) -> u32
    ensures { CallsFor thing.old thing.new number numbers.now slice.limits slice.units over.old over.new told.old told.new result }
{
    let Thing::Instance(stage, _) = thing else {
        return KIND;
    };
    let taken = replace(&mut **stage, InstanceStage::Gone);
    let (left, status) = call_for_stage(alloc, taken, number, numbers, slice, over, told);
    **stage = left;
    status
}

/// Begins a call of the function that the export of this number is, and goes on with it for at most so many units of fuel, at least one. Where it
/// is over then, it has ended as a call at once; else it is in progress, and may be continued or ended.
#[unsafe(no_mangle)]
pub extern "C" fn wasmloop_rt_call_for(
    alloc: Global,
    handle: &mut Handle,
    number: u64,
    numbers: &[u64],
    limits: &CallLimits,
    units: u64,
    over: &mut u32,
    told: &mut CallEnded,
) -> u32
    ensures calls { 1 ≤ units → (1 ≤ limits.now.depth) × (limits.now.depth ≤ MAX_DEPTH)
        → CallsForHeld handle.old.raw.value handle.new.raw.value number numbers.now limits.now units over.old over.new told.old told.new result }
    ensures range { (units < 1) ⊎ ((limits.now.depth < 1) ⊎ (MAX_DEPTH < limits.now.depth)) → (result ≡ RANGE) × (handle.new ≡ handle.old) × (over.new ≡ over.old) × (told.new ≡ told.old) }
{
    let Some(limits) = CheckedLimits::of(limits) else {
        return RANGE;
    };
    if units < 1 {
        return RANGE;
    }
    let slice = FirstSlice { limits, units };
    on!(handle, alloc, held => call_for(alloc, &mut held, number, numbers, slice, over, told))
}
