// Instances that are kept from call to call.

ghost use Rattle.std.specs.Prelude.{◌≡◌, ◌≤◌, ◌<◌, ◌↔◌, ◌⊎◌, length, Some, None, IfOk, IfErr, IsSomeAnd};
ghost use Rattle.std.specs.Arc.{arc_value};
ghost use Rattle.limits.specs.declared.TheConstants.{MAX_DEPTH};
ghost use Rattle.syntax.specs.declared.contents.FuncType.{FuncType};
ghost use Rattle.valid.specs.Typing.{HasFunctionType};
ghost use Rattle.events.specs.declared.ended.Ended.{Ended as HowEnded};
ghost use Rattle.reduction.specs.Invoking.{TakesArguments};
ghost use Rattle.resident.specs.Calls.{CallsInstance, IsNew};
ghost use Rattle.wasmloop_c.specs.Calls.{AnswersIn, IsDepth, module_of};
ghost use Rattle.wasmloop_c.specs.Instances.{OnResident, OnStage, OnHeldResident, OpensOver, OpensNone, MakesCall, CallsBy, WritesMemory, resident_of};
ghost use Rattle.wasmloop_c.specs.Values.{values_of, call_numbers};

use crate::checked::CheckedLimits;
use crate::ended::{CallEnded, are_as_many, lay, values};
use crate::handle::{Handle, on};
use crate::status::{ARGUMENTS, KIND, MEMORY, NONE, NOT_STARTED, OK, RANGE};
use crate::thing::{InstanceStage, Room, Thing, instance_room};
use events::ended::Ending;
use imports::Linked;
use resident::Resident;
use std::alloc::{AllocError, Global};
use std::sync::Arc;
use syntax::types::{ValType, Value};

/// How many arguments are few: those need no memory.
pub const FEW: usize = 8;

/// What a call may use.
#[repr(C)]
#[derive(Clone, Copy)]
pub struct CallLimits {
    /// The fuel of the call.
    pub fuel: u64,
    /// How many calls may stand open, 1 to 128.
    pub depth: u32,
    /// 0.
    pub zero: u32,
}

/// A new instance, and the room for it in a handle.
fn opened(
    alloc: Global,
    linked: &Arc<Linked, Global>,
) -> Result<(Room<InstanceStage>, Resident), AllocError>
    ensures { IfOk result (λ made. IsNew (arc_value linked.now) made.1) }
{
    let room = instance_room(alloc)?;
    let resident = Resident::new(alloc, Arc::try_clone(linked)?)?;
    Ok((room, resident))
}

fn open(
    alloc: Global,
    module: &Thing,
    limits: CheckedLimits,
    handle: &mut Handle,
    told: &mut CallEnded,
) -> u32
    requires empty { handle.old.raw.value ≡ None }
    ensures opens { result ≡ OK → IsSomeAnd (module_of module.now) (λ m. IsSomeAnd handle.new.raw.value (λ t. IsSomeAnd (resident_of t) (OpensOver m limits told.new))) }
    ensures unstarted { result ≡ NOT_STARTED → IsSomeAnd (module_of module.now) (λ m. OpensNone m limits told.new) }
    ensures refuses { (result ≡ OK → ⊥) → handle.new.raw.value ≡ None }
    ensures untold { (result ≡ OK → ⊥) → (result ≡ NOT_STARTED → ⊥) → told.new ≡ told.old }
    ensures kind { (result ≡ KIND) ↔ (module_of module.now ≡ None) }
    ensures known { (result ≡ OK) ⊎ (result ≡ NOT_STARTED) ⊎ (result ≡ KIND) ⊎ (result ≡ MEMORY) }
{
    let Thing::Module(linked) = module else {
        return KIND;
    };
    let Ok(((mut whole, mut stage), mut resident)) = opened(alloc, linked) else {
        return MEMORY;
    };
    let ended = resident.start(limits.fuel(), limits.depth());
    told.write(&ended);
    let Ending::Return(_) = ended.ending else {
        return NOT_STARTED;
    };
    *stage = InstanceStage::Resident(resident);
    *whole = Thing::Instance(stage, Vec::new(alloc));
    handle.put(alloc, whole);
    OK
}

/// Makes an instance of a module, in an empty handle, and runs its start function. Where that doesn't return, nothing is made.
#[unsafe(no_mangle)]
pub extern "C" fn wasmloop_rt_instance(
    alloc: Global,
    module: &mut Handle,
    limits: &CallLimits,
    handle: &mut Handle,
    told: &mut CallEnded,
) -> u32
    ensures opens { result ≡ OK → IsSomeAnd module.old.raw.value (λ t. IsSomeAnd (module_of t) (λ m. IsSomeAnd handle.new.raw.value (λ u. IsSomeAnd (resident_of u) (OpensOver m limits.now told.new)))) }
    ensures unstarted { result ≡ NOT_STARTED → IsSomeAnd module.old.raw.value (λ t. IsSomeAnd (module_of t) (λ m. OpensNone m limits.now told.new)) }
    ensures refuses { (result ≡ OK → ⊥) → handle.new.raw.value ≡ handle.old.raw.value }
    ensures untold { (result ≡ OK → ⊥) → (result ≡ NOT_STARTED → ⊥) → told.new ≡ told.old }
    ensures kept { module.new.raw.value ≡ module.old.raw.value }
    ensures known { AnswersIn handle.old.raw.value module.old.raw.value result (IsDepth limits.now.depth) (λ _. (result ≡ OK) ⊎ (result ≡ NOT_STARTED) ⊎ (result ≡ MEMORY)) }
{
    if handle.is_full() {
        return KIND;
    }
    let Some(limits) = CheckedLimits::of(limits) else {
        return RANGE;
    };
    on!(module, alloc, held => open(alloc, &held, limits, handle, told))
}

/// The values of these types that the numbers are, or the status that says why there are none.
pub fn arguments(alloc: Global, types: &[ValType], numbers: &[u64]) -> Result<Vec<Value>, u32>
    ensures given { IfOk result (λ args. values_of types.now numbers.now ≡ Some args.items) }
    ensures refused { IfErr result (λ status. (status ≡ MEMORY) ⊎ ((status ≡ ARGUMENTS) × (values_of types.now numbers.now ≡ None))) }
{
    let Ok(made) = values(alloc, types, numbers) else {
        return Err(MEMORY);
    };
    match made {
        Some(args) => Ok(args),
        None => Err(ARGUMENTS),
    }
}

/// Calls a function of an instance that has so many results, at most one, with these arguments.
#[inline(always)]
fn call_with(
    resident: &mut Resident,
    function: u32,
    count: usize,
    args: &[Value],
    limits: CheckedLimits,
    told: &mut CallEnded,
)
    requires typed { TakesArguments resident.old.loaded.contents function args.now }
    requires counted { (type : FuncType) × HasFunctionType resident.old.loaded.contents function type × (length type.results ≡ count) }
    requires few { count ≤ 1 }
    ensures { (ended : HowEnded) × CallsInstance resident.old limits.depth limits.fuel function args.now ended resident.new × (told.new ≡ call_numbers ended) }
{
    let mut one = [Value::I32(0)];
    let results = &mut one[..count];
    let ended = resident.call_into(function, args, limits.fuel(), limits.depth(), results);
    told.write_with(ended, results);
}

/// Calls a function of an instance with these arguments, however many results it has.
fn call_any(
    resident: &mut Resident,
    function: u32,
    args: &[Value],
    limits: CheckedLimits,
    told: &mut CallEnded,
)
    requires typed { TakesArguments resident.old.loaded.contents function args.now }
    ensures { (ended : HowEnded) × CallsInstance resident.old limits.depth limits.fuel function args.now ended resident.new × (told.new ≡ call_numbers ended) }
{
    let ended = resident.call(function, args, limits.fuel(), limits.depth());
    told.write(&ended);
}

/// Calls a function of an instance with these numbers. Where it has few arguments and at most one result, as most have, no memory is taken,
/// and no room for more results is filled.
#[tactic(auto, using(crate::proofs::ValuesRead::takes))]
pub fn call_function(
    alloc: Global,
    resident: &mut Resident,
    function: u32,
    numbers: &[u64],
    limits: CheckedLimits,
    told: &mut CallEnded,
) -> u32
    requires typed { (type : FuncType) × HasFunctionType resident.old.loaded.contents function type }
    ensures { MakesCall resident.old ⊥ (λ f. f ≡ function) numbers.now limits told.old told.new result resident.new }
{
    let Some(func_type) = resident.type_of(function) else {
        unreachable!()
    };
    let types = func_type.params.as_slice();
    let count = func_type.results.len();
    if !are_as_many(types, numbers) {
        return ARGUMENTS;
    }
    if types.len() > FEW || count > 1 {
        let args = match arguments(alloc, types, numbers) {
            Ok(args) => args,
            Err(status) => return status,
        };
        call_any(resident, function, args.as_slice(), limits, told);
        return OK;
    }
    let mut room = [Value::I32(0); FEW];
    let args = &mut room[..types.len()];
    if !lay(types, numbers, args) {
        return ARGUMENTS;
    }
    call_with(resident, function, count, args, limits, told);
    OK
}

#[tactic(auto, using(crate::proofs::Meant::meant))]
fn call_on(
    alloc: Global,
    resident: &mut Resident,
    name: &[u8],
    numbers: &[u64],
    limits: CheckedLimits,
    told: &mut CallEnded,
) -> u32
    ensures { CallsBy resident.old name.now numbers.now limits told.old told.new result resident.new }
{
    let Some((function, _)) = resident.function(name) else {
        return NONE;
    };
    call_function(alloc, resident, function, numbers, limits, told)
}

fn call_stage(
    alloc: Global,
    stage: &mut InstanceStage,
    name: &[u8],
    numbers: &[u64],
    limits: CheckedLimits,
    told: &mut CallEnded,
) -> u32
    ensures { OnStage stage.old stage.new result (told.new ≡ told.old) (λ a b. CallsBy a name.now numbers.now limits told.old told.new result b) }
{
    let InstanceStage::Resident(resident) = stage else {
        return KIND;
    };
    call_on(alloc, resident, name, numbers, limits, told)
}

fn call(
    alloc: Global,
    thing: &mut Thing,
    name: &[u8],
    numbers: &[u64],
    limits: CheckedLimits,
    told: &mut CallEnded,
) -> u32
    ensures { OnResident thing.old thing.new result (told.new ≡ told.old) (λ a b. CallsBy a name.now numbers.now limits told.old told.new result b) }
{
    let Thing::Instance(stage, _) = thing else {
        return KIND;
    };
    call_stage(alloc, stage, name, numbers, limits, told)
}

/// Calls the function that the module of an instance exports under a name. However it ends, the instance stays as it is then.
#[unsafe(no_mangle)]
pub extern "C" fn wasmloop_rt_call(
    alloc: Global,
    handle: &mut Handle,
    name: &[u8],
    numbers: &[u64],
    limits: &CallLimits,
    told: &mut CallEnded,
) -> u32
    ensures calls { (1 ≤ limits.now.depth) × (limits.now.depth ≤ MAX_DEPTH) → OnHeldResident handle.old.raw.value handle.new.raw.value result (told.new ≡ told.old) (λ a b. CallsBy a name.now numbers.now limits.now told.old told.new result b) }
    ensures range { (limits.now.depth < 1) ⊎ (MAX_DEPTH < limits.now.depth) → (result ≡ RANGE) × (handle.new ≡ handle.old) × (told.new ≡ told.old) }
{
    let Some(limits) = CheckedLimits::of(limits) else {
        return RANGE;
    };
    on!(handle, alloc, held => call(alloc, &mut held, name, numbers, limits, told))
}

fn write_stage(stage: &mut InstanceStage, at: u32, bytes: &[u8]) -> u32
    ensures { OnStage stage.old stage.new result (Unit {0}) (λ a b. WritesMemory a at bytes.now result b) }
{
    let InstanceStage::Resident(resident) = stage else {
        return KIND;
    };
    if resident.write(at as usize, bytes) {
        OK
    } else {
        RANGE
    }
}

fn write(thing: &mut Thing, at: u32, bytes: &[u8]) -> u32
    ensures { OnResident thing.old thing.new result (Unit {0}) (λ a b. WritesMemory a at bytes.now result b) }
{
    let Thing::Instance(stage, _) = thing else {
        return KIND;
    };
    write_stage(stage, at, bytes)
}

/// Writes bytes to an instance's memory.
#[unsafe(no_mangle)]
pub extern "C" fn wasmloop_rt_write(
    alloc: Global,
    handle: &mut Handle,
    at: u32,
    bytes: &[u8],
) -> u32
    ensures { OnHeldResident handle.old.raw.value handle.new.raw.value result (Unit {0}) (λ a b. WritesMemory a at bytes.now result b) }
{
    on!(handle, alloc, held => write(&mut held, at, bytes))
}
