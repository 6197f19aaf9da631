// Calls of an instance by the numbers of its module's exports.

ghost use Rattle.std.specs.Prelude.{◌≡◌, ◌≤◌, ◌<◌, ◌⊎◌};
ghost use Rattle.limits.specs.declared.TheConstants.{MAX_DEPTH};
ghost use Rattle.wasmloop_c.specs.Calls.{ReadsHandle};
ghost use Rattle.wasmloop_c.specs.Instances.{CallsAt, CallsHeldAt, OnResident, OnStage, TellsExport, TellsNumber};

use crate::checked::CheckedLimits;
use crate::ended::CallEnded;
use crate::handle::{Handle, on};
use crate::instances::{CallLimits, call_function};
use crate::status::{KIND, NONE, OK, RANGE};
use crate::thing::{InstanceStage, Thing};
use imports::Linked;
use resident::{Resident, export_number};
use std::alloc::Global;

fn tell(linked: &Linked, name: &[u8], number: &mut u64) -> u32
    ensures { TellsNumber linked.now.contents name.now number.old number.new result }
{
    let Some(found) = export_number(linked.valid(), name) else {
        return NONE;
    };
    *number = found as u64;
    OK
}

fn tell_number(thing: &Thing, name: &[u8], number: &mut u64) -> u32
    ensures { TellsExport thing.now name.now number.old number.new result }
{
    let Thing::Module(linked) = thing else {
        return KIND;
    };
    tell(linked, name, number)
}

/// The number of the export that is the function with this name. Exports are counted from 0.
#[unsafe(no_mangle)]
pub extern "C" fn wasmloop_rt_export_number(
    alloc: Global,
    module: &mut Handle,
    name: &[u8],
    number: &mut u64,
) -> u32
    ensures { ReadsHandle module.old.raw.value module.new.raw.value result (number.new ≡ number.old) (λ t. TellsExport t name.now number.old number.new result) }
{
    on!(module, alloc, held => tell_number(&held, name, number))
}

#[tactic(auto, using(crate::proofs::Meant::meant))]
fn call_on(
    alloc: Global,
    resident: &mut Resident,
    number: u64,
    numbers: &[u64],
    limits: CheckedLimits,
    told: &mut CallEnded,
) -> u32
    ensures { CallsAt resident.old number numbers.now limits told.old told.new result resident.new }
{
    let Some((function, _)) = resident.function_at(number as usize) else {
        return NONE;
    };
    call_function(alloc, resident, function, numbers, limits, told)
}

fn call_stage(
    alloc: Global,
    stage: &mut InstanceStage,
    number: u64,
    numbers: &[u64],
    limits: CheckedLimits,
    told: &mut CallEnded,
) -> u32
    ensures { OnStage stage.old stage.new result (told.new ≡ told.old) (λ a b. CallsAt a number numbers.now limits told.old told.new result b) }
{
    let InstanceStage::Resident(resident) = stage else {
        return KIND;
    };
    call_on(alloc, resident, number, numbers, limits, told)
}

fn call(
    alloc: Global,
    thing: &mut Thing,
    number: u64,
    numbers: &[u64],
    limits: CheckedLimits,
    told: &mut CallEnded,
) -> u32
    ensures { OnResident thing.old thing.new result (told.new ≡ told.old) (λ a b. CallsAt a number numbers.now limits told.old told.new result b) }
{
    let Thing::Instance(stage, _) = thing else {
        return KIND;
    };
    call_stage(alloc, stage, number, numbers, limits, told)
}

/// Calls the function that the export of this number is. However it ends, the instance stays as it is then.
#[unsafe(no_mangle)]
pub extern "C" fn wasmloop_rt_call_at(
    alloc: Global,
    handle: &mut Handle,
    number: u64,
    numbers: &[u64],
    limits: &CallLimits,
    told: &mut CallEnded,
) -> u32
    ensures calls { (1 ≤ limits.now.depth) × (limits.now.depth ≤ MAX_DEPTH) → CallsHeldAt handle.old.raw.value handle.new.raw.value number numbers.now limits.now told.old told.new result }
    ensures range { (limits.now.depth < 1) ⊎ (MAX_DEPTH < limits.now.depth) → (result ≡ RANGE) × (handle.new ≡ handle.old) × (told.new ≡ told.old) }
{
    let Some(limits) = CheckedLimits::of(limits) else {
        return RANGE;
    };
    on!(handle, alloc, held => call(alloc, &mut held, number, numbers, limits, told))
}
