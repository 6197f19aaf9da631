// What can be read of an instance: of one that is kept, of a loop's, and of one between two slices of a call.

ghost use Rattle.std.specs.Prelude.{◌≡◌, option_map};
ghost use Rattle.wasmloop_c.specs.Calls.{ReadsHandle};
ghost use Rattle.wasmloop_c.specs.Inspecting.{store_in, store_of, StandsIn, Stands, ReadsSize, ReadsMemory, CopiesMemory, ReadsGlobal, TellsGlobal};
ghost use Rattle.wasmloop_c.specs.Values.{value_numbers};

use crate::handle::{Handle, on};
use crate::status::{KIND, NONE, OK, RANGE};
use crate::thing::{InstanceStage, Thing, resting_in};
use imports::Linked;
use instance::state::State;
use resident::exported_global;
use std::alloc::Global;
use syntax::types::Value;

/// A number, with its type.
#[repr(C)]
#[derive(Clone, Copy)]
pub struct Number {
    /// 1 for an i32, 2 for an i64.
    pub value_type: u32,
    /// 0.
    pub zero: u32,
    /// An i32 in the lower half.
    pub number: u64,
}

fn numbers(value: Value) -> Number
    ensures { result ≡ value_numbers value }
{
    let (value_type, number) = match value {
        Value::I32(number) => (1, number as u64),
        Value::I64(number) => (2, number),
    };
    Number {
        value_type,
        zero: 0,
        number,
    }
}

fn of_stage(stage: &InstanceStage) -> Option<(&Linked, &State)>
    ensures store { option_map (λ s. (s.0.now, s.1.now)) result ≡ store_in stage.now }
    ensures stands { StandsIn stage.now }
{
    match stage {
        InstanceStage::Resident(resident) => Some((resident.linked(), resident.store())),
        InstanceStage::Calling(calling) => Some((calling.linked(), calling.store())),
        InstanceStage::Gone => None,
    }
}

/// The module and the state of an instance, as it stands.
fn inspected(thing: &Thing) -> Option<(&Linked, &State)>
    ensures store { option_map (λ s. (s.0.now, s.1.now)) result ≡ store_of thing.now }
    ensures stands { Stands thing.now }
{
    match thing {
        Thing::Instance(stage, _) => of_stage(stage),
        Thing::Loop(_, _) => {
            let core = resting_in(thing)?;
            Some((core.linked(), core.store()))
        }
        _ => None,
    }
}

fn size(thing: &Thing, count: &mut u64) -> u32
    ensures { ReadsSize thing.now count.old count.new result }
{
    let Some((_, state)) = inspected(thing) else {
        return KIND;
    };
    *count = state.memory().len() as u64;
    OK
}

/// How many bytes the memory has.
#[unsafe(no_mangle)]
pub extern "C" fn wasmloop_rt_size(alloc: Global, handle: &mut Handle, count: &mut u64) -> u32
    ensures { ReadsHandle handle.old.raw.value handle.new.raw.value result (count.new ≡ count.old) (λ t. ReadsSize t count.old count.new result) }
{
    on!(handle, alloc, held => size(&held, count))
}

fn copy(state: &State, at: u32, into: &mut [u8]) -> u32
    ensures { CopiesMemory state.now at into.old into.new result }
{
    if state.memory().read_into(at as usize, into) {
        OK
    } else {
        RANGE
    }
}

fn read(thing: &Thing, at: u32, into: &mut [u8]) -> u32
    ensures { ReadsMemory thing.now at into.old into.new result }
{
    let Some((_, state)) = inspected(thing) else {
        return KIND;
    };
    copy(state, at, into)
}

/// Copies bytes of the memory, as many as there is room for.
#[unsafe(no_mangle)]
pub extern "C" fn wasmloop_rt_read(
    alloc: Global,
    handle: &mut Handle,
    at: u32,
    into: &mut [u8],
) -> u32
    ensures { ReadsHandle handle.old.raw.value handle.new.raw.value result (into.new ≡ into.old) (λ t. ReadsMemory t at into.old into.new result) }
{
    on!(handle, alloc, held => read(&held, at, into))
}

fn tell(linked: &Linked, state: &State, name: &[u8], told: &mut Number) -> u32
    ensures { TellsGlobal linked.now state.now name.now told.old told.new result }
{
    let Some(value) = exported_global(linked.valid(), state, name) else {
        return NONE;
    };
    *told = numbers(value);
    OK
}

fn global(thing: &Thing, name: &[u8], told: &mut Number) -> u32
    ensures { ReadsGlobal thing.now name.now told.old told.new result }
{
    let Some((linked, state)) = inspected(thing) else {
        return KIND;
    };
    tell(linked, state, name, told)
}

/// The value of the global that the module exports under a name.
#[unsafe(no_mangle)]
pub extern "C" fn wasmloop_rt_global(
    alloc: Global,
    handle: &mut Handle,
    name: &[u8],
    told: &mut Number,
) -> u32
    ensures { ReadsHandle handle.old.raw.value handle.new.raw.value result (told.new ≡ told.old) (λ t. ReadsGlobal t name.now told.old told.new result) }
{
    on!(handle, alloc, held => global(&held, name, told))
}
