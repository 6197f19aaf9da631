// The type of a function that a module exports.

ghost use Rattle.std.specs.Prelude.{◌≡◌, map, slice_get, option_map};
ghost use Rattle.wasmloop_c.specs.Calls.{ReadsHandle, copied};
ghost use Rattle.wasmloop_c.specs.Signatures.{type_number, type_numbers, TellsFunction, TellsType};

use crate::handle::{Handle, on};
use crate::status::{KIND, NONE, OK};
use crate::thing::Thing;
use imports::Linked;
use limits::MAX_RESULTS;
use resident::exported_function;
use std::alloc::Global;
use syntax::contents::FuncType;
use syntax::types::ValType;

/// The type of a function: of each parameter and each result 1 for an i32, 2 for an i64; after them 0.
#[repr(C)]
#[derive(Clone, Copy)]
pub struct Signature {
    /// How many parameters there are, at most 256.
    pub params: u64,
    /// How many results there are, at most 16.
    pub results: u64,
    pub param: [u8; 256],
    pub result: [u8; MAX_RESULTS],
}

fn number(value_type: ValType) -> u8
    ensures { result ≡ type_number value_type }
{
    match value_type {
        ValType::I32 => 1,
        ValType::I64 => 2,
    }
}

fn number_at(types: &[ValType], index: usize) -> Option<u8>
    ensures { result ≡ option_map type_number (slice_get types.now index) }
{
    Some(number(*types.get(index)?))
}

fn copy_numbers(types: &[ValType], into: &mut [u8])
    ensures { into.new ≡ copied (map type_number types.now) into.old }
{
    for index in 0..into.len() {
        let Some(number) = number_at(types, index) else {
            return;
        };
        into[index] = number;
    }
}

pub fn numbers(func_type: &FuncType) -> Signature
    ensures { result ≡ type_numbers func_type.now }
{
    let params = func_type.params.as_slice();
    let results = func_type.results.as_slice();
    let mut param = [0; 256];
    let mut result = [0; MAX_RESULTS];
    copy_numbers(params, &mut param);
    copy_numbers(results, &mut result);
    Signature {
        params: params.len() as u64,
        results: results.len() as u64,
        param,
        result,
    }
}

fn tell(linked: &Linked, name: &[u8], told: &mut Signature) -> u32
    ensures { TellsType linked.now.contents name.now told.old told.new result }
{
    let Some((_function, func_type)) = exported_function(linked.valid(), name) else {
        return NONE;
    };
    *told = numbers(func_type);
    OK
}

fn function(thing: &Thing, name: &[u8], told: &mut Signature) -> u32
    ensures { TellsFunction thing.now name.now told.old told.new result }
{
    let Thing::Module(linked) = thing else {
        return KIND;
    };
    tell(linked, name, told)
}

/// The type of the function that a module exports under a name.
#[unsafe(no_mangle)]
pub extern "C" fn wasmloop_rt_function(
    alloc: Global,
    module: &mut Handle,
    name: &[u8],
    told: &mut Signature,
) -> u32
    ensures { ReadsHandle module.old.raw.value module.new.raw.value result (told.new ≡ told.old) (λ t. TellsFunction t name.now told.old told.new result) }
{
    on!(module, alloc, held => function(&held, name, told))
}
