// How a call of an instance ended, and its arguments, in numbers.

ghost use Rattle.std.specs.Prelude.{◌≡◌, length, map, slice_get, true, false, Some, None, option_map, IfOk};
ghost use Rattle.wasmloop_c.specs.Calls.{copied};
ghost use Rattle.wasmloop_c.specs.Values.{typed, values_of, number_of_value, results_of, told_in, call_numbers};
ghost use Rattle.interp.specs.Lent.{ending_with, ended_with};

use crate::did::{numbers_of_bare, numbers_of_ending};
use events::ended::{BareEnded, BareEnding, Ended, Ending};
use limits::MAX_RESULTS;
use std::alloc::{AllocError, Global};
use syntax::types::{ValType, Value};

/// How a call ended.
#[repr(C)]
#[derive(Clone, Copy)]
pub struct CallEnded {
    /// 0 return, 1 trap, 2 depth, 3 spent.
    pub ending: u32,
    /// The trap's number, 1 to 7, or 0.
    pub trap: u32,
    /// How many results there are.
    pub results: u64,
    /// The fuel that it used.
    pub used: u64,
    /// The results, the first first, an i32 in the lower half; after them 0.
    pub result: [u64; MAX_RESULTS],
}

fn typed(value_type: ValType, number: u64) -> Option<Value>
    ensures { result ≡ typed value_type number }
{
    match value_type {
        ValType::I32 => {
            if number > u32::MAX as u64 {
                return None;
            }
            Some(Value::I32(number as u32))
        }
        ValType::I64 => Some(Value::I64(number)),
    }
}

/// Makes the numbers values of these types, in room for as many, where each is one of its type.
pub fn lay(types: &[ValType], numbers: &[u64], room: &mut [Value]) -> bool
    requires numbers { length numbers.now ≡ length types.now }
    requires room { length room.old ≡ length types.now }
    ensures laid { result ≡ true → values_of types.now numbers.now ≡ Some room.new }
    ensures others { result ≡ false → values_of types.now numbers.now ≡ None }
{
    for index in 0..types.len() {
        let value_type = types[index];
        let number = numbers[index];
        match typed(value_type, number) {
            Some(value) => room[index] = value,
            None => return false,
        }
    }
    true
}

/// Whether there are as many numbers as types.
#[tactic(auto, using(crate::proofs::ValuesRead::as_many))]
pub fn are_as_many(types: &[ValType], numbers: &[u64]) -> bool
    ensures many { result ≡ true → length numbers.now ≡ length types.now }
    ensures others { result ≡ false → values_of types.now numbers.now ≡ None }
{
    types.len() == numbers.len()
}

/// The values of these types that the numbers are, where each is one of its type.
pub fn values(
    alloc: Global,
    types: &[ValType],
    numbers: &[u64],
) -> Result<Option<Vec<Value>>, AllocError>
    ensures { IfOk result (λ made. option_map (λ v. v.items) made ≡ values_of types.now numbers.now) }
{
    if types.len() != numbers.len() {
        return Ok(None);
    }
    let mut values = Vec::new(alloc);
    values.resize(types.len(), Value::I32(0))?;
    if !lay(types, numbers, values.as_mut_slice()) {
        return Ok(None);
    }
    Ok(Some(values))
}

fn number(value: Value) -> u64
    ensures { result ≡ number_of_value value }
{
    match value {
        Value::I32(number) => number as u64,
        Value::I64(number) => number,
    }
}

fn number_at(values: &[Value], index: usize) -> Option<u64>
    ensures { result ≡ option_map number_of_value (slice_get values.now index) }
{
    Some(number(*values.get(index)?))
}

fn copy_numbers(values: &[Value], into: &mut [u64])
    ensures { into.new ≡ copied (map number_of_value values.now) into.old }
{
    for index in 0..into.len() {
        let Some(number) = number_at(values, index) else {
            return;
        };
        into[index] = number;
    }
}

fn results_of(ending: &Ending) -> &[Value]
    ensures { result.now ≡ results_of ending.now }
{
    match ending {
        Ending::Return(values) => values.as_slice(),
        _ => &[],
    }
}

/// The results of a call that ended so: those that were written, where it returned.
fn results_with(ending: BareEnding, written: &[Value]) -> &[Value]
    ensures { result.now ≡ results_of (ending_with ending written.now) }
{
    match ending {
        BareEnding::Return => written,
        _ => &[],
    }
}

impl CallEnded {
    /// Writes the ended call in numbers.
    pub fn write(&mut self, ended: &Ended)
        ensures { self.new ≡ call_numbers ended.now }
    {
        let numbers = numbers_of_ending(&ended.ending);
        self.put(numbers, ended.used, results_of(&ended.ending));
    }

    /// Writes in numbers a call that ended so, with these results where it returned.
    pub fn write_with(&mut self, ended: BareEnded, results: &[Value])
        ensures { self.new ≡ call_numbers (ended_with ended results.now) }
    {
        let numbers = numbers_of_bare(ended.ending);
        self.put(numbers, ended.used, results_with(ended.ending, results));
    }

    /// Writes an ending and its trap, the fuel that was used, and the results.
    fn put(&mut self, numbers: (u32, u32), used: u64, results: &[Value])
        ensures { self.new ≡ told_in numbers used results.now }
    {
        let (ending, trap) = numbers;
        self.ending = ending;
        self.trap = trap;
        self.results = results.len() as u64;
        self.used = used;
        self.result = [0; MAX_RESULTS];
        copy_numbers(results, &mut self.result);
    }
}
