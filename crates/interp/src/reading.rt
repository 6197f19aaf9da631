// Values are read from slots and written to them.

ghost use Rattle.std.specs.Prelude.{◌≡◌, ◌≤◌, length, take};
ghost use Rattle.valid.specs.Segments.{number_in};
ghost use Rattle.instance.specs.Store.{value_of};
ghost use Rattle.engine.specs.Slots.{number};
ghost use Rattle.engine.specs.Reading.{IsSmall};
ghost use Rattle.interp.specs.Inner.Slots.ValuesRead.{typed_values};

use engine::low;
use syntax::types::{ValType, Value};

/// The number of a value, an i32 in the lower half.
pub fn number_of(value: Value) -> u64
    ensures number { result ≡ number_in value }
    ensures small { IsSmall value }
{
    match value {
        Value::I32(number) => u64::from(number),
        Value::I64(number) => number,
    }
}

/// The value of a type that a slot holds.
#[inline]
pub fn value_in(value_type: ValType, slot: u64) -> Value
    ensures { result ≡ value_of value_type (number value_type slot) }
{
    match value_type {
        ValType::I32 => Value::I32(low(slot)),
        ValType::I64 => Value::I64(slot),
    }
}

/// Reads the values of these types from slots into the first places.
pub fn read(types: &[ValType], slots: &[u64], places: &mut [Value])
    requires slots { length types.now ≤ length slots.now }
    requires places { length types.now ≤ length places.old }
    ensures read { take (length types.now) places.new ≡ typed_values types.now slots.now }
    ensures same { length places.new ≡ length places.old }
{
    for (index, value_type) in types.iter().enumerate() {
        places[index] = value_in(*value_type, slots[index]);
    }
}
