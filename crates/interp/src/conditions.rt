// What a call from outside asks of its caller.

ghost use Rattle.std.specs.Prelude.{◌≡◌, IsTrue, ◌↔◌};
ghost use Rattle.valid.specs.Typing.{type_of};
ghost use Rattle.reduction.specs.Configuration.{types_of};
ghost use Rattle.reduction.specs.Invoking.{TakesArguments};

use syntax::types::{ValType, Value};
use valid::{Valid, type_of_function};

/// Whether a value is of a type.
fn is_of(value: Value, value_type: ValType) -> bool
    ensures { IsTrue result ↔ (type_of value ≡ value_type) }
{
    match value {
        Value::I32(_) => value_type == ValType::I32,
        Value::I64(_) => value_type == ValType::I64,
    }
}

/// Whether values are of these types, in order.
fn are_of(values: &[Value], types: &[ValType]) -> bool
    ensures { IsTrue result ↔ (types_of values.now ≡ types.now) }
{
    if values.len() != types.len() {
        return false;
    }
    for (index, value) in values.iter().enumerate() {
        if !is_of(*value, types[index]) {
            return false;
        }
    }
    true
}

/// Whether a module has this function, and it takes these arguments.
pub fn takes_arguments(valid: &Valid, function: u32, args: &[Value]) -> bool
    ensures { IsTrue result ↔ TakesArguments valid.now.contents function args.now }
{
    match type_of_function(valid.contents(), function) {
        Some(found) => are_of(args, found.params.as_slice()),
        None => false,
    }
}
