// The arguments of a call, from words of the command line.

ghost use Rattle.std.specs.Prelude.{◌≡◌, map, string_bytes, IfOk, IfSome};
ghost use Rattle.valid.specs.Typing.{type_of};
ghost use Rattle.running.specs.Arguments.{SpellsValue, AllSpell};

use crate::failure::Failure;
use sentences::Mismatch;
use std::alloc::Global;
use syntax::types::{ValType, Value};
use words::{decimal, small_decimal};

/// The value of this type that a word spells, if it spells one.
fn value_of(value_type: ValType, word: &str) -> Option<Value>
    ensures typed { IfSome result (λ value. type_of value ≡ value_type) }
    ensures spelled { IfSome result (SpellsValue word.now) }
{
    match value_type {
        ValType::I32 => Some(Value::I32(small_decimal(word)?)),
        ValType::I64 => Some(Value::I64(decimal(word)?)),
    }
}

/// The values of these types that the words spell, one each.
pub fn values<'a>(
    alloc: Global,
    types: &[ValType],
    words: &'a [String],
) -> Result<Vec<Value>, Failure<'a>>
    ensures typed { IfOk result (λ values. map type_of values.items ≡ types.now) }
    ensures spelled { IfOk result (λ values. AllSpell (map string_bytes words.now) values.items) }
{
    if types.len() != words.len() {
        return Err(Failure::Arguments(Mismatch::count(alloc, types, words.len())));
    }
    let mut values = Vec::with_capacity(alloc, types.len())?;
    for index in 0..types.len() {
        let value_type = types[index];
        let word = words[index].as_str();
        let Some(value) = value_of(value_type, word) else {
            return Err(Failure::Arguments(Mismatch::Word {
                number: index + 1,
                value_type,
                word,
            }));
        };
        values.push(value)?;
    }
    Ok(values)
}
