// A host that answers every import with -1.

ghost use Rattle.std.specs.Prelude.{◌≡◌, ◌≤◌, [], length, map, slice_get};
ghost use Rattle.valid.specs.Stack.{pushed};
ghost use Rattle.valid.specs.Typing.{type_of};
ghost use Rattle.reduction.specs.Run.{as_operands, IsImported};
ghost use Rattle.reduction.specs.Hosting.{Names, Answers};
ghost use Rattle.resident.specs.NoHost.{IsMinusOne, types_of_imports};

use instance::memory::Memory;
use interp::host::{Args, Host};
use syntax::types::{ValType, Value};
use valid::{Valid, type_at};

/// A host that answers every import of a module with -1, in the type of its result.
#[derive(Drop)]
pub struct NoHost<'a> {
    valid: &'a Valid,
}

impl<'a> NoHost<'a> {
    /// The host of this module.
    pub fn new(valid: &'a Valid) -> NoHost<'a>
        ensures same { result.valid ≡ valid.entry }
        ensures names { Names valid.entry.now.contents (types_of_imports valid.entry.now.contents) }
    {
        // by its contract the module is valid
        let _contents = valid.contents();
        NoHost { valid }
    }
}

/// -1 as the one result, where there is one.
fn minus_one(results: &[ValType]) -> Option<Value>
    requires { length results.now ≤ 1 }
    ensures value { IsMinusOne result }
    ensures typed { map type_of (as_operands result) ≡ pushed results.now [] }
{
    match results.first()? {
        ValType::I32 => Some(Value::I32(u32::MAX)),
        ValType::I64 => Some(Value::I64(u64::MAX)),
    }
}

/// The answer of an import.
pub(crate) fn answer(valid: &Valid, import: u32) -> Option<Value>
    requires { IsImported valid.now.contents import }
    ensures value { IsMinusOne result }
    ensures typed { Answers (slice_get (types_of_imports valid.now.contents) import) result }
    ensures names { Names valid.now.contents (types_of_imports valid.now.contents) }
{
    let contents = valid.contents();
    let import = contents.imports.get(import as usize)?;
    let func_type = type_at(contents, import.type_index)?;
    minus_one(func_type.results.as_slice())
}

impl Host for NoHost<'_> {
    ghost use Rattle.std.specs.Prelude.{◌≡◌};
    ghost use Rattle.resident.specs.NoHost.{AnswersMinusOne, types_of_imports};

    ghost types = { λ host. types_of_imports host.valid.now.contents };

    ghost moves = { λ old call new. AnswersMinusOne call × (new ≡ old) };

    ghost copied = { λ _. 0 };

    fn copied(&self) -> u64 {
        0
    }

    fn call(&mut self, import: u32, _args: &Args, _memory: &mut Memory) -> Option<Value> {
        answer(self.valid, import)
    }
}
