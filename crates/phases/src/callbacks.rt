// The functions that a guest may name as callbacks.

ghost use Rattle.std.specs.Prelude.{◌≡◌, IfOk, map};
ghost use Rattle.instance.specs.Fresh.{IsFresh};
ghost use Rattle.phases.specs.Roster.{callback_in, callbacks_of, takes_one_number};

use instance::state::Instance;
use std::alloc::{AllocError, Global};
use syntax::contents::{Contents, FuncType};
use syntax::types::ValType;
use valid::type_of_function;

fn takes_one_number(found: &FuncType) -> bool
    ensures { result ≡ takes_one_number found.now.params found.now.results }
{
    found.params.as_slice() == [ValType::I32].as_slice() && found.results.len() == 0
}

/// The function of a table's element, if it can be a callback: it takes one i32 and gives nothing.
fn callback_in(contents: &Contents, element: Option<u32>) -> Option<u32>
    ensures { result ≡ callback_in contents.now element }
{
    let function = element?;
    let found = type_of_function(contents, function)?;
    takes_one_number(found).then_some(function)
}

/// What callbacks name, at each index of a new instance's table.
pub fn callbacks_of(
    alloc: Global,
    contents: &Contents,
    instance: &Instance,
) -> Result<Vec<Option<u32>>, AllocError>
    requires { IsFresh contents.now instance.now.state }
    ensures { IfOk result (λ callbacks. callbacks.items ≡ callbacks_of contents.now) }
{
    let table = instance.state.table();
    let mut callbacks = Vec::with_capacity(alloc, table.len())?;
    for element in table {
        callbacks.push(callback_in(contents, *element))?;
    }
    Ok(callbacks)
}
