// What the indexes in a module name (WebAssembly Core 1.0, 3.1.2).

ghost use Rattle.std.specs.Prelude.{◌≡◌, slice_get, option_copied};
ghost use Rattle.valid.specs.Typing.{function_types, type_of_function};

use syntax::contents::{Contents, FuncType};

/// The type index of a function, where there is one. The imported functions come first.
#[inline]
pub fn type_index_of(contents: &Contents, func: u32) -> Option<u32>
    ensures { result ≡ slice_get (function_types contents.now) func }
{
    let imports = contents.imports.as_slice();
    let at = func as usize;
    if at < imports.len() {
        return Some(imports[at].type_index);
    }
    let func = contents.functions.get(at - imports.len())?;
    Some(func.type_index)
}

/// The type of this index, where there is one.
#[inline]
pub fn type_at(contents: &Contents, index: u32) -> Option<&FuncType>
    ensures { option_copied result ≡ slice_get contents.now.types index }
{
    contents.types.get(index as usize)
}

/// The type of a function, where there is one.
pub fn type_of_function(contents: &Contents, func: u32) -> Option<&FuncType>
    ensures { option_copied result ≡ type_of_function contents.now func }
{
    type_at(contents, type_index_of(contents, func)?)
}
