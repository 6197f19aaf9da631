// Whether a function is of a type.

ghost use Rattle.std.specs.Prelude.{◌≡◌, Some, slice_get};
ghost use Rattle.valid.specs.Typing.{type_of_function};
ghost use Rattle.valid.specs.SameTypes.{same_type};

use crate::indexes::{type_at, type_index_of};
use syntax::contents::{Contents, FuncType};
use syntax::types::are_same;

/// Whether both types are the same.
fn is_same_type(found: &FuncType, wanted: &FuncType) -> bool
    ensures { result ≡ same_type (Some found.now) (Some wanted.now) }
{
    are_same(found.params.as_slice(), wanted.params.as_slice())
        && are_same(found.results.as_slice(), wanted.results.as_slice())
}

/// Whether a function is of the type of this index: both types are there, and they are the same.
#[inline]
pub fn is_of_type(contents: &Contents, func: u32, type_index: u32) -> bool
    ensures { result ≡ same_type (type_of_function contents.now func) (slice_get contents.now.types type_index) }
{
    let Some(index) = type_index_of(contents, func) else {
        return false;
    };
    let Some(found) = type_at(contents, index) else {
        return false;
    };
    if index == type_index {
        return true;
    }
    match type_at(contents, type_index) {
        None => false,
        Some(wanted) => is_same_type(found, wanted),
    }
}
