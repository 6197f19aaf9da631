// How many things the indexes of a module and of a function can name.

ghost use Rattle.std.specs.Prelude.{◌≡◌, ◌≤◌, ◌<◌, ◌^◌, IfSome, cond};
ghost use Rattle.sentences.specs.Defects.{count_in_module, count_in_function, parameters_of};

use crate::defect::{Dangling, IndexSpace};
use syntax::contents::{Contents, Func};
use valid::type_at;

/// An index of this space, if it names none of so many things.
pub fn dangling(space: IndexSpace, index: u32, count: usize) -> Option<Dangling>
    ensures same { IfSome result (λ d. (d.space ≡ space) × (d.index ≡ index) × (d.count ≡ count)) }
    ensures past { IfSome result (λ d. d.count ≤ d.index) }
{
    if count <= index as usize {
        return Some(Dangling {
            space,
            index,
            count,
        });
    }
    None
}

fn count_if(is_there: bool) -> usize
    ensures { result ≡ cond is_there 1 0 }
{
    if is_there { 1 } else { 0 }
}

/// How many things of the module an index of this space can name.
pub fn count_in_module(contents: &Contents, space: IndexSpace) -> usize
    ensures { result ≡ count_in_module contents.now space }
{
    match space {
        IndexSpace::Types => contents.types.len(),
        IndexSpace::Functions => {
            contents.imports.as_slice().len() + contents.functions.as_slice().len()
        }
        IndexSpace::Tables => count_if(contents.table.is_some()),
        IndexSpace::Memories => count_if(contents.memory.is_some()),
        IndexSpace::Globals => contents.globals.len(),
        IndexSpace::Locals | IndexSpace::Labels => 0,
    }
}

fn parameters_of(contents: &Contents, func: &Func) -> usize
    ensures count { result ≡ parameters_of contents.now func.now }
    ensures few { result < 2 ^ 63 }
{
    match type_at(contents, func.type_index) {
        Some(func_type) => func_type.params.as_slice().len(),
        None => 0,
    }
}

/// The same in a function, at an instruction where there are so many labels.
pub fn count_in_function(
    contents: &Contents,
    func: &Func,
    labels: usize,
    space: IndexSpace,
) -> usize
    ensures { result ≡ count_in_function contents.now func.now labels space }
{
    match space {
        IndexSpace::Locals => parameters_of(contents, func) + func.locals.as_slice().len(),
        IndexSpace::Labels => labels,
        _ => count_in_module(contents, space),
    }
}
