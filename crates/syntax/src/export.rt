// The exports of a module by their names (WebAssembly Core 1.0, 2.5.10).

ghost use Rattle.std.specs.Prelude.{nat_eq, IfOk, IfSome};
ghost use Rattle.std.specs.Cmp.Lexicographic.{pointwise};
ghost use Rattle.indexmap.specs.IndexMap.{get_by};
ghost use Rattle.syntax.specs.Exporting.{IsFirstPlace, TellsPlaces};

use crate::contents::{ExternKind, ModuleExport};
use indexmap::IndexMap;
use std::alloc::{AllocError, Global};
use std::boxed::Box;

/// How many exports are few: among them a name is looked for one by one.
const FEW: usize = 8;

/// What an export names: its kind, and its index among the module's things of that kind.
#[derive(Clone, Copy, Debug, PartialEq, Eq)]
pub struct Export {
    pub kind: ExternKind,
    pub index: u32,
}

/// For each name the place of the first export that has it.
fn places_of(
    alloc: Global,
    exports: &[ModuleExport],
) -> Result<IndexMap<Vec<u8>, usize>, AllocError>
    ensures { IfOk result (λ places. TellsPlaces exports.now (λ name. get_by (λ key. pointwise nat_eq name key.items) places)) }
{
    let mut places = IndexMap::with_capacity(alloc, exports.len())?;
    for (place, export) in exports.iter().enumerate() {
        let name = export.name.as_slice();
        if !places.contains_key(name) {
            places.insert(Vec::from_slice(alloc, name)?, place)?;
        }
    }
    Ok(places)
}

/// For each name the place of the first export that has it, where there are more than a few.
pub(crate) fn places_of_many(
    alloc: Global,
    exports: &[ModuleExport],
) -> Result<Option<Box<IndexMap<Vec<u8>, usize>, Global>>, AllocError>
    ensures { IfOk result (λ many. IfSome many (λ places. TellsPlaces exports.now (λ name. get_by (λ key. pointwise nat_eq name key.items) places.value))) }
{
    if exports.len() <= FEW {
        return Ok(None);
    }
    let places = places_of(alloc, exports)?;
    Ok(Some(Box::new(alloc, places)?))
}

/// The place of the first export with this name, looked for one by one.
pub(crate) fn first_place(exports: &[ModuleExport], name: &[u8]) -> Option<usize>
    ensures { IsFirstPlace exports.now name.now result }
{
    for (place, export) in exports.iter().enumerate() {
        if export.name.as_slice() == name {
            return Some(place);
        }
    }
    None
}
