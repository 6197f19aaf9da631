// What of a module doesn't fit the host.

ghost use Rattle.std.specs.Prelude.{◌↔◌, All, IsTrue, MatchOption};
ghost use Rattle.imports.specs.Linking.{IsKnown, IsCallable, IsLinked};
ghost use Rattle.imports.specs.Sites.{FirstUnknown, FirstUncallable, IsMisfit};

use crate::linked::{check_import, is_callable};
use syntax::contents::{Contents, Import};
use valid::Valid;

/// The part of a valid module that doesn't fit the host.
#[derive(Clone, Copy, Debug, PartialEq, Eq)]
pub enum UnlinkedPart {
    /// The import with this number.
    Import(usize),
    /// The export with this number.
    Export(usize),
    /// The element segments.
    Elements,
    /// The data segments.
    Data,
}

/// Whether the import is a function of "uv" with its type.
fn is_known(contents: &Contents, import: &Import) -> bool
    ensures { IsTrue result ↔ IsKnown contents.now import.now }
{
    check_import(contents, import).is_ok()
}

fn first_unknown(contents: &Contents) -> Option<usize>
    ensures { MatchOption result (All (IsKnown contents.now) contents.now.imports) (FirstUnknown contents.now) }
{
    for (number, import) in contents.imports.as_slice().iter().enumerate() {
        if !is_known(contents, import) {
            return Some(number);
        }
    }
    None
}

fn first_uncallable(contents: &Contents) -> Option<usize>
    ensures { MatchOption result (All (IsCallable contents.now) contents.now.exports) (FirstUncallable contents.now) }
{
    for (number, export) in contents.exports.as_slice().iter().enumerate() {
        if !is_callable(contents, export) {
            return Some(number);
        }
    }
    None
}

/// The first part for which `link` refuses the module; nothing where it takes it.
pub fn refused_at(valid: &Valid) -> Option<UnlinkedPart>
    ensures { MatchOption result (IsLinked valid.now.contents) (IsMisfit valid.now.contents) }
{
    let contents = valid.contents();
    if let Some(number) = first_unknown(contents) {
        return Some(UnlinkedPart::Import(number));
    }
    if let Some(number) = first_uncallable(contents) {
        return Some(UnlinkedPart::Export(number));
    }
    if !valid.elements_fit() {
        return Some(UnlinkedPart::Elements);
    }
    if !valid.data_fits() {
        return Some(UnlinkedPart::Data);
    }
    None
}
