// What a module and the host call each other by name, found once.

ghost use Rattle.std.specs.Prelude.{◌≡◌, ◌<◌, ◌≤◌, length, All, IfSome};
ghost use Rattle.limits.specs.declared.TheConstants.{MAX_IMPORTS, MAX_FUNCTIONS};
ghost use Rattle.imports.specs.Linking.{IsKnown, IsCallable, IsEntry, AreCalls, Imports, entry_kept};

use crate::call::Call;
use crate::entry_point::EntryPoint;
use syntax::contents::Contents;

/// How many imports have their functions of the host kept. "uv" has fewer functions, and a linker imports each once.
pub(crate) const KEPT_CALLS: usize = 24;

/// What is kept of an entry that isn't there. No function has this index.
pub(crate) const NO_ENTRY: u16 = u16::MAX;

/// The function of the host behind an import, found by its name.
#[cold]
#[inline(never)]
pub(crate) fn call_of(contents: &Contents, import: usize) -> Call
    requires there { import < length contents.now.imports }
    requires known { All (IsKnown contents.now) contents.now.imports }
    ensures { Imports contents.now import result }
{
    let import = &contents.imports.as_slice()[import];
    Call::from_name(import.name.as_slice()).unwrap_or(Call::Now)
}

/// The functions of the host behind the first imports, in their order. What stands behind the last of them says nothing.
pub(crate) fn calls_of(contents: &Contents) -> [Call; KEPT_CALLS]
    requires { All (IsKnown contents.now) contents.now.imports }
    ensures { AreCalls contents.now result }
{
    let mut calls = [Call::Now; KEPT_CALLS];
    for at in 0..KEPT_CALLS.min(contents.imports.len()) {
        calls[at] = call_of(contents, at);
    }
    calls
}

/// The index of the function that is exported for the host under this name, where there is one. No two exports have
/// one name.
fn entry_of(contents: &Contents, entry: EntryPoint) -> Option<u32>
    requires { All (IsCallable contents.now) contents.now.exports }
    ensures { IsEntry contents.now entry result }
{
    for export in contents.exports.as_slice() {
        if export.name.as_slice() == entry.name().as_bytes() {
            return Some(export.index);
        }
    }
    None
}

/// An entry, or none, in two bytes.
fn keep_entry(entry: Option<u32>) -> u16
    requires { IfSome entry (λ index. index < NO_ENTRY) }
    ensures { entry_kept result ≡ entry }
{
    match entry {
        Some(index) => index as u16,
        None => NO_ENTRY,
    }
}

/// The entry under this name, or none, in two bytes.
pub(crate) fn find_entry(contents: &Contents, entry: EntryPoint) -> u16
    requires callable { All (IsCallable contents.now) contents.now.exports }
    requires few_imports { length contents.now.imports ≤ MAX_IMPORTS }
    requires few_functions { length contents.now.functions ≤ MAX_FUNCTIONS }
    ensures { IsEntry contents.now entry (entry_kept result) }
{
    keep_entry(entry_of(contents, entry))
}

/// The entry that is kept so.
pub(crate) fn kept_entry(kept: u16) -> Option<u32>
    ensures { result ≡ entry_kept kept }
{
    if kept == NO_ENTRY {
        return None;
    }
    Some(u32::from(kept))
}
